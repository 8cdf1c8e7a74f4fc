//! What the rules read of a configuration.

use sw_participant::{Sequence, Text};

/// A host of a configuration.
pub struct SetUpHost {
    /// The participant that asks it, `query_NAME`.
    pub query: Text,
    /// Whether the switch stands in for it where it is silent.
    pub stand_in: bool,
}

// Written out, so that no caller proves again how its parts are dropped.
impl Drop for SetUpHost {
    fn drop(self) {
        let SetUpHost {
            query: _,
            stand_in: _,
        } = self;
    }
}

/// A route of a configuration.
pub struct SetUpRoute {
    /// What the card number begins with.
    pub prefix: Text,
    /// The group of the flow that it picks.
    pub group: Text,
}

// Written out, so that no caller proves again how its parts are dropped.
impl Drop for SetUpRoute {
    fn drop(self) {
        let SetUpRoute {
            prefix: _,
            group: _,
        } = self;
    }
}

/// What the rules read of a configuration.
pub struct SetUp {
    pub hosts: Sequence<SetUpHost>,
    pub routes: Sequence<SetUpRoute>,
    /// The names of the rules whose breach is allowed.
    pub allow: Sequence<Text>,
}

// Written out, so that no caller proves again how its parts are dropped.
impl Drop for SetUp {
    fn drop(self) {
        let SetUp {
            hosts: _,
            routes: _,
            allow: _,
        } = self;
    }
}
