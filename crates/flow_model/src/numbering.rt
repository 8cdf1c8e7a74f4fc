//! The participants of a flow, numbered from 0 in the order of first appearance.

ghost use Rattle.std.specs.Prelude.{◌≡◌};
ghost use Rattle.flow_model.specs.Places.{number_in};

use sw_participant::{Kind, Text};

/// A participant of a flow, with its marks.
pub struct Part {
    pub name: Text,
    pub kind: Kind,
}

// Written out, so that no caller proves again how its parts are dropped.
impl Drop for Part {
    fn drop(self) {
        let Part { name: _, kind: _ } = self;
    }
}

/// The number of the participant of this name, or how many participants there are.
pub fn number_of(parts: &[Part], name: &str) -> usize
    ensures { result ≡ number_in parts.now name.now }
{
    for (number, part) in parts.iter().enumerate() {
        if part.name.as_str() == name {
            return number;
        }
    }
    parts.len()
}
