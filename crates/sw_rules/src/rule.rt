//! The rules and their names.

ghost use Rattle.std.specs.Prelude.{◌≡◌};
ghost use Rattle.sw_rules.specs.Spelling as spec;

use std::fmt;
use sw_participant::Text;

/// A rule of set-ups, by its breach.
#[derive(Clone, Copy)]
pub enum Rule {
    /// An entry names a participant that the switch does not have: the run would be refused.
    UnknownParticipant,
    /// `route` is not marked as a selector: the groups that it picks would not run, and no issuer be asked.
    NoSelector,
    /// `respond` is not abort-aware: a declined request would get no response.
    NotAbortAware,
    /// A participant has a second place in its group, or a place in a group beside one in `main`: it would be prepared
    /// twice for a request.
    PlacedTwice,
    /// An entry of `main` comes after `respond`: the response would not have what it decides.
    AfterRespond,
    /// `check` does not come before a query: a request without its fields would go to the host, and `standin` would pass
    /// it over.
    NoCheck,
    /// `reverse` does not come before a query: what the host approved could not be reversed.
    NoReverse,
    /// No `standin` comes after a query whose host the switch stands in for: a request of a silent host would be answered
    /// with 00, although nobody approved it.
    NoStandIn,
    /// A group that a route picks has no query, or `main` has neither `route` nor a query: authorizations would be
    /// answered with 00 without a host.
    NoQuery,
    /// `main` has no `forward`: an issuer would not learn what the switch approved in its place, nor of a reversal.
    NoForward,
    /// `main` has no `respond`: no request would get a response.
    NoRespond,
    /// A route picks a group that the flow does not have: its cards would be answered with 00 without a host.
    UnknownGroup,
    /// A route picks `main`, in which `route` is: the transaction would not come to its end.
    PicksMain,
}

impl Rule {
    /// All rules, in the order in which a place is tested.
    pub fn all() -> &'static [Rule]
        ensures { result.now ≡ spec.rules }
    {
        &[
            Rule::UnknownParticipant,
            Rule::NoSelector,
            Rule::NotAbortAware,
            Rule::PlacedTwice,
            Rule::AfterRespond,
            Rule::NoCheck,
            Rule::NoReverse,
            Rule::NoStandIn,
            Rule::NoQuery,
            Rule::NoForward,
            Rule::NoRespond,
            Rule::UnknownGroup,
            Rule::PicksMain,
        ]
    }

    /// The rule as a configuration names it.
    pub fn as_str(self) -> &'static str
        ensures { result.now ≡ spec.spelling self }
    {
        match self {
            Rule::UnknownParticipant => "unknown-participant",
            Rule::NoSelector => "no-selector",
            Rule::NotAbortAware => "not-abort-aware",
            Rule::PlacedTwice => "placed-twice",
            Rule::AfterRespond => "after-respond",
            Rule::NoCheck => "no-check",
            Rule::NoReverse => "no-reverse",
            Rule::NoStandIn => "no-stand-in",
            Rule::NoQuery => "no-query",
            Rule::NoForward => "no-forward",
            Rule::NoRespond => "no-respond",
            Rule::UnknownGroup => "unknown-group",
            Rule::PicksMain => "picks-main",
        }
    }

    /// Whether the rule is one of these names.
    pub fn is_among(self, names: &[Text]) -> bool
        ensures { result ≡ spec.is_among names.now self }
    {
        let own = self.as_str();
        names.iter().any(|name| name.as_str() == own)
    }
}

impl fmt::Display for Rule {
    fn fmt<W: fmt::Write>(&self, f: &mut fmt::Formatter<W>) -> fmt::Result {
        f.write_str(self.as_str())
    }
}

// Whether a rule has this name.
fn is_rule(name: &str) -> bool
    ensures { result ≡ spec.is_rule name.now }
{
    Rule::all().iter().any(|rule| rule.as_str() == name)
}

/// The index of the first of these names that no rule has.
pub fn unknown_rule(names: &[Text]) -> Option<usize>
    ensures { result ≡ spec.unknown_from 0 names.now }
{
    for (index, name) in names.iter().enumerate() {
        if !is_rule(name.as_str()) {
            return Some(index);
        }
    }
    None
}
