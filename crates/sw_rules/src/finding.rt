//! Breaches as a person reads them.

ghost use Rattle.std.specs.Prelude.{◌≡◌, [], IfOk, map};
ghost use Rattle.sw_rules.specs.Breaches as spec;
ghost use Rattle.sw_rules.specs.Checked.{IsSetUpChecked};
ghost use Rattle.sw_rules.specs.Named.{finding_of, holder_at, name_at, plain};

use crate::all::breaches;
use crate::breach::{At, Breach};
use crate::names::nearest;
use crate::rule::Rule;
use crate::set_up::SetUp;
use crate::tests_of::own_names;
use flow_model::Flow;
use std::alloc::{AllocError, Global};
use std::fmt;
use sw_participant::Text;

/// A breach with the names of what stands at its place. Its text does not name the file.
pub struct Finding {
    pub breach: Breach,
    /// The name of the group; of a route what the card number begins with.
    pub holder: Text,
    /// The participant of the entry, or the group that the route picks.
    pub name: Text,
    /// For an unknown name, the one that was probably meant.
    pub nearest: Option<Text>,
}

// Written out, so that no caller proves again how its parts are dropped.
impl Drop for Finding {
    fn drop(self) {
        let Finding {
            breach: _,
            holder: _,
            name: _,
            nearest: _,
        } = self;
    }
}

// The name of what holds the place of a breach.
fn holder_at<'a>(flow: &'a Flow, set_up: &'a SetUp, at: At) -> &'a str
    ensures { result.now ≡ holder_at flow.now set_up.now at }
{
    match at {
        At::Entry(group, _) | At::Group(group) => match flow.groups.as_slice().get(group) {
            Some(group) => group.name.as_str(),
            None => "",
        },
        At::Route(number) => match set_up.routes.as_slice().get(number) {
            Some(route) => route.prefix.as_str(),
            None => "",
        },
    }
}

// The name that stands at the place of a breach.
fn name_at<'a>(flow: &'a Flow, set_up: &'a SetUp, at: At) -> &'a str
    ensures { result.now ≡ name_at flow.now set_up.now at }
{
    match at {
        At::Entry(group, index) => match flow.groups.as_slice().get(group) {
            Some(group) => match group.entries.as_slice().get(index) {
                Some(entry) => entry.participant.as_str(),
                None => "",
            },
            None => "",
        },
        At::Group(group) => match flow.groups.as_slice().get(group) {
            Some(group) => group.name.as_str(),
            None => "",
        },
        At::Route(number) => match set_up.routes.as_slice().get(number) {
            Some(route) => route.group.as_str(),
            None => "",
        },
    }
}

// The participants that the switch has with these hosts.
fn known_names(alloc: Global, set_up: &SetUp) -> Result<Vec<&str>, AllocError> {
    let mut names = Vec::new(alloc);
    for name in own_names() {
        names.push(*name)?;
    }
    for host in set_up.hosts.as_slice() {
        names.push(host.query.as_str())?;
    }
    Ok(names)
}

// The groups of the flow.
fn group_names(alloc: Global, flow: &Flow) -> Result<Vec<&str>, AllocError> {
    let mut names = Vec::new(alloc);
    for group in flow.groups.as_slice() {
        names.push(group.name.as_str())?;
    }
    Ok(names)
}

// The one of some names that is nearest to a name.
fn nearest_of(alloc: Global, name: &str, names: &[&str]) -> Result<Option<Text>, AllocError> {
    let Some(index) = nearest(alloc, name, names)? else {
        return Ok(None);
    };
    Ok(Some(Text::from_str(alloc, names[index])?))
}

// The name that was probably meant where a rule is broken by an unknown one.
fn meant(
    alloc: Global,
    flow: &Flow,
    set_up: &SetUp,
    rule: Rule,
    name: &str,
) -> Result<Option<Text>, AllocError> {
    match rule {
        Rule::UnknownParticipant => {
            nearest_of(alloc, name, known_names(alloc, set_up)?.as_slice())
        }
        Rule::UnknownGroup => nearest_of(alloc, name, group_names(alloc, flow)?.as_slice()),
        _ => Ok(None),
    }
}

fn finding_of(
    alloc: Global,
    flow: &Flow,
    set_up: &SetUp,
    breach: Breach,
) -> Result<Finding, AllocError>
    ensures { IfOk result (λ f. plain f ≡ finding_of flow.now set_up.now breach) }
{
    let name = name_at(flow, set_up, breach.at);
    Ok(Finding {
        breach,
        holder: Text::from_str(alloc, holder_at(flow, set_up, breach.at))?,
        name: Text::from_str(alloc, name)?,
        nearest: meant(alloc, flow, set_up, breach.rule, name)?,
    })
}

/// The breaches of a set-up that its configuration does not allow, in the order of the flow and then of the routes. There is
/// none exactly if the set-up is checked.
pub fn findings(alloc: Global, flow: &Flow, set_up: &SetUp) -> Result<Vec<Finding>, AllocError>
    ensures found { IfOk result (λ found. map plain found.items
        ≡ map (finding_of flow.now set_up.now) (spec.breaches flow.now set_up.now)) }
    ensures checked { IfOk result (λ found.
        found.items ≡ [] → IsSetUpChecked flow.now set_up.now) }
    ensures refused { IfOk result (λ found.
        IsSetUpChecked flow.now set_up.now → found.items ≡ []) }
{
    let broken = breaches(alloc, flow, set_up)?;
    let mut found = Vec::new(alloc);
    for breach in broken.as_slice() {
        found.push(finding_of(alloc, flow, set_up, *breach)?)?;
    }
    Ok(found)
}

impl Finding {
    /// Whether what is wrong stands in the flow file, and not in the configuration.
    pub fn is_of_flow(&self) -> bool {
        !matches!(self.breach.at, At::Route(_))
    }

    // Writes where the breach is.
    fn write_place<W: fmt::Write>(&self, f: &mut fmt::Formatter<W>) -> fmt::Result {
        let holder = self.holder.as_str();
        match self.breach.at {
            At::Entry(_, index) => write!(f, "group {holder}, entry {index}"),
            At::Group(_) => write!(f, "group {holder}"),
            At::Route(number) => write!(f, "route {number} (prefix {holder})"),
        }
    }

    // Writes what is wrong with an entry, and what is expected.
    fn write_of_entry<W: fmt::Write>(&self, f: &mut fmt::Formatter<W>) -> fmt::Result {
        let name = self.name.as_str();
        match self.breach.rule {
            Rule::UnknownParticipant => write!(
                f,
                "unknown participant {name}; expected check, limits, route, reverse, standin, forward, respond, or \
                    query_NAME for a host of the configuration"
            ),
            Rule::NoSelector => f.write_str(
                "route is not a selector; expected selector = true, so that its groups run",
            ),
            Rule::NotAbortAware => f.write_str(
                "respond is not abort-aware; expected abort_aware = true, so that a declined request gets a response",
            ),
            Rule::PlacedTwice => write!(
                f,
                "{name} has an earlier place on the same way; expected one place in this group and main together"
            ),
            Rule::AfterRespond => write!(
                f,
                "{name} comes after respond; expected respond as the last entry"
            ),
            Rule::NoCheck => write!(
                f,
                "no check before {name}; expected one, in main before route"
            ),
            Rule::NoReverse => write!(
                f,
                "no reverse before {name}; expected one, so that an approval can be reversed"
            ),
            _ => write!(
                f,
                "no standin after {name}; expected one, or standin = false of the host in the configuration"
            ),
        }
    }

    // Writes what is wrong with a group or a route, and what is expected.
    fn write_of_group<W: fmt::Write>(&self, f: &mut fmt::Formatter<W>) -> fmt::Result {
        let name = self.name.as_str();
        match self.breach.rule {
            Rule::NoQuery => f.write_str(
                "no host is asked; expected query_NAME for a host of the configuration",
            ),
            Rule::NoForward => f.write_str(
                "no forward; expected one, so that the issuers get advices and reversals",
            ),
            Rule::NoRespond => f.write_str("no respond; expected it as the last entry"),
            Rule::UnknownGroup => write!(f, "unknown group {name}; expected a group of the flow"),
            _ => f.write_str("it picks main, in which route is; expected another group"),
        }
    }
}

impl fmt::Display for Finding {
    fn fmt<W: fmt::Write>(&self, f: &mut fmt::Formatter<W>) -> fmt::Result {
        self.write_place(f)?;
        f.write_str(": ")?;
        match self.breach.at {
            At::Entry(..) => self.write_of_entry(f)?,
            _ => self.write_of_group(f)?,
        }
        if let Some(near) = &self.nearest {
            write!(f, "; the nearest is {}", near.as_str())?;
        }
        write!(f, " ({})", self.breach.rule)
    }
}
