//! The tests of the rules: at an entry, in a group, at a route.

ghost use Rattle.std.specs.Prelude.{◌≡◌, ◌≤◌, length};
ghost use Rattle.sw_rules.specs.Rules as spec;

use crate::flows::{comes_after, comes_before, has, is_main, is_placed_before, picks_groups};
use crate::rule::Rule;
use crate::set_up::{SetUp, SetUpRoute};
use flow_model::{Entry, Flow, Group};

// Whether the participant asks one of the hosts.
fn asks(set_up: &SetUp, name: &str) -> bool
    ensures { result ≡ spec.asks set_up.now name.now }
{
    set_up
        .hosts
        .as_slice()
        .iter()
        .any(|host| host.query.as_str() == name)
}

// Whether it asks one that the switch stands in for.
fn needs_stand_in(set_up: &SetUp, name: &str) -> bool
    ensures { result ≡ spec.needs_stand_in set_up.now name.now }
{
    set_up
        .hosts
        .as_slice()
        .iter()
        .any(|host| host.stand_in && host.query.as_str() == name)
}

/// The participants that the switch has whatever its hosts.
pub(crate) fn own_names() -> &'static [&'static str] {
    &[
        "check", "limits", "route", "reverse", "standin", "forward", "respond",
    ]
}

fn is_own(name: &str) -> bool
    ensures { result ≡ spec.is_own name.now }
{
    name == "check"
        || name == "limits"
        || name == "route"
        || name == "reverse"
        || name == "standin"
        || name == "forward"
        || name == "respond"
}

fn has_query(set_up: &SetUp, entries: &[Entry]) -> bool
    ensures { result ≡ spec.has_query set_up.now entries.now }
{
    entries
        .iter()
        .any(|entry| asks(set_up, entry.participant.as_str()))
}

fn is_picked(set_up: &SetUp, name: &str) -> bool
    ensures { result ≡ spec.is_picked set_up.now name.now }
{
    set_up
        .routes
        .as_slice()
        .iter()
        .any(|route| route.group.as_str() == name)
}

fn is_group(groups: &[Group], name: &str) -> bool
    ensures { result ≡ spec.is_group groups.now name.now }
{
    groups.iter().any(|group| group.name.as_str() == name)
}

// Whether requests are answered by a host through this group.
fn answers_requests(set_up: &SetUp, group: &Group) -> bool
    ensures { result ≡ spec.answers_requests set_up.now group.now }
{
    is_picked(set_up, group.name.as_str())
        || is_main(group) && !has(group.entries.as_slice(), "route")
}

// Whether hosts are asked from this group.
fn leads_to_hosts(set_up: &SetUp, group: &Group) -> bool
    ensures { result ≡ spec.leads_to_hosts set_up.now group.now }
{
    let entries = group.entries.as_slice();
    has(entries, "route") || has_query(set_up, entries)
}

/// Whether the entry of an index in a group breaks a rule.
pub(crate) fn entry_breaks(
    rule: Rule,
    flow: &Flow,
    set_up: &SetUp,
    group: &Group,
    index: usize,
    entry: &Entry,
) -> bool
    requires { index ≤ length group.now.entries }
    ensures { result ≡ spec.entry_breaks rule flow.now set_up.now group.now index entry.now }
{
    let name = entry.participant.as_str();
    match rule {
        Rule::UnknownParticipant => !is_own(name) && !asks(set_up, name),
        Rule::NoSelector => name == "route" && !entry.kind.selector,
        Rule::NotAbortAware => name == "respond" && !entry.kind.abort_aware,
        Rule::PlacedTwice => is_placed_before(flow, group, index, name),
        Rule::AfterRespond => {
            is_main(group) && has(&group.entries.as_slice()[..index], "respond")
        }
        Rule::NoCheck => asks(set_up, name) && !comes_before(flow, group, index, "check"),
        Rule::NoReverse => asks(set_up, name) && !comes_before(flow, group, index, "reverse"),
        Rule::NoStandIn => {
            needs_stand_in(set_up, name) && !comes_after(flow, group, index, "standin")
        }
        _ => false,
    }
}

/// Whether a group breaks a rule.
pub(crate) fn group_breaks(rule: Rule, set_up: &SetUp, group: &Group) -> bool
    ensures { result ≡ spec.group_breaks rule set_up.now group.now }
{
    let entries = group.entries.as_slice();
    match rule {
        Rule::NoQuery => answers_requests(set_up, group) && !has_query(set_up, entries),
        Rule::NoForward => {
            is_main(group) && leads_to_hosts(set_up, group) && !has(entries, "forward")
        }
        Rule::NoRespond => is_main(group) && !has(entries, "respond"),
        _ => false,
    }
}

/// Whether a route breaks a rule, which it does only if the flow asks for routes.
pub(crate) fn route_breaks(rule: Rule, flow: &Flow, route: &SetUpRoute) -> bool
    ensures { result ≡ spec.route_breaks rule flow.now route.now }
{
    let group = route.group.as_str();
    match rule {
        Rule::UnknownGroup => picks_groups(flow) && !is_group(flow.groups.as_slice(), group),
        Rule::PicksMain => picks_groups(flow) && group == "main",
        _ => false,
    }
}
