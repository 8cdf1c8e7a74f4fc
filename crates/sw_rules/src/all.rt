//! The search for breaches.

ghost use Rattle.std.specs.Prelude.{◌≡◌, ◌++◌, ◌≤◌, [], IfOk, OnOk, length};
ghost use Rattle.sw_rules.specs.Breaches as spec;
ghost use Rattle.sw_rules.specs.Checked.{IsSetUpChecked};

use crate::breach::{At, Breach};
use crate::rule::Rule;
use crate::set_up::{SetUp, SetUpRoute};
use crate::tests_of::{entry_breaks, group_breaks, route_breaks};
use flow_model::{Entry, Flow, Group};
use std::alloc::{AllocError, Global};

// Adds the breach of a rule at a place, if the rule is broken there and its breach is not allowed.
fn add_if(
    found: &mut Vec<Breach>,
    set_up: &SetUp,
    is_broken: bool,
    rule: Rule,
    at: At,
) -> Result<(), AllocError>
    ensures { OnOk result (found.new.items
        ≡ found.old.items ++ spec.breach_if (spec.is_counted set_up.now is_broken rule) rule at) }
{
    if is_broken && !rule.is_among(set_up.allow.as_slice()) {
        found.push(Breach { rule, at })?;
    }
    Ok(())
}

// The number of a group in its flow, and the index of an entry in that group.
#[derive(Clone, Copy)]
struct EntryPlace {
    group: usize,
    index: usize,
}

fn add_of_entry(
    found: &mut Vec<Breach>,
    flow: &Flow,
    set_up: &SetUp,
    group: &Group,
    place: EntryPlace,
    entry: &Entry,
) -> Result<(), AllocError>
    requires { place.index ≤ length group.now.entries }
    ensures { OnOk result (found.new.items ≡ found.old.items
        ++ spec.entry_breaches flow.now set_up.now group.now place.group place.index entry.now) }
{
    let at = At::Entry(place.group, place.index);
    for rule in Rule::all() {
        let is_broken = entry_breaks(*rule, flow, set_up, group, place.index, entry);
        add_if(found, set_up, is_broken, *rule, at)?;
    }
    Ok(())
}

fn add_of_entries(
    found: &mut Vec<Breach>,
    flow: &Flow,
    set_up: &SetUp,
    group: &Group,
    number: usize,
) -> Result<(), AllocError>
    ensures { OnOk result (found.new.items ≡ found.old.items
        ++ spec.all_entry_breaches flow.now set_up.now group.now number) }
{
    for (index, entry) in group.entries.as_slice().iter().enumerate() {
        let place = EntryPlace {
            group: number,
            index,
        };
        add_of_entry(found, flow, set_up, group, place, entry)?;
    }
    Ok(())
}

fn add_of_group(
    found: &mut Vec<Breach>,
    set_up: &SetUp,
    number: usize,
    group: &Group,
) -> Result<(), AllocError>
    ensures { OnOk result (found.new.items ≡ found.old.items
        ++ spec.own_breaches set_up.now number group.now) }
{
    for rule in Rule::all() {
        let is_broken = group_breaks(*rule, set_up, group);
        add_if(found, set_up, is_broken, *rule, At::Group(number))?;
    }
    Ok(())
}

fn add_of_groups(found: &mut Vec<Breach>, flow: &Flow, set_up: &SetUp) -> Result<(), AllocError>
    ensures { OnOk result (found.new.items ≡ found.old.items
        ++ spec.all_at (spec.group_breaches flow.now set_up.now) 0 flow.now.groups) }
{
    for (number, group) in flow.groups.as_slice().iter().enumerate() {
        add_of_group(found, set_up, number, group)?;
        add_of_entries(found, flow, set_up, group, number)?;
    }
    Ok(())
}

fn add_of_route(
    found: &mut Vec<Breach>,
    flow: &Flow,
    set_up: &SetUp,
    number: usize,
    route: &SetUpRoute,
) -> Result<(), AllocError>
    ensures { OnOk result (found.new.items ≡ found.old.items
        ++ spec.route_breaches flow.now set_up.now number route.now) }
{
    for rule in Rule::all() {
        let is_broken = route_breaks(*rule, flow, route);
        add_if(found, set_up, is_broken, *rule, At::Route(number))?;
    }
    Ok(())
}

fn add_of_routes(found: &mut Vec<Breach>, flow: &Flow, set_up: &SetUp) -> Result<(), AllocError>
    ensures { OnOk result (found.new.items ≡ found.old.items
        ++ spec.all_at (spec.route_breaches flow.now set_up.now) 0 set_up.now.routes) }
{
    for (number, route) in set_up.routes.as_slice().iter().enumerate() {
        add_of_route(found, flow, set_up, number, route)?;
    }
    Ok(())
}

/// The breaches of a set-up that its configuration does not allow: of each group and its entries, then of each route. There
/// is none exactly if the set-up is checked.
pub fn breaches(alloc: Global, flow: &Flow, set_up: &SetUp) -> Result<Vec<Breach>, AllocError>
    ensures found { IfOk result (λ found. found.items ≡ spec.breaches flow.now set_up.now) }
    ensures checked { IfOk result (λ found.
        found.items ≡ [] → IsSetUpChecked flow.now set_up.now) }
    ensures refused { IfOk result (λ found.
        IsSetUpChecked flow.now set_up.now → found.items ≡ []) }
{
    let mut found = Vec::new(alloc);
    add_of_groups(&mut found, flow, set_up)?;
    add_of_routes(&mut found, flow, set_up)?;
    Ok(found)
}
