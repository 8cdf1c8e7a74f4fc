//! What a checked flow is: the tests, each of which gives the first fault of its kind.

ghost use Rattle.std.specs.Prelude.{◌≡◌, ◌≤◌, length, Some, None, false};
ghost use Rattle.flow_model.specs.Check as spec;
ghost use Rattle.sw_base.specs.Refusals.{first_at, refused};

use crate::error::FlowError;
use crate::flow::{Entry, Flow, Group};
use sw_context::is_name;
use sw_participant::Kind;

const MAX_GROUPS: usize = 256;

const MAX_ENTRIES: usize = 256;

const MAX_ENTRIES_IN_ALL: usize = 16_384;

const MAX_RETRIES: u8 = 100;

fn has_large_group(groups: &[Group]) -> bool
    ensures { result ≡ spec.has_large_group groups.now }
{
    groups
        .iter()
        .any(|group| group.entries.as_slice().len() > MAX_ENTRIES)
}

// Over at most 256 groups of at most 256 entries, so the sum is small.
fn count_entries(groups: &[Group]) -> usize
    requires no_large_group { spec.has_large_group groups.now ≡ false }
    requires few { length groups.now ≤ 256 }
    ensures { result ≡ spec.entries_in_all groups.now }
{
    let mut total = 0;
    for group in groups {
        total += group.entries.as_slice().len();
    }
    total
}

fn is_large(groups: &[Group], flow: &Flow) -> bool
    requires { groups.now ≡ flow.now.groups }
    ensures { result ≡ spec.is_large flow.now }
{
    if groups.len() > MAX_GROUPS || has_large_group(groups) {
        return true;
    }
    count_entries(groups) > MAX_ENTRIES_IN_ALL
}

pub(crate) fn check_sizes(flow: &Flow) -> Result<(), FlowError>
    ensures { result ≡ refused (spec.size_fault flow.now) }
{
    if is_large(flow.groups.as_slice(), flow) {
        return Err(FlowError::TooLarge);
    }
    if flow.retries > MAX_RETRIES {
        return Err(FlowError::BadRetries);
    }
    Ok(())
}

fn check_name(name: &str, group: usize, index: Option<usize>) -> Result<(), FlowError>
    ensures { result ≡ refused (spec.bad_name group index name.now) }
{
    if is_name(name) {
        Ok(())
    } else {
        Err(FlowError::BadName(group, index))
    }
}

fn check_participants(group: usize, entries: &[Entry]) -> Result<(), FlowError>
    ensures { result ≡ refused (first_at (spec.bad_entry group) 0 entries.now) }
{
    for (index, entry) in entries.iter().enumerate() {
        check_name(entry.participant.as_str(), group, Some(index))?;
    }
    Ok(())
}

fn check_names_of(number: usize, group: &Group) -> Result<(), FlowError>
    ensures { result ≡ refused (spec.bad_group number group.now) }
{
    check_name(group.name.as_str(), number, None)?;
    check_participants(number, group.entries.as_slice())
}

pub(crate) fn check_names(groups: &[Group]) -> Result<(), FlowError>
    ensures { result ≡ refused (first_at spec.bad_group 0 groups.now) }
{
    for (number, group) in groups.iter().enumerate() {
        check_names_of(number, group)?;
    }
    Ok(())
}

fn is_named(name: &str, groups: &[Group]) -> bool
    ensures { result ≡ spec.is_named name.now groups.now }
{
    groups.iter().any(|group| group.name.as_str() == name)
}

pub(crate) fn check_doubles(groups: &[Group]) -> Result<(), FlowError>
    ensures { result ≡ refused (first_at (spec.double_group groups.now) 0 groups.now) }
{
    for (number, group) in groups.iter().enumerate() {
        if is_named(group.name.as_str(), &groups[..number]) {
            return Err(FlowError::DoubleGroup(number));
        }
    }
    Ok(())
}

pub(crate) fn check_main(groups: &[Group]) -> Result<(), FlowError>
    ensures { result ≡ refused (spec.no_main groups.now) }
{
    if is_named("main", groups) {
        Ok(())
    } else {
        Err(FlowError::NoMain)
    }
}

fn kind_in(name: &str, entries: &[Entry]) -> Option<Kind>
    ensures { result ≡ spec.kind_in name.now entries.now }
{
    for entry in entries {
        if entry.participant.as_str() == name {
            return Some(entry.kind);
        }
    }
    None
}

fn first_kind(name: &str, groups: &[Group]) -> Option<Kind>
    ensures { result ≡ spec.first_kind name.now groups.now }
{
    for group in groups {
        if let Some(kind) = kind_in(name, group.entries.as_slice()) {
            return Some(kind);
        }
    }
    None
}

pub(crate) fn is_kind(kind: Kind, first: Option<Kind>) -> bool
    ensures { result ≡ spec.is_kind kind first }
{
    match first {
        Some(first) => kind == first,
        None => false,
    }
}

fn check_kind(groups: &[Group], group: usize, index: usize, entry: &Entry) -> Result<(), FlowError>
    ensures { result ≡ refused (spec.clash groups.now group index entry.now) }
{
    if is_kind(entry.kind, first_kind(entry.participant.as_str(), groups)) {
        Ok(())
    } else {
        Err(FlowError::KindClash(group, index))
    }
}

fn check_kinds_in(groups: &[Group], group: usize, entries: &[Entry]) -> Result<(), FlowError>
    ensures { result ≡ refused (first_at (spec.clash groups.now group) 0 entries.now) }
{
    for (index, entry) in entries.iter().enumerate() {
        check_kind(groups, group, index, entry)?;
    }
    Ok(())
}

fn check_kinds_of(groups: &[Group], number: usize, group: &Group) -> Result<(), FlowError>
    ensures { result ≡ refused (spec.clash_in groups.now number group.now) }
{
    check_kinds_in(groups, number, group.entries.as_slice())
}

fn check_kinds(groups: &[Group]) -> Result<(), FlowError>
    ensures { result ≡ refused (spec.clashes groups.now) }
{
    for (number, group) in groups.iter().enumerate() {
        check_kinds_of(groups, number, group)?;
    }
    Ok(())
}

impl Flow {
    ghost use Rattle.std.specs.Prelude.{◌≡◌};
    ghost use Rattle.flow_model.specs.Check.{first_fault};
    ghost use Rattle.sw_base.specs.Refusals.{refused};

    /// Accepts exactly the flows without a fault. Other flows are refused for their first fault, tested
    /// in the order size, retries, names (a group's, then its entries', group by group), doubled groups,
    /// the group `main`, kinds. Takes no memory, so comparing the kinds of n entries takes n × n steps.
    #[tactic(auto, unfolding(crate::specs::Check::first_fault))]
    pub fn check(&self) -> Result<(), FlowError>
        ensures { result ≡ refused (first_fault self.now) }
    {
        check_sizes(self)?;
        let groups = self.groups.as_slice();
        check_names(groups)?;
        check_doubles(groups)?;
        check_main(groups)?;
        check_kinds(groups)
    }
}
