//! Who is placed where in a flow, and who comes before and after whom.

ghost use Rattle.std.specs.Prelude.{◌≡◌, ◌+◌, ◌≤◌, drop, length};
ghost use Rattle.sw_rules.specs.Flows as spec;

use flow_model::{Entry, Flow, Group};

/// Whether one of the entries is of the participant.
pub(crate) fn has(entries: &[Entry], name: &str) -> bool
    ensures { result ≡ spec.has entries.now name.now }
{
    entries
        .iter()
        .any(|entry| entry.participant.as_str() == name)
}

pub(crate) fn is_main(group: &Group) -> bool
    ensures { result ≡ spec.is_main group.now }
{
    group.name.as_str() == "main"
}

// The entries of the group of this name.
fn entries_in<'a>(groups: &'a [Group], name: &str) -> &'a [Entry]
    ensures { result.now ≡ spec.entries_in groups.now name.now }
{
    for group in groups {
        if group.name.as_str() == name {
            return group.entries.as_slice();
        }
    }
    &[]
}

/// The entries of the group with which a transaction starts.
pub(crate) fn main_of(flow: &Flow) -> &[Entry]
    ensures { result.now ≡ spec.main_of flow.now }
{
    entries_in(flow.groups.as_slice(), "main")
}

/// Whether the flow picks groups by routes.
pub(crate) fn picks_groups(flow: &Flow) -> bool
    ensures { result ≡ spec.picks_groups flow.now }
{
    has(main_of(flow), "route")
}

fn index_of(entries: &[Entry], name: &str) -> usize
    ensures index { result ≡ spec.index_of entries.now name.now }
    ensures bound { result ≤ length entries.now }
{
    for (index, entry) in entries.iter().enumerate() {
        if entry.participant.as_str() == name {
            return index;
        }
    }
    entries.len()
}

// The entries after that of an index.
fn after(entries: &[Entry], index: usize) -> &[Entry]
    ensures { result.now ≡ drop (index + 1) entries.now }
{
    if index < entries.len() {
        &entries[index + 1..]
    } else {
        &[]
    }
}

/// Whether the participant is prepared before the entry of an index of the group, on the way through main.
pub(crate) fn comes_before(flow: &Flow, group: &Group, index: usize, name: &str) -> bool
    requires { index ≤ length group.now.entries }
    ensures { result ≡ spec.comes_before flow.now group.now index name.now }
{
    if has(&group.entries.as_slice()[..index], name) {
        return true;
    }
    let main = main_of(flow);
    !is_main(group) && has(&main[..index_of(main, "route")], name)
}

/// Whether the participant is prepared after that entry.
pub(crate) fn comes_after(flow: &Flow, group: &Group, index: usize, name: &str) -> bool
    ensures { result ≡ spec.comes_after flow.now group.now index name.now }
{
    if has(after(group.entries.as_slice(), index), name) {
        return true;
    }
    let main = main_of(flow);
    !is_main(group) && has(after(main, index_of(main, "route")), name)
}

/// Whether the participant has an earlier place in the group, or a place in main beside that in another group.
pub(crate) fn is_placed_before(flow: &Flow, group: &Group, index: usize, name: &str) -> bool
    requires { index ≤ length group.now.entries }
    ensures { result ≡ spec.is_placed_before flow.now group.now index name.now }
{
    if has(&group.entries.as_slice()[..index], name) {
        return true;
    }
    !is_main(group) && has(main_of(flow), name)
}
