//! The check of a flow by a map from participants to their kinds, for whoever has memory.

ghost use Rattle.std.specs.Prelude.{◌≡◌, ◌∷◌, [], IfOk, OnOk};
ghost use Rattle.flow_model.specs.Check as spec;
ghost use Rattle.sw_base.specs.Refusals.{first_at, refused};
ghost use Rattle.flow_model.specs.Kinds.{clash_by, clashes_by, kind_at};
ghost use Rattle.flow_model.specs.Kinds.{Has, Joins, kinds_of_entries, kinds_of_groups};

use crate::check::{check_doubles, check_main, check_names, check_sizes, is_kind};
use crate::error::FlowError;
use crate::flow::{Entry, Flow, Group};
use std::alloc::{AllocError, Global};
use std::collections::BTreeMap;
use sw_participant::Kind;

fn add_first<'a>(kinds: &mut BTreeMap<&'a str, Kind>, entry: &'a Entry) -> Result<(), AllocError>
    ensures { OnOk result (Joins kinds.old kinds.new (kinds_of_entries (entry.now ∷ []))) }
{
    let name = entry.participant.as_str();
    if kinds.contains_key(name) {
        return Ok(());
    }
    kinds.insert(name, entry.kind)?;
    Ok(())
}

fn add_entries<'a>(
    kinds: &mut BTreeMap<&'a str, Kind>,
    entries: &'a [Entry],
) -> Result<(), AllocError>
    ensures { OnOk result (Joins kinds.old kinds.new (kinds_of_entries entries.now)) }
{
    for entry in entries {
        add_first(kinds, entry)?;
    }
    Ok(())
}

fn add_groups<'a>(
    kinds: &mut BTreeMap<&'a str, Kind>,
    groups: &'a [Group],
) -> Result<(), AllocError>
    ensures { OnOk result (Joins kinds.old kinds.new (kinds_of_groups groups.now)) }
{
    for group in groups {
        add_entries(kinds, group.entries.as_slice())?;
    }
    Ok(())
}

// Each participant's kind at its first place.
fn first_kinds(alloc: Global, groups: &[Group]) -> Result<BTreeMap<&str, Kind>, AllocError>
    ensures { IfOk result (λ m. Has m (kinds_of_groups groups.now)) }
{
    let mut kinds = BTreeMap::new(alloc);
    add_groups(&mut kinds, groups)?;
    Ok(kinds)
}

fn check_kind(
    kinds: &BTreeMap<&str, Kind>,
    group: usize,
    index: usize,
    entry: &Entry,
) -> Result<(), FlowError>
    ensures { result ≡ refused (clash_by (kind_at kinds.now) group index entry.now) }
{
    if is_kind(entry.kind, kinds.get(entry.participant.as_str()).copied()) {
        Ok(())
    } else {
        Err(FlowError::KindClash(group, index))
    }
}

fn check_kinds_of(
    kinds: &BTreeMap<&str, Kind>,
    group: usize,
    entries: &[Entry],
) -> Result<(), FlowError>
    ensures { result ≡ refused (first_at (clash_by (kind_at kinds.now) group) 0 entries.now) }
{
    for (index, entry) in entries.iter().enumerate() {
        check_kind(kinds, group, index, entry)?;
    }
    Ok(())
}

fn check_kinds_by(kinds: &BTreeMap<&str, Kind>, groups: &[Group]) -> Result<(), FlowError>
    ensures { result ≡ refused (clashes_by (kind_at kinds.now) groups.now) }
{
    for (number, group) in groups.iter().enumerate() {
        check_kinds_of(kinds, number, group.entries.as_slice())?;
    }
    Ok(())
}

// As the comparison of kinds without a map; the map has each participant's kind at its first place.
fn check_kinds(kinds: &BTreeMap<&str, Kind>, groups: &[Group]) -> Result<(), FlowError>
    requires { Has kinds.now (kinds_of_groups groups.now) }
    ensures { result ≡ refused (spec.clashes groups.now) }
{
    check_kinds_by(kinds, groups)
}

// As the check without a map; the map has the same kinds.
#[tactic(auto, unfolding(crate::specs::Check::first_fault))]
fn check_with(flow: &Flow, kinds: &BTreeMap<&str, Kind>) -> Result<(), FlowError>
    requires { Has kinds.now (kinds_of_groups flow.now.groups) }
    ensures { result ≡ refused (spec.first_fault flow.now) }
{
    check_sizes(flow)?;
    let groups = flow.groups.as_slice();
    check_names(groups)?;
    check_doubles(groups)?;
    check_main(groups)?;
    check_kinds(kinds, groups)
}

impl Flow {
    ghost use Rattle.std.specs.Prelude.{◌≡◌, None, IfOk, OnErr};
    ghost use Rattle.flow_model.specs.Check.{first_fault};
    ghost use Rattle.sw_base.specs.Refusals.{refused};

    /// Checks as [`Flow::check`] does, but with a map from participants to kinds, so that n entries take
    /// n × log n steps. The outer error is out of memory, which is reported only for a flow without a
    /// fault.
    pub fn check_by_map(&self, alloc: Global) -> Result<Result<(), FlowError>, AllocError>
        ensures checked { IfOk result (λ checked. checked ≡ refused (first_fault self.now)) }
        ensures memory { OnErr result (first_fault self.now ≡ None) }
    {
        match first_kinds(alloc, self.groups.as_slice()) {
            Ok(kinds) => Ok(check_with(self, &kinds)),
            Err(error) => match self.check() {
                Ok(()) => Err(error),
                fault => Ok(fault),
            },
        }
    }
}
