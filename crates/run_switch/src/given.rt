//! The transactions that ended above an id.

ghost use Rattle.std.specs.Prelude.{◌≡◌, OnOk};
ghost use Rattle.sw_stats.specs.Tallies.{tallied};
ghost use Rattle.run_responses.specs.Responses.{above, last_id};

use crate::error::ServeError;
use std::alloc::Global;
use std::collections::BTreeMap;
use std::ops::Bound;
use sw_context::Context;
use sw_stats::Counts;

/// Counts the contexts of the transactions with ids above this one. Out of memory is the only error.
pub(crate) fn count_above(
    alloc: Global,
    counts: &mut Counts,
    ended: &BTreeMap<u64, Context>,
    id: u64,
) -> Result<(), ServeError>
    ensures { OnOk result (counts.new ≡ tallied counts.old (above id ended.now.entries)) }
{
    for (_, context) in ended.range((Bound::Excluded(id), Bound::Unbounded)) {
        counts.count(alloc, context)?;
    }
    Ok(())
}

/// The greatest id of the transactions that ended, or this one if that is not above it.
pub(crate) fn last_above(ended: &BTreeMap<u64, Context>, id: u64) -> u64
    ensures { result ≡ last_id id (above id ended.now.entries) }
{
    match ended.last_key_value() {
        Some((last, _)) if *last > id => *last,
        _ => id,
    }
}
