//! What a change puts into the shelf and the advices.

ghost use Rattle.std.specs.Prelude.{◌≡◌, None, IfSome, OnOk, OnErr};
ghost use Rattle.tx_history.specs.Keys.{look, put_new, put_place};

use std::alloc::AllocError;
use std::collections::BTreeMap;
use sw_participant::Bytes;
use tx_history::WaitingContext;

// Puts an advice in or takes it out, if the change says so.
fn put_advice(
    advices: &mut BTreeMap<(u64, usize), Bytes>,
    change: Option<((u64, usize), Option<Bytes>)>,
) -> Result<(), AllocError>
    ensures put { OnOk result (advices.new.entries ≡ put_place change advices.old.entries) }
    ensures kept { OnErr result (advices.new.entries ≡ advices.old.entries) }
{
    // That the places rise is known from the number of entries.
    let _entries = advices.len();
    match change {
        None => Ok(()),
        Some((place, None)) => {
            advices.remove(&place);
            Ok(())
        }
        Some((place, Some(advice))) => match advices.insert(place, advice) {
            Ok(_) => Ok(()),
            Err(_) => Err(AllocError),
        },
    }
}

/// Puts both or neither: a context that the shelf does not have yet, and an advice.
pub fn put_both(
    shelf: &mut BTreeMap<u64, WaitingContext>,
    advices: &mut BTreeMap<(u64, usize), Bytes>,
    shelved: Option<(u64, WaitingContext)>,
    change: Option<((u64, usize), Option<Bytes>)>,
) -> Result<(), AllocError>
    requires { IfSome shelved (λ new. look new.0 shelf.old.entries ≡ None) }
    ensures shelf { OnOk result (shelf.new.entries ≡ put_new shelved shelf.old.entries) }
    ensures advices { OnOk result (advices.new.entries ≡ put_place change advices.old.entries) }
    ensures shelf_kept { OnErr result (shelf.new.entries ≡ shelf.old.entries) }
    ensures advices_kept { OnErr result (advices.new.entries ≡ advices.old.entries) }
{
    let Some((id, waiting)) = shelved else {
        return put_advice(advices, change);
    };
    let Ok(_) = shelf.insert(id, waiting) else {
        return Err(AllocError);
    };
    let Ok(()) = put_advice(advices, change) else {
        shelf.remove(&id);
        return Err(AllocError);
    };
    Ok(())
}
