//! What the feeder does: it reads the source, and puts what it gives into the intake.

ghost use Rattle.std.specs.Prelude.{◌≡◌, ◌++◌, ◌∷◌, [], List, true, IfNone, IfOk};
ghost use Rattle.sw_context.specs.Pairs.{Pairs};
ghost use Rattle.tx_pool.specs.Feeding.{FeedsOne, IsFed};

use crate::shared::Shared;
use std::marker::{Model, PhantomData};
use std::sync::Wait;
use sw_participant::{Caller, NoMemory};
use tx_engine::Offer;
use tx_intake::{OfferPutter, Source};
use tx_locked::{Fault, Run};

/// A source with the putter of the run's intake, and whether all that it has was given and put.
/// Contracts see only the latter.
#[derive(Drop)]
pub(crate) struct Fed<K: Run, O: Source> {
    source: O,
    putter: OfferPutter,
    all_put: bool,
    of: PhantomData<K>,
}

impl<K: Run, O: Source> Model for Fed<K, O> {
    ghost use Rattle.std.specs.Prelude.{Bool};
    ghost use Rattle.tx_pool.specs.Feeding.{IsFed};

    ghost Value = { Bool };

    ghost view = { λ f. f.all_put };

    ghost invariant = { λ f. IsFed K.intake K.given K.ends_with (O.given f.source)
        (O.ended f.source) f.putter.intake f.putter.passed f.all_put };
}

impl<K: Run, O: Source> Fed<K, O> {
    // Of this source and this putter, with whether all was put.
    fn new(source: O, putter: OfferPutter, all_put: bool) -> Fed<K, O>
        requires { IsFed K.intake K.given K.ends_with (O.given source) (O.ended source)
            putter.intake putter.passed all_put }
    {
        Fed {
            source,
            putter,
            all_put,
            of: PhantomData,
        }
    }

    /// Source and putter, and whether all was put.
    pub(crate) fn into_parts(self) -> (O, OfferPutter, bool)
        ensures { IsFed K.intake K.given K.ends_with (O.given result.0) (O.ended result.0)
            result.1.intake result.1.passed result.2 }
    {
        let Fed {
            source,
            putter,
            all_put,
            of: _,
        } = self;
        (source, putter, all_put)
    }
}

// The next context, prepared to be offered; `None` if the source has ended.
fn next_offer<O: Source>(source: &mut O) -> Result<Option<Offer>, NoMemory>
    ensures gives { IfOk result (λ next. FeedsOne (O.given source.old) (O.given source.new) next) }
    ensures ends { IfOk result (λ next. IfNone next (O.ended source.new ≡ true)) }
    ensures whole { IfOk result (λ next. IfNone next
        (O.ends_with source.old (O.given source.new))) }
    ensures plan { (all : List Pairs) → O.ends_with source.new all → O.ends_with source.old all }
{
    match source.next()? {
        Some(context) => Ok(Some(Offer::new(&context)?)),
        None => Ok(None),
    }
}

// Puts the offer as soon as there is room. Returns false if the run is given up before that.
fn put<K: Run, C: Caller, R: Wait>(
    rt: &R,
    shared: &Shared<K, C>,
    putter: &mut OfferPutter,
    offer: Offer,
) -> bool
    requires { putter.old.intake ≡ K.intake }
    ensures queue { putter.new.intake ≡ K.intake }
    ensures put { result ≡ true → putter.new.passed ≡ putter.old.passed ++ offer ∷ [] }
{
    let mut offer = offer;
    for _ in rt.forever() {
        // Offers are got only under the lock. So if there is no room while it is held, there is none
        // until something has changed.
        let locked = shared.locked.lock(rt);
        if locked.is_stopped() {
            return false;
        }
        match shared.intake.intake.put(rt, putter, offer) {
            Ok(()) => {
                drop(locked);
                shared.offers.notify_one();
                return true;
            }
            Err(back) => {
                offer = back;
                let locked = shared.room.wait(rt, locked);
                drop(locked);
            }
        }
    }
    false
}

/// Puts what the source gives until it ends, and then tells the sessions so.
pub(crate) fn feed<K: Run, C: Caller, O: Source, R: Wait>(
    rt: &R,
    shared: &Shared<K, C>,
    source: O,
    putter: OfferPutter,
) -> Fed<K, O>
    requires queue { putter.intake ≡ K.intake }
    requires none { putter.passed ≡ [] }
    requires given { O.given source ≡ K.given }
    requires plan { (all : List Pairs) → O.ends_with source all → K.ends_with all }
{
    let mut source = source;
    let mut putter = putter;
    for _ in rt.forever() {
        match next_offer(&mut source) {
            Ok(Some(offer)) => {
                if !put(rt, shared, &mut putter, offer) {
                    break;
                }
            }
            Ok(None) => {
                shared.locked.lock(rt).end();
                shared.offers.notify_all();
                return Fed::new(source, putter, true);
            }
            Err(NoMemory) => {
                shared.stop(rt, Fault::OutOfMemory);
                break;
            }
        }
    }
    Fed::new(source, putter, false)
}
