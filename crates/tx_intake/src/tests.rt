//! What passes an intake, in one thread and from one to another, and what a list gives. The order
//! in which it came is seen in the history of an engine that it was offered to.

ghost use Rattle.std.specs.Prelude.{◌≡◌};

use crate::{IntakeError, Listed, OfferGetter, OfferIntake, OfferPutter, Source};
use flow_asm::assemble;
use flow_model::{Flow, Group};
use std::alloc::Global;
use std::sync::Wait;
use std::test::*;
use std::thread;
use std::thread::Threads;
use sw_context::Context;
use sw_participant::{Kind, Sequence};
use tx_engine::{Engine, Offer};
use tx_history::{Event, JournalView};

/// How many offers pass from one thread to the other.
const COUNT: usize = 300;

fn numbered(alloc: Global, number: usize) -> Result<Context, Fail> {
    let mut context = Context::new(alloc);
    let text = format!(in alloc; "{number}")?;
    context.put("number", text.as_bytes())?;
    Ok(context)
}

// An engine of one session, in which this many offers have memory.
fn opened(alloc: Global, offers: usize) -> Result<Engine, Fail> {
    let mut groups = Vec::new(alloc);
    groups.push(Group::of(alloc, "main", &[("p", Kind::PLAIN)])?)?;
    let flow = Flow {
        retries: 0,
        groups: Sequence::new(groups),
    };
    flow.check()?;
    let code = assemble(alloc, &flow)?;
    let view = JournalView::blank(alloc);
    if !view.ok() {
        return Err(Fail::new("a blank journal is not sound"));
    }
    let mut engine = Engine::open(alloc, &code, &view, 1)?;
    for _ in 0..offers {
        engine.reserve_offer()?;
    }
    Ok(engine)
}

fn offer_to(engine: &mut Engine, offer: Offer) {
    if engine.spare() > 0 {
        engine.offer_reserved(offer);
    }
}

// Whether the engine was offered just the contexts with the numbers below this one, in order.
fn was_offered(alloc: Global, engine: &Engine, count: usize) -> Result<bool, Fail> {
    let mut same = engine.history().len() == count;
    for (number, entry) in engine.history().iter().enumerate() {
        let bytes = numbered(alloc, number)?.to_bytes()?;
        same = match &entry.event {
            Event::Offered { context } => same && context.as_slice() == bytes.as_slice(),
            _ => false,
        };
    }
    Ok(same)
}

fn list(alloc: Global, count: usize) -> Result<Listed, Fail> {
    let mut contexts = Vec::new(alloc);
    for number in 0..count {
        contexts.push(numbered(alloc, number)?)?;
    }
    Ok(Listed::new(contexts))
}

#[test]
fn an_intake_of_one_offer(rt: HostRuntime) -> Result<(), Fail> {
    let alloc = rt.alloc();
    let mut engine = opened(alloc, 2)?;
    let (intake, mut putter, mut getter) = OfferIntake::new(alloc, 1)?;
    let first = Offer::new(&numbered(alloc, 0)?)?;
    let second = Offer::new(&numbered(alloc, 1)?)?;
    assert!(rt; intake.put(&rt, &mut putter, first).is_ok());
    let Err(back) = intake.put(&rt, &mut putter, second) else {
        return Err(Fail::new("a second offer was taken"));
    };
    let got = intake.get(&rt, &mut getter).ok_or("nothing was put")?;
    offer_to(&mut engine, got);
    assert!(rt; intake.get(&rt, &mut getter).is_none());
    assert!(rt; intake.put(&rt, &mut putter, back).is_ok());
    let got = intake.get(&rt, &mut getter).ok_or("nothing was put again")?;
    offer_to(&mut engine, got);
    assert!(rt; was_offered(alloc, &engine, 2)?);
    assert!(rt; intake.settle(putter, getter));
    Ok(())
}

#[test]
fn an_offer_is_left(rt: HostRuntime) -> Result<(), Fail> {
    let alloc = rt.alloc();
    let (intake, mut putter, getter) = OfferIntake::new(alloc, 4_096)?;
    let offer = Offer::new(&numbered(alloc, 0)?)?;
    assert!(rt; intake.put(&rt, &mut putter, offer).is_ok());
    assert!(rt; !intake.settle(putter, getter));
    Ok(())
}

#[test]
fn bad_capacities(rt: HostRuntime) -> Result<(), Fail> {
    let none = OfferIntake::new(rt.alloc(), 0).err();
    assert_eq!(rt; none, Some(IntakeError::BadCapacity));
    let many = OfferIntake::new(rt.alloc(), 4_097).err();
    assert_eq!(rt; many, Some(IntakeError::BadCapacity));
    Ok(())
}

#[test]
fn a_list_is_given_in_order(rt: HostRuntime) -> Result<(), Fail> {
    let alloc = rt.alloc();
    let mut source = list(alloc, 3)?;
    for number in 0..3 {
        let context = source.next()?.ok_or("the list is given")?;
        let bytes = context.to_bytes()?;
        assert_eq!(rt;
            bytes.as_slice(),
            numbered(alloc, number)?.to_bytes()?.as_slice()
        );
    }
    assert!(rt; source.next()?.is_none());
    assert!(rt; source.next()?.is_none());
    Ok(())
}

fn offers_of(alloc: Global, mut source: Listed) -> Result<Vec<Offer>, Fail> {
    let mut offers = Vec::new(alloc);
    for _ in 0..COUNT {
        if let Some(context) = source.next()? {
            offers.push(Offer::new(&context)?)?;
        }
    }
    Ok(offers)
}

// Puts an offer, again each time that it comes back.
fn put_one<R: Wait>(rt: &R, intake: &OfferIntake, putter: &mut OfferPutter, offer: Offer)
    requires { putter.old.intake ≡ intake.now.id }
    ensures { putter.new.intake ≡ putter.old.intake }
{
    let mut left = offer;
    for _ in rt.forever() {
        match intake.put(rt, putter, left) {
            Ok(()) => return,
            Err(back) => {
                left = back;
                thread::yield_now();
            }
        }
    }
    unreachable!()
}

fn put_all<R: Wait>(
    rt: &R,
    intake: &OfferIntake,
    mut putter: OfferPutter,
    offers: Vec<Offer>,
) -> OfferPutter
    requires { putter.intake ≡ intake.now.id }
    ensures { result.intake ≡ putter.intake }
{
    for offer in offers {
        put_one(rt, intake, &mut putter, offer);
    }
    putter
}

fn get_all<R: Wait>(
    rt: &R,
    intake: &OfferIntake,
    mut getter: OfferGetter,
    mut engine: Engine,
) -> (OfferGetter, Engine)
    requires { getter.intake ≡ intake.now.id }
    ensures { result.0.intake ≡ getter.intake }
{
    let mut count = 0;
    for _ in rt.forever() {
        if count >= COUNT {
            break;
        }
        match intake.get(rt, &mut getter) {
            Some(offer) => {
                offer_to(&mut engine, offer);
                count += 1;
            }
            None => thread::yield_now(),
        }
    }
    (getter, engine)
}

// One thread puts what another gets. Returns the engine that it was offered to, and whether all was
// got.
fn handed_over<R: Threads + Wait + Sync>(
    rt: &R,
    alloc: Global,
    offers: Vec<Offer>,
    engine: Engine,
) -> Result<(Engine, bool), Fail> {
    let (intake, putter, getter) = OfferIntake::new(alloc, 1)?;
    let shared = &intake;
    let (putter, (getter, engine)) = thread::join(
        rt,
        move ||
            requires { putter.intake ≡ shared.now.id }
            ensures { result.intake ≡ putter.intake }
        { put_all(rt, shared, putter, offers) },
        move ||
            requires { getter.intake ≡ shared.now.id }
            ensures { result.0.intake ≡ getter.intake }
        { get_all(rt, shared, getter, engine) },
    );
    Ok((engine, intake.settle(putter, getter)))
}

#[test]
fn from_thread_to_thread(rt: HostRuntime) -> Result<(), Fail> {
    let alloc = rt.alloc();
    let offers = offers_of(alloc, list(alloc, COUNT)?)?;
    let engine = opened(alloc, COUNT)?;
    let (engine, settled) = handed_over(&rt, alloc, offers, engine)?;
    assert!(rt; settled);
    assert!(rt; was_offered(alloc, &engine, COUNT)?);
    Ok(())
}

// A missing proof would show only at a `join` in a crate above.
fn crosses<T: Send>() {}

fn is_shared<T: Sync>() {}

#[test]
fn threads_share_an_intake(_rt: HostRuntime) -> Result<(), Fail> {
    is_shared::<OfferIntake>();
    crosses::<OfferIntake>();
    crosses::<OfferPutter>();
    crosses::<OfferGetter>();
    crosses::<Offer>();
    crosses::<Listed>();
    Ok(())
}
