//! What the limits do with their book.

ghost use Rattle.std.specs.Prelude.{◌≡◌, ◌≤◌, ℕ, Some, IfOk, OnErr, OnOk, false};
ghost use Rattle.day_book.specs.declared.item.State.TheVariants.{Open};
ghost use Rattle.day_book.specs.Items.{is_open};
ghost use Rattle.day_book.specs.Taking.{refusal};
ghost use Rattle.day_book.specs.Changes.{released, settled};
ghost use Rattle.sw_lasting.specs.Holding.{HeldBy, NotedBy, code_for, given_back, item_on};
ghost use Rattle.sw_lasting.specs.Holding.{made_known, moved_on, put_noted, with_days};
ghost use Rattle.sw_lasting.specs.Keeping.{keeping};

use crate::fault::BookFault;
use crate::noting::LIMITS;
use day_book::{DayBookError, DayItem, RequestDay, State};
use lasting_book::{LastingBook, LastingError};
use sqlite::Alter;
use std::time::Clock;
use sw_book::{BookKey, Item};
use sw_context::{Context, ContextError};
use sw_messages::{ResponseCode, note_code};
use sw_participant::{NO_JOIN, NoMemory, PREPARED};

/// In how many ids items are forgotten once in the file, since it is a write that is synced.
const FORGETS_EACH: u64 = 32;

/// How many items are forgotten at once in the file: more than there are ids between.
const MOST_FORGOTTEN: i64 = 64;

/// The day by this clock, in days since 1970-01-01 UTC, or today if that is later or there is no clock.
pub fn day_by<C: Clock>(clock: &Option<C>, today: u32) -> u32
    ensures { today ≤ result }
{
    let Some(clock) = clock else {
        return today;
    };
    match clock.since_1970() {
        Ok(time) => {
            let days = time.as_secs() / 86400;
            match u32::try_from(days) {
                Ok(day) => today.max(day),
                Err(_) => today,
            }
        }
        Err(_) => today,
    }
}

/// What a request asks to hold on a day, as the book takes it.
pub fn item_on<S: Alter>(book: &LastingBook<S>, day: u32, item: &Item) -> DayItem
    ensures { result ≡ item_on book.now.file.salt day item.now }
{
    DayItem {
        card: book.hash(&item.card.digits),
        request: book.hash(&item.key.bytes),
        amount: item.amount,
        day,
        state: State::Open,
    }
}

fn code_for(error: DayBookError) -> ResponseCode
    ensures { result ≡ code_for error }
{
    match error {
        DayBookError::OverLimit => ResponseCode::ExceedsLimit,
        DayBookError::AmountTooLarge => ResponseCode::InvalidAmount,
        _ => ResponseCode::DuplicateTransmission,
    }
}

/// Holds an item and notes its day, or notes why not.
pub fn hold<S: Alter>(
    book: &mut LastingBook<S>,
    today: &mut u32,
    fault: &BookFault,
    id: u64,
    item: DayItem,
    context: &mut Context,
) -> Result<u8, NoMemory>
    requires open { item.state ≡ Open }
    requires day { today.old ≤ item.day }
    ensures held { IfOk result (λ byte. HeldBy (refusal book.old.days id item) id item
        (keeping book.old today.old) context.old byte (keeping book.new today.new) context.new) }
    ensures kept { OnErr result (keeping book.new today.new ≡ keeping book.old today.old) }
    ensures context_kept { OnErr result (context.new ≡ context.old) }
{
    match book.reserve(id, item) {
        Ok(()) => note_held(book, today, fault, id, item, context),
        Err(DayBookError::OutOfMemory) => Err(NoMemory),
        Err(error) => {
            note_code(context, code_for(error))?;
            Ok(NO_JOIN)
        }
    }
}

// Forgets some items in the file, once in so many ids. A file that fails here answers at the next commit.
fn forget_in_file<S: Alter>(book: &mut LastingBook<S>, fault: &BookFault, id: u64)
    ensures { (today : ℕ) → keeping book.new today ≡ keeping book.old today }
{
    if id % FORGETS_EACH == 0 {
        if let Err(error) = book.forget_in_file(MOST_FORGOTTEN) {
            fault.note(error);
        }
    }
}

// Moves today on to this day: those before the day before are out of reach, and some of their items are
// forgotten.
fn move_on<S: Alter>(
    book: &mut LastingBook<S>,
    today: &mut u32,
    fault: &BookFault,
    id: u64,
    day: u32,
)
    ensures { keeping book.new today.new ≡ moved_on day (keeping book.old today.old) }
{
    book.advance(day.saturating_sub(1));
    let _ = book.forget();
    let _ = book.forget();
    forget_in_file(book, fault, id);
    *today = day;
}

// Notes the day of an item that was just held, or frees it again.
fn note_held<S: Alter>(
    book: &mut LastingBook<S>,
    today: &mut u32,
    fault: &BookFault,
    id: u64,
    item: DayItem,
    context: &mut Context,
) -> Result<u8, NoMemory>
    ensures noted { IfOk result (λ byte. NotedBy id item (keeping book.old today.old)
        context.old byte (keeping book.new today.new) context.new) }
    ensures freed { OnErr result (keeping book.new today.new
        ≡ with_days (released id book.old.days.items) (keeping book.old today.old)) }
    ensures context_kept { OnErr result (context.new ≡ context.old) }
{
    match context.put(LIMITS, &item.day.to_be_bytes()) {
        Ok(()) => {
            move_on(book, today, fault, id, item.day);
            Ok(PREPARED)
        }
        Err(error) => {
            let _ = book.release(id);
            match error {
                ContextError::OutOfMemory => Err(NoMemory),
                _ => {
                    note_code(context, ResponseCode::SystemMalfunction)?;
                    Ok(NO_JOIN)
                }
            }
        }
    }
}

/// Spends what is held.
pub fn spend<S: Alter>(book: &mut LastingBook<S>, id: u64) -> Result<(), LastingError>
    ensures spent { OnOk result ((today : ℕ) → keeping book.new today
        ≡ with_days (settled id book.old.days.items) (keeping book.old today)) }
    ensures kept { OnErr result ((today : ℕ) → keeping book.new today ≡ keeping book.old today) }
{
    match book.settle(id) {
        Ok(_) => Ok(()),
        Err(error) => Err(error),
    }
}

/// Gives back the newest item of a request, of today or of the day before.
pub fn give_back<S: Alter>(
    book: &mut LastingBook<S>,
    today: u32,
    key: &BookKey,
) -> Result<(), LastingError>
    ensures given { OnOk result (keeping book.new today
        ≡ given_back (Some key.now) (keeping book.old today)) }
    ensures kept { OnErr result (keeping book.new today ≡ keeping book.old today) }
{
    let request = book.hash(&key.bytes);
    let recent = match book.newest(&RequestDay {
        request,
        day: today,
    }) {
        Some(id) => Some(id),
        None => book.newest(&RequestDay {
            request,
            day: today.saturating_sub(1),
        }),
    };
    let Some(id) = recent else {
        return Ok(());
    };
    match book.reverse(id) {
        Ok(_) => Ok(()),
        Err(error) => Err(error),
    }
}

/// Takes in an item of a recovered transaction, in this state.
pub fn take_in<S: Alter>(
    book: &mut LastingBook<S>,
    id: u64,
    item: DayItem,
    state: State,
) -> Result<(), LastingError>
    requires closed { is_open state ≡ false }
    ensures taken { OnOk result ((today : ℕ) → keeping book.new today
        ≡ put_noted id state (Some item) (keeping book.old today)) }
    ensures kept { OnErr result ((today : ℕ) → keeping book.new today ≡ keeping book.old today) }
{
    book.restore(id, DayItem { state, ..item })
}

/// Makes the request of an aborted transaction known, unless its day knows it.
pub fn make_known<S: Alter>(
    book: &mut LastingBook<S>,
    id: u64,
    item: DayItem,
) -> Result<(), LastingError>
    ensures known { OnOk result ((today : ℕ) → keeping book.new today
        ≡ made_known id (Some item) (keeping book.old today)) }
    ensures kept { OnErr result ((today : ℕ) → keeping book.new today ≡ keeping book.old today) }
{
    if book.newest(&item.request_day()).is_some() {
        return Ok(());
    }
    take_in(book, id, item, State::Reversed)
}
