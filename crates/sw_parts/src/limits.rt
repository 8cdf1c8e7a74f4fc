//! The limits of cards.

ghost use Rattle.std.specs.Prelude.{◌≡◌, ◌+◌, ◌≤◌, length, Some, None, IfOk, OnErr, OnOk};
ghost use Rattle.sw_base.specs.Digits.{number_of};
ghost use Rattle.sw_book.specs.Items.{PlainBook};
ghost use Rattle.sw_book.specs.declared.item.State.TheVariants.{Open};
ghost use Rattle.sw_messages.specs.Placing.{put_at};
ghost use Rattle.sw_parts.specs.Asking.{card_of, key_of, asked, original, code_for};
ghost use Rattle.sw_parts.specs.Holding.{Holds, HoldsBy, HoldsAsked};
ghost use Rattle.sw_parts.specs.Holding.{committed, given_back, aborted};
ghost use Rattle.sw_parts.specs.ShownBooks.{shown_book};
ghost use Rattle.sw_participant.specs.Outcomes.{RestoresNothing};
ghost use Rattle.sw_parts.specs.Quiet.{PassesOver, SelectsNone};

use crate::answers::{JOINS, PASSES, REFUSES};
use iso_msg::Message;
use std::alloc::Global;
use sw_book::{Book, BookError, BookKey, Card, Item, State};
use sw_context::Context;
use sw_messages::{
    Class, ResponseCode, amount_of, class_in, class_of, note_code, put_part, request_in,
};
use sw_participant::{AdviceResult, Bytes, NoMemory, Participant, Text};

/// Holds, spends and gives back the amounts of cards.
pub struct Limits {
    alloc: Global,
    book: Book,
}

// Written out, so that no caller proves again how its parts are dropped.
impl Drop for Limits {
    fn drop(self) {
        let Limits { alloc: _, book: _ } = self;
    }
}

fn card_of(digits: &[u8]) -> Card
    requires { length digits.now ≤ 19 }
    ensures { result ≡ card_of digits.now }
{
    let mut bytes = [b' '; 19];
    bytes[..digits.len()].copy_from_slice(digits);
    Card { digits: bytes }
}

fn key_of(card: Card, terminal: &[u8], stan: &[u8], sent: &[u8]) -> BookKey
    requires card { length card.digits ≡ 19 }
    requires terminal { length terminal.now ≡ 8 }
    requires stan { length stan.now ≡ 6 }
    requires sent { length sent.now ≡ 10 }
    ensures { result ≡ key_of card terminal.now stan.now sent.now }
{
    let mut bytes = [b' '; 43];
    put_part(&mut bytes, 0, &card.digits);
    put_part(&mut bytes, 19, terminal);
    put_part(&mut bytes, 27, stan);
    put_part(&mut bytes, 33, sent);
    BookKey { bytes }
}

/// What a request asks to hold: the amount of its card, under the key of its terminal, STAN, date and time.
pub fn asked(request: &Message) -> Option<Item>
    ensures { result ≡ asked request.now }
{
    let digits = request.get(2)?;
    let terminal = request.get(41)?;
    let stan = request.get(11)?;
    let sent = request.get(7)?;
    let amount = request.get(4)?;
    let amount = amount_of(amount)?;
    let card = card_of(digits);
    let key = key_of(card, terminal, stan, sent);
    Some(Item {
        card,
        key,
        amount,
        state: State::Open,
    })
}

/// The key that a reversal names.
pub fn original(request: &Message) -> Option<BookKey>
    ensures { result ≡ original request.now }
{
    let digits = request.get(2)?;
    let terminal = request.get(41)?;
    let original = request.get(90)?;
    let card = card_of(digits);
    let stan = &original[4..10];
    let sent = &original[10..20];
    Some(key_of(card, terminal, stan, sent))
}

fn code_for(error: BookError) -> ResponseCode
    ensures { result ≡ code_for error }
{
    match error {
        BookError::OverLimit => ResponseCode::ExceedsLimit,
        BookError::AmountTooLarge => ResponseCode::InvalidAmount,
        _ => ResponseCode::DuplicateTransmission,
    }
}

/// Holds what is asked, or notes why not. The book changes last.
fn hold(book: &mut Book, id: u64, item: Item, context: &mut Context) -> Result<u8, NoMemory>
    requires { item.state ≡ Open }
    ensures held { IfOk result (λ byte.
        HoldsAsked (Some item) id book.old context.old byte book.new context.new) }
    ensures book_kept { OnErr result (book.new ≡ book.old) }
    ensures context_kept { OnErr result (context.new ≡ context.old) }
{
    match book.reserve(id, item.card, item.key, item.amount) {
        Ok(()) => Ok(JOINS),
        Err(BookError::OutOfMemory) => Err(NoMemory),
        Err(error) => {
            note_code(context, code_for(error))?;
            Ok(REFUSES)
        }
    }
}

fn prepare_book(
    book: &mut Book,
    id: u64,
    request: &Option<Message>,
    context: &mut Context,
) -> Result<u8, NoMemory>
    ensures held { IfOk result (λ byte.
        HoldsBy request.now id book.old context.old byte book.new context.new) }
    ensures book_kept { OnErr result (book.new ≡ book.old) }
    ensures context_kept { OnErr result (context.new ≡ context.old) }
{
    let Some(message) = request else {
        return Ok(PASSES);
    };
    match class_of(message.mti().digits()) {
        Some(Class::Authorization) => match asked(message) {
            Some(item) => hold(book, id, item, context),
            None => Ok(PASSES),
        },
        Some(Class::Reversal) => Ok(JOINS),
        _ => Ok(PASSES),
    }
}

// Gives back what a reversal names.
fn give_back(book: &mut Book, request: &Option<Message>)
    ensures { book.new ≡ given_back request.now book.old }
{
    let Some(message) = request else {
        return;
    };
    if let Some(key) = original(message) {
        let _ = book.reverse(&key);
    }
}

// Of an authorization only the type is looked at, so that its commit takes no memory.
fn commit_book(alloc: Global, book: &mut Book, id: u64, context: &Context) -> Result<(), NoMemory>
    ensures committed { OnOk result (book.new ≡ committed id context.now book.old) }
    ensures kept { OnErr result (book.new ≡ book.old) }
{
    match class_in(context) {
        Some(Class::Authorization) => {
            let _ = book.settle(id);
        }
        Some(Class::Reversal) => {
            let request = request_in(alloc, context)?;
            give_back(book, &request);
        }
        _ => {}
    }
    Ok(())
}

impl Limits {
    /// A participant that keeps this book.
    pub fn new(alloc: Global, book: Book) -> Limits
        ensures { ⟦<Limits as Participant>⟧.object result ≡ shown_book book }
    {
        Limits { alloc, book }
    }
}

impl Participant for Limits {
    ghost object = { λ limits. shown_book limits.book };

    ghost prepares = { λ id o x byte p y. (book : PlainBook) × (after : PlainBook)
        × (o ≡ shown_book book) × (p ≡ shown_book after) × Holds id book x byte after y };

    ghost prepares_for_abort = { λ id o x byte p y. PassesOver o x byte p y };

    ghost selects = { λ id o x text p. SelectsNone o text p };

    ghost commits = { λ id recovering o x advice p y. (book : PlainBook)
        × (o ≡ shown_book book) × (p ≡ shown_book (committed id x book))
        × (advice ≡ None) × (y ≡ x) };

    ghost aborts = { λ id recovering o x advice p y. (book : PlainBook)
        × (o ≡ shown_book book) × (p ≡ shown_book (aborted id book))
        × (advice ≡ None) × (y ≡ x) };

    ghost recovers = { λ id commit o x p y. RestoresNothing o x p y };

    fn prepare(&mut self, id: u64, context: &mut Context) -> Result<u8, NoMemory> {
        let request = request_in(self.alloc, context)?;
        prepare_book(&mut self.book, id, &request, context)
    }

    fn select(&mut self, id: u64, context: &Context) -> Result<Text, NoMemory> {
        Ok(Text::from_str(self.alloc, "")?)
    }

    fn commit(&mut self, id: u64, context: &mut Context, recovering: bool) -> AdviceResult {
        commit_book(self.alloc, &mut self.book, id, context)?;
        Ok(None)
    }

    fn abort(&mut self, id: u64, context: &mut Context, recovering: bool) -> AdviceResult {
        let _ = self.book.release(id);
        Ok(None)
    }

    fn prepare_for_abort(&mut self, id: u64, context: &mut Context) -> Result<u8, NoMemory> {
        Ok(PASSES)
    }

    fn recover(&mut self, id: u64, context: &mut Context, commit: bool) -> Result<(), NoMemory> {
        Ok(())
    }
}
