//! What a book refuses that a run refuses before it: an amount of 13 digits, which no message has, and a limit of 16
//! digits. What a card has spent is tested by `tests/run`, and by the model of random requests.

use std::test::Fail;
use sw_book::{Book, BookError, BookKey, Card};

const CARD: Card = Card {
    digits: *b"4000000000000002   ",
};

fn is_too_large(book: &mut Book, amount: u64) -> bool {
    let key = BookKey { bytes: [b' '; 43] };
    matches!(
        book.reserve(1, CARD, key, amount),
        Err(BookError::AmountTooLarge)
    )
}

#[test]
fn an_amount_has_twelve_digits(rt: HostRuntime) -> Result<(), Fail> {
    let mut book = Book::new(rt.alloc(), 10_000)?;
    assert!(rt; is_too_large(&mut book, 1_000_000_000_000));
    Ok(())
}

#[test]
fn a_limit_has_fifteen_digits(rt: HostRuntime) {
    let refused = Book::new(rt.alloc(), 1_000_000_000_000_000);
    assert!(rt; matches!(refused, Err(BookError::BadLimit)));
}
