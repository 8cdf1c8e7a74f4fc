//! Why a message is not a valid request of the switch.

ghost use Rattle.std.specs.Prelude.{◌≡◌, ◌==◌, option_map};
ghost use Rattle.std.specs.List.{list_all};
ghost use Rattle.sw_messages.specs.Faults.{has_all, is_zero, has_short_card, fault_in, fault_of};

use crate::class::{Class, class_of};
use crate::response_code::ResponseCode;
use iso_msg::Message;

fn has_all(message: &Message, numbers: &[u8]) -> bool
    ensures { result ≡ has_all numbers.now message.now }
{
    numbers.iter().all(|number| message.get(*number).is_some())
}

fn are_zeros(digits: &[u8]) -> bool
    ensures { result ≡ list_all (λ d. d == 48) digits.now }
{
    digits.iter().all(|digit| *digit == b'0')
}

fn is_zero(amount: Option<&[u8]>) -> bool
    ensures { result ≡ is_zero (option_map (λ v. v.now) amount.entry) }
{
    match amount {
        Some(digits) => are_zeros(digits),
        None => false,
    }
}

fn has_short_card(class: Class, message: &Message) -> bool
    ensures { result ≡ has_short_card class message.now }
{
    match class {
        Class::Authorization => match message.get(2) {
            Some(card) => card.len() < 12,
            None => false,
        },
        _ => false,
    }
}

fn fault_in(class: Class, message: &Message) -> Option<ResponseCode>
    ensures { result ≡ fault_in class message.now }
{
    if !has_all(message, class.needed_fields()) {
        Some(ResponseCode::FormatError)
    } else if has_short_card(class, message) {
        Some(ResponseCode::InvalidCard)
    } else if is_zero(message.get(4)) {
        Some(ResponseCode::InvalidAmount)
    } else {
        None
    }
}

/// Why a request is refused at once, if it is: an unreadable one is a format error, one of
/// another message type an invalid transaction, one that lacks a field that its class needs a
/// format error; then come a card number under 12 digits, of authorizations only, and an amount
/// of 0.
pub fn fault_of(request: &Option<Message>) -> Option<ResponseCode>
    ensures { result ≡ fault_of request.now }
{
    match request {
        None => Some(ResponseCode::FormatError),
        Some(message) => match class_of(message.mti().digits()) {
            None => Some(ResponseCode::InvalidTransaction),
            Some(class) => fault_in(class, message),
        },
    }
}
