//! Whether an answer is that of a request.

ghost use Rattle.std.specs.Prelude.{◌≡◌, option_map};
ghost use Rattle.sw_wire.specs.Answers.{agrees, suits};

use iso_msg::Message;

// Whether the value of an answer is the request's, if the answer has one.
fn agrees(asked: Option<&[u8]>, value: Option<&[u8]>) -> bool
    ensures { result
        ≡ agrees (option_map (λ v. v.now) asked.entry) (option_map (λ v. v.now) value.entry) }
{
    match (asked, value) {
        (_, None) => true,
        (None, Some(_)) => false,
        (Some(asked), Some(value)) => asked == value,
    }
}

/// Whether the card (field 2), the amount (field 4), and the date and time of transmission (field 7) that an answer
/// has are the request's.
pub fn suits(request: &Message, answer: &Message) -> bool
    ensures { result ≡ suits request.now answer.now }
{
    agrees(request.get(2), answer.get(2))
        && agrees(request.get(4), answer.get(4))
        && agrees(request.get(7), answer.get(7))
}
