//! The day of a reservation, noted in the context.

ghost use Rattle.std.specs.Prelude.{◌≡◌};
ghost use Rattle.sw_lasting.specs.Noting.{day_in};

use sw_context::Context;

/// The name of the entry with the day of a reservation: four bytes, the high one first.
pub const LIMITS: &str = "limits";

/// The day that is noted, if there is one.
pub fn day_in(context: &Context) -> Option<u32>
    ensures { result ≡ day_in context.now }
{
    let Some(bytes) = context.get(LIMITS) else {
        return None;
    };
    match bytes.as_array::<4>() {
        Some(bytes) => Some(u32::from_be_bytes(*bytes)),
        None => None,
    }
}
