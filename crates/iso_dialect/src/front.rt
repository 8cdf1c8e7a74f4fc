//! The type of a message and the numbers of its fields.

ghost use Rattle.std.specs.Prelude.{◌≡◌, [], length};
ghost use Rattle.iso_codec.specs.Reads.{Exactly, field_numbers, mti_is};
ghost use Rattle.iso_dialect.specs.Readings.{front_as, known_as};

use crate::bitmap::read_bitmaps;
use crate::field::read_coded;
use crate::profile::Profile;
use crate::text::Text;
use iso_codec::{DecodeError, Numbers};
use iso_msg::Mti;

fn mti_of(digits: &[u8]) -> Result<Mti, DecodeError>
    requires { length digits.now ≡ 4 }
    ensures { Exactly (λ m. m) result (mti_is digits.now) }
{
    match Mti::new(digits) {
        Ok(mti) => Ok(mti),
        Err(_) => Err(DecodeError::BadMti),
    }
}

/// Refuses the first number that has no row.
#[tactic(auto, unfolding(crate::specs::Readings::known_as))]
fn check_known(profile: &Profile, numbers: &[u8]) -> Result<(), DecodeError>
    ensures { Exactly (λ _. tt) result (known_as profile.now.rows numbers.now) }
{
    for number in numbers {
        if profile.row(*number).is_none() {
            return Err(DecodeError::FieldNotInProfile(*number));
        }
    }
    Ok(())
}

/// Reads the type and the bitmaps. Returns the type and the bytes of the fields, and adds the
/// numbers of the set bits.
#[tactic(auto, unfolding(crate::specs::Readings::front_as))]
pub fn read_front<'a>(
    profile: &Profile,
    bytes: &'a [u8],
    numbers: &mut Numbers,
) -> Result<(Mti, &'a [u8]), DecodeError>
    requires { numbers.old ≡ [] }
    ensures { Exactly (λ x. (x.0, field_numbers numbers.new, x.1.now)) result
        (front_as profile.now bytes.now) }
{
    let mut digits = Text::new();
    let rest = read_coded(&mut digits, profile.mti(), 4, DecodeError::BadMti, bytes)?;
    let mti = mti_of(digits.as_slice())?;
    let rest = read_bitmaps(profile.bitmap(), rest, numbers)?;
    check_known(profile, numbers.fields())?;
    Ok((mti, rest))
}
