//! Amounts of field 4.

ghost use Rattle.std.specs.Prelude.{◌≡◌, ◌≤◌, length};
ghost use Rattle.sw_base.specs.Digits.{number_of};

/// The amount that up to twelve digits spell; `None` if a byte is not a digit.
pub fn amount_of(digits: &[u8]) -> Option<u64>
    requires { length digits.now ≤ 12 }
    ensures { result ≡ number_of digits.now }
{
    let mut amount = 0;
    for digit in digits {
        if !digit.is_ascii_digit() {
            return None;
        }
        amount = 10 * amount + u64::from(*digit - b'0');
    }
    Some(amount)
}
