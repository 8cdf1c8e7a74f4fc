//! Numbers in decimal digits.

ghost use Rattle.std.specs.Prelude.{◌≡◌, ◌≤◌, ◌<◌, ◌^◌, length, true, IfSome};
ghost use Rattle.std.specs.List.{list_all};
ghost use Rattle.sw_base.specs.Digits.{is_digit, number_of, two_digits};

/// The number that up to nine decimal digits spell; `None` if a byte is not a digit. Leading zeros
/// count for nothing, and no digits at all spell 0.
pub fn decimal(digits: &[u8]) -> Option<u32>
    requires { length digits.now ≤ 9 }
    ensures value { result ≡ number_of digits.now }
    ensures small { IfSome result (λ n. n < 10 ^ length digits.now) }
{
    let mut total = 0;
    for digit in digits {
        if !digit.is_ascii_digit() {
            return None;
        }
        total = 10 * total + (*digit - b'0') as u32;
    }
    Some(total)
}

/// The two decimal digits of a number below 100, as ASCII.
pub fn two_digits(number: u8) -> [u8; 2]
    requires { number < 100 }
    ensures shown { result ≡ two_digits number }
    ensures digits { list_all is_digit result ≡ true }
{
    [b'0' + number / 10, b'0' + number % 10]
}
