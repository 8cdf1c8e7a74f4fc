//! Numbers as words spell them, below 2^64.

ghost use Rattle.std.specs.Prelude.{◌≡◌};
ghost use Rattle.std.specs.Char.{is_ascii_digit};
ghost use Rattle.std.specs.List.{list_all};
ghost use Rattle.sw_base.specs.Spelling.{number_spelled};

fn is_digits(word: &str) -> bool
    ensures { result ≡ list_all is_ascii_digit word.now }
{
    word.as_bytes().iter().all(|byte| byte.is_ascii_digit())
}

/// The decimal number below 2^64 that a word spells; `None` if the word is empty, has a byte that
/// is not a digit, or spells a larger number. Leading zeros count for nothing.
pub fn read_number(word: &str) -> Option<u64>
    ensures { result ≡ number_spelled word.now }
{
    if is_digits(word) {
        word.parse().ok()
    } else {
        None
    }
}
