//! Which fields are sensitive.

ghost use Rattle.std.specs.Prelude.{◌≡◌};
ghost use Rattle.cli_decode.specs.Masks as spec;

// Whether a field shows only its length.
fn is_hidden(number: u8) -> bool
    ensures { result ≡ spec.is_hidden number }
{
    matches!(number, 35 | 45 | 52 | 55 | 64 | 128)
}

/// Whether a field is masked.
pub fn is_sensitive(number: u8) -> bool
    ensures { result ≡ spec.is_sensitive number }
{
    number == 2 || is_hidden(number)
}
