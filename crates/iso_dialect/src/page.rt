//! Pages of EBCDIC.

ghost use Rattle.std.specs.Prelude.{◌≡◌, ◌<◌, get_or, map};
ghost use Rattle.iso_dialect.specs.Pages.{char_in, chars_from, code_in, codes_037, codes_1047, or_zero};
ghost use Rattle.iso_dialect.specs.declared.coding.Page.TheVariants.{Cp037, Cp1047};

use crate::coding::Page;

/// The character of each code in IBM 037, or 0.
static CHARS_037: [u8; 256] = [
    0, 0, 0, 0, 0, 0, 0, 0, 0, 0, 0, 0, 0, 0, 0, 0, 0, 0, 0, 0, 0, 0, 0, 0, 0, 0, 0, 0, 0, 0, 0, 0,
    0, 0, 0, 0, 0, 0, 0, 0, 0, 0, 0, 0, 0, 0, 0, 0, 0, 0, 0, 0, 0, 0, 0, 0, 0, 0, 0, 0, 0, 0, 0, 0,
    32, 0, 0, 0, 0, 0, 0, 0, 0, 0, 0, 46, 60, 40, 43, 124, 38, 0, 0, 0, 0, 0, 0, 0, 0, 0, 33, 36,
    42, 41, 59, 0, 45, 47, 0, 0, 0, 0, 0, 0, 0, 0, 0, 44, 37, 95, 62, 63, 0, 0, 0, 0, 0, 0, 0, 0,
    0, 96, 58, 35, 64, 39, 61, 34, 0, 97, 98, 99, 100, 101, 102, 103, 104, 105, 0, 0, 0, 0, 0, 0,
    0, 106, 107, 108, 109, 110, 111, 112, 113, 114, 0, 0, 0, 0, 0, 0, 0, 126, 115, 116, 117, 118,
    119, 120, 121, 122, 0, 0, 0, 0, 0, 0, 94, 0, 0, 0, 0, 0, 0, 0, 0, 0, 91, 93, 0, 0, 0, 0, 123,
    65, 66, 67, 68, 69, 70, 71, 72, 73, 0, 0, 0, 0, 0, 0, 125, 74, 75, 76, 77, 78, 79, 80, 81, 82,
    0, 0, 0, 0, 0, 0, 92, 0, 83, 84, 85, 86, 87, 88, 89, 90, 0, 0, 0, 0, 0, 0, 48, 49, 50, 51, 52,
    53, 54, 55, 56, 57, 0, 0, 0, 0, 0, 0,
];

/// The character of each code in IBM 1047, or 0.
static CHARS_1047: [u8; 256] = [
    0, 0, 0, 0, 0, 0, 0, 0, 0, 0, 0, 0, 0, 0, 0, 0, 0, 0, 0, 0, 0, 0, 0, 0, 0, 0, 0, 0, 0, 0, 0, 0,
    0, 0, 0, 0, 0, 0, 0, 0, 0, 0, 0, 0, 0, 0, 0, 0, 0, 0, 0, 0, 0, 0, 0, 0, 0, 0, 0, 0, 0, 0, 0, 0,
    32, 0, 0, 0, 0, 0, 0, 0, 0, 0, 0, 46, 60, 40, 43, 124, 38, 0, 0, 0, 0, 0, 0, 0, 0, 0, 33, 36,
    42, 41, 59, 94, 45, 47, 0, 0, 0, 0, 0, 0, 0, 0, 0, 44, 37, 95, 62, 63, 0, 0, 0, 0, 0, 0, 0, 0,
    0, 96, 58, 35, 64, 39, 61, 34, 0, 97, 98, 99, 100, 101, 102, 103, 104, 105, 0, 0, 0, 0, 0, 0,
    0, 106, 107, 108, 109, 110, 111, 112, 113, 114, 0, 0, 0, 0, 0, 0, 0, 126, 115, 116, 117, 118,
    119, 120, 121, 122, 0, 0, 0, 91, 0, 0, 0, 0, 0, 0, 0, 0, 0, 0, 0, 0, 0, 0, 0, 93, 0, 0, 123,
    65, 66, 67, 68, 69, 70, 71, 72, 73, 0, 0, 0, 0, 0, 0, 125, 74, 75, 76, 77, 78, 79, 80, 81, 82,
    0, 0, 0, 0, 0, 0, 92, 0, 83, 84, 85, 86, 87, 88, 89, 90, 0, 0, 0, 0, 0, 0, 48, 49, 50, 51, 52,
    53, 54, 55, 56, 57, 0, 0, 0, 0, 0, 0,
];

/// The code of each character from the space to the tilde in IBM 037.
static CODES_037: [u8; 95] = [
    64, 90, 127, 123, 91, 108, 80, 125, 77, 93, 92, 78, 107, 96, 75, 97, 240, 241, 242, 243, 244,
    245, 246, 247, 248, 249, 122, 94, 76, 126, 110, 111, 124, 193, 194, 195, 196, 197, 198, 199,
    200, 201, 209, 210, 211, 212, 213, 214, 215, 216, 217, 226, 227, 228, 229, 230, 231, 232, 233,
    186, 224, 187, 176, 109, 121, 129, 130, 131, 132, 133, 134, 135, 136, 137, 145, 146, 147, 148,
    149, 150, 151, 152, 153, 162, 163, 164, 165, 166, 167, 168, 169, 192, 79, 208, 161,
];

/// The code of each character from the space to the tilde in IBM 1047.
static CODES_1047: [u8; 95] = [
    64, 90, 127, 123, 91, 108, 80, 125, 77, 93, 92, 78, 107, 96, 75, 97, 240, 241, 242, 243, 244,
    245, 246, 247, 248, 249, 122, 94, 76, 126, 110, 111, 124, 193, 194, 195, 196, 197, 198, 199,
    200, 201, 209, 210, 211, 212, 213, 214, 215, 216, 217, 226, 227, 228, 229, 230, 231, 232, 233,
    173, 224, 189, 95, 109, 121, 129, 130, 131, 132, 133, 134, 135, 136, 137, 145, 146, 147, 148,
    149, 150, 151, 152, 153, 162, 163, 164, 165, 166, 167, 168, 169, 192, 79, 208, 161,
];

/// The table has the character of each code.
fn is_037()
    ensures { CHARS_037 ≡ map or_zero (chars_from Cp037 0 256) }
{}

/// The table has the character of each code.
fn is_1047()
    ensures { CHARS_1047 ≡ map or_zero (chars_from Cp1047 0 256) }
{}

fn row_037(code: usize) -> u8
    requires { code < 256 }
    ensures { result ≡ get_or CHARS_037 code 0 }
{
    CHARS_037[code]
}

fn row_1047(code: usize) -> u8
    requires { code < 256 }
    ensures { result ≡ get_or CHARS_1047 code 0 }
{
    CHARS_1047[code]
}

fn char_or_zero(page: Page, code: u8) -> u8
    ensures { result ≡ or_zero (char_in page code) }
{
    match page {
        Page::Cp037 => {
            is_037();
            row_037(code as usize)
        }
        Page::Cp1047 => {
            is_1047();
            row_1047(code as usize)
        }
    }
}

/// The character of a code; `None` if it is not a printable character of ASCII.
pub fn char_at(page: Page, code: u8) -> Option<u8>
    ensures { result ≡ char_in page code }
{
    let c = char_or_zero(page, code);
    if c == 0 { None } else { Some(c) }
}

/// The table has the code of each character.
fn is_codes_037()
    ensures { CODES_037 ≡ codes_037 }
{}

/// The table has the code of each character.
fn is_codes_1047()
    ensures { CODES_1047 ≡ codes_1047 }
{}

fn code_037(index: usize) -> u8
    ensures { result ≡ get_or CODES_037 index 0 }
{
    if index < 95 { CODES_037[index] } else { 0 }
}

fn code_1047(index: usize) -> u8
    ensures { result ≡ get_or CODES_1047 index 0 }
{
    if index < 95 { CODES_1047[index] } else { 0 }
}

/// The code of a printable character of ASCII.
#[tactic(auto, unfolding(crate::specs::Pages::code_in, crate::specs::Pages::codes))]
pub fn code_at(page: Page, c: u8) -> u8
    ensures { result ≡ code_in page c }
{
    let index = c.saturating_sub(32) as usize;
    match page {
        Page::Cp037 => {
            is_codes_037();
            code_037(index)
        }
        Page::Cp1047 => {
            is_codes_1047();
            code_1047(index)
        }
    }
}
