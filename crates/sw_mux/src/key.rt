//! What a request and its response have in common.

ghost use Rattle.std.specs.Prelude.{◌≡◌, ◌≤◌, length, option_map};
ghost use Rattle.sw_mux.specs.Keys.{key as key_in, key_by, request_digit};
ghost use Rattle.sw_mux.specs.Keys.{unspaced, unspaced_end, trimmed};

use iso_msg::Message;

/// Field 41, the card acceptor terminal identification.
const TERMINAL: u8 = 41;

/// Field 11, the system trace audit number (STAN).
const STAN: u8 = 11;

/// What a request and its response have in common, in 25 bytes: the first two digits of the message
/// type, the third as a request has it, the terminal in 16 bytes, the STAN in 6 (jPOS: the key
/// that `QMUX` builds from MTI, field 41 and field 11).
#[derive(Clone, Copy, PartialEq, Eq, Hash)]
pub struct Key {
    /// The 25 bytes.
    pub bytes: [u8; 25],
}

fn request_digit(digit: u8) -> u8
    ensures { result ≡ request_digit digit }
{
    match digit {
        b'1' => b'0',
        b'3' => b'2',
        b'5' => b'4',
        other => other,
    }
}

fn unspaced(text: &[u8]) -> &[u8]
    ensures value { result.now ≡ unspaced text.now }
    ensures short { length result.now ≤ length text.now }
{
    let mut rest = text;
    while let [b' ', others @ ..] = rest {
        rest = others;
    }
    rest
}

fn unspaced_end(text: &[u8]) -> &[u8]
    ensures value { result.now ≡ unspaced_end text.now }
    ensures short { length result.now ≤ length text.now }
{
    let mut rest = text;
    while let [others @ .., b' '] = rest {
        rest = others;
    }
    rest
}

fn trimmed(text: &[u8]) -> &[u8]
    ensures value { result.now ≡ trimmed text.now }
    ensures short { length result.now ≤ length text.now }
{
    unspaced_end(unspaced(text))
}

fn key_by(mti: &[u8], terminal: &[u8], stan: &[u8]) -> Key
    requires mti { length mti.now ≡ 4 }
    requires terminal { length terminal.now ≡ 8 }
    requires stan { length stan.now ≡ 6 }
    ensures { result.bytes ≡ key_by mti.now terminal.now stan.now }
{
    let terminal = trimmed(terminal);
    let mut bytes = [b'0'; 25];
    bytes[0] = mti[0];
    bytes[1] = mti[1];
    bytes[2] = request_digit(mti[2]);
    bytes[19 - terminal.len()..19].copy_from_slice(terminal);
    bytes[19..].copy_from_slice(stan);
    Key { bytes }
}

/// The key of a message; a message without field 41 or field 11 has none.
pub fn key_of(message: &Message) -> Option<Key>
    ensures { option_map (λ k. k.bytes) result ≡ key_in message.now }
{
    let terminal = message.get(TERMINAL)?;
    let stan = message.get(STAN)?;
    let mti = message.mti();
    Some(key_by(mti.digits(), terminal, stan))
}
