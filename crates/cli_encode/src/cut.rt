//! Where a line ends, and the words of a line.

ghost use Rattle.std.specs.Prelude.{◌≡◌, ◌≤◌, ◌<◌, ◌==◌, false, length, MatchOption};
ghost use Rattle.std.specs.List.{position_or_len};
ghost use Rattle.cli_encode.specs.Lines.{has_byte, IsCut, IsAfter, IsNotBefore};

// The index of the first `mark`, or the length if there is none.
fn mark_index(bytes: &[u8], mark: u8) -> usize
    ensures index { result ≡ position_or_len (λ b. b == mark) bytes.now }
    ensures within { result ≤ length bytes.now }
{
    bytes
        .iter()
        .position(|byte| *byte == mark)
        .unwrap_or(bytes.len())
}

/// What is before the first `mark` and what is after it; `None` if there is none.
pub fn cut_at(bytes: &[u8], mark: u8) -> Option<(&[u8], &[u8])>
    ensures { MatchOption result (has_byte mark bytes.entry.now ≡ false)
        (IsCut mark bytes.entry.now) }
{
    let at = mark_index(bytes, mark);
    if at == bytes.len() {
        return None;
    }
    Some((&bytes[..at], &bytes[at + 1..]))
}

/// What comes after `front`; `None` if the bytes do not begin with it.
pub fn after<'a>(bytes: &'a [u8], front: &[u8]) -> Option<&'a [u8]>
    ensures { MatchOption result (IsNotBefore front.now bytes.entry.now)
        (IsAfter front.now bytes.entry.now) }
{
    if bytes.len() < front.len() {
        return None;
    }
    let (first, rest) = bytes.split_at(front.len());
    if first == front { Some(rest) } else { None }
}
