//! Where lines end.
ghost use Rattle.std.specs.Prelude.{◌≡◌, ◌≤◌, length};
ghost use Rattle.std.specs.List.{position_or_len};
ghost use Rattle.cli_lines.specs.Feeds.{is_line_feed};

/// The index of the first line feed, or the length if there is none.
pub fn line_end(bytes: &[u8]) -> usize
    ensures index { result ≡ position_or_len is_line_feed bytes.now }
    ensures within { result ≤ length bytes.now }
{
    bytes
        .iter()
        .position(|byte| *byte == b'\n')
        .unwrap_or(bytes.len())
}
