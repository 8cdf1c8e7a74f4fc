//! Bytes that were read, given line by line.
ghost use Rattle.std.specs.Prelude.{◌≤◌, length};

use crate::feeds::line_end;
use std::alloc::{AllocError, Global};

/// Bytes that were read, and how many of them are given.
#[derive(Drop)]
pub struct Piece {
    bytes: Vec<u8>,
    given: usize,
    ghost within: { given ≤ length bytes.items },
}

impl Piece {
    ghost use Rattle.std.specs.Prelude.{◌≡◌, ◌++◌, ◌≤◌, [], IfOk, OnErr, OnOk, length};
    ghost use Rattle.std.specs.List.{after_first};
    ghost use Rattle.cli_lines.specs.Feeds.{first_line, has_line_feed, is_line_feed};
    ghost use Rattle.cli_lines.specs.Pieces.{left};

    /// A piece of these bytes, of which none is given.
    pub fn new(bytes: Vec<u8>) -> Piece
        ensures { left result ≡ bytes.items }
    {
        Piece { bytes, given: 0 }
    }

    /// Adds to a line the bytes that are left, up to the first line feed and with it, or all of them
    /// if there is none; returns whether there is one.
    pub fn give(&mut self, line: &mut Vec<u8>) -> Result<bool, AllocError>
        ensures gives { OnOk result (line.new.items ≡ line.old.items
            ++ first_line (left self.old)) }
        ensures leaves { OnOk result (left self.new ≡ after_first is_line_feed (left self.old)) }
        ensures ends { IfOk result (λ ends. ends ≡ has_line_feed (left self.old)) }
        ensures kept { OnErr result (left self.new ≡ left self.old) }
        ensures fewer { length (left self.new) ≤ length (left self.old) }
    {
        let left = &self.bytes[self.given..];
        let end = line_end(left);
        let ends = end < left.len();
        let taken = left.len().min(end + 1);
        line.extend_from_slice(&left[..taken])?;
        self.given += taken;
        Ok(ends)
    }
}
