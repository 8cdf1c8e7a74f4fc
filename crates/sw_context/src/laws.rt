//! What holds of the bytes of every context.

ghost use Rattle.std.specs.Prelude.{◌≡◌, MatchResult, Result};
ghost use Rattle.sw_context.specs.Pairs.{Pairs, IsContext};
ghost use Rattle.sw_context.specs.Spelling.{IsReading, bytes_of};

use crate::error::ContextError;

/// From the bytes that `to_bytes` gives for a context, `from_bytes` gives that context, or runs out of memory.
pub fn spellings_read_back()
    ensures { (es : Pairs) (read : Result Pairs ContextError)
        → IsContext es → IsReading (bytes_of es) read
        → MatchResult read (λ c. c ≡ es) (λ e. e ≡ ContextError.OutOfMemory) }
{}
