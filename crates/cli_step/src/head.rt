//! The head of a script, read line by line.

ghost use Rattle.std.specs.Prelude.{◌≡◌, ◌≤◌, ◌^◌, IfOk, false, length, true};
ghost use Rattle.cli_lines.specs.Lines.{room, to_come};
ghost use Rattle.cli_script.specs.Heads.{HeadOf, IsNoSetting, IsPlacedSetting};

use crate::error::StepError;
use cli_io::IoError;
use cli_lines::Lines;
use cli_script::{ScriptError, next_setting};
use std::alloc::Global;
use std::io::Read;

// Whether the line is a setting that is allowed at the head of a script.
fn is_setting(alloc: Global, has_file: bool, line: &[u8]) -> Result<bool, StepError>
    ensures setting { IfOk result (λ is. is ≡ true → IsPlacedSetting has_file line.now) }
    ensures none { IfOk result (λ is. is ≡ false → IsNoSetting has_file line.now) }
{
    match next_setting(alloc, has_file, 0, line) {
        Ok(next) => Ok(next.is_some()),
        Err(ScriptError::OutOfMemory) => Err(StepError::Io(IoError::OutOfMemory)),
        Err(_) => Ok(false),
    }
}

/// Reads the head of a script: its settings, and the first line that is not a setting, if there is one.
pub fn read_head<R: Read>(
    alloc: Global,
    has_file: bool,
    lines: &mut Lines<R>,
) -> Result<Vec<u8>, StepError>
    ensures head { IfOk result (λ head. HeadOf has_file (to_come R.remaining lines.old)
        (to_come R.remaining lines.new) head.items) }
    ensures few { IfOk result (λ head. length head.items ≤ room lines.old) }
    ensures small { room lines.old ≤ 2 ^ 32 }
    ensures small_left { room lines.new ≤ 2 ^ 32 }
{
    let mut head = Vec::new(alloc);
    while let Some(line) = lines.next(alloc)? {
        head.extend_from_slice(line.as_slice())?;
        if !is_setting(alloc, has_file, line.as_slice())? {
            return Ok(head);
        }
    }
    Ok(head)
}
