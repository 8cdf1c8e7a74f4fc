//! The subcommand `journal`: what the journal in a file holds, by a copy of the file.

ghost use Rattle.std.specs.Prelude.{◌≡◌, IfErr, IfOk, OnOk};
ghost use Rattle.std.specs.Io.KnownBytes.{Appends};
ghost use Rattle.cli_io.specs.Errors.{IsOfWriting};
ghost use Rattle.cli_io.specs.Written.{AppendsBeginning};
ghost use Rattle.journal_copy.specs.Found.{IfBadRow, IfRest};
ghost use Rattle.cardswitch.specs.Looking.{IsCopyFault, IsFoundFault, IsLookFault, IsLooked, IsSight};
ghost use Rattle.cardswitch.specs.Looking.{error_of_row, seen_text, shown_text};

use crate::error::{JournalFault, RunError};
use crate::journals::refusal;
use cli_io::IoError;
use cli_journal::show;
use cli_options::choice::JournalOptions;
use journal_copy::{CopyError, FoundJournal, LookError, Rest, copy_files, look};
use journal_rows::BadRow;
use journal_store::JournalError;
use std::alloc::Global;
use std::fs::Files;
use std::io::Write;
use sw_participant::Text;
use tx_history::JournalView;

// The error of a file that was not copied.
fn uncopied(alloc: Global, path: &str, error: CopyError) -> RunError
    ensures { IsFoundFault path.now result }
{
    match error {
        CopyError::Open(error) => refusal(alloc, path, JournalFault::Open(error)),
        CopyError::Changed => refusal(alloc, path, JournalFault::Changed),
        CopyError::Io(IoError::OutOfMemory) => RunError::OutOfMemory,
        CopyError::Io(error) => refusal(alloc, path, JournalFault::Read(error)),
    }
}

/// What is shown of a journal: all of it, or, if rows are at fault, the first of them and everything but those
/// rows.
#[derive(Drop)]
enum Sight {
    Whole(FoundJournal),
    Beside { bad: BadRow, rest: Rest },
}

// The error of a row at fault, as `run` reports it.
fn bad_row(path: Text, bad: BadRow) -> RunError
    ensures { result ≡ error_of_row path bad }
{
    let cause = JournalError::BadRow(bad);
    RunError::Journal { path, cause }
}

// What is shown of a copy that holds no sound journal: if rows are at fault, everything else.
fn in_part(alloc: Global, path: &str, error: LookError) -> Result<Sight, RunError>
    requires bad { IfBadRow IsCopyFault error }
    requires rest { IfRest error }
    ensures sight { IfOk result IsSight }
    ensures failed { IfErr result (IsFoundFault path.now) }
{
    match error {
        LookError::NotAJournal => Err(refusal(alloc, path, JournalFault::NotAJournal)),
        LookError::Database(error) => Err(refusal(alloc, path, JournalFault::Database(error))),
        LookError::OutOfMemory => Err(RunError::OutOfMemory),
        LookError::BadRow { bad, rest: None } => Err(bad_row(Text::from_str(alloc, path)?, bad)),
        LookError::BadRow {
            bad,
            rest: Some(rest),
        } => Ok(Sight::Beside { bad, rest }),
    }
}

// What is shown of the journal of the file at a path.
fn sight_of<F: Files>(alloc: Global, files: &F, path: &str) -> Result<Sight, RunError>
    ensures sight { IfOk result IsSight }
    ensures failed { IfErr result (IsFoundFault path.now) }
{
    let copy = match copy_files(alloc, files, path) {
        Ok(copy) => copy,
        Err(error) => return Err(uncopied(alloc, path, error)),
    };
    match look(alloc, copy.db.as_slice(), copy.log.as_slice()) {
        Ok(found) => Ok(Sight::Whole(found)),
        Err(error) => in_part(alloc, path, error),
    }
}

// Writes what is printed of a journal without these rows at fault; after an error, a beginning of it.
fn print_rows<O: Write>(
    alloc: Global,
    options: &JournalOptions<'_>,
    layout: u64,
    left_out: &[BadRow],
    view: &JournalView,
    out: &mut O,
) -> Result<(), IoError>
    ensures written { OnOk result (Appends (O.contents out.old) (O.contents out.new)
        (shown_text options.now layout left_out.now view.now)) }
    ensures writing { IfErr result IsOfWriting }
    ensures beginning { AppendsBeginning (O.contents out.old) (O.contents out.new)
        (shown_text options.now layout left_out.now view.now) }
{
    show(alloc, options.style, layout, left_out, view, out)
}

// Writes what is printed of a journal.
fn print<O: Write>(
    alloc: Global,
    options: &JournalOptions<'_>,
    sight: &Sight,
    out: &mut O,
) -> Result<(), IoError>
    ensures written { OnOk result (Appends (O.contents out.old) (O.contents out.new)
        (seen_text options.now sight.now)) }
    ensures writing { IfErr result IsOfWriting }
    ensures beginning { AppendsBeginning (O.contents out.old) (O.contents out.new)
        (seen_text options.now sight.now) }
{
    match sight {
        Sight::Whole(found) => print_rows(alloc, options, found.layout, &[], &found.view, out),
        Sight::Beside { rest, .. } => {
            let left_out = rest.left_out.as_slice();
            print_rows(alloc, options, rest.layout, left_out, &rest.view, out)
        }
    }
}

/// Prints what the journal of the file at a path holds, and changes nothing. If rows of the journal are at fault,
/// it prints everything else, and reports the first of them as an error.
pub fn look_into<F: Files, O: Write>(
    alloc: Global,
    files: &F,
    options: &JournalOptions<'_>,
    out: &mut O,
) -> Result<(), RunError>
    ensures looked { OnOk result (IsLooked options.now (O.contents out.old) (O.contents out.new)) }
    ensures failed { IfErr result
        (IsLookFault options.now (O.contents out.old) (O.contents out.new)) }
{
    let path = Text::from_str(alloc, options.path)?;
    let sight = sight_of(alloc, files, options.path)?;
    print(alloc, options, &sight, out)?;
    match sight {
        Sight::Whole(_) => Ok(()),
        Sight::Beside { bad, .. } => Err(bad_row(path, bad)),
    }
}
