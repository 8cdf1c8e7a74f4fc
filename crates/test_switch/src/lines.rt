//! The lines that the program adds to those of a script.

use cli_io::IoError;
use std::io::Write;
use sw_participant::Station;
use tx_history::JournalView;
use tx_trace::PhaseText;

fn run_line<W: Write>(calls: &[u64], out: &mut W) -> std::io::Result<()> {
    write!(out, "run")?;
    for count in calls.iter().filter(|count| **count < u64::MAX) {
        write!(out, " {count}")?;
    }
    writeln!(out)
}

/// `run CALLS[ CALLS]`
pub fn write_run<W: Write>(calls: &[u64], out: &mut W) -> Result<(), IoError> {
    run_line(calls, out).map_err(IoError::from_write)
}

fn view_line<W: Write>(word: &str, view: &JournalView, out: &mut W) -> std::io::Result<()> {
    let next_id = view.next_id;
    write!(out, "{word} {next_id}")?;
    for (id, row) in view.rows.as_slice() {
        let phase = PhaseText(row.phase);
        write!(out, " row {id} {phase}")?;
    }
    for (id, _) in view.shelf.as_slice() {
        write!(out, " shelf {id}")?;
    }
    for ((id, place), _) in view.advices.as_slice() {
        write!(out, " advice {id} {place}")?;
    }
    writeln!(out)
}

/// `WORD NEXTID[ row ID PHASE ..][ shelf ID ..][ advice ID PLACE ..]`
pub fn write_view<W: Write>(word: &str, view: &JournalView, out: &mut W) -> Result<(), IoError> {
    view_line(word, view, out).map_err(IoError::from_write)
}

/// `calls NAME COUNT` for each station.
pub fn write_calls<W: Write>(stations: &[Station], out: &mut W) -> Result<(), IoError> {
    for station in stations {
        let (name, count) = (station.name(), station.calls());
        writeln!(out, "calls {name} {count}").map_err(IoError::from_write)?;
    }
    out.flush().map_err(IoError::from_write)
}
