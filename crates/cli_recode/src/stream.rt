//! A whole stream, read piece by piece.

ghost use Rattle.std.specs.Prelude.{◌≡◌, ◌<◌, length, IfErr, IfOk, None, OnOk};
ghost use Rattle.cli_io.specs.Errors.{IsOfWriting};
ghost use Rattle.cli_io.specs.Inputs.{IsSpentAt, reads_made, unread};
ghost use Rattle.cli_recode.specs.Progress.{IsQuiet, RecodingGoesOn, WritesPiece};
ghost use Rattle.cli_recode.specs.Streams.{IsRecodedBy, IsRecodedStream, read_form, recoding_of};

use crate::message::{Instead, Recoding, Way, own_form};
use crate::recoder::Recoder;
use cli_io::{Input, IoError, write_out};
use dialect_toml::{Frame, ProfileFile};
use std::alloc::Global;
use std::io::{Read, Write};
use sw_participant::Text;

/// How many bytes are read at once.
const PIECE: usize = 65_536;

// Writes the frames of what the messages are recoded to that a piece completes, and flushes.
fn write_piece<O: Write, E: Write>(
    alloc: Global,
    recoding: &Recoding,
    recoder: &mut Recoder,
    piece: &[u8],
    out: &mut O,
    err: &mut E,
) -> Result<(), IoError>
    ensures written { OnOk result (WritesPiece recoding.now piece.now
        (record { unread = None; written = O.contents out.old; reported = E.contents err.old })
        recoder.old
        (record { unread = None; written = O.contents out.new; reported = E.contents err.new })
        recoder.new) }
    ensures writing { IfErr result IsOfWriting }
{
    let frames = recoder.piece(alloc, recoding, piece, err)?;
    write_out(out, &frames)?;
    Ok(())
}

// Reads a piece, and writes what becomes of it. Answers whether more may come.
fn recode_piece<R: Read, O: Write, E: Write>(
    alloc: Global,
    recoding: &Recoding,
    input: &mut Input<R>,
    recoder: &mut Recoder,
    buf: &mut [u8],
    out: &mut O,
    err: &mut E,
) -> Result<bool, IoError>
    requires { length buf.old ≡ 65536 }
    ensures goes_on { IfOk result (RecodingGoesOn recoding.now
        (record {
          unread = unread R.remaining input.old;
          written = O.contents out.old;
          reported = E.contents err.old;
        })
        recoder.old
        (record {
          unread = unread R.remaining input.new;
          written = O.contents out.new;
          reported = E.contents err.new;
        })
        recoder.new) }
    ensures counted { IfOk result (λ more. reads_made input.old < reads_made input.new) }
    ensures too_many { IfErr result (IsSpentAt (reads_made input.new)) }
{
    let count = input.read_piece(buf)?;
    if count == 0 {
        return Ok(false);
    }
    write_piece(alloc, recoding, recoder, &buf[..count], out, err)?;
    Ok(!recoder.failed())
}

/// The recoding of a stream, and the form of the frames that are read.
#[derive(Drop)]
pub struct Plan {
    pub recoding: Recoding,
    pub form: Frame,
}

/// The recoding by a profile file, and the form of the frames that are read then. No header stands before a
/// message, and nothing is written for one that is not recoded; who wants otherwise changes that.
pub fn plan_of(alloc: Global, way: Way, file: ProfileFile) -> Plan
    ensures recoding { result.recoding ≡ recoding_of way file }
    ensures form { result.form ≡ read_form way file }
{
    let ProfileFile { frame, profile } = file;
    let own = own_form(alloc);
    let other = match frame {
        Some(form) => form,
        None => own_form(alloc),
    };
    let (form, written) = match way {
        Way::FromOther => (other, own),
        Way::ToOther => (own, other),
    };
    let recoding = Recoding {
        way,
        profile,
        form: written,
        header: 0,
        instead: Instead::Nothing,
        place: Text::new(String::new(alloc)),
    };
    Plan { recoding, form }
}

// Recodes a stream of frames of this form.
fn recode_by<R: Read, O: Write, E: Write>(
    alloc: Global,
    recoding: &Recoding,
    form: Frame,
    input: &mut Input<R>,
    out: &mut O,
    err: &mut E,
) -> Result<bool, IoError>
    ensures recoded { IfOk result (IsRecodedBy form recoding.now (unread R.remaining input.old)
        (O.contents out.old) (O.contents out.new)) }
    ensures quiet { IfOk result (λ refused. IsQuiet refused (E.contents err.old)
        (E.contents err.new)) }
    ensures too_many { IfErr result (IsSpentAt (reads_made input.new)) }
{
    let mut recoder = Recoder::new(alloc, form);
    let mut buf = [0u8; PIECE];
    loop {
        let more = recode_piece(alloc, recoding, input, &mut recoder, &mut buf, out, err)?;
        if !more {
            return Ok(recoder.finish(&recoding.place, err));
        }
    }
}

/// Writes to `out` the frames of what the messages of an input are recoded to, with a flush after each read,
/// and answers whether anything in it was refused, which is reported on `err`. It keeps no more than a
/// piece of 65,536 bytes, the frames of its messages and an unfinished frame.
///
/// Too many reads are reported only for an input that was read 1,048,576 times. What was written before an
/// error remains.
pub fn recode_stream<R: Read, O: Write, E: Write>(
    alloc: Global,
    way: Way,
    file: ProfileFile,
    input: &mut Input<R>,
    out: &mut O,
    err: &mut E,
) -> Result<bool, IoError>
    ensures recoded { IfOk result (IsRecodedStream way file (unread R.remaining input.old)
        (O.contents out.old) (O.contents out.new)) }
    ensures quiet { IfOk result (λ refused. IsQuiet refused (E.contents err.old)
        (E.contents err.new)) }
    ensures too_many { IfErr result (IsSpentAt (reads_made input.new)) }
{
    let Plan { recoding, form } = plan_of(alloc, way, file);
    recode_by(alloc, &recoding, form, input, out, err)
}
