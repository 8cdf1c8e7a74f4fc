use crate::{RecodedReader, RecodedWriter};
use cli_recode::{Instead, Plan, Recoding, Way, plan_of};
use dialect_toml::read_profile;
use iso_dialect::Peer;
use std::alloc::Global;
use std::io::{self, ErrorKind, Read, Write};
use std::sync::Arc;
use std::test::Fail;
use sw_participant::Text;

// Packed digits and a bitmap of bytes, in frames of two bytes of length. Field 38 has no table.
const PROFILE: &str = r#"
    field = [
        { number = 2, class = "IFB_LLNUM", length = 19 },
        { number = 3, class = "IFB_NUMERIC", length = 6 },
        { number = 4, class = "IFB_NUMERIC", length = 12 },
        { number = 7, class = "IFB_NUMERIC", length = 10 },
        { number = 11, class = "IFB_NUMERIC", length = 6 },
        { number = 39, class = "IF_CHAR", length = 2 },
        { number = 41, class = "IF_CHAR", length = 8 },
    ]
    [message]
    type = "IFB_NUMERIC"
    bitmap = "IFB_BITMAP"
    [frame]
    length = "binary2"
    most = 100
"#;

// The message 0800 with the fields 7, 11 and 41, by hand, in both spellings: 26 bytes packed and 44 in ASCII.
const PACKED: &[u8] =
    b"\x00\x1a\x08\x00\x02\x20\x00\x00\x00\x80\x00\x00\x12\x01\x04\x15\x30\x00\x00\x01TERM0001";

const ASCII: &[u8] = b"00440800022000000080000012010415300000\x301TERM0001";

// A frame of two bytes that are no message.
const BAD: &[u8] = b"\x00\x02\x99\x99";

// The response 0110 with the fields 7, 11, 38, 39 and 41, and the response of format error in its place.
const UNWRITABLE: &[u8] = b"00520110022000000680000012010415300000\x301ABC12300TERM0001";

const REFUSED: &[u8] =
    b"\x00\x1c\x01\x10\x02\x20\x00\x00\x02\x80\x00\x00\x12\x01\x04\x15\x30\x00\x00\x0130TERM0001";

// A reader that gives few bytes at a time, and then fails if it is asked to.
#[derive(Drop)]
struct Slow {
    bytes: Vec<u8>,
    at: usize,
    each: usize,
    fails_at: usize,
}

impl Read for Slow {
    fn read(&mut self, buf: &mut [u8]) -> io::Result<usize> {
        if self.at >= self.fails_at {
            return Err(io::Error::from(ErrorKind::ConnectionReset));
        }
        if self.at > self.bytes.len() {
            return Ok(0);
        }
        let rest = self.bytes.len() - self.at;
        let count = rest.min(self.each).min(buf.len());
        for i in 0..count {
            buf[i] = self.bytes[self.at + i];
        }
        self.at += count;
        Ok(count)
    }
}

// A writer that takes few bytes at a time, and fails once.
#[derive(Drop)]
struct Narrow {
    bytes: Vec<u8>,
    each: usize,
    fails_at: usize,
    has_failed: bool,
    flushes: u8,
}

impl Write for Narrow {
    fn write(&mut self, buf: &[u8]) -> io::Result<usize> {
        if self.bytes.len() >= self.fails_at && !self.has_failed {
            self.has_failed = true;
            return Err(io::Error::from(ErrorKind::BrokenPipe));
        }
        let count = buf.len().min(self.each);
        self.bytes.extend_from_slice(&buf[..count])?;
        Ok(count)
    }

    fn flush(&mut self) -> io::Result<()> {
        self.flushes = self.flushes.saturating_add(1);
        Ok(())
    }
}

fn plan(alloc: Global, way: Way, header: u8, instead: Instead) -> Option<Plan> {
    let Ok(file) = read_profile(alloc, PROFILE, Peer::Acquirer) else {
        return None;
    };
    let mut plan = plan_of(alloc, way, file);
    plan.recoding.header = header;
    plan.recoding.instead = instead;
    let Ok(place) = Text::from_str(alloc, "there: ") else {
        return None;
    };
    plan.recoding.place = place;
    Some(plan)
}

fn joined(alloc: Global, parts: &[&[u8]]) -> io::Result<Vec<u8>> {
    let mut all = Vec::new(alloc);
    for part in parts {
        all.extend_from_slice(part)?;
    }
    Ok(all)
}

// What a reader gives of these bytes, which it reads `each` at a time, with room for `room` bytes.
fn read(
    alloc: Global,
    header: u8,
    bytes: Vec<u8>,
    each: usize,
    room: usize,
    told: &mut Vec<u8>,
) -> io::Result<Vec<u8>> {
    let Some(plan) = plan(alloc, Way::FromOther, header, Instead::EmptyFrame) else {
        return Err(io::Error::from(ErrorKind::Other));
    };
    let slow = Slow {
        bytes,
        at: 0,
        each,
        fails_at: 10_000,
    };
    let recoding = Arc::new(alloc, plan.recoding)?;
    let mut reader = RecodedReader::new(alloc, recoding, plan.form, slow, told);
    let mut all = Vec::new(alloc);
    let mut buf = vec![in alloc; 0u8; room]?;
    for _ in 0..1_000u32 {
        let count = reader.read(&mut buf)?;
        if count == 0 {
            return Ok(all);
        }
        all.extend_from_slice(&buf[..count])?;
    }
    Err(io::Error::from(ErrorKind::TimedOut))
}

#[test]
fn frames_are_read_in_any_pieces(rt: HostRuntime) -> Result<(), Fail> {
    let alloc = rt.alloc();
    let wanted = joined(alloc, &[ASCII, b"0000", ASCII])?;
    for each in 1..40usize {
        let mut told = Vec::new(alloc);
        let bytes = joined(alloc, &[PACKED, BAD, PACKED])?;
        let got = read(alloc, 0, bytes, each, 1 + each % 7, &mut told)?;
        assert!(rt; got.as_slice() == wanted.as_slice());
        assert!(rt; told.starts_with(b"cardswitch: there: message 2: "));
        assert!(rt; told.ends_with(b"\n"));
    }
    Ok(())
}

#[test]
fn an_error_of_the_reader_loses_nothing(rt: HostRuntime) -> Result<(), Fail> {
    let alloc = rt.alloc();
    let Some(plan) = plan(alloc, Way::FromOther, 0, Instead::EmptyFrame) else {
        return Err(Fail::from(io::Error::from(ErrorKind::Other)));
    };
    let slow = Slow {
        bytes: joined(alloc, &[PACKED, PACKED])?,
        at: 0,
        each: 10,
        fails_at: 40,
    };
    let recoding = Arc::new(alloc, plan.recoding)?;
    let mut reader = RecodedReader::new(alloc, recoding, plan.form, slow, std::io::sink());
    let mut buf = [0; 64];
    let count = reader.read(&mut buf)?;
    assert!(rt; &buf[..count] == ASCII);
    match reader.read(&mut buf) {
        Ok(_) => assert!(rt; false),
        Err(error) => assert!(rt; error.kind() == ErrorKind::ConnectionReset),
    }
    Ok(())
}

fn written(
    alloc: Global,
    header: u8,
    instead: Instead,
    bytes: &[u8],
    each: usize,
    narrow: Narrow,
) -> io::Result<(Vec<u8>, bool)> {
    let Some(plan) = plan(alloc, Way::ToOther, header, instead) else {
        return Err(io::Error::from(ErrorKind::Other));
    };
    let mut inner = narrow;
    let mut told: Vec<u8> = Vec::new(alloc);
    let recoding: Arc<Recoding> = Arc::new(alloc, plan.recoding)?;
    let mut writer = RecodedWriter::new(alloc, recoding, &mut inner, &mut told);
    for piece in bytes.chunks(each.max(1)) {
        if writer.write_all(piece).is_err() {
            writer.write_all(piece)?;
        }
    }
    if writer.flush().is_err() {
        writer.flush()?;
    }
    drop(writer);
    let silent = told.is_empty();
    if inner.flushes != 1 {
        return Err(io::Error::from(ErrorKind::Other));
    }
    Ok((inner.bytes, silent))
}

fn taking_five(alloc: Global, fails_at: usize) -> Narrow {
    Narrow {
        bytes: Vec::new(alloc),
        each: 5,
        fails_at,
        has_failed: false,
        flushes: 0,
    }
}

#[test]
fn frames_are_written_in_any_pieces(rt: HostRuntime) -> Result<(), Fail> {
    let alloc = rt.alloc();
    let bytes = joined(alloc, &[ASCII, UNWRITABLE, ASCII])?;
    let answered = joined(alloc, &[PACKED, REFUSED, PACKED])?;
    let left_out = joined(alloc, &[PACKED, PACKED])?;
    for each in 1..60usize {
        let with = Instead::FormatError;
        let (got, silent) = written(alloc, 0, with, &bytes, each, taking_five(alloc, each))?;
        assert!(rt; got.as_slice() == answered.as_slice());
        assert!(rt; !silent);
        let with = Instead::Nothing;
        let (got, _) = written(alloc, 0, with, &bytes, each, taking_five(alloc, 1_000))?;
        assert!(rt; got.as_slice() == left_out.as_slice());
    }
    let (got, silent) = written(
        alloc,
        0,
        Instead::Nothing,
        ASCII,
        9,
        taking_five(alloc, 1_000),
    )?;
    assert!(rt; silent && got.as_slice() == PACKED);
    Ok(())
}
