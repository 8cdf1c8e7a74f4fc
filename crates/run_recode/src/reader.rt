//! A reader that recodes.

ghost use Rattle.std.specs.Prelude.{◌≡◌, ◌<◌, [], None, IfOk, IfSome, OnErr, OnOk, false, length, take};
ghost use Rattle.std.specs.Arc.{arc_value};
ghost use Rattle.std.specs.Io.{ReadsAtMost};
ghost use Rattle.std.specs.Io.KnownBytes.{Consumes, Keeps, ReadConsumes};
ghost use Rattle.run_recode.specs.Flows.{IsOver, known_without};
ghost use Rattle.run_recode.specs.Readers.{Gives, IsEnd, IsNew, ReadsOn, Steps, StepsOrBreaks};

use crate::flow::Flow;
use cli_recode::Recoding;
use dialect_toml::Frame;
use std::alloc::Global;
use std::io::{self, ErrorKind, Read, Write};
use std::sync::Arc;

/// After this many reads inside, of which none completes a message, a reader is given up.
const MOST_READS: u64 = u64::MAX;

/// What recodes what is read.
pub(crate) struct ReadSide<E> {
    alloc: Global,
    recoding: Arc<Recoding>,
    flow: Flow,
    /// Whether the tail of the stream waits, or is given.
    ended: bool,
    told: E,
}

// Written out, so that no caller proves again how its parts are dropped.
impl<E: Drop> Drop for ReadSide<E> {
    fn drop(self) {
        let ReadSide {
            alloc: _,
            recoding: _,
            flow: _,
            ended: _,
            told: _,
        } = self;
    }
}

impl<E: Write> ReadSide<E> {
    // Reads once inside; nothing after a bad length, which ends a stream.
    fn read_inside<R: Read>(&self, inner: &mut R, buf: &mut [u8]) -> io::Result<usize>
        ensures bound { ReadsAtMost result buf.new }
        ensures taken { IfOk result (λ n.
            Consumes (R.remaining inner.old) (R.remaining inner.new) (take n buf.new)) }
        ensures kept { OnErr result (Keeps (R.remaining inner.old) (R.remaining inner.new)) }
        ensures over { IfOk result (λ n. n ≡ 0 → 0 < length buf.new
            → IsOver (R.remaining inner.new) self.now.flow) }
    {
        if self.flow.recoder.failed() {
            return Ok(0);
        }
        inner.read(buf)
    }

    // Reads once inside, where nothing waits and the stream has not ended. `buf` has room for that.
    fn advance<R: Read>(&mut self, inner: &mut R, buf: &mut [u8]) -> io::Result<()>
        requires room { 0 < length buf.old }
        requires empty { self.old.flow.queue ≡ [] }
        requires open { self.old.ended ≡ false }
        ensures steps { OnOk result (Steps (R.remaining inner.old) self.old
            (R.remaining inner.new) self.new) }
        ensures breaks { OnErr result (StepsOrBreaks (R.remaining inner.old) self.old
            (R.remaining inner.new) self.new) }
    {
        if self.flow.broken {
            return Err(io::Error::from(ErrorKind::OutOfMemory));
        }
        let count = self.read_inside(inner, buf)?;
        if count == 0 {
            self.flow.end(self.alloc, &self.recoding, &mut self.told)?;
            self.ended = true;
            return Ok(());
        }
        let piece = &buf[..count];
        self.flow
            .feed(self.alloc, &self.recoding, piece, &mut self.told)?;
        Ok(())
    }

    // Reads inside until something waits, and gives that.
    fn read<R: Read>(&mut self, inner: &mut R, buf: &mut [u8]) -> io::Result<usize>
        ensures bound { ReadsAtMost result buf.new }
        ensures gives { IfOk result (λ n. Gives (R.remaining inner.old) self.old
            (R.remaining inner.new) self.new (take n buf.new)) }
        ensures breaks { OnErr result (StepsOrBreaks (R.remaining inner.old) self.old
            (R.remaining inner.new) self.new) }
        ensures ends { IfOk result (λ n. n ≡ 0 → 0 < length buf.new
            → IsEnd self.new) }
    {
        if buf.is_empty() {
            return Ok(0);
        }
        for _ in 0..MOST_READS {
            if self.ended || !self.flow.queue.is_empty() {
                return Ok(self.flow.queue.take_into(buf));
            }
            self.advance(inner, buf)?;
        }
        Err(io::Error::from(ErrorKind::TimedOut))
    }
}

/// A reader of the frames of another system, which gives those of the switch; or, without a profile, a reader
/// that gives the bytes as they are.
pub struct RecodedReader<R, E> {
    inner: R,
    side: Option<ReadSide<E>>,
}

// Written out, so that no caller proves again how its parts are dropped.
impl<R: Drop, E: Drop> Drop for RecodedReader<R, E> {
    fn drop(self) {
        let RecodedReader { inner: _, side: _ } = self;
    }
}

impl<R: Read + Drop, E: Write + Drop> RecodedReader<R, E> {
    /// A reader that gives the bytes of `inner` as they are.
    pub fn plain(inner: R) -> RecodedReader<R, E>
        ensures inner { result.inner ≡ inner }
        ensures side { result.side ≡ None }
    {
        RecodedReader { inner, side: None }
    }

    /// A reader of `inner`, whose frames have this form. Why a message is not recoded is written to `told`.
    pub fn new(
        alloc: Global,
        recoding: Arc<Recoding>,
        form: Frame,
        inner: R,
        told: E,
    ) -> RecodedReader<R, E>
        ensures inner { result.inner ≡ inner }
        ensures begun { IsNew form (arc_value recoding) result.side }
        ensures side { (result.side ≡ None) → ⊥ }
    {
        RecodedReader {
            inner,
            side: Some(ReadSide {
                alloc,
                recoding,
                flow: Flow::new(alloc, form),
                ended: false,
                told,
            }),
        }
    }
}

impl<R: Read, E: Write> Read for RecodedReader<R, E> {
    ghost use Rattle.run_recode.specs.Flows.{known_without};

    ghost remaining = { λ r. known_without r.side (R.remaining r.inner) };

    fn read(&mut self, buf: &mut [u8]) -> io::Result<usize>
        ensures bound { ReadsAtMost result buf.new }
        ensures bytes { ReadConsumes (known_without self.old.side (R.remaining self.old.inner))
            (known_without self.new.side (R.remaining self.new.inner)) result buf.new }
        ensures reads { IfSome self.old.side (λ s. IfSome self.new.side (λ t.
            ReadsOn (R.remaining self.old.inner) s (R.remaining self.new.inner) t result buf.new)) }
        ensures ends { IfOk result (λ n. n ≡ 0 → 0 < length buf.new → IfSome self.new.side IsEnd) }
    {
        match &mut self.side {
            None => self.inner.read(buf),
            Some(side) => side.read(&mut self.inner, buf),
        }
    }
}
