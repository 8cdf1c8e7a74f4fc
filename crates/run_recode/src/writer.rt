//! A writer that recodes.

ghost use Rattle.std.specs.Prelude.{◌≡◌, [], None, IfOk, IfSome, OnErr, OnOk, length};
ghost use Rattle.std.specs.Arc.{arc_value};
ghost use Rattle.std.specs.Io.{WritesAtMost};
ghost use Rattle.std.specs.Io.KnownBytes.{Keeps, WriteAppends};
ghost use Rattle.cli_recode.specs.Recodings.{own_form};
ghost use Rattle.run_recode.specs.Flows.{known_without};
ghost use Rattle.run_recode.specs.Writers.{FlushesOn, IsWrittenSo, Sends, SendsOrBreaks, Takes, WritesOn};

use crate::flow::Flow;
use cli_recode::{Recoding, own_form};
use std::alloc::Global;
use std::io::{self, ErrorKind, Write};
use std::sync::Arc;

/// What recodes what is written.
pub(crate) struct WriteSide<E> {
    alloc: Global,
    recoding: Arc<Recoding>,
    flow: Flow,
    told: E,
}

// Written out, so that no caller proves again how its parts are dropped.
impl<E: Drop> Drop for WriteSide<E> {
    fn drop(self) {
        let WriteSide {
            alloc: _,
            recoding: _,
            flow: _,
            told: _,
        } = self;
    }
}

impl<E: Write> WriteSide<E> {
    // Writes what waits, and then takes all of a buffer.
    fn write<W: Write>(&mut self, inner: &mut W, buf: &[u8]) -> io::Result<usize>
        ensures bound { WritesAtMost result buf.now }
        ensures all { IfOk result (λ n. n ≡ length buf.now) }
        ensures takes { OnOk result (Takes (W.contents inner.old) self.old
            (W.contents inner.new) self.new buf.now) }
        ensures breaks { OnErr result (SendsOrBreaks (W.contents inner.old) self.old
            (W.contents inner.new) self.new) }
    {
        if self.flow.broken {
            return Err(io::Error::from(ErrorKind::OutOfMemory));
        }
        if self.flow.recoder.failed() {
            return Err(io::Error::from(ErrorKind::InvalidData));
        }
        self.flow.queue.write_to(inner)?;
        self.flow
            .feed(self.alloc, &self.recoding, buf, &mut self.told)?;
        Ok(buf.len())
    }

    // Writes what waits.
    fn flush<W: Write>(&mut self, inner: &mut W) -> io::Result<()>
        ensures sends { Sends (W.contents inner.old) self.old
            (W.contents inner.new) self.new }
        ensures all { OnOk result (self.new.flow.queue ≡ []) }
    {
        self.flow.queue.write_to(inner)?;
        inner.flush()
    }
}

/// A writer of the frames of another system, which takes those of the switch; or, without a profile, a writer
/// that writes the bytes as they are. What is not flushed when it is dropped is lost.
pub struct RecodedWriter<W, E> {
    inner: W,
    side: Option<WriteSide<E>>,
}

// Written out, so that no caller proves again how its parts are dropped.
impl<W: Drop, E: Drop> Drop for RecodedWriter<W, E> {
    fn drop(self) {
        let RecodedWriter { inner: _, side: _ } = self;
    }
}

impl<W: Write + Drop, E: Write + Drop> RecodedWriter<W, E> {
    /// A writer that writes the bytes to `inner` as they are.
    pub fn plain(inner: W) -> RecodedWriter<W, E>
        ensures inner { result.inner ≡ inner }
        ensures side { result.side ≡ None }
    {
        RecodedWriter { inner, side: None }
    }

    /// A writer to `inner`. Why a message is not recoded is written to `told`.
    pub fn new(alloc: Global, recoding: Arc<Recoding>, inner: W, told: E) -> RecodedWriter<W, E>
        ensures inner { result.inner ≡ inner }
        ensures begun { IfSome result.side (IsWrittenSo own_form (arc_value recoding) [] []) }
        ensures side { (result.side ≡ None) → ⊥ }
    {
        RecodedWriter {
            inner,
            side: Some(WriteSide {
                alloc,
                recoding,
                flow: Flow::new(alloc, own_form(alloc)),
                told,
            }),
        }
    }
}

impl<W: Write, E: Write> Write for RecodedWriter<W, E> {
    ghost use Rattle.run_recode.specs.Flows.{known_without};

    ghost contents = { λ w. known_without w.side (W.contents w.inner) };

    fn write(&mut self, buf: &[u8]) -> io::Result<usize>
        ensures bound { WritesAtMost result buf.now }
        ensures bytes { WriteAppends (known_without self.old.side (W.contents self.old.inner))
            (known_without self.new.side (W.contents self.new.inner)) result buf.now }
        ensures writes { IfSome self.old.side (λ s. IfSome self.new.side (λ t.
            WritesOn (W.contents self.old.inner) s (W.contents self.new.inner) t result buf.now)) }
    {
        match &mut self.side {
            None => self.inner.write(buf),
            Some(side) => side.write(&mut self.inner, buf),
        }
    }

    fn flush(&mut self) -> io::Result<()>
        ensures bytes { Keeps (known_without self.old.side (W.contents self.old.inner))
            (known_without self.new.side (W.contents self.new.inner)) }
        ensures flushes { IfSome self.old.side (λ s. IfSome self.new.side (λ t.
            FlushesOn (W.contents self.old.inner) s (W.contents self.new.inner) t result)) }
    {
        match &mut self.side {
            None => self.inner.flush(),
            Some(side) => side.flush(&mut self.inner),
        }
    }
}
