//! What the thread that reads does.

ghost use Rattle.std.specs.Prelude.{◌≡◌, ◌++◌, ◌∷◌, [], ℕ, List, Option, OnOk};
ghost use Rattle.sw_frame.specs.Feeds.{messages};
ghost use Rattle.sw_frame.specs.Stream.{State};
ghost use Rattle.run_input.specs.Arrivals.{Came, CameSo};

use crate::arrival::{Arrival, ReadError, arrival_of};
use crate::frames::{Frames, PIECE, Piece, StreamEnd};
use crate::queue::{Input, Queue};
use cli_io::IoError;
use std::alloc::Global;
use std::io::Read;
use std::sync::Wait;
use tx_intake::Putter;

// Puts the messages of the frames of a piece, one after the other.
fn put_messages<B: Input, T: Wait>(
    rt: &T,
    alloc: Global,
    queue: &Queue<B>,
    putter: &mut Putter<Arrival>,
    header: usize,
    count: &mut u64,
    list: &[Vec<u8>],
) -> Result<(), ReadError>
    requires header { header ≡ B.header }
    requires own { putter.old.intake ≡ queue.now.intake.id }
    requires so { (left : Option (List ℕ)) × (s : State)
        × CameSo B.header B.input left s putter.old.passed (messages list.now) }
    ensures own { putter.new.intake ≡ queue.now.intake.id }
    ensures so { OnOk result ((left : Option (List ℕ)) (s : State)
        → CameSo B.header B.input left s putter.old.passed (messages list.now)
        → CameSo B.header B.input left s putter.new.passed []) }
    ensures some { (left : Option (List ℕ)) (s : State)
        → CameSo B.header B.input left s putter.old.passed (messages list.now)
        → (more : List (List ℕ)) × CameSo B.header B.input left s putter.new.passed more }
{
    for frame in list {
        *count = count.saturating_add(1);
        let arrival = arrival_of(alloc, *count, header, frame)?;
        queue.put(rt, putter, arrival);
    }
    Ok(())
}

// Reads an input to its end, and puts its messages as they come. How it ended, which is still to be put.
fn put_all<R: Read + Drop, B: Input, T: Wait>(
    rt: &T,
    alloc: Global,
    queue: &Queue<B>,
    putter: &mut Putter<Arrival>,
    header: usize,
    input: R,
) -> Result<StreamEnd, ReadError>
    requires header { header ≡ B.header }
    requires own { putter.old.intake ≡ queue.now.intake.id }
    requires none { putter.old.passed ≡ [] }
    requires input { R.remaining input ≡ B.input }
    ensures own { putter.new.intake ≡ queue.now.intake.id }
    ensures ends { Came B.header B.input (putter.new.passed ++ Arrival.Ended result ∷ []) }
{
    let mut input = input;
    let mut frames = Frames::new(alloc);
    let mut buf = vec![in alloc; 0u8; PIECE]?;
    for _ in rt.forever() {
        let Piece { messages, end } = frames.read(alloc, &mut input, buf.as_mut_slice())?;
        put_messages(
            rt,
            alloc,
            queue,
            putter,
            header,
            &mut frames.count,
            &messages,
        )?;
        if let Some(end) = end {
            return Ok(end);
        }
    }
    unreachable!()
}

/// Reads an input to its end, and puts what comes of it; at last how it ended.
pub(crate) fn read_all<R: Read + Drop, B: Input, T: Wait>(
    rt: &T,
    alloc: Global,
    queue: &Queue<B>,
    putter: Putter<Arrival>,
    header: usize,
    input: R,
)
    requires header { header ≡ B.header }
    requires own { putter.intake ≡ queue.now.intake.id }
    requires none { putter.passed ≡ [] }
    requires input { R.remaining input ≡ B.input }
{
    let mut putter = putter;
    let ended = put_all(rt, alloc, queue, &mut putter, header, input);
    queue.put(rt, &mut putter, Arrival::Ended(ended));
}
