//! Images of flows: the numbered steps of a flow as lines of text.
//!
//! The flow whose group `main` has the entries check and send, without marks or retries, has the
//! image
//!
//! ```text
//! image 1 0 2 1 3
//! part 0 check plain
//! part 1 send plain
//! group 0 main 0
//! 0 call 0
//! 1 call 1
//! 2 return
//! ```
//!
//! The first line has the version (2 if a participant recovers), the retries and the numbers of
//! participants, groups and steps. Then come the participants with their marks, the groups with their
//! first steps, and the steps, each numbered from 0.
//!
//! # What is proved
//!
//! `image` writes the image of a code's flow (`image_of`). `load` answers a code exactly where the
//! bytes are the image of a checked flow, and the code is that flow's (`found`, `only`). Otherwise it
//! answers the first fault in the specified order (`exact`), out of memory aside. It reports out of
//! memory only where no line has a fault by itself, nor the version (`last`); a fault of the lines
//! together or of the flow may still give way to it.
//!
//! # Decisions
//!
//! - **Out of memory in `load` is reported after the faults of single lines and of the version.** Where
//!   memory is refused, the bytes are looked over again without it. A fault of the lines together or of
//!   the flow (BadTarget, NoReturn, Flow) may still give way to OutOfMemory. To find those, the lines
//!   are read and kept, and a map of the names and the flow that the lines lay out are made.
//!   Alternative: a reader that goes back over the bytes for each name and for each call's participant.
//! - **A line's form does not depend on the version.** `recover` under version 1, and version 2 without
//!   it, are faults only once every line is of its form and in its place.
//! - **A number over 100,000 is not of its form**, so it is BadLine, also as the line's own number, and
//!   BadHeader in the first line; as are a leading zero there and a version other than 1 and 2.
//! - **A line that is missing and one without its line feed are the same fault.** Where there are more
//!   bytes than the first line counts, the first surplus line is named, with or without its line feed.
//! - **A selector's call without its pick is the fault of the call's line**, whatever comes after it,
//!   also where the steps end; so it comes before NoReturn.
//! - **A group's START is tested before its steps**: where no step is left, a wrong START is BadTarget,
//!   and a right one NoReturn.
//! - **Marks are spelled by one table of eight kinds**, which reading searches. Alternative: a grammar
//!   of marks.
//! - **Doubled names and clashing kinds are found through maps.**
#![tactic(auto)]

mod error;
mod forms;
mod groups;
mod lines;
mod look;
mod print;
mod reader;
mod words;

pub use error::LoadError;
pub use print::image;
pub use reader::load;
