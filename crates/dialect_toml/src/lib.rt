//! Profile files: how another system writes messages and frames, written as TOML.
//!
//! ```toml
//! field = [
//!     { number = 2, class = "IFB_LLNUM", length = 19, pad = "right" },
//!     { number = 3, class = "IFB_NUMERIC", length = 6 },
//!     { number = 64, class = "IFB_BINARY", length = 8, keep = false },
//! ]
//!
//! [message]
//! type = "IFB_NUMERIC"
//! bitmap = "IFB_BITMAP"
//!
//! [frame]
//! length = "binary2"
//! header = "6000000000"
//! ```
//!
//! A class is a class name of jPOS: it says how a value is written (`kind_of` of
//! `specs/Shapes.antt`), and how many are counted before it (`lead_of`). [`Key`] says what values
//! each key may have.
//!
//! Promised here: [`read_profile`] returns exactly the profile that a text states, or its first
//! fault, with its key and its table. The faults come in this order:
//!
//! 1. The text is not TOML.
//! 2. A table has a fault of its own: the top table, then `frame`, then `message`, then each field
//!    in the order of the file. In a table the least unknown key comes first, then the least
//!    missing one, then the least with a value that may not stand there. In a field come then a pad
//!    of what is not padded, and an amount that is kept.
//! 3. A field has the number of an earlier one.
//! 4. `iso_dialect::Profile::check` refuses the draft that the tables state.
//!
//! # What is proved
//!
//! `read_profile` answers a profile exactly where the text is a profile file of it
//! (`IsProfileFile`): the document that `toml` parses from the text has no fault and states this
//! frame and this draft, and the draft has nothing to refuse for such a peer. Every refusal but out
//! of memory is the first fault in the specified order, with its key and its table, and with what
//! was found (`Refuses`). The draft has the row of a number exactly where a table has the number,
//! and it is what the words of that table mean (`each_field_has_its_row`, a law of the definitions).
//!
//! # Decisions
//!
//! - **The class names of jPOS are the words**, so that a packager can be copied line by line. What
//!   they mean here is written from public knowledge of jPOS. A length counts what it counts there:
//!   bytes of a binary class, and of an amount the sign too.
//! - **An unknown class is refused by its name**, and so is a pad beside a class that has none,
//!   which would be ignored otherwise.
//! - **An amount with a sign is never kept**: the switch has no such amounts. Its row says only how
//!   many bytes are passed over.
//! - **Without `page`, EBCDIC is page 1047**, as in jPOS. Without `frame`, nothing is said of
//!   frames.
//! - **All tables are tested by themselves before numbers are compared**, and then the draft is
//!   checked whole.
//! - **A fault of the draft is told in the words of the file**, as `expected keep = false`.
//! - **Out of memory says nothing of the text**: the TOML library takes memory before it reports a
//!   fault.
#![tactic(auto)]

mod error;
mod faults;
mod frame;
mod keys;
mod laws;
mod look;
mod read;
mod rows;
mod words;

pub use error::{FoundValue, ProfileFileError, TableError};
pub use frame::Frame;
pub use keys::{Key, Section, TablePath, Want};
pub use laws::each_field_has_its_row;
pub use read::{ProfileFile, read_profile};
pub use words::{FieldClass, FrameLength};

#[cfg(test)]
mod tests;
