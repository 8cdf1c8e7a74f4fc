//! The mask of an account number (field 2 of ISO 8583:1987).
//!
//! [`push_masked_number`] adds an account number of which only the first six digits and the last four are shown;
//! of one with fewer than eleven digits none is shown. `specs/Masks.antt` has it as the function `masked_number`,
//! and [`masked_numbers_hide`] says what it hides.
//!
//! # What is proved
//!
//! A masked account number shows the first six digits and the last four, and of fewer than eleven
//! digits none (`masked_number`). Account numbers that differ only in what is masked have the same mask
//! (`masked_numbers_hide`).
#![tactic(auto)]

mod laws;
mod mask;

pub use laws::masked_numbers_hide;
pub use mask::push_masked_number;
