//! In which form a journal is shown.

use crate::masking::Masking;

/// Lines of text, or lines of JSON.
#[derive(Clone, Copy)]
pub enum JournalForm {
    Text,
    /// Each line is an object.
    Json,
}

/// The form in which a journal is shown, and whether it is masked.
#[derive(Clone, Copy)]
pub struct Style {
    pub form: JournalForm,
    pub masking: Masking,
}
