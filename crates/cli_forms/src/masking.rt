//! Whether sensitive fields are masked.

/// Whether a text masks the sensitive fields of messages.
#[derive(Clone, Copy, PartialEq, Eq)]
pub enum Masking {
    /// Each field is shown whole.
    Off,
    /// Field 2 shows only its first six digits and its last four, and none of them if it has fewer than eleven.
    /// Fields 35, 45, 52, 55, 64 and 128 show only their lengths.
    On,
}
