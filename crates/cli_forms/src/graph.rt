//! In which language a picture is written.

/// The language of a picture's text.
#[derive(Clone, Copy, PartialEq, Eq)]
pub enum GraphForm {
    /// Mermaid's flowchart, as GitHub shows it in Markdown.
    Mermaid,
    /// The DOT language of Graphviz.
    Dot,
}
