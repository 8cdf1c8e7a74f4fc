//! The groups of a flow, each with its entries.

ghost use Rattle.std.specs.Prelude.{◌≡◌, Some};
ghost use Rattle.cli_graph.specs.Picture as spec;

use cli_forms::GraphForm;
use flow_model::{Entry, Group};
use std::fmt;
use sw_participant::Kind;

// The marks of a participant that its shape does not show.
fn marks(kind: Kind) -> &'static str
    ensures { result.now ≡ spec.marks_text kind }
{
    match (kind.abort_aware, kind.recovers) {
        (false, false) => "",
        (true, false) => " (abort-aware)",
        (false, true) => " (recovering)",
        (true, true) => " (abort-aware, recovering)",
    }
}

// What comes before and after a node's label. A selector is a hexagon, any other participant a rectangle.
fn node_open(form: GraphForm, selector: bool) -> &'static str
    ensures { result.now ≡ spec.node_open form selector }
{
    match (form, selector) {
        (GraphForm::Mermaid, false) => "[\"",
        (GraphForm::Mermaid, true) => "{{\"",
        (GraphForm::Dot, _) => " [label=\"",
    }
}

fn node_close(form: GraphForm, selector: bool) -> &'static str
    ensures { result.now ≡ spec.node_close form selector }
{
    match (form, selector) {
        (GraphForm::Mermaid, false) => "\"]",
        (GraphForm::Mermaid, true) => "\"}}",
        (GraphForm::Dot, false) => "\", shape=box];",
        (GraphForm::Dot, true) => "\", shape=hexagon];",
    }
}

#[derive(Drop)]
struct EntryNode<'a> {
    form: GraphForm,
    group: usize,
    index: usize,
    entry: &'a Entry,
}

impl fmt::Display for EntryNode<'_> {
    ghost output = { λ n. Some (spec.entry_text n.form n.group n.index n.entry.now) };

    fn fmt<W: fmt::Write>(&self, f: &mut fmt::Formatter<W>) -> fmt::Result {
        let (group, index) = (self.group, self.index);
        let name = self.entry.participant.as_str();
        let marks = marks(self.entry.kind);
        let open = node_open(self.form, self.entry.kind.selector);
        let close = node_close(self.form, self.entry.kind.selector);
        write!(f, "    e{group}_{index}{open}{name}{marks}{close}\n")
    }
}

#[derive(Drop)]
struct EntryNodes<'a> {
    form: GraphForm,
    group: usize,
    entries: &'a [Entry],
}

impl fmt::Display for EntryNodes<'_> {
    ghost output = { λ n. Some (spec.texts (spec.entry_text n.form n.group) 0 n.entries.now) };

    fn fmt<W: fmt::Write>(&self, f: &mut fmt::Formatter<W>) -> fmt::Result {
        for (index, entry) in self.entries.iter().enumerate() {
            let node = EntryNode {
                form: self.form,
                group: self.group,
                index,
                entry,
            };
            write!(f, "{node}")?;
        }
        Ok(())
    }
}

// What comes before a box's number, before its label and after its label.
fn box_open(form: GraphForm) -> &'static str
    ensures { result.now ≡ spec.box_open form }
{
    match form {
        GraphForm::Mermaid => "group",
        GraphForm::Dot => "cluster",
    }
}

fn label_open(form: GraphForm) -> &'static str
    ensures { result.now ≡ spec.label_open form }
{
    match form {
        GraphForm::Mermaid => " [\"",
        GraphForm::Dot => " {\n    label=\"",
    }
}

fn label_close(form: GraphForm) -> &'static str
    ensures { result.now ≡ spec.label_close form }
{
    match form {
        GraphForm::Mermaid => "\"]",
        GraphForm::Dot => "\";",
    }
}

// The first lines of a group's box.
#[derive(Drop)]
struct BoxLabel<'a> {
    form: GraphForm,
    number: usize,
    name: &'a str,
}

impl fmt::Display for BoxLabel<'_> {
    ghost output = { λ l. Some (spec.box_label l.form l.number l.name.now) };

    fn fmt<W: fmt::Write>(&self, f: &mut fmt::Formatter<W>) -> fmt::Result {
        let (number, name) = (self.number, self.name);
        let kind = box_open(self.form);
        let (open, close) = (label_open(self.form), label_close(self.form));
        write!(f, "  subgraph {kind}{number}{open}{name}{close}\n")
    }
}

// What comes before and after the label of a group's head.
fn head_open(form: GraphForm) -> &'static str
    ensures { result.now ≡ spec.head_open form }
{
    match form {
        GraphForm::Mermaid => "([\"",
        GraphForm::Dot => " [label=\"",
    }
}

fn head_close(form: GraphForm) -> &'static str
    ensures { result.now ≡ spec.head_close form }
{
    match form {
        GraphForm::Mermaid => "\"])",
        GraphForm::Dot => "\", shape=oval];",
    }
}

// The node of a group's head.
#[derive(Drop)]
struct GroupHead<'a> {
    form: GraphForm,
    number: usize,
    name: &'a str,
}

impl fmt::Display for GroupHead<'_> {
    ghost output = { λ h. Some (spec.head_text h.form h.number h.name.now) };

    fn fmt<W: fmt::Write>(&self, f: &mut fmt::Formatter<W>) -> fmt::Result {
        let (number, name) = (self.number, self.name);
        let (open, close) = (head_open(self.form), head_close(self.form));
        write!(f, "    g{number}{open}{name}{close}\n")
    }
}

#[derive(Drop)]
struct GroupBox<'a> {
    form: GraphForm,
    number: usize,
    group: &'a Group,
}

impl fmt::Display for GroupBox<'_> {
    ghost output = { λ b. Some (spec.group_text b.form b.number b.group.now) };

    fn fmt<W: fmt::Write>(&self, f: &mut fmt::Formatter<W>) -> fmt::Result {
        let (form, number) = (self.form, self.number);
        let name = self.group.name.as_str();
        let label = BoxLabel { form, number, name };
        let head = GroupHead { form, number, name };
        let entries = EntryNodes {
            form,
            group: number,
            entries: self.group.entries.as_slice(),
        };
        match form {
            GraphForm::Mermaid => write!(f, "{label}{head}{entries}  end\n"),
            GraphForm::Dot => write!(f, "{label}{head}{entries}  }}\n"),
        }
    }
}

/// The boxes of all groups.
#[derive(Drop)]
pub(crate) struct GroupBoxes<'a> {
    pub(crate) form: GraphForm,
    pub(crate) groups: &'a [Group],
}

impl fmt::Display for GroupBoxes<'_> {
    ghost output = { λ b. Some (spec.texts (spec.group_text b.form) 0 b.groups.now) };

    fn fmt<W: fmt::Write>(&self, f: &mut fmt::Formatter<W>) -> fmt::Result {
        for (number, group) in self.groups.iter().enumerate() {
            let one = GroupBox {
                form: self.form,
                number,
                group,
            };
            write!(f, "{one}")?;
        }
        Ok(())
    }
}
