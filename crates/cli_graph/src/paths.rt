//! The arrows of a picture, a line for each path.

ghost use Rattle.std.specs.Prelude.{◌≡◌, Some};
ghost use Rattle.cli_graph.specs.Picture as spec;

use cli_forms::GraphForm;
use flow_model::{Entry, Group};
use std::fmt;
use sw_participant::Kind;

// Whether the participant is called while a transaction aborts.
fn is_called(kind: Kind) -> bool
    ensures { result ≡ spec.is_called kind }
{
    kind.abort_aware || kind.selector
}

fn has_called(entries: &[Entry]) -> bool
    ensures { result ≡ spec.has_called entries.now }
{
    entries.iter().any(|entry| is_called(entry.kind))
}

// An arrow to an entry, from the one before it.
#[derive(Drop)]
struct PlainStep {
    form: GraphForm,
    group: usize,
    index: usize,
}

impl fmt::Display for PlainStep {
    ghost output = { λ s. Some (spec.plain_step s.form s.group s.index) };

    fn fmt<W: fmt::Write>(&self, f: &mut fmt::Formatter<W>) -> fmt::Result {
        let (group, index) = (self.group, self.index);
        match self.form {
            GraphForm::Mermaid => write!(f, " --> e{group}_{index}"),
            GraphForm::Dot => write!(f, " -> e{group}_{index}"),
        }
    }
}

#[derive(Drop)]
struct PlainSteps<'a> {
    form: GraphForm,
    group: usize,
    entries: &'a [Entry],
}

impl fmt::Display for PlainSteps<'_> {
    ghost output = { λ s. Some (spec.texts (spec.plain_entry s.form s.group) 0 s.entries.now) };

    fn fmt<W: fmt::Write>(&self, f: &mut fmt::Formatter<W>) -> fmt::Result {
        for (index, _entry) in self.entries.iter().enumerate() {
            let step = PlainStep {
                form: self.form,
                group: self.group,
                index,
            };
            write!(f, "{step}")?;
        }
        Ok(())
    }
}

// An arrow to an entry that is called while a transaction aborts; nothing for any other entry.
#[derive(Drop)]
struct AbortStep {
    form: GraphForm,
    group: usize,
    index: usize,
    kind: Kind,
}

impl fmt::Display for AbortStep {
    ghost output = { λ s. Some (spec.abort_step s.form s.group s.index s.kind) };

    fn fmt<W: fmt::Write>(&self, f: &mut fmt::Formatter<W>) -> fmt::Result {
        let (group, index) = (self.group, self.index);
        match (self.form, is_called(self.kind)) {
            (_, false) => write!(f, ""),
            (GraphForm::Mermaid, true) => write!(f, " -. abort .-> e{group}_{index}"),
            (GraphForm::Dot, true) => write!(f, " -> e{group}_{index}"),
        }
    }
}

#[derive(Drop)]
struct AbortSteps<'a> {
    form: GraphForm,
    group: usize,
    entries: &'a [Entry],
}

impl fmt::Display for AbortSteps<'_> {
    ghost output = { λ s. Some (spec.texts (spec.abort_entry s.form s.group) 0 s.entries.now) };

    fn fmt<W: fmt::Write>(&self, f: &mut fmt::Formatter<W>) -> fmt::Result {
        for (index, entry) in self.entries.iter().enumerate() {
            let step = AbortStep {
                form: self.form,
                group: self.group,
                index,
                kind: entry.kind,
            };
            write!(f, "{step}")?;
        }
        Ok(())
    }
}

// One of the groups to which a selector leads.
#[derive(Drop)]
struct Target {
    form: GraphForm,
    number: usize,
}

impl fmt::Display for Target {
    ghost output = { λ t. Some (spec.target_text t.form t.number) };

    fn fmt<W: fmt::Write>(&self, f: &mut fmt::Formatter<W>) -> fmt::Result {
        let number = self.number;
        match (self.form, number) {
            (_, 0) => write!(f, "g{number}"),
            (GraphForm::Mermaid, _) => write!(f, " & g{number}"),
            (GraphForm::Dot, _) => write!(f, " g{number}"),
        }
    }
}

#[derive(Drop)]
struct Targets<'a> {
    form: GraphForm,
    groups: &'a [Group],
}

impl fmt::Display for Targets<'_> {
    ghost output = { λ t. Some (spec.texts (spec.target_group t.form) 0 t.groups.now) };

    fn fmt<W: fmt::Write>(&self, f: &mut fmt::Formatter<W>) -> fmt::Result {
        for (number, _group) in self.groups.iter().enumerate() {
            let target = Target {
                form: self.form,
                number,
            };
            write!(f, "{target}")?;
        }
        Ok(())
    }
}

fn bold_arrow(form: GraphForm) -> &'static str
    ensures { result.now ≡ spec.bold_arrow form }
{
    match form {
        GraphForm::Mermaid => " == selects ==> ",
        GraphForm::Dot => " -> {",
    }
}

fn bold_end(form: GraphForm) -> &'static str
    ensures { result.now ≡ spec.bold_end form }
{
    match form {
        GraphForm::Mermaid => "",
        GraphForm::Dot => "} [style=bold, label=\"selects\"];",
    }
}

// The line of a selector's arrows to the groups; nothing for an entry that is not a selector.
#[derive(Drop)]
struct Selection<'a> {
    form: GraphForm,
    group: usize,
    index: usize,
    kind: Kind,
    groups: &'a [Group],
}

impl fmt::Display for Selection<'_> {
    ghost output = { λ s. Some (spec.selection_text s.form s.groups.now s.group s.index s.kind) };

    fn fmt<W: fmt::Write>(&self, f: &mut fmt::Formatter<W>) -> fmt::Result {
        if !self.kind.selector {
            return write!(f, "");
        }
        let (group, index) = (self.group, self.index);
        let targets = Targets {
            form: self.form,
            groups: self.groups,
        };
        let (arrow, end) = (bold_arrow(self.form), bold_end(self.form));
        write!(f, "  e{group}_{index}{arrow}{targets}{end}\n")
    }
}

#[derive(Drop)]
struct Selections<'a> {
    form: GraphForm,
    group: usize,
    entries: &'a [Entry],
    groups: &'a [Group],
}

impl fmt::Display for Selections<'_> {
    ghost output = { λ s. Some (spec.selections s.form s.groups.now s.group s.entries.now) };

    fn fmt<W: fmt::Write>(&self, f: &mut fmt::Formatter<W>) -> fmt::Result {
        for (index, entry) in self.entries.iter().enumerate() {
            let selection = Selection {
                form: self.form,
                group: self.group,
                index,
                kind: entry.kind,
                groups: self.groups,
            };
            write!(f, "{selection}")?;
        }
        Ok(())
    }
}

// The line of the path that an abort takes through a group; nothing if it calls no participant there.
#[derive(Drop)]
struct AbortPath<'a> {
    form: GraphForm,
    group: usize,
    entries: &'a [Entry],
}

impl fmt::Display for AbortPath<'_> {
    ghost output = { λ p. Some (spec.abort_path p.form p.group p.entries.now) };

    fn fmt<W: fmt::Write>(&self, f: &mut fmt::Formatter<W>) -> fmt::Result {
        let group = self.group;
        let steps = AbortSteps {
            form: self.form,
            group,
            entries: self.entries,
        };
        match (self.form, has_called(self.entries)) {
            (_, false) => write!(f, ""),
            (GraphForm::Mermaid, true) => write!(f, "  g{group}{steps}\n"),
            (GraphForm::Dot, true) => write!(
                f,
                "  g{group}{steps} [style=dashed, label=\"abort\"];\n"
            ),
        }
    }
}

#[derive(Drop)]
struct GroupPaths<'a> {
    form: GraphForm,
    number: usize,
    group: &'a Group,
    groups: &'a [Group],
}

impl fmt::Display for GroupPaths<'_> {
    ghost output = { λ p. Some (spec.group_paths p.form p.groups.now p.number p.group.now) };

    fn fmt<W: fmt::Write>(&self, f: &mut fmt::Formatter<W>) -> fmt::Result {
        let (form, number) = (self.form, self.number);
        let entries = self.group.entries.as_slice();
        let plain = PlainSteps {
            form,
            group: number,
            entries,
        };
        let abort = AbortPath {
            form,
            group: number,
            entries,
        };
        let selections = Selections {
            form,
            group: number,
            entries,
            groups: self.groups,
        };
        match form {
            GraphForm::Mermaid => write!(f, "  g{number}{plain}\n{abort}{selections}"),
            GraphForm::Dot => write!(f, "  g{number}{plain};\n{abort}{selections}"),
        }
    }
}

/// The arrows of all groups.
#[derive(Drop)]
pub(crate) struct AllPaths<'a> {
    pub(crate) form: GraphForm,
    pub(crate) groups: &'a [Group],
}

impl fmt::Display for AllPaths<'_> {
    ghost output = { λ p. Some (spec.all_paths p.form p.groups.now) };

    fn fmt<W: fmt::Write>(&self, f: &mut fmt::Formatter<W>) -> fmt::Result {
        for (number, group) in self.groups.iter().enumerate() {
            let paths = GroupPaths {
                form: self.form,
                number,
                group,
                groups: self.groups,
            };
            write!(f, "{paths}")?;
        }
        Ok(())
    }
}
