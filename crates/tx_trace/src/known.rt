//! The known names of a selection.

ghost use Rattle.std.specs.Prelude.{◌≡◌, Some, IfOk, OnOk, IfSome, IfNone};
ghost use Rattle.std.specs.Prelude.{filter, ◌++◌, ◌∷◌, [], true, false};
ghost use Rattle.flow_model.specs.Check.{is_named};
ghost use Rattle.tx_trace.specs.Starts.{is_start};
ghost use Rattle.tx_trace.specs.Trace.{comma_list, known, list_text, texts_of};

use flow_asm::{Code, GroupStart};
use std::alloc::{AllocError, Global};
use std::fmt;
use tx_machine::first_names;

// The table's own copy of this name, if a group has it.
fn find_start<'a>(groups: &'a [GroupStart], name: &[u8]) -> Option<&'a str>
    ensures found { IfSome result (λ found. found.now ≡ name.now) }
    ensures known { IfSome result (λ found. is_start name.now groups.entry.now ≡ true) }
    ensures unknown { IfNone result (is_start name.now groups.entry.now ≡ false) }
{
    for group in groups {
        if group.name.as_str().as_bytes() == name {
            return Some(group.name.as_str());
        }
    }
    None
}

// The code's own copy of this name, if a group has it.
fn find_name<'a>(code: &'a Code, name: &[u8]) -> Option<&'a str>
    ensures found { IfSome result (λ found. found.now ≡ name.now) }
    ensures known { IfSome result (λ found. is_named name.now code.entry.now.groups ≡ true) }
    ensures unknown { IfNone result (is_named name.now code.entry.now.groups ≡ false) }
{
    find_start(code.groups(), name)
}

// Adds a name, if one of the groups has it.
fn add_known<'a>(names: &mut Vec<&'a str>, code: &'a Code, name: &[u8]) -> Result<(), AllocError>
    ensures { OnOk result (texts_of names.new.items
        ≡ texts_of names.old.items
        ++ filter (λ n. is_named n code.entry.now.groups) (name.now ∷ [])) }
{
    match find_name(code, name) {
        Some(name) => {
            names.push(name)?;
            Ok(())
        }
        None => Ok(()),
    }
}

/// The names of groups among the first 16 names of a selection's text.
pub fn known_names<'a>(
    alloc: Global,
    code: &'a Code,
    text: &str,
) -> Result<Vec<&'a str>, AllocError>
    ensures { IfOk result (λ names. texts_of names.items ≡ known code.entry.now.groups text.now) }
{
    let mut names = Vec::new(alloc);
    for name in first_names(text) {
        add_known(&mut names, code, name)?;
    }
    Ok(names)
}

/// Names joined by commas, in square brackets, and a space.
#[derive(Drop)]
pub struct ChoiceText<'a>(pub &'a [&'a str]);

impl fmt::Display for ChoiceText<'_> {
    ghost output = { λ l. Some (list_text (texts_of l.0.now)) };

    fn fmt<W: fmt::Write>(&self, f: &mut fmt::Formatter<W>) -> fmt::Result {
        let list = CommaList(self.0);
        write!(f, "[{list}] ")
    }
}

// Names joined by commas.
#[derive(Drop)]
struct CommaList<'a>(&'a [&'a str]);

impl fmt::Display for CommaList<'_> {
    ghost output = { λ l. Some (comma_list (texts_of l.0.now)) };

    fn fmt<W: fmt::Write>(&self, f: &mut fmt::Formatter<W>) -> fmt::Result {
        match self.0.split_first() {
            None => Ok(()),
            Some((first, rest)) => {
                let rest = MoreNames(rest);
                write!(f, "{first}{rest}")
            }
        }
    }
}

// Names, each after a comma.
#[derive(Drop)]
struct MoreNames<'a>(&'a [&'a str]);

impl fmt::Display for MoreNames<'_> {
    ghost use Rattle.std.specs.Prelude.{Some};
    ghost use Rattle.std.specs.List.{flat_map};
    ghost use Rattle.tx_trace.specs.Trace.{texts_of, with_comma};

    ghost output = { λ m. Some (flat_map with_comma (texts_of m.0.now)) };

    fn fmt<W: fmt::Write>(&self, f: &mut fmt::Formatter<W>) -> fmt::Result {
        for name in self.0 {
            write!(f, ",{name}")?;
        }
        Ok(())
    }
}
