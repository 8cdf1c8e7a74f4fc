//! The picture of a flow.

ghost use Rattle.std.specs.Prelude.{◌≡◌, Some, IfErr, IfOk, OnOk};
ghost use Rattle.std.specs.Io.KnownBytes.{Appends};
ghost use Rattle.cli_io.specs.Errors.{IsOfWriting};
ghost use Rattle.cli_io.specs.Written.{AppendsBeginning};
ghost use Rattle.cli_graph.specs.Picture as spec;

use crate::nodes::GroupBoxes;
use crate::paths::AllPaths;
use cli_forms::GraphForm;
use cli_io::{IoError, write_out};
use flow_model::Flow;
use std::alloc::{AllocError, Global};
use std::fmt;
use std::io::Write;

#[derive(Drop)]
struct PictureText<'a> {
    form: GraphForm,
    flow: &'a Flow,
}

impl fmt::Display for PictureText<'_> {
    ghost output = { λ p. Some (spec.picture_of p.form p.flow.now) };

    fn fmt<W: fmt::Write>(&self, f: &mut fmt::Formatter<W>) -> fmt::Result {
        let groups = self.flow.groups.as_slice();
        let boxes = GroupBoxes {
            form: self.form,
            groups,
        };
        let paths = AllPaths {
            form: self.form,
            groups,
        };
        match self.form {
            GraphForm::Mermaid => write!(f, "flowchart TD\n{boxes}{paths}"),
            GraphForm::Dot => write!(f, "digraph flow {{\n{boxes}{paths}}}\n"),
        }
    }
}

/// The text of a flow's picture. A checked flow's names need no quoting; any other names are written as they are.
/// The only refusal is out of memory.
pub fn picture(alloc: Global, form: GraphForm, flow: &Flow) -> Result<Vec<u8>, AllocError>
    ensures { IfOk result (λ text. text.items ≡ spec.picture_of form flow.now) }
{
    let picture = PictureText { form, flow };
    let text = format!(in alloc; "{picture}")?;
    Ok(text.into_bytes())
}

/// Writes a flow's picture to an output. After an error, what was written is a beginning of it.
pub fn draw<W: Write>(
    alloc: Global,
    form: GraphForm,
    flow: &Flow,
    out: &mut W,
) -> Result<(), IoError>
    ensures written { OnOk result (Appends (W.contents out.old) (W.contents out.new)
        (spec.picture_of form flow.now)) }
    ensures writing { IfErr result IsOfWriting }
    ensures beginning { AppendsBeginning (W.contents out.old) (W.contents out.new)
        (spec.picture_of form flow.now) }
{
    let text = picture(alloc, form, flow)?;
    write_out(out, text.as_slice())
}
