//! The subcommands that turn flow files into images and back.

ghost use Rattle.std.specs.Prelude.{◌≡◌, IfErr, IfOk, OnOk, Some, string_bytes};
ghost use Rattle.flow_load.specs.Image.{image_of};
ghost use Rattle.flow_model.specs.Check.{IsChecked};
ghost use Rattle.flow_toml.specs.FlowFile.{IsFlowFile};
ghost use Rattle.cli_flows.specs.Errors.{IsImageRefusal, IsUnwritten, RefusesFile, RefusesImage};
ghost use Rattle.cli_flows.specs.Subcommands.{IsAssembled, IsListed, IsListedOf};

use crate::error::FlowsError;
use crate::file::read_flow_from;
use cli_io::{Input, IoError, read_input, write_out};
use flow_asm::{Code, assemble};
use flow_load::{image, load};
use flow_model::Flow;
use flow_toml::print_flow;
use std::alloc::Global;
use std::io::{Read, Write};

// The image of a flow's steps.
fn image_bytes(alloc: Global, flow: &Flow) -> Result<Vec<u8>, IoError>
    requires { IsChecked flow.now }
    ensures { IfOk result (λ bytes. bytes.items ≡ image_of flow.now) }
{
    let code = assemble(alloc, flow)?;
    Ok(image(alloc, &code)?)
}

/// Reads a flow file and writes the image of its steps. If the file is refused, nothing is written.
pub fn asm<R: Read + Drop, W: Write>(alloc: Global, input: R, out: &mut W) -> Result<(), FlowsError>
    ensures done { OnOk result (IsAssembled (R.remaining input) (W.contents out.old)
        (W.contents out.new)) }
    ensures refused { IfErr result (RefusesFile (R.remaining input)) }
    ensures unwritten { IfErr result (IsUnwritten (W.contents out.old) (W.contents out.new)) }
{
    let flow = read_flow_from(alloc, input)?;
    let bytes = image_bytes(alloc, &flow)?;
    write_out(out, bytes.as_slice())?;
    Ok(())
}

// The steps of which these bytes are the image.
fn load_bytes(alloc: Global, bytes: &[u8]) -> Result<Code, FlowsError>
    ensures found { IfOk result (λ code. bytes.now ≡ image_of code) }
    ensures refused { IfErr result (IsImageRefusal bytes.now) }
{
    match load(alloc, bytes) {
        Ok(code) => Ok(code),
        Err(error) => Err(FlowsError::of_image(error, bytes)),
    }
}

// The flow file of the flow that some steps were assembled from.
fn flow_file(alloc: Global, code: &Code) -> Result<String, IoError>
    ensures { IfOk result (λ text. IsFlowFile code.now (string_bytes text)) }
{
    let flow = flow_asm::list(alloc, code)?;
    Ok(print_flow(alloc, &flow)?)
}

// Writes the flow file of an image.
fn list_bytes<W: Write>(alloc: Global, bytes: &[u8], out: &mut W) -> Result<(), FlowsError>
    ensures done { OnOk result (IsListedOf bytes.now (W.contents out.old) (W.contents out.new)) }
    ensures refused { IfErr result (λ e. RefusesImage (Some bytes.now) e) }
    ensures unwritten { IfErr result (IsUnwritten (W.contents out.old) (W.contents out.new)) }
{
    let code = load_bytes(alloc, bytes)?;
    let text = flow_file(alloc, &code)?;
    write_out(out, text.as_bytes())?;
    Ok(())
}

/// Reads an image and writes a flow file of its flow. If the image is refused, nothing is written.
pub fn list<R: Read + Drop, W: Write>(
    alloc: Global,
    input: R,
    out: &mut W,
) -> Result<(), FlowsError>
    ensures done { OnOk result (IsListed (R.remaining input) (W.contents out.old)
        (W.contents out.new)) }
    ensures refused { IfErr result (RefusesImage (R.remaining input)) }
    ensures unwritten { IfErr result (IsUnwritten (W.contents out.old) (W.contents out.new)) }
{
    let mut input = Input::new(input);
    let bytes = read_input(alloc, &mut input)?;
    list_bytes(alloc, bytes.as_slice(), out)
}
