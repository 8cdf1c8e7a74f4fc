//! The flow of a flow file.

ghost use Rattle.std.specs.Prelude.{IfErr, IfOk};
ghost use Rattle.flow_model.specs.Check.{IsChecked};
ghost use Rattle.flow_toml.specs.FlowFile.{IsFlowFile};
ghost use Rattle.cli_flows.specs.Errors.{IsFileRefusal, RefusesFile};
ghost use Rattle.cli_flows.specs.Subcommands.{Reads};

use crate::error::FlowsError;
use cli_io::{Input, read_input};
use flow_model::Flow;
use flow_toml::read_flow;
use std::alloc::Global;
use std::fs::{File, Files};
use std::io::Read;

/// The flow that the bytes of a flow file describe.
pub fn read_flow_bytes(alloc: Global, bytes: &[u8]) -> Result<Flow, FlowsError>
    ensures flow { IfOk result (λ flow. IsFlowFile flow bytes.now) }
    ensures checked { IfOk result (λ flow. IsChecked flow) }
    ensures refused { IfErr result (IsFileRefusal bytes.now) }
{
    let text = str::from_utf8(bytes)?;
    match read_flow(alloc, text) {
        Ok(flow) => Ok(flow),
        Err(error) => Err(FlowsError::of_file(alloc, error, text)),
    }
}

/// The flow of the flow file that a reader gives.
pub fn read_flow_from<R: Read + Drop>(alloc: Global, input: R) -> Result<Flow, FlowsError>
    ensures flow { IfOk result (λ flow. Reads (R.remaining input) flow) }
    ensures checked { IfOk result (λ flow. IsChecked flow) }
    ensures refused { IfErr result (RefusesFile (R.remaining input)) }
{
    let mut input = Input::new(input);
    let bytes = read_input(alloc, &mut input)?;
    read_flow_bytes(alloc, bytes.as_slice())
}

/// The flow of the flow file at a path.
pub fn open_flow<F: Files>(alloc: Global, files: &F, path: &str) -> Result<Flow, FlowsError>
    ensures checked { IfOk result (λ flow. IsChecked flow) }
{
    match File::open(files, path) {
        Ok(file) => read_flow_from(alloc, file),
        Err(error) => Err(FlowsError::Open(error)),
    }
}
