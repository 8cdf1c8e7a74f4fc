//! The flow file and the configuration file that options name.

ghost use Rattle.std.specs.Prelude.{IfErr, IfOk};
ghost use Rattle.flow_model.specs.Check.{IsChecked};
ghost use Rattle.cardswitch.specs.Runs.{IsConfigAt, IsConfigFault, IsFlowFault};

use crate::error::RunError;
use cli_config::Config;
use cli_flows::{FlowsError, open_flow};
use cli_io::IoError;
use flow_model::Flow;
use run_setup::{ConfigFileError, config_at};
use std::alloc::Global;
use std::fs::Files;
use sw_participant::Text;

/// The flow of the flow file at a path.
pub fn flow_at<F: Files>(alloc: Global, files: &F, path: &str) -> Result<Flow, RunError>
    ensures checked { IfOk result (λ flow. IsChecked flow) }
    ensures failed { IfErr result (IsFlowFault path.now) }
{
    match open_flow(alloc, files, path) {
        Ok(flow) => Ok(flow),
        Err(FlowsError::Io(IoError::OutOfMemory)) => Err(RunError::OutOfMemory),
        Err(cause) => Err(RunError::FlowFile {
            path: Text::from_str(alloc, path)?,
            cause,
        }),
    }
}

/// The configuration of the file that `--config` names.
pub fn config_for(alloc: Global, rt: &HostRuntime, path: Option<&str>) -> Result<Config, RunError>
    ensures stated { IfOk result (IsConfigAt path.entry) }
    ensures failed { IfErr result (IsConfigFault path.entry) }
{
    let cause = match config_at(alloc, rt, path) {
        Ok(config) => return Ok(config),
        Err(ConfigFileError::Io(IoError::OutOfMemory)) => return Err(RunError::OutOfMemory),
        Err(cause) => cause,
    };
    // Without a path there is no file, and no error.
    let Some(path) = path else { unreachable!() };
    Err(RunError::ConfigFile {
        path: Text::from_str(alloc, path)?,
        cause,
    })
}
