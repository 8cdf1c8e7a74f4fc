//! The subcommand `check`, and the same test at the start of a run.

ghost use Rattle.std.specs.Prelude.{IfErr, OnOk};
ghost use Rattle.flow_model.specs.Check.{IsChecked};
ghost use Rattle.cardswitch.specs.Checking.{IsCheckDone, IsCheckFault, IsRunMistake};
ghost use Rattle.cardswitch.specs.SetUps.{TakesSetUp};

use crate::error::RunError;
use crate::flow_file::{config_for, flow_at};
use cli_check::check_set_up;
use cli_config::Config;
use cli_options::choice::CheckOptions;
use flow_model::Flow;
use run_setup::check_profiles;
use std::alloc::Global;

/// Refuses the flow and the configuration of a run that has a configuration file, if they have mistakes. A run
/// without one takes any flow.
pub fn check_run(
    alloc: Global,
    flow_path: &str,
    config_path: Option<&str>,
    flow: &Flow,
    config: &Config,
) -> Result<(), RunError>
    requires { IsChecked flow.now }
    ensures checked { OnOk result (TakesSetUp config_path.entry flow.now config.now) }
    ensures refused { IfErr result (IsRunMistake config_path.entry config.now) }
{
    if config_path.is_none() {
        return Ok(());
    }
    Ok(check_set_up(alloc, flow_path, config_path, flow, config)?)
}

/// Looks for mistakes in a flow file, a configuration file and the profile files that this names, which are its error.
/// It prints nothing.
pub fn check(alloc: Global, rt: &HostRuntime, options: &CheckOptions<'_>) -> Result<(), RunError>
    ensures checked { OnOk result (IsCheckDone options.now) }
    ensures refused { IfErr result (IsCheckFault options.now) }
{
    let flow = flow_at(alloc, rt, options.flow)?;
    let config = config_for(alloc, rt, options.config)?;
    check_profiles(alloc, rt, &config)?;
    Ok(check_set_up(alloc, options.flow, options.config, &flow, &config)?)
}
