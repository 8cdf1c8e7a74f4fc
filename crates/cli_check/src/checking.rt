//! The check of a flow and a configuration.

ghost use Rattle.std.specs.Prelude.{IfErr, OnOk, ◌≡◌, None};
ghost use Rattle.cli_check.specs.Refusals.{RefusesSetUp, RefusesRules};
ghost use Rattle.cli_check.specs.SetUps.{set_up_of};
ghost use Rattle.sw_rules.specs.Checked.{IsSetUpChecked};
ghost use Rattle.sw_rules.specs.Spelling.{unknown_from};

use crate::error::{CheckError, Mistakes, UnknownRule};
use crate::set_up::set_up_of;
use cli_config::Config;
use flow_model::Flow;
use std::alloc::{AllocError, Global};
use sw_participant::Text;
use sw_rules::{Rule, SetUp, findings, nearest, unknown_rule};

// The rule that was probably meant by a name.
fn meant(alloc: Global, name: &str) -> Result<Option<Text>, AllocError> {
    let mut names: Vec<&str> = Vec::new(alloc);
    for rule in Rule::all() {
        names.push(rule.as_str())?;
    }
    let Some(index) = nearest(alloc, name, names.as_slice())? else {
        return Ok(None);
    };
    Ok(Some(Text::from_str(alloc, names[index])?))
}

fn copy_of(alloc: Global, path: Option<&str>) -> Result<Option<Text>, AllocError> {
    match path {
        Some(path) => Ok(Some(Text::from_str(alloc, path)?)),
        None => Ok(None),
    }
}

// Refuses a name that no rule has.
fn check_rules(alloc: Global, path: &str, names: &[Text]) -> Result<(), CheckError>
    ensures known { OnOk result (unknown_from 0 names.now ≡ None) }
    ensures refused { IfErr result (RefusesRules names.now) }
{
    let Some(index) = unknown_rule(names) else {
        return Ok(());
    };
    let name = match names.get(index) {
        Some(name) => name.as_str(),
        None => "",
    };
    Err(CheckError::UnknownRule(UnknownRule {
        path: Text::from_str(alloc, path)?,
        name: Text::from_str(alloc, name)?,
        nearest: meant(alloc, name)?,
    }))
}

// Refuses a set-up with mistakes.
fn check_places(
    alloc: Global,
    flow_path: &str,
    config_path: Option<&str>,
    flow: &Flow,
    set_up: &SetUp,
    has_own_routes: bool,
) -> Result<(), CheckError>
    ensures checked { OnOk result (IsSetUpChecked flow.now set_up.now) }
    ensures refused { IfErr result (RefusesSetUp flow.now set_up.now) }
{
    let found = findings(alloc, flow, set_up)?;
    if found.is_empty() {
        return Ok(());
    }
    Err(CheckError::Mistakes(Mistakes {
        flow: Text::from_str(alloc, flow_path)?,
        config: copy_of(alloc, config_path)?,
        has_own_routes,
        found,
    }))
}

/// Refuses a flow and a configuration that have mistakes which the configuration does not allow, with all of them;
/// before them, a name in `allow` that no rule has. The paths are those of the files, for the text.
pub fn check_set_up(
    alloc: Global,
    flow_path: &str,
    config_path: Option<&str>,
    flow: &Flow,
    config: &Config,
) -> Result<(), CheckError>
    ensures rules { OnOk result (unknown_from 0 (set_up_of config.now).allow ≡ None) }
    ensures checked { OnOk result (IsSetUpChecked flow.now (set_up_of config.now)) }
    ensures refused { IfErr result (RefusesSetUp flow.now (set_up_of config.now)) }
{
    let set_up = set_up_of(alloc, config)?;
    check_rules(alloc, config_path.unwrap_or(""), set_up.allow.as_slice())?;
    let has_own_routes = config.routes.is_none();
    check_places(alloc, flow_path, config_path, flow, &set_up, has_own_routes)
}
