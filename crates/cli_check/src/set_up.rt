//! What the rules read of a configuration.

ghost use Rattle.std.specs.Prelude.{◌≡◌, IfOk, map};
ghost use Rattle.cli_check.specs.SetUps as spec;
ghost use Rattle.run_setup.specs.Plans.{routes_of};

use cli_config::{Config, Host};
use run_setup::routes;
use std::alloc::{AllocError, Global};
use sw_participant::{Sequence, Text};
use sw_parts::Routing;
use sw_rules::{SetUp, SetUpHost, SetUpRoute};

// The host of this name.
fn host_named(alloc: Global, name: &str, stand_in: bool) -> Result<SetUpHost, AllocError>
    ensures { IfOk result (λ h. h ≡ spec.host_named name.now stand_in) }
{
    Ok(SetUpHost {
        query: Text::new(format!(in alloc; "query_{name}")?),
        stand_in,
    })
}

// The switch's own hosts.
fn own_hosts(alloc: Global) -> Result<Sequence<SetUpHost>, AllocError>
    ensures { IfOk result (λ hosts. hosts ≡ spec.own_hosts) }
{
    let mut hosts = Vec::new(alloc);
    hosts.push(host_named(alloc, "alpha", true)?)?;
    hosts.push(host_named(alloc, "beta", true)?)?;
    Ok(Sequence::new(hosts))
}

fn hosts_of(alloc: Global, config: &Config) -> Result<Sequence<SetUpHost>, AllocError>
    ensures { IfOk result (λ hosts. hosts ≡ spec.hosts_of config.now) }
{
    let Some(stated) = &config.hosts else {
        return own_hosts(alloc);
    };
    let mut hosts = Vec::new(alloc);
    for host in stated.as_slice() {
        hosts.push(host_named(alloc, host.name.as_str(), host.has_stand_in)?)?;
    }
    Ok(Sequence::new(hosts))
}

fn route_of(route: &Routing) -> Result<SetUpRoute, AllocError>
    ensures { IfOk result (λ r. r ≡ spec.route_of route.now) }
{
    Ok(SetUpRoute {
        prefix: route.prefix.copy()?,
        group: route.group.copy()?,
    })
}

fn set_up_routes(alloc: Global, stated: &[Routing]) -> Result<Sequence<SetUpRoute>, AllocError>
    ensures { IfOk result (λ routes. routes ≡ map spec.route_of stated.now) }
{
    let mut routes = Vec::new(alloc);
    for route in stated {
        routes.push(route_of(route)?)?;
    }
    Ok(Sequence::new(routes))
}

fn allowed(alloc: Global, config: &Config) -> Result<Sequence<Text>, AllocError>
    ensures { IfOk result (λ names. names ≡ spec.allowed config.now) }
{
    let mut names = Vec::new(alloc);
    let Some(stated) = &config.run.allow else {
        return Ok(Sequence::new(names));
    };
    for name in stated.as_slice() {
        names.push(name.copy()?)?;
    }
    Ok(Sequence::new(names))
}

/// What the rules read of a configuration: its hosts and routes, or the switch's own, and the rules that it allows to
/// be broken.
pub fn set_up_of(alloc: Global, config: &Config) -> Result<SetUp, AllocError>
    ensures { IfOk result (λ s. s ≡ spec.set_up_of config.now) }
{
    let routes = routes(alloc, config)?;
    Ok(SetUp {
        hosts: hosts_of(alloc, config)?,
        routes: set_up_routes(alloc, routes.as_slice())?,
        allow: allowed(alloc, config)?,
    })
}
