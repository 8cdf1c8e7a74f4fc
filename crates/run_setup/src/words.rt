//! What a run reports in words, by what it is set up with.

ghost use Rattle.std.specs.Prelude.{◌≡◌, ◌++◌, filter_map, map, option_to_list, IfOk, OnOk};
ghost use Rattle.run_reports.specs.Hosts.{names_in};
ghost use Rattle.run_setup.specs.Words.{IsWordsOf, host_name};

use run_reports::{Hosts, Ready, Words};
use run_switch::{NamedLink, Setup, SwitchLink};
use std::alloc::{AllocError, Global};
use sw_participant::{Sequence, Text};

// Adds the host that a link goes to, if it goes to one.
fn add_host(hosts: &mut Hosts, link: &NamedLink<SwitchLink>) -> Result<(), AllocError>
    ensures { OnOk result (names_in hosts.new
        ≡ names_in hosts.old ++ option_to_list (host_name link.now)) }
{
    let Some(report) = link.link.host_report()? else {
        return Ok(());
    };
    hosts.add(link.name.copy()?, report)
}

// The hosts that are reached by streams, of those that requests go to.
fn hosts_of(alloc: Global, links: &[NamedLink<SwitchLink>]) -> Result<Hosts, AllocError>
    ensures { IfOk result (λ hosts. names_in hosts ≡ filter_map host_name links.now) }
{
    let mut hosts = Hosts::new(alloc);
    for link in links {
        add_host(&mut hosts, link)?;
    }
    Ok(hosts)
}

// The names of all hosts.
fn names_of(alloc: Global, links: &[NamedLink<SwitchLink>]) -> Result<Sequence<Text>, AllocError>
    ensures { IfOk result (λ names. names ≡ map (λ l. l.name) links.now) }
{
    let mut names = Vec::new(alloc);
    for link in links {
        names.push(link.name.copy()?)?;
    }
    Ok(Sequence::new(names))
}

// The path of a journal, if it is in a file.
fn copied(path: &Option<Text>) -> Result<Option<Text>, AllocError>
    ensures { IfOk result (λ copy. copy ≡ path.now) }
{
    match path {
        Some(path) => Ok(Some(path.copy()?)),
        None => Ok(None),
    }
}

/// What a run of the flow in the file at `flow` reports in words, over the journal in the file at `journal` or in
/// memory. Nothing was reported of its hosts yet. Out of memory is the only refusal.
pub fn words_of(
    alloc: Global,
    flow: &str,
    journal: &Option<Text>,
    setup: &Setup<SwitchLink>,
) -> Result<Words, AllocError>
    ensures { IfOk result (IsWordsOf flow.now journal.now setup.now) }
{
    let links = setup.queried.as_slice();
    Ok(Words {
        ready: Ready {
            flow: Text::from_str(alloc, flow)?,
            hosts: names_of(alloc, links)?,
            journal: copied(journal)?,
            sessions: setup.sessions,
        },
        hosts: hosts_of(alloc, links)?,
    })
}
