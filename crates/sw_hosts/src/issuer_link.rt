//! A link to an issuer, which is simulated or has a host.

ghost use Rattle.std.specs.Prelude.{◌≡◌, is_some, IfOk, OnErr, OnOk};
ghost use Rattle.sw_hosts.specs.Issuers.{has_host, state_of, ReceivesBy, SendsBy, SendsToHost};

use crate::host_report::HostReport;
use crate::host_way::HostWay;
use crate::link::HostLink;
use std::alloc::AllocError;
use std::time::Clock;
use sw_issuers::Issuer;
use sw_participant::NoMemory;
use sw_parts::Link;

/// A link to an issuer. Contracts see a tag, and then the state of the simulated issuer, of
/// which they keep all that they know; of a host they know nothing.
pub enum IssuerLink<C: Clock + Drop = HostRuntime> {
    /// The simulated issuer.
    Simulated(Issuer),
    /// An issuer's host.
    Host(HostLink<HostWay<C>>),
}

// Written out, so that no caller proves again how its parts are dropped.
impl<C: Clock + Drop> Drop for IssuerLink<C> {
    fn drop(self) {
        match self {
            IssuerLink::Simulated(_) => {}
            IssuerLink::Host(_) => {}
        }
    }
}

impl<C: Clock + Drop> IssuerLink<C> {
    /// What is reported of the issuer's host; `None` if the issuer is simulated.
    pub fn host_report(&self) -> Result<Option<HostReport>, AllocError>
        ensures { IfOk result (λ report. is_some report ≡ has_host self.now) }
    {
        match self {
            IssuerLink::Simulated(_) => Ok(None),
            IssuerLink::Host(link) => Ok(Some(link.host_report()?)),
        }
    }
}

impl<C: Clock + Copy + Drop> Link for IssuerLink<C> {
    ghost state = { λ link. state_of ⟦<Issuer as Link>⟧.state link };

    ghost sends = { λ s message t. SendsBy ⟦<Issuer as Link>⟧.sends s message t };

    ghost receives = { λ s message t. ReceivesBy ⟦<Issuer as Link>⟧.receives s message t };

    ghost starves = { λ s. ⊥ };

    fn send(&mut self, message: &[u8]) -> Result<(), NoMemory>
        ensures sent { OnOk result (SendsBy ⟦<Issuer as Link>⟧.sends
            (state_of ⟦<Issuer as Link>⟧.state self.old) message.now
            (state_of ⟦<Issuer as Link>⟧.state self.new)) }
        ensures kept { OnErr result (state_of ⟦<Issuer as Link>⟧.state self.new
            ≡ state_of ⟦<Issuer as Link>⟧.state self.old) }
        ensures over { OnOk result (SendsToHost self.old message.now self.new) }
    {
        match self {
            IssuerLink::Simulated(issuer) => issuer.send(message),
            IssuerLink::Host(link) => link.send(message),
        }
    }

    fn receive(&mut self) -> Result<Option<Vec<u8>>, NoMemory> {
        match self {
            IssuerLink::Simulated(issuer) => issuer.receive(),
            IssuerLink::Host(link) => link.receive(),
        }
    }

    // The simulated issuer keeps the answers that wait in its link, and so it has one link alone.
    fn is_shared(&self) -> bool {
        match self {
            IssuerLink::Simulated(_) => false,
            IssuerLink::Host(link) => link.is_shared(),
        }
    }

    fn beside(&self) -> Result<Option<IssuerLink<C>>, NoMemory> {
        match self {
            IssuerLink::Simulated(_) => Ok(None),
            IssuerLink::Host(link) => Ok(link.beside()?.map(IssuerLink::Host)),
        }
    }
}
