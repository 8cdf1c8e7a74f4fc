//! The repeat of an approval that the switch gave by itself, byte by byte. `tests/run/silent.cases` shows it as it is
//! stored, `tests/run/recover.cases` that the simulated issuer accepts the repeat, and `tests/hosts.py` has the
//! repeats of reversals at a host.

ghost use Rattle.std.specs.Prelude.{[]};

use std::alloc::{AllocError, Global};
use std::test::Fail;
use sw_issuers::{GroupLink, Sender};
use sw_participant::{NoMemory, Sequence, Text};
use sw_parts::{Link, Routing};

// The approval of the authorization with STAN 42 of card 4000000000000002 over 91 minor units: fields 2, 3, 4, 7, 11,
// 38, 39, 41 and 49; as it is stored, and again.
const APPROVAL: &[u8] = b"01207220000006808000\
    1640000000000000020000000000000000910102030405000042SI004200TERM0001978";

const REPEAT: &[u8] = b"01217220000006808000\
    1640000000000000020000000000000000910102030405000042SI004200TERM0001978";

// The response, with field 39 and without field 38.
const RESPONSE: &[u8] = b"01307220000002808000\
    164000000000000002000000000000000091010203040500004200TERM0001978";

/// A link that answers the repeat, and nothing else.
#[derive(Drop)]
struct OneMessage {
    alloc: Global,
    has_come: bool,
}

impl Link for OneMessage {
    ghost state = { λ _. [] };

    ghost sends = { λ s message t. Unit {0} };

    ghost receives = { λ s message t. Unit {0} };

    ghost starves = { λ s. Unit {0} };

    fn send(&mut self, message: &[u8]) -> Result<(), NoMemory> {
        self.has_come = message == REPEAT;
        Ok(())
    }

    fn receive(&mut self) -> Result<Option<Vec<u8>>, NoMemory> {
        if !self.has_come {
            return Ok(None);
        }
        Ok(Some(Vec::from_slice(self.alloc, RESPONSE)?))
    }
}

fn sender(alloc: Global) -> Result<Sender<OneMessage>, AllocError> {
    let routing = Routing {
        prefix: Text::from_str(alloc, "4")?,
        group: Text::from_str(alloc, "alpha")?,
    };
    let group = GroupLink {
        group: Text::from_str(alloc, "alpha")?,
        link: OneMessage {
            alloc,
            has_come: false,
        },
    };
    let routes = Sequence::new(vec![in alloc; routing]?);
    Ok(Sender::new(alloc, routes, vec![in alloc; group]?))
}

// Whether the stored advice goes out as its repeat, whose answer counts.
fn goes_out(sender: &mut Sender<OneMessage>) -> bool {
    matches!(sender.send(APPROVAL, true), Ok(true))
}

#[test]
fn an_approval_is_repeated_under_its_own_type(rt: HostRuntime) -> Result<(), Fail> {
    let mut sender = sender(rt.alloc())?;
    assert!(rt; goes_out(&mut sender));
    Ok(())
}
