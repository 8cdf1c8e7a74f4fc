//! What a request is for.

ghost use Rattle.std.specs.Prelude.{◌≡◌};
ghost use Rattle.sw_messages.specs.Requests.{class_of};
ghost use Rattle.sw_messages.specs.Faults.{needed_fields};

/// What a request is for, by its message type.
#[derive(Clone, Copy, PartialEq, Eq)]
pub enum Class {
    /// An authorization request: 0100, 0101.
    Authorization,
    /// A reversal or its advice: 0400, 0401, 0420, 0421.
    Reversal,
    /// A network management request: 0800, 0801.
    NetworkManagement,
}

/// The class of a message type; `None` for a type of which the switch takes no requests.
pub fn class_of(mti: &[u8]) -> Option<Class>
    ensures { result ≡ class_of mti.now }
{
    if mti == b"0100".as_slice() || mti == b"0101".as_slice() {
        Some(Class::Authorization)
    } else if mti == b"0400".as_slice()
        || mti == b"0401".as_slice()
        || mti == b"0420".as_slice()
        || mti == b"0421".as_slice()
    {
        Some(Class::Reversal)
    } else if mti == b"0800".as_slice() || mti == b"0801".as_slice() {
        Some(Class::NetworkManagement)
    } else {
        None
    }
}

impl Class {
    /// The fields that a request of the class needs.
    pub fn needed_fields(self) -> &'static [u8]
        ensures { result.now ≡ needed_fields self }
    {
        match self {
            Class::Authorization => &[2, 3, 4, 7, 11, 41],
            Class::Reversal => &[2, 4, 11, 41, 90],
            Class::NetworkManagement => &[11, 70],
        }
    }
}
