//! What the simulated issuer says of an amount.

ghost use Rattle.std.specs.Prelude.{◌≡◌};
ghost use Rattle.sw_issuers.specs.Issuing.{verdict_of};

/// What the simulated issuer says of an authorization.
#[derive(Clone, Copy, PartialEq, Eq)]
pub enum Verdict {
    /// Response code 00.
    Approved,
    /// The last two digits of the amount are the response code.
    Refused,
    /// No response.
    Silent,
}

/// The verdict by the last two digits of the amount: 05, 51, 54 and 61 are refused, 91 gets no
/// response.
pub fn verdict_of(ending: &[u8]) -> Verdict
    ensures { result ≡ verdict_of ending.now }
{
    if ending == b"05".as_slice()
        || ending == b"51".as_slice()
        || ending == b"54".as_slice()
        || ending == b"61".as_slice()
    {
        Verdict::Refused
    } else if ending == b"91".as_slice() {
        Verdict::Silent
    } else {
        Verdict::Approved
    }
}
