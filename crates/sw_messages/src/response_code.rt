//! Response codes.

ghost use Rattle.std.specs.Prelude.{◌≡◌, option_map};
ghost use Rattle.sw_messages.specs.Requests.{digits_of, is_approved};

/// Why a request is answered as it is (field 39).
#[derive(Clone, Copy, PartialEq, Eq)]
pub enum ResponseCode {
    /// 00
    Approved,
    /// 12
    InvalidTransaction,
    /// 13
    InvalidAmount,
    /// 14: invalid card number.
    InvalidCard,
    /// 30
    FormatError,
    /// 61: exceeds the amount limit.
    ExceedsLimit,
    /// 91: issuer or switch inoperative.
    IssuerInoperative,
    /// 94
    DuplicateTransmission,
    /// 96
    SystemMalfunction,
}

impl ResponseCode {
    /// The two digits of field 39.
    pub fn digits(self) -> &'static [u8]
        ensures { result.now ≡ digits_of self }
    {
        match self {
            ResponseCode::Approved => b"00",
            ResponseCode::InvalidTransaction => b"12",
            ResponseCode::InvalidAmount => b"13",
            ResponseCode::InvalidCard => b"14",
            ResponseCode::FormatError => b"30",
            ResponseCode::ExceedsLimit => b"61",
            ResponseCode::IssuerInoperative => b"91",
            ResponseCode::DuplicateTransmission => b"94",
            ResponseCode::SystemMalfunction => b"96",
        }
    }
}

/// Whether a response code is there and is 00.
pub fn is_approved(code: Option<&[u8]>) -> bool
    ensures { result ≡ is_approved (option_map (λ v. v.now) code.entry) }
{
    match code {
        Some(code) => code == b"00".as_slice(),
        None => false,
    }
}
