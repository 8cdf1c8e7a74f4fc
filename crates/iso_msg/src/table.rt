//! The table of fields.

ghost use Rattle.std.specs.Prelude.{◌≡◌, ◌<◌, get_or, None};
ghost use Rattle.iso_msg.specs.Table.{definition_of, definitions, form_of, IsKnown};

use crate::name::FieldName;
use std::fmt;

/// Which characters a value may have.
#[derive(Clone, Copy, PartialEq, Eq)]
pub enum Content {
    /// `n`: decimal digits, `0` to `9`.
    Numeric,
    /// `ans`: letters, digits and special characters, the printable ASCII from 0x20 to 0x7E.
    Printable,
}

/// What the values of a field are, and how one is spelled.
#[derive(Clone, Copy, PartialEq, Eq)]
pub enum FieldForm {
    /// `n 6` or `ans 6`: a value of this length, spelled as it is.
    Fixed {
        content: Content,
        length: u16,
    },
    /// LLVAR or LLLVAR: a value of at most this length after two or three digits that give its
    /// length. It may be empty.
    Variable {
        content: Content,
        length_digits: u16,
        max_length: u16,
    },
    /// `b 64`: eight bytes of any kind, spelled as sixteen hexadecimal digits.
    Binary,
}

/// As a person reads it, as in "at most 19 digits".
impl fmt::Display for FieldForm {
    fn fmt<W: fmt::Write>(&self, f: &mut fmt::Formatter<W>) -> fmt::Result {
        match *self {
            FieldForm::Fixed { content, length } => write!(f, "{length} {content}"),
            FieldForm::Variable {
                content,
                max_length,
                ..
            } => write!(f, "at most {max_length} {content}"),
            FieldForm::Binary => f.write_str("8 bytes"),
        }
    }
}

/// As a person reads it, as in "digits".
impl fmt::Display for Content {
    fn fmt<W: fmt::Write>(&self, f: &mut fmt::Formatter<W>) -> fmt::Result {
        f.write_str(match self {
            Content::Numeric => "digits",
            Content::Printable => "printable characters",
        })
    }
}

/// A row of the table: what ISO 8583:1987 calls the field, and what its values are.
#[derive(Clone, Copy, PartialEq, Eq)]
pub struct Definition {
    pub name: FieldName,
    pub form: FieldForm,
}

// A definition as the standard writes it: the field's name, and `n`, `ans` or `b` with a length, or
// with LLVAR or LLLVAR and the greatest length.
macro_rules! definition {
    ($name:ident, n $length:literal) => {
        definition!($name; FieldForm::Fixed { content: Content::Numeric, length: $length })
    };
    ($name:ident, ans $length:literal) => {
        definition!($name; FieldForm::Fixed { content: Content::Printable, length: $length })
    };
    ($name:ident, n LLVAR $max:literal) => {
        definition!($name; FieldForm::Variable {
            content: Content::Numeric, length_digits: 2, max_length: $max
        })
    };
    ($name:ident, ans LLVAR $max:literal) => {
        definition!($name; FieldForm::Variable {
            content: Content::Printable, length_digits: 2, max_length: $max
        })
    };
    ($name:ident, ans LLLVAR $max:literal) => {
        definition!($name; FieldForm::Variable {
            content: Content::Printable, length_digits: 3, max_length: $max
        })
    };
    ($name:ident, b 64) => {
        definition!($name; FieldForm::Binary)
    };
    ($name:ident; $form:expr) => {
        Some(Definition { name: FieldName::$name, form: $form })
    };
}

/// The definition of each number from 0 to 128. Those of fields outside this profile are missing;
/// bit 1 only says that there is a second bitmap, and is not a field.
static TABLE: [Option<Definition>; 129] = [
    None, // 0
    None, // 1
    definition!(PrimaryAccountNumber, n LLVAR 19), // 2
    definition!(ProcessingCode, n 6), // 3
    definition!(AmountTransaction, n 12), // 4
    definition!(AmountSettlement, n 12), // 5
    definition!(AmountCardholderBilling, n 12), // 6
    definition!(TransmissionDateAndTime, n 10), // 7
    None, // 8
    definition!(ConversionRateSettlement, n 8), // 9
    definition!(ConversionRateCardholderBilling, n 8), // 10
    definition!(SystemsTraceAuditNumber, n 6), // 11
    definition!(TimeLocalTransaction, n 6), // 12
    definition!(DateLocalTransaction, n 4), // 13
    definition!(DateExpiration, n 4), // 14
    definition!(DateSettlement, n 4), // 15
    definition!(DateConversion, n 4), // 16
    definition!(DateCapture, n 4), // 17
    definition!(MerchantType, n 4), // 18
    definition!(AcquiringInstitutionCountryCode, n 3), // 19
    None, // 20
    None, // 21
    definition!(PointOfServiceEntryMode, n 3), // 22
    definition!(CardSequenceNumber, n 3), // 23
    definition!(NetworkInternationalIdentifier, n 3), // 24
    definition!(PointOfServiceConditionCode, n 2), // 25
    definition!(PointOfServicePinCaptureCode, n 2), // 26
    None, // 27
    None, // 28
    None, // 29
    None, // 30
    None, // 31
    definition!(AcquiringInstitutionIdentificationCode, n LLVAR 11), // 32
    definition!(ForwardingInstitutionIdentificationCode, n LLVAR 11), // 33
    None, // 34
    definition!(Track2Data, ans LLVAR 37), // 35
    None, // 36
    definition!(RetrievalReferenceNumber, ans 12), // 37
    definition!(AuthorizationIdentificationResponse, ans 6), // 38
    definition!(ResponseCode, ans 2), // 39
    None, // 40
    definition!(CardAcceptorTerminalIdentification, ans 8), // 41
    definition!(CardAcceptorIdentificationCode, ans 15), // 42
    definition!(CardAcceptorNameAndLocation, ans 40), // 43
    definition!(AdditionalResponseData, ans LLVAR 25), // 44
    definition!(Track1Data, ans LLVAR 76), // 45
    None, // 46
    None, // 47
    definition!(AdditionalDataPrivate, ans LLLVAR 999), // 48
    definition!(CurrencyCodeTransaction, ans 3), // 49
    definition!(CurrencyCodeSettlement, ans 3), // 50
    definition!(CurrencyCodeCardholderBilling, ans 3), // 51
    definition!(PersonalIdentificationNumberData, b 64), // 52
    definition!(SecurityRelatedControlInformation, n 16), // 53
    definition!(AdditionalAmounts, ans LLLVAR 120), // 54
    definition!(ReservedForIsoUse, ans LLLVAR 999), // 55
    None, // 56
    None, // 57
    None, // 58
    None, // 59
    definition!(ReservedForPrivateUse, ans LLLVAR 999), // 60
    definition!(ReservedForPrivateUse, ans LLLVAR 999), // 61
    definition!(ReservedForPrivateUse, ans LLLVAR 999), // 62
    definition!(ReservedForPrivateUse, ans LLLVAR 999), // 63
    definition!(MessageAuthenticationCode, b 64), // 64
    None, // 65
    None, // 66
    None, // 67
    None, // 68
    None, // 69
    definition!(NetworkManagementInformationCode, n 3), // 70
    None, // 71
    None, // 72
    None, // 73
    None, // 74
    None, // 75
    None, // 76
    None, // 77
    None, // 78
    None, // 79
    None, // 80
    None, // 81
    None, // 82
    None, // 83
    None, // 84
    None, // 85
    None, // 86
    None, // 87
    None, // 88
    None, // 89
    definition!(OriginalDataElements, n 42), // 90
    None, // 91
    None, // 92
    None, // 93
    None, // 94
    definition!(ReplacementAmounts, ans 42), // 95
    None, // 96
    None, // 97
    None, // 98
    None, // 99
    definition!(ReceivingInstitutionIdentificationCode, n LLVAR 11), // 100
    None, // 101
    definition!(AccountIdentification1, ans LLVAR 28), // 102
    definition!(AccountIdentification2, ans LLVAR 28), // 103
    None, // 104
    None, // 105
    None, // 106
    None, // 107
    None, // 108
    None, // 109
    None, // 110
    None, // 111
    None, // 112
    None, // 113
    None, // 114
    None, // 115
    None, // 116
    None, // 117
    None, // 118
    None, // 119
    None, // 120
    None, // 121
    None, // 122
    None, // 123
    None, // 124
    None, // 125
    None, // 126
    None, // 127
    definition!(MessageAuthenticationCode, b 64), // 128
];

/// The array has the definition of each number.
fn is_table()
    ensures { TABLE ≡ definitions 0 129 }
{}

fn row(number: usize) -> Option<Definition>
    requires { number < 129 }
    ensures { result ≡ get_or TABLE number None }
{
    TABLE[number]
}

/// The definition of a field, or `None` for a number that is not a field of the profile.
pub fn definition_at(number: u8) -> Option<Definition>
    ensures { result ≡ definition_of number }
{
    is_table();
    let number = number as usize;
    if number < 129 { row(number) } else { None }
}

/// The form of a field, or `None` for a number that is not a field of the profile.
pub fn form_at(number: u8) -> Option<FieldForm>
    ensures form { result ≡ form_of number }
    ensures known { IsKnown number result }
{
    match definition_at(number) {
        Some(definition) => Some(definition.form),
        None => None,
    }
}
