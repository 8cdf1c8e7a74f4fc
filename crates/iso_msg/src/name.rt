//! The names of the fields.

use std::fmt;

/// The name of a field in ISO 8583:1987. Some numbers share one: fields 60 to 63 are reserved for
/// private use, and both 64 and 128 are a message authentication code.
#[derive(Clone, Copy, PartialEq, Eq)]
pub enum FieldName {
    PrimaryAccountNumber,
    ProcessingCode,
    AmountTransaction,
    AmountSettlement,
    AmountCardholderBilling,
    TransmissionDateAndTime,
    ConversionRateSettlement,
    ConversionRateCardholderBilling,
    SystemsTraceAuditNumber,
    TimeLocalTransaction,
    DateLocalTransaction,
    DateExpiration,
    DateSettlement,
    DateConversion,
    DateCapture,
    MerchantType,
    AcquiringInstitutionCountryCode,
    PointOfServiceEntryMode,
    CardSequenceNumber,
    NetworkInternationalIdentifier,
    PointOfServiceConditionCode,
    PointOfServicePinCaptureCode,
    AcquiringInstitutionIdentificationCode,
    ForwardingInstitutionIdentificationCode,
    Track2Data,
    RetrievalReferenceNumber,
    AuthorizationIdentificationResponse,
    ResponseCode,
    CardAcceptorTerminalIdentification,
    CardAcceptorIdentificationCode,
    CardAcceptorNameAndLocation,
    AdditionalResponseData,
    Track1Data,
    AdditionalDataPrivate,
    CurrencyCodeTransaction,
    CurrencyCodeSettlement,
    CurrencyCodeCardholderBilling,
    PersonalIdentificationNumberData,
    SecurityRelatedControlInformation,
    AdditionalAmounts,
    ReservedForIsoUse,
    ReservedForPrivateUse,
    MessageAuthenticationCode,
    NetworkManagementInformationCode,
    OriginalDataElements,
    ReplacementAmounts,
    ReceivingInstitutionIdentificationCode,
    AccountIdentification1,
    AccountIdentification2,
}

/// The name as a person reads it, as in "systems trace audit number".
impl fmt::Display for FieldName {
    fn fmt<W: fmt::Write>(&self, f: &mut fmt::Formatter<W>) -> fmt::Result {
        f.write_str(text(*self))
    }
}

fn text(name: FieldName) -> &'static str {
    match name {
        FieldName::PrimaryAccountNumber => "primary account number",
        FieldName::ProcessingCode => "processing code",
        FieldName::AmountTransaction => "amount, transaction",
        FieldName::AmountSettlement => "amount, settlement",
        FieldName::AmountCardholderBilling => "amount, cardholder billing",
        FieldName::TransmissionDateAndTime => "transmission date and time",
        FieldName::ConversionRateSettlement => "conversion rate, settlement",
        FieldName::ConversionRateCardholderBilling => "conversion rate, cardholder billing",
        FieldName::SystemsTraceAuditNumber => "systems trace audit number",
        FieldName::TimeLocalTransaction => "time, local transaction",
        FieldName::DateLocalTransaction => "date, local transaction",
        FieldName::DateExpiration => "date, expiration",
        FieldName::DateSettlement => "date, settlement",
        FieldName::DateConversion => "date, conversion",
        FieldName::DateCapture => "date, capture",
        FieldName::MerchantType => "merchant's type",
        FieldName::AcquiringInstitutionCountryCode => "acquiring institution country code",
        FieldName::PointOfServiceEntryMode => "point of service entry mode",
        FieldName::CardSequenceNumber => "card sequence number",
        FieldName::NetworkInternationalIdentifier => "network international identifier",
        FieldName::PointOfServiceConditionCode => "point of service condition code",
        FieldName::PointOfServicePinCaptureCode => "point of service PIN capture code",
        FieldName::AcquiringInstitutionIdentificationCode =>
            "acquiring institution identification code",
        FieldName::ForwardingInstitutionIdentificationCode =>
            "forwarding institution identification code",
        FieldName::Track2Data => "track 2 data",
        FieldName::RetrievalReferenceNumber => "retrieval reference number",
        FieldName::AuthorizationIdentificationResponse => "authorization identification response",
        FieldName::ResponseCode => "response code",
        FieldName::CardAcceptorTerminalIdentification => "card acceptor terminal identification",
        FieldName::CardAcceptorIdentificationCode => "card acceptor identification code",
        FieldName::CardAcceptorNameAndLocation => "card acceptor name and location",
        FieldName::AdditionalResponseData => "additional response data",
        FieldName::Track1Data => "track 1 data",
        FieldName::AdditionalDataPrivate => "additional data, private",
        FieldName::CurrencyCodeTransaction => "currency code, transaction",
        FieldName::CurrencyCodeSettlement => "currency code, settlement",
        FieldName::CurrencyCodeCardholderBilling => "currency code, cardholder billing",
        FieldName::PersonalIdentificationNumberData => "personal identification number data",
        FieldName::SecurityRelatedControlInformation => "security related control information",
        FieldName::AdditionalAmounts => "additional amounts",
        FieldName::ReservedForIsoUse => "reserved for ISO use",
        FieldName::ReservedForPrivateUse => "reserved for private use",
        FieldName::MessageAuthenticationCode => "message authentication code",
        FieldName::NetworkManagementInformationCode => "network management information code",
        FieldName::OriginalDataElements => "original data elements",
        FieldName::ReplacementAmounts => "replacement amounts",
        FieldName::ReceivingInstitutionIdentificationCode =>
            "receiving institution identification code",
        FieldName::AccountIdentification1 => "account identification 1",
        FieldName::AccountIdentification2 => "account identification 2",
    }
}
