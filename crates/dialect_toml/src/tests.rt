use crate::{FrameLength, ProfileFile, ProfileFileError, read_profile};
use iso_dialect::{Peer, to_ascii};
use std::alloc::Global;
use std::test::Fail;

mod files;

fn is_read(alloc: Global, file: &ProfileFile, bytes: &[u8], wanted: &[u8]) -> bool {
    match to_ascii(alloc, &file.profile, bytes) {
        Ok(text) => text.as_slice() == wanted,
        Err(_) => false,
    }
}

// What a plain model in Python writes for the fields 2, 3, 4, 7, 11, 22, 35, 41 and 52.
const REQUEST: &[u8] =
    b"0100722004002080100016476173900101001000000000000001234511301234560000420512147\
61739001010010=3012TERM00010123456789ABCDEF";

#[test]
fn the_ascii_profile_is_read(rt: HostRuntime) -> Result<(), Fail> {
    let file = read_profile(rt.alloc(), files::ISO87ASCII, Peer::Acquirer)?;
    assert!(rt; is_read(rt.alloc(), &file, REQUEST, REQUEST));
    let Some(frame) = file.frame else {
        return Err(Fail::from("there is no frame"));
    };
    assert!(rt; frame.length == FrameLength::Ascii4);
    assert!(rt; !frame.counts_itself);
    assert!(rt; frame.header.as_slice().is_empty());
    assert!(rt; frame.most == 9_999);
    Ok(())
}

// By hand: field 22 has its pad on the left, and field 35 on the right.
#[test]
fn the_binary_profile_is_read(rt: HostRuntime) -> Result<(), Fail> {
    let bytes = b"\x01\x00\x72\x20\x04\x00\x20\x80\x10\x00\x16\x47\x61\x73\x90\x01\x01\x00\x10\
\x00\x00\x00\x00\x00\x00\x01\x23\x45\x11\x30\x12\x34\x56\x00\x00\x42\x00\x51\
\x21\x47\x61\x73\x90\x01\x01\x00\x10\xd3\x01\x20\
TERM0001\x01\x23\x45\x67\x89\xab\xcd\xef";
    let file = read_profile(rt.alloc(), files::ISO87BINARY, Peer::Acquirer)?;
    assert!(rt; is_read(rt.alloc(), &file, bytes, REQUEST));
    let Some(frame) = file.frame else {
        return Err(Fail::from("there is no frame"));
    };
    assert!(rt; frame.length == FrameLength::Binary2);
    assert!(rt; !frame.counts_itself);
    assert!(rt; frame.header.as_slice() == b"\x60\x00\x00\x00\x00".as_slice());
    assert!(rt; frame.most == 2_048);
    Ok(())
}

// The codes are those of glibc's iconv. Field 55 has three bytes, field 62 three characters, and field 64 is not kept.
#[test]
fn the_profile_of_a_host_is_read(rt: HostRuntime) -> Result<(), Fail> {
    let bytes = b"\xf0\xf1\xf1\xf0\x12\x20\x00\x00\x02\x80\x02\x05\
\xf0\xf0\xf0\xf0\xf0\xf0\xf0\xf1\xf2\xf3\xf4\xf5\xf1\xf1\xf3\xf0\xf1\xf2\xf3\xf4\xf5\xf6\
\xf0\xf0\xf0\xf0\xf4\xf2\xf0\xf0\xc1\xad\xf9\xbd\x5f\xa1\x40\x82\
\x00\x03\x9f\x26\x08\x03\x81\x82\x83\xff\xff\xff\xff\xff\xff\xff\xff";
    let wanted = b"01101220000002800204000000012345113012345600004200A[9]^~ b0069F2608003abc";
    let file = read_profile(rt.alloc(), files::HOST1047, Peer::Host)?;
    assert!(rt; is_read(rt.alloc(), &file, bytes, wanted));
    let Some(frame) = file.frame else {
        return Err(Fail::from("there is no frame"));
    };
    assert!(rt; frame.length == FrameLength::Binary2);
    assert!(rt; frame.counts_itself);
    assert!(rt; frame.header.as_slice().len() == 22);
    Ok(())
}

// By hand: field 35 has a count of one byte and its pad on the right, field 44 is in EBCDIC, and field 64 is not kept.
#[test]
fn the_profile_of_the_page_is_read(rt: HostRuntime) -> Result<(), Fail> {
    let bytes = b"\x08\x00\x00\x20\x00\x00\x20\x10\x00\x01\x00\x00\x42\
\x15\x47\x61\x73\x90\x01\x01\x00\x10\xd3\x01\x20\x03\x81\x82\x83\xff\xff\xff\xff\xff\xff\xff\xff";
    let wanted = b"08000020000020100000000042214761739001010010=301203abc";
    let file = read_profile(rt.alloc(), files::PAGE, Peer::Acquirer)?;
    assert!(rt; is_read(rt.alloc(), &file, bytes, wanted));
    Ok(())
}

const MESSAGE: &str = "message = { type = 'IFA_NUMERIC', bitmap = 'IFA_BITMAP' }";

// A file with these tables of fields.
fn text_of(alloc: Global, fields: &str) -> Result<String, Fail> {
    Ok(format!(in alloc; "{MESSAGE}\nfield = [ {fields} ]")?)
}

// What a refusal of a file says.
fn refusal(alloc: Global, text: &str) -> Result<String, Fail> {
    match read_profile(alloc, text, Peer::Acquirer) {
        Ok(_) => Ok(String::new(alloc)),
        Err(fault) => Ok(format!(in alloc; "{fault}")?),
    }
}

#[test]
fn faults_of_tables_are_told(rt: HostRuntime) -> Result<(), Fail> {
    let cases = [
        (
            "",
            "top table: key field is missing: expected an array of tables",
        ),
        (
            "fields = []",
            "top table: unknown key: expected one of field, frame, message; found \"fields\"",
        ),
        (
            "field = 1\nmessage = {}",
            "top table: key field has a bad value: expected an array of tables; found 1",
        ),
        (
            "field = [{}]\nmessage = {}\nframe = { length = 'ascii' }",
            "frame: key length has a bad value: expected one of ascii4, binary2, binary4, packed2; \
found \"ascii\"",
        ),
        (
            "field = [{}]\nmessage = {}\nframe = { length = 'ascii4', header = '600' }",
            "frame: key header has a bad value: expected at most 64 bytes as hexadecimal digits, \
two for each; found \"600\"",
        ),
        (
            "field = [{}]\nmessage = { type = 'IFB_BINARY', bitmap = true }",
            "message: key bitmap has a bad value: expected one of IFA_BITMAP, IFB_BITMAP, \
IFE_BITMAP; found true",
        ),
        (
            "field = [{}]\nmessage = { type = 'IFB_BINARY', bitmap = 'IFB_BITMAP' }",
            "message: key type has a bad value: expected one of IFA_NUMERIC, IFB_NUMERIC, \
IFE_NUMERIC; found \"IFB_BINARY\"",
        ),
    ];
    for (text, wanted) in cases {
        assert_eq!(rt; refusal(rt.alloc(), text)?.as_str(), wanted);
    }
    Ok(())
}

#[test]
fn faults_of_fields_are_told(rt: HostRuntime) -> Result<(), Fail> {
    let cases = [
        (
            "{ number = 1, class = 'IF_CHAR', length = 8 }",
            "field table 0: key number has a bad value: expected an integer from 2 to 128; found 1",
        ),
        (
            "{ number = 41, class = 'IF_CHAR', length = 8, pad = 'up' }",
            "field table 0 (number 41): key pad has a bad value: expected one of left, right; \
found \"up\"",
        ),
        (
            "{ number = 41, class = 'IF_CHAR', length = 8, pad = 'left' }",
            "field table 0 (number 41): key pad has no meaning: expected it beside a class of \
packed digits; found class IF_CHAR",
        ),
        (
            "{ number = 28, class = 'IFB_AMOUNT', length = 9 }",
            "field table 0 (number 28): an amount with a sign cannot be kept: expected \
keep = false; found class IFB_AMOUNT",
        ),
        (
            "{ number = 3, class = 'IFA_NUMERIC', length = 6 }, \
{ number = 3, class = 'IFA_NUMERIC', length = 7 }",
            "field table 1 (number 3): an earlier field table has the same number: expected another",
        ),
        (
            "{ number = 65, class = 'IFA_BINARY', length = 1, keep = false }",
            "field 65: expected a number from 2 to 64 or from 66 to 128",
        ),
        (
            "{ number = 8, class = 'IFA_NUMERIC', length = 8 }",
            "field 8: the switch does not have the field: expected keep = false",
        ),
        (
            "{ number = 11, class = 'IFB_NUMERIC', length = 7 }",
            "field 11 (systems trace audit number): no value of this class and length fits the \
field: expected 6 digits",
        ),
        (
            "{ number = 2, class = 'IFA_LLNUM', length = 100 }",
            "field 2 (primary account number): the class cannot count up to this length: \
expected a lower length or another class",
        ),
        (
            "{ number = 2, class = 'IFA_LLNUM', length = 19 }",
            "field 3 (processing code): the switch needs the field: expected a field table with \
number = 3 that is kept",
        ),
    ];
    for (fields, wanted) in cases {
        let text = text_of(rt.alloc(), fields)?;
        assert_eq!(rt; refusal(rt.alloc(), text.as_str())?.as_str(), wanted);
    }
    Ok(())
}

#[test]
fn an_unknown_class_is_refused_by_its_name(rt: HostRuntime) -> Result<(), Fail> {
    let text = text_of(
        rt.alloc(),
        "{ number = 2, class = 'IFA_LLABINARY', length = 9 }",
    )?;
    let wanted = "field table 0 (number 2): key class has a bad value: expected one of \
IF_CHAR, IFA_NUMERIC, IFA_LLNUM, IFA_LLLNUM, IFA_LLCHAR, IFA_LLLCHAR, IFA_BINARY, IFA_LLBINARY, \
IFA_LLLBINARY, IFA_AMOUNT, IFB_NUMERIC, IFB_LLNUM, IFB_LLLNUM, IFB_LLCHAR, IFB_LLLCHAR, \
IFB_LLHNUM, IFB_LLHCHAR, IFB_LLHECHAR, IFB_LLHBINARY, IFB_LLLHCHAR, IFB_LLLHECHAR, \
IFB_LLLHBINARY, IFB_BINARY, IFB_LLBINARY, IFB_LLLBINARY, IFB_AMOUNT, IFE_CHAR, IFE_NUMERIC, \
IFE_LLNUM, IFE_LLLNUM, IFE_LLCHAR, IFE_LLLCHAR; found \"IFA_LLABINARY\"";
    assert_eq!(rt; refusal(rt.alloc(), text.as_str())?.as_str(), wanted);
    Ok(())
}

#[test]
fn a_key_that_stands_twice_is_no_toml(rt: HostRuntime) {
    let read = read_profile(rt.alloc(), "field = []\nfield = []", Peer::Host);
    assert!(rt; matches!(read, Err(ProfileFileError::Toml(_))));
}
