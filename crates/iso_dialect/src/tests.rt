use crate::{Coding, Count, Draft, Page, Peer, Profile, ProfileError, Row, Size, to_ascii};
use iso_codec::DecodeError;
use std::alloc::Global;
use std::test::Fail;

pub const LEFT: Coding = Coding::Packed {
    on_right: false,
    pad: 0,
};

const PAGE: Coding = Coding::Ebcdic(Page::Cp1047);

pub fn exact(length: u16, coding: Coding) -> Row {
    Row {
        size: Size::Exact(length),
        coding,
        is_kept: true,
    }
}

pub fn counted(count: Count, most: u16, coding: Coding) -> Row {
    Row {
        size: Size::Counted { count, most },
        coding,
        is_kept: true,
    }
}

pub fn draft(mti: Coding, bitmap: Coding, rows: &[(u8, Row)]) -> Draft {
    let mut all: [Option<Row>; 129] = [None; 129];
    for (number, row) in rows {
        if *number < 129 {
            all[*number as usize] = Some(*row);
        }
    }
    Draft {
        mti,
        bitmap,
        rows: all,
    }
}

// Packed digits with a pad on the left, a bitmap of eight bytes, and texts in ASCII. Field 62 is
// passed over, and has a length of two bytes.
pub fn packed_draft() -> Draft {
    let two = Count::Digits {
        coding: LEFT,
        digits: 2,
    };
    let private = Row {
        is_kept: false,
        ..counted(Count::TwoBytes, 300, Coding::Octets)
    };
    draft(
        LEFT,
        Coding::Octets,
        &[
            (2, counted(two, 19, LEFT)),
            (3, exact(6, LEFT)),
            (4, exact(12, LEFT)),
            (7, exact(10, LEFT)),
            (11, exact(6, LEFT)),
            (22, exact(3, LEFT)),
            (35, counted(two, 37, LEFT)),
            (39, exact(2, Coding::Ascii)),
            (41, exact(8, Coding::Ascii)),
            (52, exact(8, Coding::Octets)),
            (62, private),
        ],
    )
}

fn is_read(alloc: Global, draft: Draft, peer: Peer, bytes: &[u8], wanted: &[u8]) -> bool {
    match Profile::check(draft, peer) {
        Ok(profile) => match to_ascii(alloc, &profile, bytes) {
            Ok(text) => text.as_slice() == wanted,
            Err(_) => false,
        },
        Err(_) => false,
    }
}

fn fault(alloc: Global, bytes: &[u8]) -> Option<DecodeError> {
    match Profile::check(packed_draft(), Peer::Acquirer) {
        Ok(profile) => to_ascii(alloc, &profile, bytes).err(),
        Err(_) => None,
    }
}

// The bytes of the next two tests are those of a plain model in Python; the codes of `[`, `]` and `^`
// are those of glibc's iconv.
#[test]
fn packed_digits_are_read(rt: HostRuntime) {
    let bytes = b"\x01\x00\x72\x20\x04\x00\x20\x80\x10\x00\x16\x47\x61\x73\x90\x01\x01\x00\x10\
\x00\x00\x00\x00\x00\x00\x01\x23\x45\x11\x30\x12\x34\x56\x00\x00\x42\x00\x51\
\x21\x04\x76\x17\x39\x00\x10\x10\x01\x0d\x30\x12\
TERM0001\x01\x23\x45\x67\x89\xab\xcd\xef";
    let wanted = b"0100722004002080100016476173900101001000000000000001234511301234560000420512147\
61739001010010=3012TERM00010123456789ABCDEF";
    assert!(rt; is_read(rt.alloc(), packed_draft(), Peer::Acquirer, bytes, wanted));
}

#[test]
fn ebcdic_is_read(rt: HostRuntime) {
    let rows = [
        (2, exact(4, PAGE)),
        (4, exact(12, PAGE)),
        (7, exact(10, PAGE)),
        (11, exact(6, PAGE)),
        (39, exact(2, PAGE)),
        (41, exact(8, PAGE)),
        (70, exact(3, PAGE)),
        (90, exact(42, PAGE)),
    ];
    let bytes = b"\xf0\xf4\xf2\xf0\xf9\xf0\xf2\xf0\xf0\xf0\xf0\xf0\xf0\xf0\xf8\xf0\xf0\xf0\xf0\xf0\
\xf0\xf0\xf0\xf0\xf0\xf0\xf4\xf0\xf0\xf0\xf0\xf0\xf0\xf0\xf0\xf0\
\xf0\xf0\xf0\xf0\xf0\xf0\xf0\xf1\xf2\xf3\xf4\xf5\xf0\xf0\xf0\xf0\xf4\xf2\
\xc1\xad\xf9\xbd\x5f\xa1\x40\x82\
\xf0\xf1\xf0\xf0\xf0\xf0\xf0\xf0\xf4\xf2\xf1\xf1\xf3\xf0\xf1\xf2\xf3\xf4\xf5\xf6\xf0\xf0\xf0\xf0\
\xf0\xf0\xf0\xf0\xf0\xf0\xf0\xf0\xf0\xf0\xf0\xf0\xf0\xf0\xf0\xf0\xf1\xf2";
    let wanted = b"042090200000008000000000004000000000000000012345000042A[9]^~ b\
010000004211301234560000000000000000000012";
    assert!(rt;
        is_read(
            rt.alloc(),
            draft(PAGE, PAGE, &rows),
            Peer::Host,
            bytes,
            wanted
        )
    );
}

// Field 62 has 258 bytes, and none of them is in the text.
#[test]
fn a_field_that_is_not_kept_is_passed_over(rt: HostRuntime) -> Result<(), Fail> {
    let mut bytes = Vec::new(rt.alloc());
    bytes.extend_from_slice(b"\x08\x00\x00\x20\x00\x00\x00\x00\x00\x04\x00\x00\x42\x01\x02")?;
    for _ in 0..258usize {
        bytes.push(0xff)?;
    }
    let wanted = b"08000020000000000000000042";
    assert!(rt; is_read(rt.alloc(), packed_draft(), Peer::Acquirer, &bytes, wanted));
    Ok(())
}

// By hand, from the words of the faults.
#[test]
fn the_first_fault_is_told(rt: HostRuntime) {
    let bytes = b"\x08\x00\x00\x20\x04\x00\x20\x00\x00\x00\x00\x00\x42\x00\x51\x03\x01\x23";
    for length in 0..bytes.len() {
        assert!(rt; fault(rt.alloc(), &bytes[..length]) == Some(DecodeError::Short));
    }
    assert!(rt; fault(rt.alloc(), bytes) == None);
    let pad = b"\x08\x00\x00\x20\x04\x00\x20\x00\x00\x00\x00\x00\x42\x10\x51\x03\x01\x23";
    assert!(rt; fault(rt.alloc(), pad) == Some(DecodeError::BadContent(22)));
    let most = b"\x08\x00\x00\x20\x04\x00\x20\x00\x00\x00\x00\x00\x42\x00\x51\x38\x01\x23";
    assert!(rt; fault(rt.alloc(), most) == Some(DecodeError::BadLength(35)));
    let more = b"\x08\x00\x00\x20\x00\x00\x00\x00\x00\x00\x00\x00\x42\x00";
    assert!(rt; fault(rt.alloc(), more) == Some(DecodeError::Trailing));
    let unknown = b"\x08\x00\x00\x00\x00\x00\x00\x00\x00\x01";
    assert!(rt; fault(rt.alloc(), unknown) == Some(DecodeError::FieldNotInProfile(64)));
    assert!(rt; fault(rt.alloc(), b"\x0a\x00\x00") == Some(DecodeError::BadMti));
}

fn refusal(draft: Draft, peer: Peer) -> Option<ProfileError> {
    Profile::check(draft, peer).err()
}

#[test]
fn drafts_are_refused(rt: HostRuntime) {
    let byte = Count::Byte;
    let is = |rows: &[(u8, Row)], wanted: ProfileError| {
        refusal(draft(LEFT, Coding::Octets, rows), Peer::Host) == Some(wanted)
    };
    assert!(rt; is(&[(65, exact(2, LEFT))], ProfileError::NoField(65)));
    assert!(rt; is(&[(8, exact(8, LEFT))], ProfileError::NotInTable(8)));
    assert!(rt; is(&[(11, exact(7, LEFT))], ProfileError::NeverFits(11)));
    assert!(rt;
        is(
            &[(63, counted(byte, 256, LEFT))],
            ProfileError::CountTooSmall(63)
        )
    );
    assert!(rt; is(&[(2, counted(byte, 19, LEFT))], ProfileError::NotKept(4)));
}
