//! Tests of writing. The messages of the first three tests are those of a plain model in Python: each field of the
//! switch in three systems. The codes of the pages are those of glibc's iconv. The other bytes are made by hand.

use crate::tests::{LEFT, counted, draft, exact, packed_draft};
use crate::{
    Coding, Count, Draft, Page, Peer, Profile, Row, Size, WriteError, from_ascii, to_ascii,
};
use iso_codec::DecodeError;
use iso_msg::{Content, FieldForm, form_at};
use std::alloc::Global;
use std::test::Fail;

/// How a system writes its digits.
#[derive(Clone, Copy, PartialEq, Eq)]
enum Part {
    Ascii,
    Packed,
    Ebcdic,
}

const PAGE: Coding = Coding::Ebcdic(Page::Cp037);

fn digits(part: Part) -> Coding {
    match part {
        Part::Ascii => Coding::Ascii,
        Part::Packed => LEFT,
        Part::Ebcdic => PAGE,
    }
}

fn characters(part: Part) -> Coding {
    match part {
        Part::Ebcdic => PAGE,
        _ => Coding::Ascii,
    }
}

fn coding_of(part: Part, number: u8, content: Content) -> Coding {
    match content {
        Content::Numeric => digits(part),
        Content::Printable => {
            if number == 35 {
                digits(part)
            } else {
                characters(part)
            }
        }
    }
}

fn row_of(part: Part, number: u8, form: FieldForm) -> Row {
    match form {
        FieldForm::Fixed { content, length } => exact(length, coding_of(part, number, content)),
        FieldForm::Variable {
            content,
            length_digits,
            max_length,
        } => {
            let count = Count::Digits {
                coding: digits(part),
                digits: length_digits,
            };
            counted(count, max_length, coding_of(part, number, content))
        }
        FieldForm::Binary => {
            if part == Part::Ascii {
                exact(16, Coding::Ascii)
            } else {
                exact(8, Coding::Octets)
            }
        }
    }
}

// Each field of the switch, as this system writes it.
fn system(part: Part) -> Draft {
    let mut rows: [Option<Row>; 129] = [None; 129];
    for number in 2..129u8 {
        if let Some(form) = form_at(number) {
            rows[number as usize] = Some(row_of(part, number, form));
        }
    }
    let bitmap = if part == Part::Ascii {
        Coding::Ascii
    } else {
        Coding::Octets
    };
    Draft {
        mti: digits(part),
        bitmap,
        rows,
    }
}

fn is_written(alloc: Global, draft: Draft, text: &[u8], wanted: &[u8]) -> bool {
    match Profile::check(draft, Peer::Acquirer) {
        Ok(profile) => match from_ascii(alloc, &profile, text) {
            Ok(bytes) => bytes.as_slice() == wanted,
            Err(_) => false,
        },
        Err(_) => false,
    }
}

// The text is written as these bytes, and they are read as the text.
fn is_both(alloc: Global, draft: Draft, text: &[u8], bytes: &[u8]) -> bool {
    match Profile::check(draft, Peer::Acquirer) {
        Ok(profile) => match (
            from_ascii(alloc, &profile, text),
            to_ascii(alloc, &profile, bytes),
        ) {
            (Ok(written), Ok(read)) => written.as_slice() == bytes && read.as_slice() == text,
            _ => false,
        },
        Err(_) => false,
    }
}

fn refusal(alloc: Global, draft: Draft, text: &[u8]) -> Option<WriteError> {
    match Profile::check(draft, Peer::Acquirer) {
        Ok(profile) => from_ascii(alloc, &profile, text).err(),
        Err(_) => None,
    }
}

#[test]
fn ascii_messages_are_those_of_the_model(rt: HostRuntime) {
    let is = |text: &[u8], bytes: &[u8]| is_both(rt.alloc(), system(Part::Ascii), text, bytes);
    assert!(rt;
        is(
            b"0100420840800820420116294997091759447158142035684576817766MTQJQYVUU5I5QLH7OGSZYWZL01LC8BKIZD9S\
6NSATIKENIIM4RN98DJ042OUP9PZQ9278SCXZ3U1UZ00K5OTU1I5ZSL6GPVNXK5I20E98DEF85C5423C",
            b"0100420840800820420116294997091759447158142035684576817766MTQJQYVUU5I5QLH7OGSZYWZL01LC8BKIZD9S\
6NSATIKENIIM4RN98DJ042OUP9PZQ9278SCXZ3U1UZ00K5OTU1I5ZSL6GPVNXK5I20E98DEF85C5423C",
        )
    );
    assert!(rt;
        is(
            b"0110208420400410201097805954502659905220687YS04DD098X8NUU0UY7GM052NKX65J86I6FU88467N037KOAK29V\
SIHSAN9DDYG5ISBYZU2HQC5F",
            b"0110208420400410201097805954502659905220687YS04DD098X8NUU0UY7GM052NKX65J86I6FU88467N037KOAK29V\
SIHSAN9DDYG5ISBYZU2HQC5F",
        )
    );
    assert!(rt;
        is(
            b"04201042040102081008009987750812456554447878845049882L309Y61V2XT8U2E726BD4ABD816990257AX30JNXV\
15B6JMKTYQRQ34DF",
            b"04201042040102081008009987750812456554447878845049882L309Y61V2XT8U2E726BD4ABD816990257AX30JNXV\
15B6JMKTYQRQ34DF",
        )
    );
    assert!(rt;
        is(
            b"0430082102008081080432641473160621271313263371145454536862BF7D93WT031LLM39NOY5GTZ1POTMYEPVQHUJ\
UA08YQ6487691946365199010Y936HG9MSA",
            b"0430082102008081080432641473160621271313263371145454536862BF7D93WT031LLM39NOY5GTZ1POTMYEPVQHUJ\
UA08YQ6487691946365199010Y936HG9MSA",
        )
    );
    assert!(rt;
        is(
            b"0800041081002040840252011075888899616911405492351816869122207=44929761J02LPJUBTK8N0OSAHH044EJ0\
TSSLTO5XAMMNGSXIVCASGUG1NRI7135ZBEHRG5QZX024VAEKDEDSWHONMJHMC6J5UX9H",
            b"0800041081002040840252011075888899616911405492351816869122207=44929761J02LPJUBTK8N0OSAHH044EJ0\
TSSLTO5XAMMNGSXIVCASGUG1NRI7135ZBEHRG5QZX024VAEKDEDSWHONMJHMC6J5UX9H",
        )
    );
    assert!(rt;
        is(
            b"081080200000008000000400004216000001216170RV7G71FL10347017779930384926984571484301175989757215\
6DASSX65GZAV3A9IAM4TBE47D5S0VXU50B5IZ86ET7G116694512533917RMHSVR96S79F8Z5YZ28UYYIC3Y4K72I3ZD8KX6\
J197UG8V13BDE824376A9C370",
            b"081080200000008000000400004216000001216170RV7G71FL10347017779930384926984571484301175989757215\
6DASSX65GZAV3A9IAM4TBE47D5S0VXU50B5IZ86ET7G116694512533917RMHSVR96S79F8Z5YZ28UYYIC3Y4K72I3ZD8KX6\
J197UG8V13BDE824376A9C370",
        )
    );
}

#[test]
fn packed_messages_are_those_of_the_model(rt: HostRuntime) {
    let is = |text: &[u8], bytes: &[u8]| is_both(rt.alloc(), system(Part::Packed), text, bytes);
    assert!(rt;
        is(
            b"010042084080082042010391073659084487951891228CTLF5SWGX5UWEMKOXHGIY313AFW7E7HQ3SONY03EY9XUA2HQW\
M03WAS0044VX83C0E8B084AA50963",
            b"\x01\x00B\x08@\x80\x08 B\x01\x03\x09\x10se\x90\x84HyQ\x89\x12(CTLF5SWGX5UWEMKOXHGIY313AFW7E7HQ\
3SONY03EY9XUA2HQWM03WAS\x00\x044VX8<\x0e\x8b\x08J\xa5\x09c",
        )
    );
    assert!(rt;
        is(
            b"0110208420400410201048295459419871780512998VYU1WQ22XRQFPVATJJLOR82UJUKND07BD0331A2BF7DHR9JAS7I\
CQSDJ4T31C44QKD3BS",
            b"\x01\x10 \x84 @\x04\x10 \x10H)TYA\x98qx\x05\x01)\x98VYU1WQ\x22XRQFPVATJJLOR82UJUKND07BD\x0031A\
2BF7DHR9JAS7ICQSDJ4T31C44QKD3BS",
        )
    );
    assert!(rt;
        is(
            b"04201042040102081008983972705203231667028879062049865Z118YOAZ0RKD6AVMVBDRU2926AB71FDE821851039\
MQGHVHCFATKDEFR1FQ14CHQ3XQPDTV9LPNZS8CA",
            b"\x04 \x10B\x04\x01\x02\x08\x10\x08\x989rpR\x03#\x16g\x02\x88y\x00b\x04\x98eZ1\x18YOAZ0RKD6AVMV\
BDRU2\x92j\xb7\x1f\xde\x82\x18Q\x009MQGHVHCFATKDEFR1FQ14CHQ3XQPDTV9LPNZS8CA",
        )
    );
    assert!(rt;
        is(
            b"043008210200808108040856848177300391984433007035089E0USCN7018HHRI0149RI3FN7L7M2373694398708266\
1036IOXKD9HEDGQVAJNBVI90LPV97GV09UWI8GMH",
            b"\x040\x08!\x02\x00\x80\x81\x08\x04\x08V\x84\x81w0\x03\x91\x98D3\x00\x07\x03\x05\x089E0USCN7\
\x00\x18HHRI0149RI3FN7L7M276\x949\x87\x08&a\x006IOXKD9HEDGQVAJNBVI90LPV97GV09UWI8GMH",
        )
    );
    assert!(rt;
        is(
            b"0800041081002040840253280872849790302161797062348256839558320241=64371AAUEQSWE0T3FV639TI051BHZ\
1TKA51TL7HCRQJS8BGY1OTNY3AXXYAP634ZD0SF5AGAMYNR8024QIXZ6J4CWBQHNW4WO8W8IZ41",
            b"\x08\x00\x04\x10\x81\x00 @\x84\x02S(\x08r\x84\x97\x900!ay\x07\x06#\x04\x82V\x83\x95X2\x02A\xd6\
CqAAUEQSWE0T3FV639TI\x00QBHZ1TKA51TL7HCRQJS8BGY1OTNY3AXXYAP634ZD0SF5AGAMYNR8\x00$QIXZ6J4CWBQHNW4\
WO8W8IZ41",
        )
    );
    assert!(rt;
        is(
            b"081080200000008000000400004216000001824009J4EF13IK17774310178733557690998054095471770404968319\
3JG2FKLLN0KAFFEUN3CEZ8M059P6CURK5TO85UNTDDA0991354801308AUKDYCV40841MUCGQE0DEC70123E6383A6",
            b"\x08\x10\x80 \x00\x00\x00\x80\x00\x00\x04\x00\x00B\x16\x00\x00\x01\x82@\x09J4EF13IK\x01wt1\x01\
xs5Wi\x09\x98\x05@\x95G\x17p@Ih1\x93JG2FKLLN0KAFFEUN3CEZ8M059P6CURK5TO85UNTDDA\x09\x09\x13T\x80\
\x13\x08AUKDYCV4\x0841MUCGQE\x0d\xecp\x12>c\x83\xa6",
        )
    );
}

#[test]
fn ebcdic_messages_are_those_of_the_model(rt: HostRuntime) {
    let is = |text: &[u8], bytes: &[u8]| is_both(rt.alloc(), system(Part::Ebcdic), text, bytes);
    assert!(rt;
        is(
            b"01004208408008204201194879714243584442956374566551923065529199GR9X7UUJFYAFDJAJ4P282TKNDEN65482\
2WW4I2XXL0YQLTH534NOT3020FTTL12SVCGRZMB6JHP8P0B36F36ED034519C",
            b"\xf0\xf1\xf0\xf0B\x08@\x80\x08 B\x01\xf1\xf9\xf4\xf8\xf7\xf9\xf7\xf1\xf4\xf2\xf4\xf3\xf5\xf8\
\xf4\xf4\xf4\xf2\xf9\xf5\xf6\xf3\xf7\xf4\xf5\xf6\xf6\xf5\xf5\xf1\xf9\xf2\xf3\xf0\xf6\xf5\xf5\xf2\
\xf9\xf1\xf9\xf9\xc7\xd9\xf9\xe7\xf7\xe4\xe4\xd1\xc6\xe8\xc1\xc6\xc4\xd1\xc1\xd1\xf4\xd7\xf2\xf8\
\xf2\xe3\xd2\xd5\xc4\xc5\xd5\xf6\xf5\xf4\xf8\xf2\xf2\xe6\xe6\xf4\xc9\xf2\xe7\xe7\xd3\xf0\xe8\xd8\
\xd3\xe3\xc8\xf5\xf3\xf4\xd5\xd6\xe3\xf3\xf0\xf2\xf0\xc6\xe3\xe3\xd3\xf1\xf2\xe2\xe5\xc3\xc7\xd9\
\xe9\xd4\xc2\xf6\xd1\xc8\xd7\xf8\xd7\x0b6\xf3n\xd04Q\x9c",
        )
    );
    assert!(rt;
        is(
            b"0110208420400410201029001635341339642629030T2T5NC08664UWFL4ZJD0321L1TZ03QYR7S727GA2BR1QVP86GRV\
46V",
            b"\xf0\xf1\xf1\xf0 \x84 @\x04\x10 \x10\xf2\xf9\xf0\xf0\xf1\xf6\xf3\xf5\xf3\xf4\xf1\xf3\xf3\xf9\
\xf6\xf4\xf2\xf6\xf2\xf9\xf0\xf3\xf0\xe3\xf2\xe3\xf5\xd5\xc3\xf0\xf8\xf6\xf6\xf4\xe4\xe6\xc6\xd3\
\xf4\xe9\xd1\xc4\xf0\xf3\xf2\xf1\xd3\xf1\xe3\xe9\xf0\xf3\xd8\xe8\xd9\xf7\xe2\xf7\xf2\xf7\xc7\xc1\
\xf2\xc2\xd9\xf1\xd8\xe5\xd7\xf8\xf6\xc7\xd9\xe5\xf4\xf6\xe5",
        )
    );
    assert!(rt;
        is(
            b"042010420401020810082614188353728799971917543900724399948V13W4OZ4EKTY5R1A88FB40E729D10182047C2\
OM6J6ESHGSIEIPSHKK8XAJFUF5GORWX1Z2A0P0Y4HRIVU",
            b"\xf0\xf4\xf2\xf0\x10B\x04\x01\x02\x08\x10\x08\xf2\xf6\xf1\xf4\xf1\xf8\xf8\xf3\xf5\xf3\xf7\xf2\
\xf8\xf7\xf9\xf9\xf9\xf7\xf1\xf9\xf1\xf7\xf5\xf4\xf3\xf9\xf0\xf0\xf7\xf2\xf4\xf3\xf9\xf9\xf9\xf4\
\xf8\xe5\xf1\xf3\xe6\xf4\xd6\xe9\xf4\xc5\xd2\xe3\xe8\xf5\xd9\xf1\xc1\x88\xfb@\xe7)\xd1\x01\x82\
\xf0\xf4\xf7\xc3\xf2\xd6\xd4\xf6\xd1\xf6\xc5\xe2\xc8\xc7\xe2\xc9\xc5\xc9\xd7\xe2\xc8\xd2\xd2\xf8\
\xe7\xc1\xd1\xc6\xe4\xc6\xf5\xc7\xd6\xd9\xe6\xe7\xf1\xe9\xf2\xc1\xf0\xd7\xf0\xe8\xf4\xc8\xd9\xc9\
\xe5\xe4",
        )
    );
    assert!(rt;
        is(
            b"04300821020080810804225952132310229363341829611004495399557WXT239Z022VNUSV2S4DMT4NFZ7F54YP4467\
5026729566655009X4ZQW7CQI",
            b"\xf0\xf4\xf3\xf0\x08!\x02\x00\x80\x81\x08\x04\xf2\xf2\xf5\xf9\xf5\xf2\xf1\xf3\xf2\xf3\xf1\xf0\
\xf2\xf2\xf9\xf3\xf6\xf3\xf3\xf4\xf1\xf8\xf2\xf9\xf6\xf1\xf1\xf0\xf0\xf4\xf4\xf9\xf5\xf3\xf9\xf9\
\xf5\xf5\xf7\xe6\xe7\xe3\xf2\xf3\xf9\xe9\xf0\xf2\xf2\xe5\xd5\xe4\xe2\xe5\xf2\xe2\xf4\xc4\xd4\xe3\
\xf4\xd5\xc6\xe9\xf7\xc6\xf5\xf4\xe8\xd7\xf4\xf4\xf6\xf7\xf5\xf0\xf2\xf6\xf7\xf2\xf9\xf5\xf6\xf6\
\xf6\xf5\xf5\xf0\xf0\xf9\xe7\xf4\xe9\xd8\xe6\xf7\xc3\xd8\xc9",
        )
    );
    assert!(rt;
        is(
            b"080004108100204084025251880235153923269164523295473003586397973=699389093067PU20NAMNC2VL3JS62L\
016GNHQB2GEHS5DTBVB031DPCWD3OYYZKGSKVWPK2LFP5U1N0E31F",
            b"\xf0\xf8\xf0\xf0\x04\x10\x81\x00 @\x84\x02\xf5\xf2\xf5\xf1\xf8\xf8\xf0\xf2\xf3\xf5\xf1\xf5\xf3\
\xf9\xf2\xf3\xf2\xf6\xf9\xf1\xf6\xf4\xf5\xf2\xf3\xf2\xf9\xf5\xf4\xf7\xf3\xf0\xf0\xf3\xf5\xf8\xf6\
\xf3\xf9\xf7\xf9\xf7\xf3~\xf6\xf9\xf9\xf3\xf8\xf9\xf0\xf9\xf3\xf0\xf6\xf7\xd7\xe4\xf2\xf0\xd5\
\xc1\xd4\xd5\xc3\xf2\xe5\xd3\xf3\xd1\xe2\xf6\xf2\xd3\xf0\xf1\xf6\xc7\xd5\xc8\xd8\xc2\xf2\xc7\xc5\
\xc8\xe2\xf5\xc4\xe3\xc2\xe5\xc2\xf0\xf3\xf1\xc4\xd7\xc3\xe6\xc4\xf3\xd6\xe8\xe8\xe9\xd2\xc7\xe2\
\xd2\xe5\xe6\xd7\xd2\xf2\xd3\xc6\xd7\xf5\xe4\xf1\xd5\xf0\xc5\xf3\xf1\xc6",
        )
    );
    assert!(rt;
        is(
            b"081080200000008000000400004216000001466791L8VKI5UL18046881167028657560278212277585945805253198\
9FG60TVC7QH9EAKQAP5S07M2SSA61A00YYAOBO0281S113118731784713ZP9916YJD3BPH14JFL6JVBH1GMIHF6121E139E\
242A92E",
            b"\xf0\xf8\xf1\xf0\x80 \x00\x00\x00\x80\x00\x00\x04\x00\x00B\x16\x00\x00\x01\xf4\xf6\xf6\xf7\xf9\
\xf1\xd3\xf8\xe5\xd2\xc9\xf5\xe4\xd3\xf1\xf8\xf0\xf4\xf6\xf8\xf8\xf1\xf1\xf6\xf7\xf0\xf2\xf8\xf6\
\xf5\xf7\xf5\xf6\xf0\xf2\xf7\xf8\xf2\xf1\xf2\xf2\xf7\xf7\xf5\xf8\xf5\xf9\xf4\xf5\xf8\xf0\xf5\xf2\
\xf5\xf3\xf1\xf9\xf8\xf9\xc6\xc7\xf6\xf0\xe3\xe5\xc3\xf7\xd8\xc8\xf9\xc5\xc1\xd2\xd8\xc1\xd7\xf5\
\xe2\xf0\xf7\xd4\xf2\xe2\xe2\xc1\xf6\xf1\xc1\xf0\xf0\xe8\xe8\xc1\xd6\xc2\xd6\xf0\xf2\xf8\xf1\xe2\
\xf1\xf1\xf3\xf1\xf1\xf8\xf7\xf3\xf1\xf7\xf8\xf4\xf7\xf1\xf3\xe9\xd7\xf9\xf9\xf1\xf6\xe8\xd1\xc4\
\xf3\xc2\xd7\xc8\xf1\xf4\xd1\xc6\xd3\xf6\xd1\xe5\xc2\xc8\xf1\xc7\xd4\xc9\xc8\xc6a!\xe19\xe2B\xa9\
.",
        )
    );
}

// Field 48 has each printable character once.
fn page_draft(page: Page) -> Draft {
    let mut all = system(Part::Ascii);
    all.rows[48] = Some(counted(Count::Byte, 255, Coding::Ebcdic(page)));
    all
}

fn is_page(alloc: Global, page: Page, codes: &[u8]) -> Result<bool, Fail> {
    let characters =
        b" !\x22#$%&'()*+,-./0123456789:;<=>?@ABCDEFGHIJKLMNOPQRSTUVWXYZ[\x5c]^_`abcdefghijklmnopqrstuvw\
xyz{|}~";
    let mut text = Vec::new(alloc);
    text.extend_from_slice(b"08000000000000010000095")?;
    text.extend_from_slice(characters)?;
    let mut bytes = Vec::new(alloc);
    bytes.extend_from_slice(b"08000000000000010000\x5f")?;
    bytes.extend_from_slice(codes)?;
    Ok(is_both(alloc, page_draft(page), &text, &bytes))
}

#[test]
fn pages_are_those_of_iconv(rt: HostRuntime) -> Result<(), Fail> {
    let ibm037 =
        b"@Z\x7f{[lP}M]\x5cNk`Ka\xf0\xf1\xf2\xf3\xf4\xf5\xf6\xf7\xf8\xf9z^L~no|\xc1\xc2\xc3\xc4\xc5\xc6\
\xc7\xc8\xc9\xd1\xd2\xd3\xd4\xd5\xd6\xd7\xd8\xd9\xe2\xe3\xe4\xe5\xe6\xe7\xe8\xe9\xba\xe0\xbb\xb0\
my\x81\x82\x83\x84\x85\x86\x87\x88\x89\x91\x92\x93\x94\x95\x96\x97\x98\x99\xa2\xa3\xa4\xa5\xa6\
\xa7\xa8\xa9\xc0O\xd0\xa1";
    let ibm1047 =
        b"@Z\x7f{[lP}M]\x5cNk`Ka\xf0\xf1\xf2\xf3\xf4\xf5\xf6\xf7\xf8\xf9z^L~no|\xc1\xc2\xc3\xc4\xc5\xc6\
\xc7\xc8\xc9\xd1\xd2\xd3\xd4\xd5\xd6\xd7\xd8\xd9\xe2\xe3\xe4\xe5\xe6\xe7\xe8\xe9\xad\xe0\xbd_my\
\x81\x82\x83\x84\x85\x86\x87\x88\x89\x91\x92\x93\x94\x95\x96\x97\x98\x99\xa2\xa3\xa4\xa5\xa6\xa7\
\xa8\xa9\xc0O\xd0\xa1";
    assert!(rt; is_page(rt.alloc(), Page::Cp037, ibm037)?);
    assert!(rt; is_page(rt.alloc(), Page::Cp1047, ibm1047)?);
    Ok(())
}

// Field 55 in octets: 300 of them, counted by two bytes with the high one first.
#[test]
fn octets_are_counted_in_bytes(rt: HostRuntime) -> Result<(), Fail> {
    let mut all = system(Part::Ascii);
    all.rows[55] = Some(counted(Count::TwoBytes, 499, Coding::Octets));
    let mut text = Vec::new(rt.alloc());
    text.extend_from_slice(b"08000000000000000200600")?;
    let mut bytes = Vec::new(rt.alloc());
    bytes.extend_from_slice(b"08000000000000000200\x01\x2c")?;
    for _ in 0..300usize {
        text.extend_from_slice(b"9F")?;
        bytes.push(0x9f)?;
    }
    assert!(rt; is_both(rt.alloc(), all, &text, &bytes));
    Ok(())
}

// An odd number of digits with the pad F after them, counted in characters.
#[test]
fn a_pad_stands_where_the_profile_says(rt: HostRuntime) {
    let right = Coding::Packed {
        on_right: true,
        pad: 15,
    };
    let mut all = system(Part::Ascii);
    all.rows[22] = Some(exact(3, right));
    all.rows[35] = Some(counted(Count::Byte, 37, right));
    let text = b"0100000004002000000005107123=456";
    let bytes = b"01000000040020000000\x05\x1f\x07\x12\x3d\x45\x6f";
    assert!(rt; is_both(rt.alloc(), all, text, bytes));
}

// An empty second bitmap, lower case digits and a field that is not kept.
#[test]
fn one_spelling_is_written(rt: HostRuntime) {
    let empty = b"080080200000000000000000000000000000000042";
    let one = b"08000020000000000000000042";
    assert!(rt; is_written(rt.alloc(), system(Part::Ascii), empty, one));
    let lower = b"080000000000000010000123456789abcdef";
    let upper = b"080000000000000010000123456789ABCDEF";
    assert!(rt; is_written(rt.alloc(), system(Part::Ascii), lower, upper));
    let with_62 = b"08000020000000000004000042003abc";
    let without = b"\x08\x00\x00\x20\x00\x00\x00\x00\x00\x00\x00\x00\x42";
    assert!(rt; is_written(rt.alloc(), packed_draft(), with_62, without));
    let mut all = system(Part::Packed);
    all.rows[70] = Some(Row {
        is_kept: false,
        ..exact(3, LEFT)
    });
    let with_70 = b"080080200000000000000400000000000000000042001";
    assert!(rt; is_written(rt.alloc(), all, with_70, without));
}

#[test]
fn the_first_refusal_is_told(rt: HostRuntime) {
    let is = |text: &[u8], wanted: WriteError| {
        refusal(rt.alloc(), packed_draft(), text) == Some(wanted)
    };
    // A letter and a space are no packed digits; field 48 has no row.
    assert!(rt; is(b"0100000000002000000003A=1", WriteError::NotWritable(35)));
    assert!(rt;
        is(
            b"0100000000002001000003 =1001x",
            WriteError::NotWritable(35)
        )
    );
    assert!(rt;
        is(
            b"01000000000020010000031=1001x",
            WriteError::NotWritable(48)
        )
    );
    // The text is no message: field 48 is cut off, or there is more.
    let short = WriteError::NotAMessage(DecodeError::Short);
    assert!(rt; is(b"0100000000002001000003A=1002x", short));
    let trailing = WriteError::NotAMessage(DecodeError::Trailing);
    assert!(rt; is(b"0100000000002000000003A=10", trailing));
    assert!(rt; is(b"01", short));
}

// A value that is longer than the row counts, or of another length, or not of upper case digits.
#[test]
fn a_row_takes_what_it_has_bytes_for(rt: HostRuntime) {
    let is = |number: u8, row: Row, text: &[u8]| {
        let rows = [
            (2, exact(4, LEFT)),
            (3, exact(6, LEFT)),
            (4, exact(12, LEFT)),
            (7, exact(10, LEFT)),
            (11, exact(6, LEFT)),
            (39, exact(2, Coding::Ascii)),
            (41, exact(8, Coding::Ascii)),
            (number, row),
        ];
        refusal(rt.alloc(), draft(LEFT, Coding::Octets, &rows), text)
    };
    let bytes = counted(Count::Byte, 2, Coding::Octets);
    let text = b"08000000000000010000004AB0D";
    assert!(rt; is(48, bytes, text) == None);
    let text = b"08000000000000010000004ab0D";
    assert!(rt; is(48, bytes, text) == Some(WriteError::NotWritable(48)));
    let text = b"08000000000000010000003AB0";
    assert!(rt; is(48, bytes, text) == Some(WriteError::NotWritable(48)));
    let text = b"08000000000000010000006AB0DEF";
    assert!(rt; is(48, bytes, text) == Some(WriteError::NotWritable(48)));
    let two = exact(2, Coding::Ascii);
    let text = b"08000000000000010000003abc";
    assert!(rt; is(48, two, text) == Some(WriteError::NotWritable(48)));
    let text = b"08004000000000000000051234 ";
    assert!(rt; is(48, two, text) == Some(WriteError::NotAMessage(DecodeError::BadContent(2))));
    let text = b"080040000000000000000512345";
    assert!(rt; is(48, two, text) == Some(WriteError::NotWritable(2)));
}
