use crate::{Digits, Nm, NoMemory, Shared, Text, append_pieces, floor_div, read_mm, to_micro};
use std::sync::Arc;
use std::test::Fail;

// Texts, and the length in nanometres or the fault that each gives.
static NUMERALS: [(&str, &str); 64] = [
    ("1000", "ok 1000000000"),
    ("1000.0000001", "ok 1000000000"),
    ("1000.000001", "TooFar"),
    ("0.0000005", "ok 1"),
    ("-0.0000005", "ok -1"),
    (".", "BadNumber"),
    ("1e61", "BadNumber"),
    ("0e60", "ok 0"),
    ("0e-00007", "BadNumber"),
    ("9.", "ok 9000000"),
    ("81208950958811.903404901939800", "TooFar"),
    ("-0.0000005", "ok -1"),
    ("994235", "TooFar"),
    ("32915", "TooFar"),
    ("+478070066993211690547209503770E-0005", "TooFar"),
    (" 1", "BadNumber"),
    ("+62129840E1", "TooFar"),
    ("946.E-0020", "ok 0"),
    ("+747.09910", "ok 747099100"),
    ("+91098062822159239796904993013", "TooFar"),
    ("092096079920.963920031237218090E-13", "ok 9210"),
    ("-7e22", "TooFar"),
    ("9E0057", "TooFar"),
    ("-.370E-0016", "ok 0"),
    ("29.E00002", "BadNumber"),
    ("-6", "ok -6000000"),
    ("1,5", "BadNumber"),
    ("0e-60", "ok 0"),
    ("0975969959428413005743390673929", "BadNumber"),
    (".90", "ok 900000"),
    ("99.964029E+00062", "BadNumber"),
    ("0.000000499999999999999999999", "ok 0"),
    ("-9.E+02", "ok -900000000"),
    ("139699.089", "TooFar"),
    ("-9.1", "ok -9100000"),
    ("0.000000499999999999999999999", "ok 0"),
    ("1e00060", "BadNumber"),
    ("+4.9389056e+00048", "BadNumber"),
    ("-90", "ok -90000000"),
    ("+8103.00928900910E-0004", "ok 810301"),
    ("-3e-008", "ok 0"),
    ("834990990408504", "TooFar"),
    ("1234567890123456789012345678901", "BadNumber"),
    ("+.8e+00029", "BadNumber"),
    ("99994008009.9389090407876839300e+42", "TooFar"),
    ("5.", "ok 5000000"),
    ("809554.40e+0002", "TooFar"),
    ("", "BadNumber"),
    ("-.9", "ok -900000"),
    ("-00.283891E-001", "ok -28389"),
    ("537E+06", "TooFar"),
    ("-1000.0000005", "TooFar"),
    ("-84405799", "TooFar"),
    ("1e3.0", "BadNumber"),
    ("1e3.0", "BadNumber"),
    ("-74989499018950850708950813708e03", "TooFar"),
    ("-", "BadNumber"),
    ("0x10", "BadNumber"),
    ("7372009981.555690397204037916E-7", "ok 737200998"),
    ("448825072810960902095881717526", "TooFar"),
    (".000000000000000000000000000001", "ok 0"),
    ("-9107051702070.3906480993196072E-0008", "TooFar"),
    ("066096042679990999709867.059197E-00003", "BadNumber"),
    ("1.2.3", "BadNumber"),
];

#[test]
fn decimals_have_their_places(rt: HostRuntime) {
    let table: [(i64, u8, &[u8]); 6] = [
        (0, 3, b"0.000"),
        (200, 3, b"0.200"),
        (-5, 3, b"-0.005"),
        (2660, 5, b"0.02660"),
        (123_456, 3, b"123.456"),
        (i64::MIN, 9, b"-9223372036.854775808"),
    ];
    for (value, places, text) in &table {
        if 1 <= *places && *places <= 9 {
            assert!(rt;
                Digits::fixed(*value, *places).bytes() == *text,
                "{value} with {places}"
            );
        }
    }
    assert!(rt; Digits::whole(u64::MAX).bytes() == b"18446744073709551615".as_slice());
}

#[test]
fn halves_go_away_from_zero(rt: HostRuntime) {
    let table = [
        (499, 0),
        (500, 1),
        (-499, 0),
        (-500, -1),
        (200_000, 200),
        (-1_500, -2),
    ];
    for (nm, micro) in &table {
        assert_eq!(rt; to_micro(Nm(*nm)), *micro, "{nm}");
    }
}

#[test]
fn a_text_grows(rt: HostRuntime) -> Result<(), Fail> {
    let mut text = Text::copy_of(rt.alloc(), b"G1")?;
    text.append(b" X")?;
    append_pieces(&mut text, &[b"1.0", b"\n"])?;
    assert!(rt; text.bytes() == b"G1 X1.0\n".as_slice());
    let shared = Shared::of(Arc::new(rt.alloc(), text).map_err(|_| NoMemory)?);
    assert!(rt; shared.copied()?.get().bytes() == b"G1 X1.0\n".as_slice());
    Ok(())
}

#[test]
fn numerals_are_lengths(rt: HostRuntime) -> Result<(), Fail> {
    for (text, answer) in &NUMERALS {
        let bytes = text.as_bytes();
        if bytes.len() <= 64 {
            let given = match read_mm(bytes) {
                Ok(length) => format!(in rt.alloc(); "ok {}", length.0)?,
                Err(fault) => format!(in rt.alloc(); "{fault}")?,
            };
            assert!(rt; given.as_str() == *answer, "{text}");
        }
    }
    Ok(())
}

#[test]
fn quotients_go_down(rt: HostRuntime) {
    let table = [
        (7, 2, 3),
        (-7, 2, -4),
        (-8, 2, -4),
        (0, 5, 0),
        (-1, 1000, -1),
    ];
    for (a, b, floor) in &table {
        if *b > 0 {
            assert_eq!(rt; floor_div(*a, *b), *floor, "{a} by {b}");
        }
    }
}
