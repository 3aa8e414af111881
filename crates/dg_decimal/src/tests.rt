use super::*;
use std::alloc::{AllocError, Global};
use std::test::Fail;

// What each text reads as, in billionths: as Python's `decimal` has it, with as many digits as it takes and
// ROUND_HALF_UP at the ninth place, behind a test of the form by a regular expression.
const READ: [(&str, Result<i64, DecimalRefusal>); 46] = [
    ("0", Ok(0)),
    ("1", Ok(1_000_000_000)),
    ("-1", Ok(-1_000_000_000)),
    ("0.5e-9", Ok(1)),
    ("0.4999999999e-9", Ok(0)),
    ("-0.5e-9", Ok(-1)),
    ("-0.0000000004", Ok(0)),
    ("1.5e-9", Ok(2)),
    ("2.5e-9", Ok(3)),
    ("-2.5e-9", Ok(-3)),
    ("-0", Ok(0)),
    ("1e-400", Ok(0)),
    ("0e400", Ok(0)),
    ("1e400", Err(DecimalRefusal::Range)),
    ("-1e400", Err(DecimalRefusal::Range)),
    ("9223372036.854775807", Ok(9_223_372_036_854_775_807)),
    ("9223372036.8547758074", Ok(9_223_372_036_854_775_807)),
    ("9223372036.8547758075", Err(DecimalRefusal::Range)),
    ("9223372036.854775808", Err(DecimalRefusal::Range)),
    ("-9223372036.854775808", Ok(-9_223_372_036_854_775_808)),
    ("-9223372036.8547758085", Err(DecimalRefusal::Range)),
    (".5", Ok(500_000_000)),
    ("5.", Ok(5_000_000_000)),
    ("+5", Ok(5_000_000_000)),
    ("5.e1", Ok(50_000_000_000)),
    ("5.E-1", Ok(500_000_000)),
    ("000012.340", Ok(12_340_000_000)),
    ("123456789012345678901e-11", Ok(1_234_567_890_123_456_789)),
    ("0.000000000000000000000000001e18", Ok(1)),
    ("12e4294967296", Err(DecimalRefusal::Range)),
    ("1e-4294967296", Ok(0)),
    ("1e4294967287", Err(DecimalRefusal::Range)),
    (".", Err(DecimalRefusal::NotNumber)),
    ("-", Err(DecimalRefusal::NotNumber)),
    ("1.5f", Err(DecimalRefusal::NotNumber)),
    ("", Err(DecimalRefusal::NotNumber)),
    ("+", Err(DecimalRefusal::NotNumber)),
    ("1e", Err(DecimalRefusal::NotNumber)),
    ("1e+", Err(DecimalRefusal::NotNumber)),
    ("e5", Err(DecimalRefusal::NotNumber)),
    ("1..2", Err(DecimalRefusal::NotNumber)),
    ("0x1", Err(DecimalRefusal::NotNumber)),
    (" 1", Err(DecimalRefusal::NotNumber)),
    ("--1", Err(DecimalRefusal::NotNumber)),
    ("1e1.5", Err(DecimalRefusal::NotNumber)),
    ("٣", Err(DecimalRefusal::NotNumber)),
];

// What each value prints as: as Python's `decimal` prints the value over a billion in the format `.9f`, less the zeros
// at its end and then a point there.
const PRINTED: [(i64, &str); 9] = [
    (0, "0"),
    (1, "0.000000001"),
    (-1, "-0.000000001"),
    (1_000_000_000, "1"),
    (-500_000_000, "-0.5"),
    (120_000_000, "0.12"),
    (1_000_000_001, "1.000000001"),
    (9_223_372_036_854_775_807, "9223372036.854775807"),
    (-9_223_372_036_854_775_808, "-9223372036.854775808"),
];

// Products: as Python's `decimal` has them, over a billion and rounded by ROUND_HALF_UP.
const PRODUCTS: [(i64, i64, Result<i64, Range>); 7] = [
    (1, 500_000_000, Ok(1)),
    (1, 499_999_999, Ok(0)),
    (-1, 500_000_000, Ok(-1)),
    (3_000_000_000, -2_500_000_000, Ok(-7_500_000_000)),
    (
        -9_223_372_036_854_775_808,
        1_000_000_000,
        Ok(-9_223_372_036_854_775_808),
    ),
    (-9_223_372_036_854_775_808, -1_000_000_000, Err(Range)),
    (9_223_372_036_854_775_807, 1_000_000_001, Err(Range)),
];

fn prints_as(value: i64, expected: &str) -> bool {
    print(value).as_str() == expected
}

#[test]
fn texts_values_and_products_are_as_computed_elsewhere(rt: HostRuntime) {
    for (text, expected) in READ {
        assert_eq!(rt; read(text), expected, "{text}");
    }
    for (value, expected) in PRINTED {
        assert!(rt; prints_as(value, expected), "{expected}");
        reads_back(value);
        assert_eq!(rt; read(expected), Ok(value), "{expected}");
    }
    for (a, b, expected) in PRODUCTS {
        assert_eq!(rt; mul(a, b), expected, "{a} * {b}");
    }
    assert_eq!(rt; add(i64::MAX, -1), Ok(i64::MAX - 1));
    assert_eq!(rt; add(i64::MAX, 1), Err(Range));
}

// A text of `before`, 60,000 times `digit`, and `after`.
fn long(alloc: Global, before: &str, digit: char, after: &str) -> Result<String, AllocError> {
    let mut text = String::from_str(alloc, before)?;
    for _ in 0..60_000 {
        text.push(digit)?;
    }
    text.push_str(after)?;
    Ok(text)
}

#[test]
fn long_texts_are_read(rt: HostRuntime) -> Result<(), Fail> {
    let alloc = rt.alloc();
    assert_eq!(rt;
        read(long(alloc, "1", '0', "e-60000")?.as_str()),
        Ok(1_000_000_000)
    );
    assert_eq!(rt;
        read(long(alloc, "0.", '0', "1e60000")?.as_str()),
        Ok(100_000_000)
    );
    assert_eq!(rt; read(long(alloc, "0.4", '9', "e-9")?.as_str()), Ok(0));
    assert_eq!(rt;
        read(long(alloc, "1e", '9', "")?.as_str()),
        Err(DecimalRefusal::Range)
    );
    assert_eq!(rt; read(long(alloc, "-1e-", '9', "")?.as_str()), Ok(0));
    assert_eq!(rt; read(long(alloc, "0e", '9', "")?.as_str()), Ok(0));
    assert_eq!(rt;
        read(long(alloc, "1e", '9', "x")?.as_str()),
        Err(DecimalRefusal::NotNumber)
    );
    Ok(())
}
