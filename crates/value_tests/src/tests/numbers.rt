// Numbers are decimal, without sign and without needless zeros.
use plain_values::{NumberNo, read_number};
use std::process::Abort;

/// Bytes, the most that they may say, and what they are read as.
type Row = (&'static [u8], u128, Result<u128, NumberNo>);

fn check(rt: &impl Abort, rows: &[Row]) {
    for (bytes, most, wanted) in rows {
        assert_eq!(rt; read_number(bytes, *most), *wanted);
    }
}

const NUMBERS: &[Row] = &[
    (b"0", 0, Ok(0)),
    (
        b"18446744073709551615",
        18446744073709551615,
        Ok(18446744073709551615),
    ),
    (
        b"18446744073709551616",
        18446744073709551615,
        Err(NumberNo::TooLarge),
    ),
    (
        b"340282366920938463463374607431768211456",
        340282366920938463463374607431768211455,
        Err(NumberNo::TooLarge),
    ),
    (
        b"340282366920938463463374607431768211455",
        340282366920938463463374607431768211455,
        Ok(340282366920938463463374607431768211455),
    ),
    (b"8", 7, Err(NumberNo::TooLarge)),
];

#[test]
fn numbers_are_read_up_to_the_greatest(rt: HostRuntime) {
    check(&rt, NUMBERS);
}

const OTHERS: &[Row] = &[
    (b"", 9, Err(NumberNo::NotNumber)),
    (b"00", 9, Err(NumberNo::NotNumber)),
    (b"01", 9, Err(NumberNo::NotNumber)),
    (b"+1", 9, Err(NumberNo::NotNumber)),
    (b"-0", 9, Err(NumberNo::NotNumber)),
    (b"1 ", 9, Err(NumberNo::NotNumber)),
    (b"1a", 9, Err(NumberNo::NotNumber)),
    (
        b"99999999999999999999999999999999999999999999x",
        9,
        Err(NumberNo::NotNumber),
    ),
];

#[test]
fn other_bytes_are_no_number(rt: HostRuntime) {
    check(&rt, OTHERS);
}
