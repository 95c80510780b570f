//! Messages that are not posted, and their neighbours that are.
use crate::messages::post::{MESSAGE, is_expected};
use std::test::*;

// The IP version, a number, the length of a message of zeros, its cuts, and the expected text.
type Row = (u8, u8, usize, &'static [u32], &'static str);

const EXTENSION: &str = "ExtensionNumber";

const OTHER_ICMP: &str = "IcmpOfOtherVersion";

const TOO_LONG: &str = "MessageTooLong";

const CUT_0: &str = "Cuts { index: 0 }";

const CUT_1: &str = "Cuts { index: 1 }";

const FRAGMENT_0: &str = "PieceTooLong { index: 0 }";

const FRAGMENT_1: &str = "PieceTooLong { index: 1 }";

const ROWS: &[Row] = &[
    // By number and length over IPv6.
    (6, 0, 16, &[], EXTENSION),
    (6, 43, 16, &[], EXTENSION),
    (6, 44, 16, &[], EXTENSION),
    (6, 51, 65535, &[], EXTENSION),
    (6, 60, 16, &[], EXTENSION),
    (6, 1, 65535, &[], OTHER_ICMP),
    (6, 253, 65536, &[], TOO_LONG),
    (6, 0, 65536, &[], TOO_LONG),
    (6, 1, 65536, &[], TOO_LONG),
    // By number and length over IPv4.
    (4, 51, 16, &[], EXTENSION),
    (4, 58, 16, &[], OTHER_ICMP),
    (4, 253, 65516, &[], FRAGMENT_0),
    (4, 253, 65535, &[], FRAGMENT_0),
    (4, 253, 65536, &[], TOO_LONG),
    (4, 51, 65536, &[], TOO_LONG),
    (4, 58, 65536, &[], TOO_LONG),
    (4, 51, 65516, &[], EXTENSION),
    (4, 58, 65516, &[], OTHER_ICMP),
    // Cuts are refused first.
    (4, 253, 65536, &[0], CUT_0),
    (4, 51, 16, &[0], CUT_0),
    (4, 58, 16, &[0], CUT_0),
    (6, 253, 65536, &[0], CUT_0),
    (6, 0, 16, &[0], CUT_0),
    (6, 1, 16, &[0], CUT_0),
    // Cuts of long messages.
    (4, 253, 65535, &[0], CUT_0),
    (4, 253, 65535, &[8, 8], CUT_1),
    (4, 253, 65535, &[8, 12], CUT_1),
    (4, 253, 16, &[8, 16], CUT_1),
    // Long fragments over IPv4.
    (4, 253, 65535, &[], FRAGMENT_0),
    (4, 253, 65535, &[32768], "frames: 2\n"),
    (4, 253, 65535, &[8], FRAGMENT_1),
    (4, 253, 65535, &[65528], FRAGMENT_0),
    // Long fragments over IPv6.
    (6, 253, 65535, &[], "frames: 1\n"),
    (6, 253, 65535, &[8], "frames: 2\n"),
    (6, 253, 65535, &[65528], FRAGMENT_0),
];

#[test]
fn refusals_and_their_neighbours(rt: HostRuntime) -> Result<(), Fail> {
    let zeros = vec![in rt.alloc(); 0u8; 65536]?;
    for (version, number, len, cuts, wanted) in ROWS.iter() {
        let message = zeros.get(..*len).unwrap_or(&[]);
        is_expected(rt, *version, *number, &[], message, cuts, wanted);
    }
    Ok(())
}

// The expected text for a message of this number: over IPv6 the headers of RFC 8200, section 4, are
// refused, and over both versions the authentication header and the other version's ICMP.
fn expected_of_number(version: u8, number: u8) -> &'static str {
    match (version, number) {
        (6, 0 | 43 | 44 | 60) | (_, 51) => EXTENSION,
        (6, 1) | (4, 58) => OTHER_ICMP,
        _ => "frames: 1\n",
    }
}

#[test]
fn each_number(rt: HostRuntime) {
    for number in 0..=255u8 {
        is_expected(
            rt,
            4,
            number,
            &[],
            MESSAGE,
            &[],
            expected_of_number(4, number),
        );
        is_expected(
            rt,
            6,
            number,
            &[],
            MESSAGE,
            &[],
            expected_of_number(6, number),
        );
    }
}
