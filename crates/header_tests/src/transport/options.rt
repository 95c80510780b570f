//! Options of TCP, as bytes and as elements.

use crate::checks::{equal, equal_bytes, reads};
use ep_tcpudp::TcpOptionElement::*;
use ep_tcpudp::{
    TcpHeader, TcpOptionElement, TcpOptionReadError, TcpOptionWriteError, TcpOptions,
    TcpOptionsIterator, tcp_option,
};
use std::process::Abort;
use std::test::*;

// The functions below have no contracts, as tests alone call them.

type Item = Option<Result<TcpOptionElement, TcpOptionReadError>>;

// What the options of these bytes begin with.
fn first(bytes: &[u8]) -> Item {
    TcpOptionsIterator::from_slice(bytes).next()
}

// The options of these elements, or none.
fn options_of(elements: &[TcpOptionElement]) -> TcpOptions {
    TcpOptions::try_from_elements(elements).unwrap_or(TcpOptions::new())
}

#[test]
fn option_lengths(rt: HostRuntime) {
    let options = options_of(&[WindowScale(123), Noop, Noop]);
    equal_bytes(
        rt,
        options.as_slice(),
        [3, 3, 0x7b, 1, 1, 0, 0, 0].as_slice(),
    );
    equal(
        rt,
        (options.len(), options.len_u8(), options.is_empty()),
        (8, 8, false),
    );
}

#[test]
fn kinds_and_lengths(rt: HostRuntime) {
    let kinds = [
        tcp_option::KIND_END,
        tcp_option::KIND_NOOP,
        tcp_option::KIND_MAXIMUM_SEGMENT_SIZE,
        tcp_option::KIND_WINDOW_SCALE,
        tcp_option::KIND_SELECTIVE_ACK_PERMITTED,
        tcp_option::KIND_SELECTIVE_ACK,
        tcp_option::KIND_TIMESTAMP,
    ];
    let lengths = [
        tcp_option::LEN_END,
        tcp_option::LEN_NOOP,
        tcp_option::LEN_MAXIMUM_SEGMENT_SIZE,
        tcp_option::LEN_WINDOW_SCALE,
        tcp_option::LEN_SELECTIVE_ACK_PERMITTED,
        tcp_option::LEN_TIMESTAMP,
    ];
    equal(
        rt,
        (kinds, lengths),
        ([0, 1, 2, 3, 4, 5, 8], [1, 1, 4, 3, 2, 10]),
    );
}

// The options of a first segment as Linux sends them: 1460, selective acknowledgements, timestamps,
// a no-operation and the scale 7.
const FIRST_SEGMENT: [u8; 20] = [
    2, 4, 0x05, 0xb4, 4, 2, 8, 10, 0, 0, 0, 1, 0, 0, 0, 0, 1, 3, 3, 7,
];

fn first_elements() -> [TcpOptionElement; 5] {
    [
        MaximumSegmentSize(1460),
        SelectiveAcknowledgementPermitted,
        Timestamp(1, 0),
        Noop,
        WindowScale(7),
    ]
}

#[test]
fn elements_of_a_first_segment(rt: HostRuntime) {
    let mut header = TcpHeader::new(1, 2, 3, 4);
    equal(rt, header.set_options(&first_elements()), Ok(()));
    equal(rt, header.options(), FIRST_SEGMENT.as_slice());
}

#[test]
fn elements_come_back(rt: HostRuntime) {
    let mut items = TcpOptionsIterator::from_slice(&FIRST_SEGMENT);
    for element in first_elements() {
        if element == Noop {
            equal(rt, items.rest(), [1, 3, 3, 7].as_slice());
        }
        equal(rt, items.next(), Some(Ok(element)));
    }
    equal(rt, items.next(), None);
}

#[test]
fn blocks_are_packed(rt: HostRuntime) {
    let options = options_of(&[SelectiveAcknowledgement((1, 2), [None, Some((3, 4)), None])]);
    let bytes = [5, 18, 0, 0, 0, 1, 0, 0, 0, 2, 0, 0, 0, 3, 0, 0, 0, 4, 0, 0];
    equal_bytes(rt, options.as_slice(), bytes.as_slice());
    let mut items = options.elements_iter();
    let packed = SelectiveAcknowledgement((1, 2), [Some((3, 4)), None, None]);
    equal(rt, [items.next(), items.next()], [Some(Ok(packed)), None]);
}

#[test]
fn four_blocks(rt: HostRuntime) {
    let element = SelectiveAcknowledgement((1, 2), [Some((3, 4)), Some((5, 6)), Some((7, 8))]);
    let options = options_of(&[element, Noop, Noop]);
    equal(
        rt,
        (options.len(), options.elements_iter().next()),
        (36, Some(Ok(element))),
    );
}

#[test]
fn room_for_forty_bytes(rt: HostRuntime) {
    let four = Timestamp(1, 2);
    equal(rt, options_of(&[four; 4]).len(), 40);
    let refused = Err(TcpOptionWriteError::NotEnoughSpace(41));
    equal(
        rt,
        TcpOptions::try_from_elements(&[four, four, four, four, Noop]),
        refused,
    );
}

#[test]
fn refused_options_change_nothing(rt: HostRuntime) {
    let mut header = TcpHeader::new(1, 2, 3, 4);
    let refused = Err(TcpOptionWriteError::NotEnoughSpace(41));
    equal(rt, header.set_options(&[Noop; 41]), refused);
    equal(rt, header, TcpHeader::new(1, 2, 3, 4));
}

#[test]
fn options_of_bytes(rt: HostRuntime) {
    equal(rt, TcpOptions::try_from_slice(&[]), Ok(TcpOptions::new()));
    let padded = Ok(TcpOptions::from([1, 0, 0, 0]));
    equal(rt, &TcpOptions::try_from_slice(&[1]), &padded);
    equal(rt, TcpOptions::try_from([Noop].as_slice()), padded);
    let refused = Err(TcpOptionWriteError::NotEnoughSpace(41));
    equal(rt, TcpOptions::try_from_slice(&[1; 41]), refused);
}

#[test]
fn options_changed_in_place(rt: HostRuntime) {
    let mut options = TcpOptions::from([1, 1, 1, 1]);
    options.as_mut_slice()[3] = 0;
    equal(rt, &options, &TcpOptions::from([1, 1, 1, 0]));
    equal(
        rt,
        TcpOptions::try_from([1, 1, 1, 0].as_slice()),
        Ok(options),
    );
    equal(rt, TcpOptions::default().is_empty(), true);
}

// The first two items, and how many bytes are left then.
fn two(bytes: &[u8]) -> ([Item; 2], usize) {
    let mut items = TcpOptionsIterator::from_slice(bytes);
    ([items.next(), items.next()], items.rest().len())
}

// Nothing comes after the end of the list, nor after a fault.
#[test]
fn nothing_after_the_end(rt: HostRuntime) {
    equal(rt, two(&[1, 0, 1, 1]), ([Some(Ok(Noop)), None], 0));
    let unknown = TcpOptionReadError::UnknownId(6);
    equal(rt, two(&[6, 1, 1, 1]), ([Some(Err(unknown)), None], 0));
}

// The option of this kind and size at the start of so many bytes.
fn option(kind: u8, size: u8, len: usize) -> Item {
    let mut bytes = [0; 34];
    bytes[0] = kind;
    bytes[1] = size;
    first(bytes.get(..len).unwrap_or(&bytes))
}

fn end(option_id: u8, expected_len: u8, actual_len: usize) -> Item {
    Some(Err(TcpOptionReadError::UnexpectedEndOfSlice {
        option_id,
        expected_len,
        actual_len,
    }))
}

fn wrong(option_id: u8, size: u8) -> Item {
    Some(Err(TcpOptionReadError::UnexpectedSize { option_id, size }))
}

// A kind that has one size: with each number of bytes too few, and with each wrong size.
fn one_size(rt: impl Abort + Copy, kind: u8, size: u8) {
    for len in 1..usize::from(size) {
        equal(rt, option(kind, size, len), end(kind, size, len));
    }
    for other in 0..=255u8 {
        if other != size {
            equal(rt, option(kind, other, 10), wrong(kind, other));
        }
    }
}

// RFC 9293, section 3.2; RFC 7323, sections 2.2 and 3.2; RFC 2018, section 2.
#[test]
fn sizes_of_kinds(rt: HostRuntime) {
    one_size(rt, 2, 4);
    one_size(rt, 3, 3);
    one_size(rt, 4, 2);
    one_size(rt, 8, 10);
}

// With each number of bytes too few.
fn size_of_acknowledgement(rt: impl Abort + Copy, size: u8) {
    for len in 2..usize::from(size) {
        equal(rt, option(5, size, len), end(5, size, len));
    }
}

// Of a selective acknowledgement first the size is looked at, and then whether its bytes are there
// (RFC 2018, section 3).
#[test]
fn sizes_of_acknowledgements(rt: HostRuntime) {
    equal(rt, first(&[5]), end(5, 2, 1));
    for size in 0..=255u8 {
        if size == 10 || size == 18 || size == 26 || size == 34 {
            size_of_acknowledgement(rt, size);
        } else {
            equal(rt, option(5, size, 2), wrong(5, size));
        }
    }
}

// Every kind that the table of options doesn't have, with any size.
#[test]
fn unknown_kinds(rt: HostRuntime) {
    for kind in 6..=255u8 {
        if kind != 8 {
            let unknown = Some(Err(TcpOptionReadError::UnknownId(kind)));
            equal(rt, [first(&[kind, 2, 0, 0]), first(&[kind])], [unknown; 2]);
        }
    }
}

const COUNTED: [u8; 40] = [
    1, 2, 3, 4, 5, 6, 7, 8, 9, 10, 11, 12, 13, 14, 15, 16, 17, 18, 19, 20, 21, 22, 23, 24, 25, 26,
    27, 28, 29, 30, 31, 32, 33, 34, 35, 36, 37, 38, 39, 40,
];

// So many of them.
fn counted<const N: usize>() -> [u8; N] {
    let mut bytes = [0; N];
    if let Some(prefix) = COUNTED.get(..N) {
        bytes.copy_from_slice(prefix);
    }
    bytes
}

fn are_counted(rt: impl Abort + Copy, options: TcpOptions, len: usize) {
    equal(rt, Some(options.as_slice()), COUNTED.get(..len));
}

// Options of one to ten words by value are these bytes.
#[test]
fn options_of_words(rt: HostRuntime) {
    are_counted(rt, TcpOptions::from(counted::<4>()), 4);
    are_counted(rt, TcpOptions::from(counted::<8>()), 8);
    are_counted(rt, TcpOptions::from(counted::<12>()), 12);
    are_counted(rt, TcpOptions::from(counted::<16>()), 16);
    are_counted(rt, TcpOptions::from(counted::<20>()), 20);
    are_counted(rt, TcpOptions::from(counted::<24>()), 24);
    are_counted(rt, TcpOptions::from(counted::<28>()), 28);
    are_counted(rt, TcpOptions::from(counted::<32>()), 32);
    are_counted(rt, TcpOptions::from(counted::<36>()), 36);
    are_counted(rt, TcpOptions::from(counted::<40>()), 40);
}

#[test]
fn iterators_are_equal_by_what_is_left(rt: HostRuntime) {
    let mut items = TcpOptionsIterator::from_slice(&[1, 1, 0]);
    let shorter = TcpOptionsIterator::from_slice(&[1, 0]);
    let at_first = items == shorter;
    items.next();
    equal(rt, [at_first, items == shorter], [false, true]);
}

#[test]
fn errors_as_text(rt: HostRuntime) {
    let unknown = TcpOptionReadError::UnknownId(6);
    reads(rt, &unknown, "TCP option of kind 6: the kind is unknown");
    let short = TcpOptionReadError::UnexpectedEndOfSlice {
        option_id: 2,
        expected_len: 4,
        actual_len: 3,
    };
    let wanted = "TCP option of kind 2: 4 byte(s) are needed, and 3 are left";
    reads(rt, &short, wanted);
    let wrong = TcpOptionReadError::UnexpectedSize {
        option_id: 3,
        size: 4,
    };
    let wanted = "TCP option of kind 3: the length byte is 4, which this kind doesn't have";
    reads(rt, &wrong, wanted);
}
