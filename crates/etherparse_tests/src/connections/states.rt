//! How far connections came: after each segment of the figures of RFC 9293, by hand.

use crate::checks::equal_in;
use std::process::Abort;
use tcp_streams::{ConnectionState, Control, Direction};

const LOWER: Direction = Direction::FromLower;

const HIGHER: Direction = Direction::FromHigher;

/// A segment by name, its direction, its flags SYN, ACK, FIN and RST, and the state after it.
struct Step(&'static str, Direction, [bool; 4], ConnectionState);

const SYN: [bool; 4] = [true, false, false, false];

const SYN_ACK: [bool; 4] = [true, true, false, false];

const ACK: [bool; 4] = [false, true, false, false];

const FIN_ACK: [bool; 4] = [false, true, true, false];

const RST: [bool; 4] = [false, false, false, true];

const NO_ACK: [bool; 4] = [false, false, true, false];

const SYN_SENT: ConnectionState = ConnectionState::SynSent { opener: LOWER };

const ANSWERED: ConnectionState = ConnectionState::SynReceived { opener: LOWER };

const CLOSING: ConnectionState = ConnectionState::Closing { closer: LOWER };

// Figures 6 and 12, with a segment without ACK between them, and a new connection after it.
const OPENED_AND_CLOSED: &[Step] = &[
    Step("SYN", LOWER, SYN, SYN_SENT),
    Step("SYN again", LOWER, SYN, SYN_SENT),
    Step("SYN, ACK", HIGHER, SYN_ACK, ANSWERED),
    Step("ACK", LOWER, ACK, ConnectionState::Established),
    Step("FIN alone", LOWER, NO_ACK, ConnectionState::Established),
    Step("FIN, ACK", LOWER, FIN_ACK, CLOSING),
    Step("its ACK", HIGHER, ACK, CLOSING),
    Step("FIN, ACK back", HIGHER, FIN_ACK, ConnectionState::Closed),
    Step("late RST", HIGHER, RST, ConnectionState::Closed),
    Step("new SYN", LOWER, SYN, SYN_SENT),
];

// Figure 9: the other endpoint has a connection still.
const HALF_OPEN: &[Step] = &[
    Step("SYN", LOWER, SYN, SYN_SENT),
    Step("ACK", HIGHER, ACK, SYN_SENT),
    Step("RST", LOWER, RST, ConnectionState::Reset),
    Step("after RST", HIGHER, ACK, ConnectionState::Reset),
    Step("SYN again", LOWER, SYN, SYN_SENT),
];

// Figure 7: both endpoints open.
const AT_ONCE: &[Step] = &[
    Step("SYN", LOWER, SYN, SYN_SENT),
    Step("other SYN", HIGHER, SYN, ANSWERED),
    Step("SYN, ACK", LOWER, SYN_ACK, ConnectionState::Established),
    Step(
        "other SYN, ACK",
        HIGHER,
        SYN_ACK,
        ConnectionState::Established,
    ),
];

fn follow(rt: impl Abort + Copy, steps: &[Step]) {
    let mut state = ConnectionState::Unseen;
    for step in steps {
        let (name, wanted) = (step.0, step.3);
        let [syn, ack, fin, rst] = step.2;
        state = state.after(step.1, Control::of_flags(syn, ack, fin, rst));
        equal_in(rt, name, &state, &wanted);
    }
}

#[test]
fn states_are_those_of_the_figures(rt: HostRuntime) {
    follow(&rt, OPENED_AND_CLOSED);
    follow(&rt, HALF_OPEN);
    follow(&rt, AT_ONCE);
}
