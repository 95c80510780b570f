//! How far a TCP connection came, as numbers.
ghost use Rattle.std.specs.Prelude.{◌≡◌};
ghost use Rattle.etherparse_structs.specs.Connection.{direction_in, direction_number, state_in, state_struct};
ghost use Rattle.etherparse_structs.specs.Connection.{state_struct_after};

use tcp_streams::{ConnectionState, Control, Direction};

/// From the lower endpoint to the higher one.
pub const FROM_LOWER: u32 = 1;

/// From the higher endpoint to the lower one.
pub const FROM_HIGHER: u32 = 2;

/// No segment of the connection came.
pub const STATE_UNSEEN: u32 = 0;

/// The endpoint that opens it sent SYN.
pub const STATE_SYN_SENT: u32 = 1;

/// The other endpoint answered with SYN, and the first one didn't acknowledge that.
pub const STATE_SYN_RECEIVED: u32 = 2;

/// Both endpoints may send.
pub const STATE_ESTABLISHED: u32 = 3;

/// One endpoint sent FIN.
pub const STATE_CLOSING: u32 = 4;

/// Both endpoints sent FIN.
pub const STATE_CLOSED: u32 = 5;

/// An endpoint sent RST before both sent FIN.
pub const STATE_RESET: u32 = 6;

/// Control flags of a TCP segment (RFC 9293, section 3.1).
#[repr(C)]
#[derive(Drop)]
pub struct EpSegmentFlags {
    /// SYN: the sequence number is its own, and the payload begins at the next one.
    pub syn: bool,
    /// ACK.
    pub ack: bool,
    /// FIN: no byte comes after the payload.
    pub fin: bool,
    /// RST: the connection is reset, and the payload is no part of the stream.
    pub rst: bool,
}

/// How far a connection came. Zeros are a connection of which no segment came.
#[repr(C)]
#[derive(Drop)]
pub struct EpConnectionState {
    /// 0 unseen, 1 SYN sent, 2 SYN received, 3 established, 4 closing, 5 closed, 6 reset.
    pub state: u32,
    /// Of 1 and 2: the direction of the endpoint that opens it, of 4 that of the FIN. Else 0.
    pub direction: u32,
}

impl EpConnectionState {
    /// The state after a segment with these flags, which goes in this direction: 2 from the higher
    /// endpoint, any other number from the lower one.
    pub fn after(&self, direction: u32, flags: &EpSegmentFlags) -> EpConnectionState
        ensures { result ≡ state_struct_after self.now direction flags.now }
    {
        let control = Control::of_flags(flags.syn, flags.ack, flags.fin, flags.rst);
        state_struct(state_in(self).after(direction_in(direction), control))
    }
}

/// The number of a direction.
pub(crate) fn direction_number(direction: Direction) -> u32
    ensures { result ≡ direction_number direction }
{
    match direction {
        Direction::FromLower => FROM_LOWER,
        Direction::FromHigher => FROM_HIGHER,
    }
}

fn direction_in(number: u32) -> Direction
    ensures { result ≡ direction_in number }
{
    if number == FROM_HIGHER {
        Direction::FromHigher
    } else {
        Direction::FromLower
    }
}

fn state_in(numbers: &EpConnectionState) -> ConnectionState
    ensures { result ≡ state_in numbers.now }
{
    let direction = direction_in(numbers.direction);
    match numbers.state {
        STATE_SYN_SENT => ConnectionState::SynSent { opener: direction },
        STATE_SYN_RECEIVED => ConnectionState::SynReceived { opener: direction },
        STATE_ESTABLISHED => ConnectionState::Established,
        STATE_CLOSING => ConnectionState::Closing { closer: direction },
        STATE_CLOSED => ConnectionState::Closed,
        STATE_RESET => ConnectionState::Reset,
        _ => ConnectionState::Unseen,
    }
}

fn state_struct(state: ConnectionState) -> EpConnectionState
    ensures { result ≡ state_struct state }
{
    match state {
        ConnectionState::Unseen => numbered(STATE_UNSEEN, 0),
        ConnectionState::SynSent { opener } => numbered(STATE_SYN_SENT, direction_number(opener)),
        ConnectionState::SynReceived { opener } => {
            numbered(STATE_SYN_RECEIVED, direction_number(opener))
        }
        ConnectionState::Established => numbered(STATE_ESTABLISHED, 0),
        ConnectionState::Closing { closer } => numbered(STATE_CLOSING, direction_number(closer)),
        ConnectionState::Closed => numbered(STATE_CLOSED, 0),
        ConnectionState::Reset => numbered(STATE_RESET, 0),
    }
}

fn numbered(state: u32, direction: u32) -> EpConnectionState
    ensures { result ≡ record { state = state; direction = direction } }
{
    EpConnectionState { state, direction }
}
