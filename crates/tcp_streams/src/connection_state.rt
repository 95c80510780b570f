//! How far a TCP connection came.

ghost use Rattle.std.specs.Prelude.{◌≡◌};
ghost use Rattle.tcp_streams.specs.ConnectionStates.{control_in, state_after};

use super::direction::Direction;

/// What the control flags of a segment do (RFC 9293, section 3.10.7.4).
#[derive(Clone, Copy, Debug, PartialEq, Eq)]
pub enum Control {
    /// RST.
    Rst,
    /// SYN without ACK. A FIN beside it doesn't count.
    Syn,
    /// SYN with ACK. A FIN beside them doesn't count.
    SynAck,
    /// FIN with ACK.
    Fin,
    /// ACK alone.
    Ack,
    /// None of these: a segment without ACK is dropped, whatever else it has.
    Nothing,
}

impl Control {
    /// That of a segment with these flags.
    pub fn of_flags(syn: bool, ack: bool, fin: bool, rst: bool) -> Control
        ensures { result ≡ control_in syn ack fin rst }
    {
        if rst {
            Control::Rst
        } else if syn && ack {
            Control::SynAck
        } else if syn {
            Control::Syn
        } else if !ack {
            Control::Nothing
        } else if fin {
            Control::Fin
        } else {
            Control::Ack
        }
    }
}

/// How far a TCP connection came, as someone sees it who reads the segments of both endpoints (RFC
/// 9293, figure 5).
///
/// It goes by control flags alone. Neither sequence numbers nor acknowledgments count, so a segment
/// that an endpoint would drop may count here.
#[derive(Clone, Copy, Debug, PartialEq, Eq)]
pub enum ConnectionState {
    /// No segment came.
    Unseen,
    /// The endpoint that opens it sent SYN.
    SynSent {
        /// The direction of the SYN.
        opener: Direction,
    },
    /// The other endpoint answered with SYN, and the first one didn't acknowledge that.
    SynReceived {
        /// The direction of the acknowledgment that is missing.
        opener: Direction,
    },
    /// Both endpoints may send.
    Established,
    /// One endpoint sent FIN.
    Closing {
        /// The direction of the FIN.
        closer: Direction,
    },
    /// Both endpoints sent FIN.
    Closed,
    /// An endpoint sent RST before both sent FIN.
    Reset,
}

impl ConnectionState {
    /// The state after one more segment, which goes in this direction.
    ///
    /// A connection whose begin wasn't seen is established with its first ACK. SYN begins a new
    /// connection after FIN of both endpoints or RST, and no other segment counts then.
    pub fn after(self, direction: Direction, control: Control) -> ConnectionState
        ensures { result ≡ state_after self direction control }
    {
        match self {
            ConnectionState::Unseen => after_nothing(direction, control),
            ConnectionState::SynSent { opener } => after_syn(opener, direction, control),
            ConnectionState::SynReceived { opener } => after_both_syns(opener, direction, control),
            ConnectionState::Established => match control {
                Control::Rst => ConnectionState::Reset,
                Control::Fin => ConnectionState::Closing { closer: direction },
                _ => ConnectionState::Established,
            },
            ConnectionState::Closing { closer } => match control {
                Control::Rst => ConnectionState::Reset,
                Control::Fin if closer != direction => ConnectionState::Closed,
                _ => ConnectionState::Closing { closer },
            },
            ConnectionState::Closed => match control {
                Control::Syn => ConnectionState::SynSent { opener: direction },
                _ => ConnectionState::Closed,
            },
            ConnectionState::Reset => match control {
                Control::Syn => ConnectionState::SynSent { opener: direction },
                _ => ConnectionState::Reset,
            },
        }
    }
}

fn after_nothing(direction: Direction, control: Control) -> ConnectionState
    ensures { result ≡ state_after ConnectionState.Unseen direction control }
{
    match control {
        Control::Rst => ConnectionState::Reset,
        Control::Syn => ConnectionState::SynSent { opener: direction },
        Control::SynAck => ConnectionState::SynReceived {
            opener: direction.other(),
        },
        Control::Fin => ConnectionState::Closing { closer: direction },
        Control::Ack => ConnectionState::Established,
        Control::Nothing => ConnectionState::Unseen,
    }
}

fn after_syn(opener: Direction, direction: Direction, control: Control) -> ConnectionState
    ensures { result ≡ state_after (ConnectionState.SynSent opener) direction control }
{
    let is_openers = direction == opener;
    match control {
        Control::Rst => ConnectionState::Reset,
        Control::Syn if !is_openers => ConnectionState::SynReceived { opener },
        Control::SynAck => ConnectionState::SynReceived {
            opener: direction.other(),
        },
        Control::Fin if is_openers => ConnectionState::Closing { closer: direction },
        Control::Ack if is_openers => ConnectionState::Established,
        _ => ConnectionState::SynSent { opener },
    }
}

fn after_both_syns(opener: Direction, direction: Direction, control: Control) -> ConnectionState
    ensures { result ≡ state_after (ConnectionState.SynReceived opener) direction control }
{
    match control {
        Control::Rst => ConnectionState::Reset,
        Control::SynAck if direction == opener => ConnectionState::Established,
        Control::Fin => ConnectionState::Closing { closer: direction },
        Control::Ack => ConnectionState::Established,
        _ => ConnectionState::SynReceived { opener },
    }
}
