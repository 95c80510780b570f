//! Laws of the states of connections.

ghost use Rattle.std.specs.Prelude.{◌≡◌, [], ◌∷◌};
ghost use Rattle.tcp_streams.specs.ConnectionStates.{EndpointsAreAlike, state_of};
ghost use Rattle.tcp_streams.specs.declared.connection_state.Control.TheVariants as control;
ghost use Rattle.tcp_streams.specs.declared.connection_state.ConnectionState.TheVariants as state;
ghost use Rattle.tcp_streams.specs.declared.direction.Direction.TheVariants.{FromLower, FromHigher};

/// Which endpoint is the lower one doesn't matter.
#[tactic(auto, using(crate::proofs::StateLemmas::alike))]
pub fn endpoints_are_alike()
    ensures { EndpointsAreAlike }
{}

/// Connections that are opened: by one endpoint (RFC 9293, figure 6), by both at once (figure 7), and
/// after an old SYN (figure 8).
pub fn connections_are_opened()
    ensures handshake { state_of ((FromLower, control.Syn) ∷ (FromHigher, control.SynAck)
        ∷ (FromLower, control.Ack) ∷ []) ≡ state.Established }
    ensures first_syn { state_of ((FromLower, control.Syn) ∷ []) ≡ state.SynSent FromLower }
    ensures answered { state_of ((FromHigher, control.Syn) ∷ (FromLower, control.SynAck) ∷ [])
        ≡ state.SynReceived FromHigher }
    ensures at_once { state_of ((FromLower, control.Syn) ∷ (FromHigher, control.Syn)
        ∷ (FromLower, control.SynAck) ∷ (FromHigher, control.SynAck) ∷ []) ≡ state.Established }
    ensures old_syn { state_of ((FromLower, control.Syn) ∷ (FromHigher, control.SynAck)
        ∷ (FromLower, control.Rst) ∷ []) ≡ state.Reset }
    ensures again { state_of ((FromLower, control.Syn) ∷ (FromHigher, control.SynAck)
        ∷ (FromLower, control.Rst) ∷ (FromLower, control.Syn) ∷ (FromHigher, control.SynAck)
        ∷ (FromLower, control.Ack) ∷ []) ≡ state.Established }
{}

/// Half-open connections: the endpoint that still has the connection answers SYN by ACK, and gets
/// RST (RFC 9293, figure 9).
pub fn half_open_connections()
    ensures answered { state_of ((FromLower, control.Syn) ∷ (FromHigher, control.Ack) ∷ [])
        ≡ state.SynSent FromLower }
    ensures reset { state_of ((FromLower, control.Syn) ∷ (FromHigher, control.Ack)
        ∷ (FromLower, control.Rst) ∷ []) ≡ state.Reset }
{}

/// Connections that are closed: by one endpoint and then by the other (RFC 9293, figure 12), and by
/// both at once (figure 13). The begin of these wasn't seen.
pub fn connections_are_closed()
    ensures one { state_of ((FromLower, control.Ack) ∷ (FromLower, control.Fin)
        ∷ (FromHigher, control.Ack) ∷ []) ≡ state.Closing FromLower }
    ensures both { state_of ((FromLower, control.Ack) ∷ (FromLower, control.Fin)
        ∷ (FromHigher, control.Ack) ∷ (FromHigher, control.Fin) ∷ (FromLower, control.Ack) ∷ [])
        ≡ state.Closed }
    ensures at_once { state_of ((FromLower, control.Fin) ∷ (FromHigher, control.Fin)
        ∷ (FromLower, control.Ack) ∷ (FromHigher, control.Ack) ∷ []) ≡ state.Closed }
    ensures repeated { state_of ((FromLower, control.Fin) ∷ (FromLower, control.Fin) ∷ [])
        ≡ state.Closing FromLower }
    ensures late_reset { state_of ((FromLower, control.Fin) ∷ (FromHigher, control.Fin)
        ∷ (FromHigher, control.Rst) ∷ []) ≡ state.Closed }
    ensures reopened { state_of ((FromLower, control.Fin) ∷ (FromHigher, control.Fin)
        ∷ (FromHigher, control.Syn) ∷ []) ≡ state.SynSent FromHigher }
{}
