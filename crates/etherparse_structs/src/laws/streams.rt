//! What is reported of streams, keys and states of connections.
ghost use Rattle.std.specs.Prelude.{◌≡◌, [], ◌∷◌, map, replicate, false, None, Some, Ok, Err};
ghost use Rattle.tcp_streams.specs.FlowKeys.{flow_key};
ghost use Rattle.tcp_streams.specs.declared.connection_state.ConnectionState.TheVariants as state;
ghost use Rattle.tcp_streams.specs.declared.direction.Direction.TheVariants.{FromLower, FromHigher};
ghost use Rattle.tcp_streams.specs.declared.endpoint.Endpoint.TheVariants as endpoint;
ghost use Rattle.tcp_streams.specs.declared.refusal.Refused.TheVariants.{OutsideWindow, AfterFin, AfterReset, OutOfMemory};
ghost use Rattle.etherparse_structs.specs.Connection.{StatesAreNumbered, direction_in, state_in, state_struct};
ghost use Rattle.etherparse_structs.specs.PacketKey.{key_struct, keyed_struct, no_endpoint, no_key};
ghost use Rattle.etherparse_structs.specs.Stream.{gap_struct};
ghost use Rattle.etherparse_structs.specs.StreamAdded.{conflicts_struct, no_progress, segment_refused, segment_struct};

/// A state is that of its numbers: so what is returned may be passed back.
#[tactic(auto, using(crate::proofs::StateNumbers::numbered))]
pub fn states_are_numbered()
    ensures { StatesAreNumbered }
{}

/// The numbers of states, and numbers that no state has.
pub fn numbers_of_states()
    ensures states { map state_struct (state.Unseen ∷ state.SynSent FromLower ∷ state.SynReceived FromHigher
        ∷ state.Established ∷ state.Closing FromHigher ∷ state.Closed ∷ state.Reset ∷ [])
        ≡ record { state = 0; direction = 0 } ∷ record { state = 1; direction = 1 }
        ∷ record { state = 2; direction = 2 } ∷ record { state = 3; direction = 0 }
        ∷ record { state = 4; direction = 2 } ∷ record { state = 5; direction = 0 }
        ∷ record { state = 6; direction = 0 } ∷ [] }
    ensures directions { map direction_in (0 ∷ 1 ∷ 2 ∷ 3 ∷ [])
        ≡ FromLower ∷ FromLower ∷ FromHigher ∷ FromLower ∷ [] }
    ensures unknown { state_in (record { state = 7; direction = 2 }) ≡ state.Unseen }
{}

/// A segment that is accepted at position 2 with two conflicts, the first one at 3; each refusal; and
/// nothing, of a stream that isn't open.
pub fn segments()
    ensures accepted { segment_struct (Ok (record { position = 2; conflicts = record { count = 2; first = Some 3 }; repeated = 2 }))
        ≡ record { status = 0; refusal = 0; refused_at = 0; position = 2; conflicts = record { count = 2; first = 3 } } }
    ensures refused { map segment_refused (OutsideWindow 9 ∷ AfterFin 4 ∷ AfterReset ∷ OutOfMemory ∷ [])
        ≡ record { status = 3; refusal = 1; refused_at = 9; position = 0; conflicts = record { count = 0; first = 0 } }
        ∷ record { status = 3; refusal = 2; refused_at = 4; position = 0; conflicts = record { count = 0; first = 0 } }
        ∷ record { status = 3; refusal = 3; refused_at = 0; position = 0; conflicts = record { count = 0; first = 0 } }
        ∷ record { status = 2; refusal = 0; refused_at = 0; position = 0; conflicts = record { count = 0; first = 0 } }
        ∷ [] }
    ensures error { segment_struct (Err AfterReset) ≡ segment_refused AfterReset }
    ensures none { conflicts_struct (record { count = 0; first = None }) ≡ record { count = 0; first = 0 } }
    ensures gap { gap_struct (Some (record { start = 2; end = 5 })) ≡ record { start = 2; end = 5 } }
    ensures no_gap { gap_struct None ≡ record { start = 0; end = 0 } }
    ensures closed { no_progress ≡ record {
      available = 0;
      consumed = 0;
      gap = record { start = 0; end = 0 };
      conflicts = record { count = 0; first = 0 };
      is_finished = false;
      is_reset = false;
      joined_late = false;
    } }
{}

/// The key of segments between port 80 of 10.0.0.1 and port 9 of an address of IPv6, with the tags 5 and
/// 6 on channel 7; and none, of a packet that has no segment, and of one that is refused.
pub fn keys()
    ensures key { key_struct (flow_key (5 ∷ 6 ∷ []) (endpoint.V4 (10 ∷ 0 ∷ 0 ∷ 1 ∷ []) 80) (endpoint.V6 (replicate 16 2) 9) 7)
        ≡ record {
          lower = record { version = 4; port = 80; address = 10 ∷ 0 ∷ 0 ∷ 1 ∷ replicate 12 0 };
          higher = record { version = 6; port = 9; address = replicate 16 2 };
          channel = 7;
          vlan_ids = 5 ∷ 6 ∷ 0 ∷ [];
          vlan_count = 2;
        } }
    ensures none { keyed_struct None ≡ no_key 6 }
    ensures refused { no_key 3 ≡ record {
      status = 3;
      direction = 0;
      key = record {
        lower = no_endpoint;
        higher = no_endpoint;
        channel = 0;
        vlan_ids = 0 ∷ 0 ∷ 0 ∷ [];
        vlan_count = 0;
      };
    } }
    ensures no_endpoint { no_endpoint ≡ record { version = 0; port = 0; address = replicate 16 0 } }
{}
