//! The definitions at literal segments.

ghost use Rattle.std.specs.Prelude.{◌≡◌, [], ◌∷◌, true, false, None, Some, codes};
ghost use Rattle.tcp_streams.specs.declared.connection_state.ConnectionState.TheVariants.{Closed, Established, SynSent};
ghost use Rattle.tcp_streams.specs.declared.connection_state.Control.TheVariants.{Syn, SynAck};
ghost use Rattle.tcp_streams.specs.declared.direction.Direction.TheVariants.{FromLower};
ghost use Rattle.tcp_streams.specs.declared.refusal.Refused.TheVariants.{OutsideWindow, AfterFin, AfterReset};
ghost use Rattle.tcp_streams.specs.declared.sequence_numbers.Distance.TheVariants.{After, Before};
ghost use Rattle.tcp_streams.specs.Following.{begins_anew_by};
ghost use Rattle.tcp_streams.specs.Laws.{IsCutOf, IsNear};
ghost use Rattle.tcp_streams.specs.Losses.{lost_of};
ghost use Rattle.tcp_streams.specs.Segments.{next_position, placed, segment, start_number};
ghost use Rattle.tcp_streams.specs.Refusals.{refusal_of};
ghost use Rattle.tcp_streams.specs.PlacedSegments.{conflicts_of, fin_of, placed_segment, text_of};
ghost use Rattle.tcp_streams.specs.SequenceNumbers.{distance};
ghost use Rattle.tcp_streams.specs.SparseBytes.{counted};

/// Numbers on both sides of 0, and half the numbers away.
pub fn numbers_that_wrap()
    ensures next { distance 100 101 ≡ After 1 }
    ensures same { distance 7 7 ≡ After 0 }
    ensures wrapped { distance 4294967295 0 ≡ After 1 }
    ensures back { distance 0 4294967295 ≡ Before 1 }
    ensures farthest { distance 4294967290 2147483641 ≡ After 2147483647 }
    ensures half { distance 4294967290 2147483642 ≡ Before 2147483648 }
{}

/// The text up to the first gap: `abcdefgh` of three segments that overlap, and `ab` while the bytes
/// after it are missing.
pub fn text_up_to_a_gap()
    ensures whole { text_of (placed_segment 0 (codes "abc") false false ∷
        placed_segment 5 (codes "fgh") true false ∷ placed_segment 2 (codes "cdef") false false ∷ [])
        ≡ codes "abcdefgh" }
    ensures gap { text_of (placed_segment 5 (codes "fgh") true false ∷
        placed_segment 0 (codes "ab") false false ∷ []) ≡ codes "ab" }
    ensures fin { fin_of (placed_segment 5 (codes "fgh") true false ∷
        placed_segment 0 (codes "ab") false false ∷ []) ≡ Some 8 }
{}

/// The first byte at a position stays: of `abc`, `xcd` from 1 on and `bcy` from 1 on the text is
/// `abcd`, and positions 1 and 3 have conflicts.
pub fn first_byte_stays()
    ensures text { text_of (placed_segment 0 (codes "abc") false false ∷
        placed_segment 1 (codes "xcd") false false ∷ placed_segment 1 (codes "bcy") false false ∷ [])
        ≡ codes "abcd" }
    ensures conflicts { conflicts_of (placed_segment 0 (codes "abc") false false ∷
        placed_segment 1 (codes "xcd") false false ∷ placed_segment 1 (codes "bcy") false false ∷ [])
        ≡ 1 ∷ 3 ∷ [] }
    ensures count { counted (1 ∷ 3 ∷ []) ≡ record { count = 2; first = Some 1 } }
{}

/// SYN has the greatest number, and the first byte has number 0. After two bytes from the last number
/// but one on, number 0 is that of the third; a repeat from the first on has position 0, or begins
/// where bytes aren't taken yet, and one from before the first loses what lies before it.
pub fn segments_at_their_positions()
    ensures syn { start_number None 4294967295 (record { syn = true; fin = false; rst = false }) ≡ 0 }
    ensures next { placed (Some 4294967294) 0 (placed_segment 0 (codes "ab") false false ∷ [])
        (segment 0 (record { syn = false; fin = false; rst = false }) (codes "cd"))
        ≡ placed_segment 2 (codes "cd") false false }
    ensures again { placed (Some 4294967294) 0 (placed_segment 0 (codes "ab") false false ∷ [])
        (segment 4294967294 (record { syn = false; fin = false; rst = false }) (codes "abc"))
        ≡ placed_segment 0 (codes "abc") false false }
    ensures taken { placed (Some 4294967294) 2 (placed_segment 0 (codes "ab") false false ∷ [])
        (segment 4294967294 (record { syn = false; fin = true; rst = false }) (codes "abc"))
        ≡ placed_segment 2 (codes "c") true false }
    ensures before { placed (Some 4294967294) 0 (placed_segment 0 (codes "ab") false false ∷ [])
        (segment 4294967290 (record { syn = false; fin = false; rst = false }) (codes "wxyzabc"))
        ≡ placed_segment 0 (codes "abc") false false }
{}

/// `cd` at offset 2 of `abcdef`, whose first byte has the greatest number but one, is a segment with
/// number 0; it may come first.
pub fn cut_of_a_text()
    ensures cut { IsCutOf (codes "abcdef") 4294967294 2
        (segment 0 (record { syn = false; fin = false; rst = false }) (codes "cd")) }
    ensures near { IsNear 2 0 }
{}

/// FIN takes a number, so the position after it is expected next once all bytes came. FIN that came
/// before counts no more, RST counts at the position that is expected next alone, and a segment with
/// RST has no bytes.
pub fn fin_and_reset()
    ensures after { next_position (placed_segment 0 (codes "ab") true false ∷ []) ≡ 3 }
    ensures open { next_position (placed_segment 0 (codes "ab") false false ∷ []) ≡ 2 }
    ensures repeated { placed (Some 100) 0 (placed_segment 0 (codes "ab") true false ∷ [])
        (segment 101 (record { syn = false; fin = true; rst = false }) (codes "b"))
        ≡ placed_segment 1 (codes "b") false false }
    ensures reset { placed (Some 100) 0 (placed_segment 0 (codes "ab") false false ∷ [])
        (segment 102 (record { syn = false; fin = false; rst = true }) (codes "x"))
        ≡ placed_segment 2 [] false true }
    ensures no_reset { placed (Some 100) 0 (placed_segment 0 (codes "ab") false false ∷ [])
        (segment 103 (record { syn = false; fin = true; rst = true }) (codes "x"))
        ≡ placed_segment 3 [] false false }
{}

/// Each refusal, and what isn't refused: a segment that ends with the window, FIN again, and a segment
/// without bytes after FIN.
pub fn refusals()
    ensures outside { refusal_of 4 2 (placed_segment 0 (codes "ab") false false ∷ [])
        (placed_segment 5 (codes "fg") false false) ≡ Some (OutsideWindow 6) }
    ensures within { refusal_of 4 2 (placed_segment 0 (codes "ab") false false ∷ [])
        (placed_segment 4 (codes "ef") false false) ≡ None }
    ensures after_fin { refusal_of 9 0 (placed_segment 0 (codes "ab") true false ∷ [])
        (placed_segment 2 (codes "c") false false) ≡ Some (AfterFin 2) }
    ensures fin_again { refusal_of 9 0 (placed_segment 0 (codes "ab") true false ∷ [])
        (placed_segment 1 (codes "b") true false) ≡ None }
    ensures empty { refusal_of 9 0 (placed_segment 0 (codes "ab") true false ∷ [])
        (placed_segment 3 [] false false) ≡ None }
    ensures early_fin { refusal_of 9 0 (placed_segment 0 (codes "abc") false false ∷ [])
        (placed_segment 1 (codes "b") true false) ≡ Some (AfterFin 2) }
    ensures two_fins { refusal_of 9 0 (placed_segment 5 [] true false ∷ [])
        (placed_segment 3 [] true false) ≡ Some (AfterFin 3) }
    ensures after_reset { refusal_of 9 0 (placed_segment 0 [] false true ∷ [])
        (placed_segment 0 (codes "a") false false) ≡ Some AfterReset }
{}

/// `ab`, whose first byte has number 7, and `fg` after three missing bytes: these are lost where all of
/// them are acknowledged. Where no byte is held after `ab`, those before FIN are lost; and where FIN
/// didn't come, all before a number that stands after the window, of 16 bytes.
pub fn bytes_that_are_lost()
    ensures gap { lost_of 16 0 (Some 7) (placed_segment 0 (codes "ab") false false ∷
        placed_segment 5 (codes "fg") false false ∷ []) (Some (record { start = 2; end = 5 })) 12
        ≡ Some (record { start = 2; end = 5 }) }
    ensures part { lost_of 16 0 (Some 7) (placed_segment 0 (codes "ab") false false ∷
        placed_segment 5 (codes "fg") false false ∷ []) (Some (record { start = 2; end = 5 })) 11 ≡ None }
    ensures wrapped { lost_of 16 0 (Some 4294967294) (placed_segment 0 (codes "ab") false false ∷
        placed_segment 5 (codes "fg") false false ∷ []) (Some (record { start = 2; end = 5 })) 3
        ≡ Some (record { start = 2; end = 5 }) }
    ensures before { lost_of 16 0 (Some 7) (placed_segment 0 (codes "ab") false false ∷
        placed_segment 5 (codes "fg") false false ∷ []) (Some (record { start = 2; end = 5 })) 8 ≡ None }
    ensures fin { lost_of 16 0 (Some 7) (placed_segment 0 (codes "ab") false false ∷
        placed_segment 5 [] true false ∷ []) None 13 ≡ Some (record { start = 2; end = 5 }) }
    ensures within { lost_of 16 0 (Some 7) (placed_segment 0 (codes "ab") false false ∷ []) None 23 ≡ None }
    ensures far { lost_of 16 0 (Some 7) (placed_segment 0 (codes "ab") false false ∷ []) None 24
        ≡ Some (record { start = 2; end = 17 }) }
    ensures nothing { lost_of 16 0 None [] None 24 ≡ None }
{}

/// SYN begins a new connection after the end of one, and with another number also before it. The same
/// number, SYN with ACK, and the first segment of a direction begin none.
pub fn connections_that_begin()
    ensures ended { begins_anew_by Closed (Some 8) 7 Syn ≡ true }
    ensures other { begins_anew_by Established (Some 8) 9 Syn ≡ true }
    ensures repeated { begins_anew_by (SynSent FromLower) (Some 8) 7 Syn ≡ false }
    ensures wrapped { begins_anew_by Established (Some 0) 4294967295 Syn ≡ false }
    ensures answer { begins_anew_by Established (Some 8) 9 SynAck ≡ false }
    ensures first { begins_anew_by (SynSent FromLower) None 9 Syn ≡ false }
{}
