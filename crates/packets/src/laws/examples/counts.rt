//! What a summary counts of the capture of docs/PACKETS.md, by the tables there.

ghost use Rattle.std.specs.Prelude.{◌≡◌, ℕ, [], ◌∷◌, true, false, None, Some, slice_index};
ghost use Rattle.std.specs.Map.{keys_of};
ghost use Rattle.ep_base.specs.declared.err.layer.Layer.TheVariants as layer;
ghost use Rattle.packets.specs.Counts.{Counts, is_bad, is_completing, is_good, is_refused_fragment, is_unchecked};
ghost use Rattle.packets.specs.Examples.{ipv6_address, page, outline_of_fragment};
ghost use Rattle.packets.specs.Examples.{sized, tally};
ghost use Rattle.packets.specs.Lengths.{CountsLengths};
ghost use Rattle.packets.specs.Numbers.{number_tally};
ghost use Rattle.packets.specs.Period.{earliest_of, latest_of};
ghost use Rattle.packets.specs.Rate.{is_past_spans, span_at};
ghost use Rattle.packets.specs.Table.{no_tally, tally_at};
ghost use Rattle.packets.specs.declared.outline.FragmentState.TheVariants as state;
ghost use Rattle.packets.specs.declared.reason.Reason.TheVariants as reason;
ghost use Rattle.packets.specs.declared.summary.lengths.Lengths.{Lengths};
ghost use Rattle.packets.specs.declared.summary.summary.Summary.{Summary};
ghost use Rattle.packets.specs.declared.summary.verified.Verified.TheVariants as verified;
ghost use Rattle.checksum_verdicts.specs.declared.verdict.Verdict.TheVariants as verdict;

use crate::{Reason, Verified};

/// The rows of each table but those of reasons, conversations and senders.
pub fn rows_of_the_page<S, H>()
    ensures all { (summary : Summary S H)
        → Counts ⟦<Reason as PartialEq>⟧.eq ⟦<Verified as PartialEq>⟧.eq summary page
        → (summary.all ≡ tally 10 485 1) × (summary.refused ≡ tally 2 75 7) }
    ensures links { (summary : Summary S H)
        → Counts ⟦<Reason as PartialEq>⟧.eq ⟦<Verified as PartialEq>⟧.eq summary page
        → (summary.protocols.ethernet ≡ tally 10 485 1) × (summary.protocols.vlan ≡ tally 1 74 4)
        × (summary.protocols.macsec ≡ no_tally) × (summary.protocols.arp ≡ tally 1 42 3)
        × (summary.protocols.ipv4 ≡ tally 7 348 1) × (summary.protocols.ipv6 ≡ tally 1 74 4) }
    ensures over_ip { (summary : Summary S H)
        → Counts ⟦<Reason as PartialEq>⟧.eq ⟦<Verified as PartialEq>⟧.eq summary page
        → (number_tally summary.protocols.over_ip 6 ≡ tally 2 108 1)
        × (number_tally summary.protocols.over_ip 17 ≡ tally 5 240 2)
        × (number_tally summary.protocols.over_ip 58 ≡ tally 1 74 4)
        × (number_tally summary.protocols.over_ip 0 ≡ no_tally) }
    ensures checksums { (summary : Summary S H)
        → Counts ⟦<Reason as PartialEq>⟧.eq ⟦<Verified as PartialEq>⟧.eq summary page
        → (summary.checksums.good ≡ tally 3 178 1) × (summary.checksums.bad ≡ tally 1 46 2)
        × (summary.checksums.none ≡ tally 1 44 9) }
    ensures fragments { (summary : Summary S H)
        → Counts ⟦<Reason as PartialEq>⟧.eq ⟦<Verified as PartialEq>⟧.eq summary page
        → (summary.parts.all ≡ tally 3 150 5) × (summary.parts.completing ≡ tally 1 50 6)
        × (summary.parts.refused ≡ no_tally) }
    ensures sizes { (summary : Summary S H)
        → Counts ⟦<Reason as PartialEq>⟧.eq ⟦<Verified as PartialEq>⟧.eq summary page
        → (slice_index summary.sizes.counts 4 ≡ 0) × (slice_index summary.sizes.counts 5 ≡ 1)
        × (slice_index summary.sizes.counts 6 ≡ 8) × (slice_index summary.sizes.counts 7 ≡ 1) }
{}

/// The reasons in the order of their first packets, and the senders.
pub fn keys_of_the_page<S, H>()
    ensures reasons { (summary : Summary S H)
        → Counts ⟦<Reason as PartialEq>⟧.eq ⟦<Verified as PartialEq>⟧.eq summary page
        → keys_of summary.reasons.entries
        ≡ reason.CutOff layer.Ipv4Header ∷ reason.TcpDataOffset ∷ [] }
    ensures of_reasons { (summary : Summary S H)
        → Counts ⟦<Reason as PartialEq>⟧.eq ⟦<Verified as PartialEq>⟧.eq summary page
        → (tally_at ⟦<Reason as PartialEq>⟧.eq summary.reasons (reason.CutOff layer.Ipv4Header)
        ≡ tally 1 21 7)
        × (tally_at ⟦<Reason as PartialEq>⟧.eq summary.reasons reason.TcpDataOffset ≡ tally 1 54 8)
        × (tally_at ⟦<Reason as PartialEq>⟧.eq summary.reasons (reason.CutOff layer.TcpHeader)
        ≡ no_tally) }
    ensures senders { (summary : Summary S H)
        → Counts ⟦<Reason as PartialEq>⟧.eq ⟦<Verified as PartialEq>⟧.eq summary page
        → keys_of summary.senders.entries
        ≡ verified.V4 (10 ∷ 0 ∷ 0 ∷ 1 ∷ []) false ∷ verified.V4 (10 ∷ 0 ∷ 0 ∷ 1 ∷ []) true
        ∷ verified.V6 (ipv6_address 1) false ∷ [] }
    ensures of_senders { (summary : Summary S H)
        → Counts ⟦<Reason as PartialEq>⟧.eq ⟦<Verified as PartialEq>⟧.eq summary page
        → (tally_at ⟦<Verified as PartialEq>⟧.eq summary.senders
        (verified.V4 (10 ∷ 0 ∷ 0 ∷ 1 ∷ []) false) ≡ tally 2 104 1)
        × (tally_at ⟦<Verified as PartialEq>⟧.eq summary.senders
        (verified.V4 (10 ∷ 0 ∷ 0 ∷ 1 ∷ []) true) ≡ tally 1 46 2)
        × (tally_at ⟦<Verified as PartialEq>⟧.eq summary.senders
        (verified.V6 (ipv6_address 1) false) ≡ tally 1 74 4)
        × (tally_at ⟦<Verified as PartialEq>⟧.eq summary.senders
        (verified.V6 (ipv6_address 1) true) ≡ no_tally) }
{}

/// With spans of 1/32 second, 0.03125 s, packets an eighth of a second apart come in every fourth
/// span, and the tenth in the 37th; it would come after the 64th of spans half as long.
pub fn spans_of_the_page()
    ensures second { span_at 31250000 1700000000250000000 1700000000375000000 ≡ 4 }
    ensures tenth { span_at 31250000 1700000000250000000 1700000001375000000 ≡ 36 }
    ensures just_before { span_at 31250000 1700000000250000000 1700000000374999999 ≡ 3 }
    ensures before { span_at 31250000 1700000000250000000 1600000000000000000 ≡ 0 }
    ensures half_as_long { span_at 15625000 1700000000250000000 1700000001375000000 ≡ 72 }
    ensures beyond { (is_past_spans 15625000 1700000000250000000
        (outline_of_fragment 10 9 state.Waits None) ≡ true)
        × (is_past_spans 31250000 1700000000250000000 (outline_of_fragment 10 9 state.Waits None)
        ≡ false) }
{}

/// The first packet is the earliest one, and the tenth the latest. Where these are exchanged, it is the
/// same.
pub fn period_of_the_page()
    ensures earliest { earliest_of page ≡ Some 1700000000250000000 }
    ensures latest { latest_of page ≡ Some 1700000001375000000 }
    ensures none { (earliest_of [] ≡ None) × (latest_of [] ≡ None) }
    ensures exchanged { (earliest_of (outline_of_fragment 10 9 state.Waits None
        ∷ outline_of_fragment 5 4 state.Waits None ∷ []) ≡ Some 1700000000750000000)
        × (latest_of (outline_of_fragment 10 9 state.Waits None
        ∷ outline_of_fragment 5 4 state.Waits None ∷ []) ≡ Some 1700000001375000000) }
{}

/// The verdicts on checksums, and what became of fragments.
pub fn kinds_of_packets()
    ensures good { (is_good (Some verdict.Good) ≡ true) × (is_good (Some verdict.Bad) ≡ false)
        × (is_good (Some verdict.None) ≡ false) × (is_good None ≡ false) }
    ensures bad { (is_bad (Some verdict.Bad) ≡ true) × (is_bad (Some verdict.Good) ≡ false)
        × (is_bad (Some verdict.None) ≡ false) × (is_bad None ≡ false) }
    ensures unchecked { (is_unchecked (Some verdict.None) ≡ true)
        × (is_unchecked (Some verdict.Good) ≡ false) × (is_unchecked (Some verdict.Bad) ≡ false)
        × (is_unchecked None ≡ false) }
    ensures completing { (is_completing (Some state.Completes) ≡ true)
        × (is_completing (Some state.Waits) ≡ false)
        × (is_completing (Some state.Refused) ≡ false) × (is_completing None ≡ false) }
    ensures refused { (is_refused_fragment (Some state.Refused) ≡ true)
        × (is_refused_fragment (Some state.Waits) ≡ false)
        × (is_refused_fragment (Some state.Completes) ≡ false) × (is_refused_fragment None ≡ false) }
{}

/// Of the first packet 60 bytes were captured, which were all; of the second 96 of 1514; and of the
/// third 60, where its record says 40.
pub fn lengths_of_packets()
    ensures { (lengths : Lengths) → CountsLengths lengths (sized 1 60 60 ∷ sized 2 96 1514
        ∷ sized 3 60 40 ∷ []) → (lengths.cut ≡ tally 1 96 2) × (lengths.wire ≡ 1614)
        × (lengths.captured ≡ 216) }
{}
