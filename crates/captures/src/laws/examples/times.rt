//! Times of packets in nanoseconds since 1970 (draft-ietf-opsawg-pcap, sections 4 and 5;
//! draft-ietf-opsawg-pcapng, sections 4.2 and 4.3).

ghost use Rattle.std.specs.Prelude.{◌≡◌, ◌+◌, ◌-◌, ◌*◌, ◌^◌, [], ◌∷◌};
ghost use Rattle.captures.specs.Times.{clock_of, clock_time, moved, nanoseconds_of, record_time, unit_of, usual_clock};
ghost use Rattle.captures.specs.declared.byte_order.ByteOrder.TheVariants.{Big, Little};
ghost use Rattle.captures.specs.declared.time.time_unit.TimeUnit.TheVariants.{Microseconds, Nanoseconds};

/// Times of classic captures, by the magic number: the fraction of a second may be more than one
/// second, and the last time is that of 32 bits of seconds.
pub fn record_times()
    ensures micro { unit_of 0xa1b2c3d4 ≡ Microseconds }
    ensures nano { unit_of 0xa1b23c4d ≡ Nanoseconds }
    ensures in_micro { record_time Microseconds 1700000000 250000 ≡ 1700000000250000000 }
    ensures in_nano { record_time Nanoseconds 1700000000 250000 ≡ 1700000000000250000 }
    ensures carried { record_time Microseconds 5 2000001 ≡ 7000001000 }
    ensures last { record_time Microseconds 4294967295 1000000 ≡ 4294967295999999999 }
{}

/// Counts of a clock's units, by `if_tsresol`: a power of ten make a second, or of two where its
/// highest bit is set.
pub fn resolutions()
    ensures seconds { nanoseconds_of 0 5 ≡ 5000000000 }
    ensures milli { nanoseconds_of 3 5 ≡ 5000000 }
    ensures micro { nanoseconds_of 6 5 ≡ 5000 }
    ensures nano { nanoseconds_of 9 5 ≡ 5 }
    ensures pico { nanoseconds_of 12 5999 ≡ 5 }
    ensures halves { (nanoseconds_of 128 7 ≡ 7000000000) × (nanoseconds_of 129 7 ≡ 3500000000) }
    ensures tenth_power { nanoseconds_of 138 1 ≡ 976562 }
{}

/// `if_tsoffset` is a signed number of 64 bits: seconds that are added, or taken away from 2 to the
/// 63 on.
pub fn offsets()
    ensures hour { moved 3600 5 ≡ 3600000000005 }
    ensures before { moved (2 ^ 64 - 3600) 3601000000000 ≡ 1000000000 }
    ensures first_negative { moved (2 ^ 63) (1000000000 * 2 ^ 63 + 7) ≡ 7 }
    ensures last_positive { moved (2 ^ 63 - 1) 7 ≡ 1000000000 * (2 ^ 63 - 1) + 7 }
    ensures high { moved (2 ^ 62) 7 ≡ 1000000000 * 2 ^ 62 + 7 }
    ensures before_1970 { moved (2 ^ 64 - 3600) 5 ≡ 0 }
{}

/// Times in two halves of 32 bits, by a clock of microseconds and by others: an hour later, and
/// beyond the last time.
pub fn clock_times()
    ensures usual { clock_time usual_clock 0x60a24 0x18221090 ≡ 1700000000250000000 }
    ensures high_half { clock_time usual_clock 1 0 ≡ 4294967296000 }
    ensures later { clock_time (record { resolution = 0; offset = 3600 }) 0 1 ≡ 3601000000000 }
    ensures beyond { clock_time (record { resolution = 0; offset = 0 }) 1 0 ≡ 4294967295999999999 }
    ensures far { clock_time (record { resolution = 0; offset = 2 ^ 62 }) 0 0
        ≡ 4294967295999999999 }
    ensures first { clock_time (record { resolution = 0; offset = 2 ^ 63 }) 0 5 ≡ 0 }
{}

/// The clock by an interface's options: code 9 with a byte, 14 with eight, each in the section's
/// byte order; a comment (1) before them, and the end (0) before them.
pub fn clocks_by_options()
    ensures none { clock_of Little [] ≡ record { resolution = 6; offset = 0 } }
    ensures resolution { clock_of Little (9 ∷ 0 ∷ 1 ∷ 0 ∷ 9 ∷ 0 ∷ 0 ∷ 0 ∷ [])
        ≡ record { resolution = 9; offset = 0 } }
    ensures offset { clock_of Little (14 ∷ 0 ∷ 8 ∷ 0 ∷ 0x10 ∷ 0x0e ∷ 0 ∷ 0 ∷ 0 ∷ 0 ∷ 0 ∷ 0 ∷ [])
        ≡ record { resolution = 6; offset = 3600 } }
    ensures high_first { clock_of Big (0 ∷ 14 ∷ 0 ∷ 8 ∷ 0 ∷ 0 ∷ 0 ∷ 1 ∷ 0 ∷ 0 ∷ 0 ∷ 2 ∷ [])
        ≡ record { resolution = 6; offset = 2 ^ 32 + 2 } }
    ensures after_comment { clock_of Little (1 ∷ 0 ∷ 5 ∷ 0 ∷ 104 ∷ 101 ∷ 108 ∷ 108 ∷ 111 ∷ 0
        ∷ 0 ∷ 0 ∷ 9 ∷ 0 ∷ 1 ∷ 0 ∷ 138 ∷ 0 ∷ 0 ∷ 0 ∷ [])
        ≡ record { resolution = 138; offset = 0 } }
    ensures after_end { clock_of Little (0 ∷ 0 ∷ 0 ∷ 0 ∷ 9 ∷ 0 ∷ 1 ∷ 0 ∷ 9 ∷ 0 ∷ 0 ∷ 0 ∷ [])
        ≡ record { resolution = 6; offset = 0 } }
    ensures other_length { clock_of Little (9 ∷ 0 ∷ 2 ∷ 0 ∷ 9 ∷ 0 ∷ 0 ∷ 0 ∷ [])
        ≡ record { resolution = 6; offset = 0 } }
{}
