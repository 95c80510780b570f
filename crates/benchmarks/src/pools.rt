//! Datagrams that are reassembled by a pool. It is given fragments, and no frames: a second call of
//! `SlicedPacket::from_ethernet` in the program would slow the benchmarks of sliced packets.
ghost use Rattle.std.specs.Prelude.{◌≡◌, []};
ghost use Rattle.ep_packet.specs.Class.{IdentificationFits};

use crate::measured::Measured;
use arrayvec::ArrayVec;
use ep_base::{IpFragOffset, IpNumber};
use ep_packet::{Addresses, IpFragment, SlicedFragment};
use std::io;
use std::time::{Duration, Instant};

/// Something that reassembles datagrams.
pub trait Reassembly {
    /// The payload of the datagram that is complete with this fragment, if it is: one that is
    /// refused completes none. It has no contract: sums of payloads are compared with those of a
    /// plain program.
    fn completed_by(&mut self, fragment: IpFragment<'_>) -> Option<Vec<u8>>
        requires { IdentificationFits fragment.addresses fragment.identification };
}

/// Datagrams that a benchmark reassembles.
pub trait Datagrams {
    /// Reassembles them, and returns a sum of their payloads. It has no contract: the sum is
    /// compared with that of a plain program.
    fn put_together<R: Reassembly>(&self, pool: &mut R) -> u64;
}

/// The fastest of so many turns, each in this pool. It has no contract: the time is a measurement,
/// and the sum is compared with that of a plain program.
pub fn measure<M: Datagrams, R: Reassembly + Drop>(
    rt: &HostRuntime,
    mut pool: R,
    datagrams: &M,
    turns: u32,
) -> io::Result<Measured> {
    let mut sum = 0;
    let mut fastest = Duration::MAX;
    for _ in 0..turns {
        let start = Instant::now(rt)?;
        sum = datagrams.put_together(&mut pool);
        fastest = fastest.min(start.elapsed(rt)?);
    }
    Ok(Measured { sum, fastest })
}

/// Offset and flag of the two fragments of a datagram, of 64 bytes each; it has no contract, as
/// `measure`.
pub fn two_fragments() -> [(IpFragOffset, bool); 2] {
    let second = IpFragOffset::try_new(8).unwrap();
    [(IpFragOffset::ZERO, true), (second, false)]
}

/// A fragment of UDP without VLAN tags.
pub fn udp_fragment(
    addresses: Addresses,
    identification: u32,
    offset: IpFragOffset,
    more_fragments: bool,
    bytes: &[u8],
) -> IpFragment<'_>
    requires { IdentificationFits addresses identification }
    ensures datagram { (result.vlan_ids.items ≡ []) × (result.addresses ≡ addresses)
        × (result.identification ≡ identification) × (result.ip_number.0 ≡ 17) }
    ensures fragment { (result.fragment.offset ≡ offset)
        × (result.fragment.more_fragments ≡ more_fragments)
        × (result.fragment.bytes.now ≡ bytes.now) }
    ensures fits { IdentificationFits result.addresses result.identification }
{
    IpFragment {
        vlan_ids: ArrayVec::new(),
        addresses,
        identification,
        ip_number: IpNumber::UDP,
        fragment: SlicedFragment {
            offset,
            more_fragments,
            bytes,
        },
    }
}

/// The sum with what the pool returns for a fragment; it has no contract, as `measure`.
pub fn sum_with<R: Reassembly>(sum: u64, pool: &mut R, fragment: IpFragment<'_>) -> u64
    requires { IdentificationFits fragment.addresses fragment.identification }
{
    let Some(payload) = pool.completed_by(fragment) else {
        return sum;
    };
    let bytes = payload.as_slice();
    let ends = bytes.first().zip(bytes.last());
    let (first, last) = ends.map_or((0, 0), |(first, last)| (*first, *last));
    sum.wrapping_mul(31)
        .wrapping_add(bytes.len() as u64)
        .wrapping_add(u64::from(first))
        .wrapping_add(u64::from(last))
}
