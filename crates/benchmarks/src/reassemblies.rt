//! The benchmarks of reassembly, by their names: one datagram by a buffer, and many at once by a pool,
//! whose hasher has a fixed seed, for which names are chosen to collide, or random keys.
ghost use Rattle.ep_packet.specs.Class.{IdentificationFits};

use crate::colliding::Colliding;
use crate::interleaved::Interleaved;
use crate::measured::{Measured, Repeats};
use crate::order::Order;
use crate::pools::{self, Datagrams, Reassembly};
use crate::reassembly;
use ep_packet::IpFragment;
use etherparse::defrag::IpDefragPool;
use std::hash::{BuildHasher, RandomState};
use std::io;

/// A pool with a hasher of this kind.
#[derive(Drop)]
struct Pool<S: BuildHasher>(IpDefragPool<(), (), S>);

impl<S: BuildHasher> Reassembly for Pool<S> {
    /// It has no contract, as the trait's.
    fn completed_by(&mut self, fragment: IpFragment<'_>) -> Option<Vec<u8>>
        requires { IdentificationFits fragment.addresses fragment.identification }
    {
        let whole = self.0.process_fragment(fragment, (), ()).ok()?;
        Some(whole?.payload)
    }
}

/// What the benchmark of this name gives, if there is one of reassembly. It has no contract: the time
/// is a measurement, and the sum is compared with that of a plain program.
pub fn measure(rt: &HostRuntime, name: &str, repeats: Repeats) -> io::Result<Option<Measured>> {
    let order = match name {
        "ascending" => Order::Ascending,
        "descending" => Order::Descending,
        "even_first" => Order::EvenFirst,
        "shuffled" => Order::Shuffled,
        _ => return by_pool(rt, name, repeats.turns),
    };
    reassembly::measure(rt, order, repeats.turns).map(Some)
}

/// It has no contract, as `measure`.
fn by_pool(rt: &HostRuntime, name: &str, turns: u32) -> io::Result<Option<Measured>> {
    let (kind, is_random) = match name.strip_suffix("_random") {
        Some(kind) => (kind, true),
        None => (name, false),
    };
    let names = match kind {
        "interleaved" => return by_keys(rt, &Interleaved, is_random, turns).map(Some),
        "colliding_1000" => 1000,
        "colliding_2000" => 2000,
        "colliding_4000" => 4000,
        "colliding_8000" => 8000,
        _ => return Ok(None),
    };
    by_keys(rt, &Colliding { names }, is_random, turns).map(Some)
}

/// It has no contract, as `measure`.
fn by_keys<D: Datagrams>(
    rt: &HostRuntime,
    datagrams: &D,
    is_random: bool,
    turns: u32,
) -> io::Result<Measured> {
    if is_random {
        let pool = Pool(IpDefragPool::with_hasher(rt.alloc(), RandomState::new(rt)?));
        return pools::measure(rt, pool, datagrams, turns);
    }
    let pool = Pool(IpDefragPool::new(rt.alloc()));
    pools::measure(rt, pool, datagrams, turns)
}
