//! Counts of IP packets by the protocol they carry.
ghost use Rattle.std.specs.Prelude.{◌≡◌, ◌<◌, ◌++◌, ◌∷◌, ℕ, [], List, length};
ghost use Rattle.std.specs.List.{slice_index_or};
ghost use Rattle.packets.specs.Table.{no_tally};
ghost use Rattle.packets.specs.declared.outline.Outline.{Outline};

use crate::Outline;
use crate::summary::tally::Tally;
use ep_base::IpNumber;

/// How many IP packets there are of each protocol, by its number.
#[derive(Drop)]
pub struct NumberTallies {
    /// The tally of each number.
    pub tallies: [Tally; 256],
}

impl NumberTallies {
    ghost use Rattle.packets.specs.Numbers.{CountsNumbers, number_tally};

    pub(crate) fn none() -> NumberTallies
        ensures { CountsNumbers result [] }
    {
        NumberTallies {
            tallies: no_tallies(),
        }
    }

    /// The tally of a protocol.
    pub fn get(&self, number: IpNumber) -> Tally
        ensures { result ≡ number_tally self.now number.0 }
    {
        self.tallies[tally_index(number)]
    }

    pub(crate) fn add(&mut self, packet: &Outline)
        ensures { (packets : List Outline) → CountsNumbers self.old packets
            → CountsNumbers self.new (packets ++ packet.now ∷ []) }
    {
        match packet.headers.carried() {
            Some(number) => {
                let position = tally_index(number);
                let mut tally = self.tallies[position];
                tally.add(packet);
                self.tallies[position] = tally;
            }
            None => {}
        }
    }
}

fn tally_index(number: IpNumber) -> usize
    ensures position { result ≡ number.0 }
    ensures bound { result < 256 }
{
    usize::from(number.0)
}

fn no_tallies() -> [Tally; 256]
    ensures none { (k : ℕ) → slice_index_or result k no_tally ≡ no_tally }
    ensures size { length result ≡ 256 }
{
    [Tally::NONE; 256]
}
