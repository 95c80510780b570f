//! Laws of the names of fragmented datagrams.

ghost use Rattle.std.specs.Prelude.{◌≡◌, ◌&&◌, ◌↔◌, IsTrue};
ghost use Rattle.ep_packet.specs.Class.{FragmentName};
ghost use Rattle.etherparse.specs.IpDefragPool.{same_id};
ghost use Rattle.etherparse.specs.IpFragId.{id_named, same_name};

use crate::defrag::IpFragId;

/// Two names are equal where tags, version, addresses, identification, protocol and channel are.
pub fn equal_names<C: Eq>()
    ensures ids { ⟦<IpFragId<C> as PartialEq>⟧.eq ≡ same_id C.eq }
    ensures components { (a b : FragmentName) (x y : C)
        → ⟦<IpFragId<C> as PartialEq>⟧.eq (id_named a x) (id_named b y)
        ≡ (same_name a b && C.eq x y) }
    ensures same { (a b : FragmentName) → IsTrue (same_name a b) ↔ (a ≡ b) }
{}
