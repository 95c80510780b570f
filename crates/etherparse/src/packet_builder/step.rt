//! A packet to which headers are added.

ghost use Rattle.std.specs.Prelude.{◌≡◌};
ghost use Rattle.etherparse.specs.PacketState.{chosen};

use super::last_step::LastStep;
use super::packet_state::PacketState;
use std::marker::{Model, PhantomData};

/// A packet whose last header so far is the given one.
#[derive(Drop)]
pub struct PacketBuilderStep<L: LastStep> {
    pub(super) state: PacketState,
    marker: PhantomData<L>,
}

impl<L: LastStep> Model for PacketBuilderStep<L> {
    ghost use Rattle.etherparse.specs.PacketImpl.{PacketImpl};

    ghost Value = { PacketImpl };

    ghost use Rattle.etherparse.specs.PacketState.{chosen};

    ghost view = { λ step. chosen step.state };

    ghost invariant = { λ step. L.reached (chosen step.state) };
}

impl<L: LastStep> PacketBuilderStep<L> {
    #[inline(always)]
    pub(super) fn of(state: PacketState) -> PacketBuilderStep<L>
        requires { L.reached (chosen state) }
        ensures { result ≡ chosen state }
    {
        PacketBuilderStep {
            state,
            marker: PhantomData,
        }
    }
}
