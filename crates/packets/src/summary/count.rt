//! What is counted of packets that have a key.
ghost use Rattle.std.specs.Prelude.{◌≡◌, ◌++◌, ◌∷◌, [], List, Bool, true};

/// What is counted of packets of a kind, one after the other.
pub trait Count<P>: Sized {
    /// What it is of those of a kind among these packets.
    ghost of: { (P → Bool) → List P → Self };

    /// That of no packet.
    fn nothing() -> Self
        ensures { (kind : P → Bool) → result ≡ of kind [] };

    /// Counts a packet of the kind.
    fn count(&mut self, packet: &P)
        ensures { (kind : P → Bool) (packets : List P)
            → self.old ≡ of kind packets → kind packet.now ≡ true
            → self.new ≡ of kind (packets ++ packet.now ∷ []) };
}
