//! What happens to packets that can't be reported.
ghost use Rattle.std.specs.Prelude.{◌≡◌};
ghost use Rattle.captures.specs.Framed.{unfit_by};

/// What happens to a packet that can't be reported: its link isn't read, it has no Ethernet frame,
/// or its frame is too long for a line.
#[derive(Clone, Copy, Debug, PartialEq, Eq)]
pub enum Unfit {
    /// The run ends there.
    Refuse,
    /// It is passed over, where no more than
    /// [`SKIPPED_LIMIT`](crate::SKIPPED_LIMIT) bytes of it were captured.
    Skip,
}

impl Unfit {
    pub(crate) fn by(skips: bool) -> Unfit
        ensures { result ≡ unfit_by skips }
    {
        if skips { Unfit::Skip } else { Unfit::Refuse }
    }
}
