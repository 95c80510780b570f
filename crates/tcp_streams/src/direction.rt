//! The two directions of a connection.

ghost use Rattle.std.specs.Prelude.{◌≡◌};
ghost use Rattle.tcp_streams.specs.FlowKeys.{other_direction};

/// A direction in which segments of a connection go.
#[derive(Clone, Copy, Debug, PartialEq, Eq, Hash)]
pub enum Direction {
    /// From the lower endpoint to the higher one.
    FromLower,
    /// From the higher endpoint to the lower one.
    FromHigher,
}

impl Direction {
    /// The other direction.
    pub fn other(self) -> Direction
        ensures { result ≡ other_direction self }
    {
        match self {
            Direction::FromLower => Direction::FromHigher,
            Direction::FromHigher => Direction::FromLower,
        }
    }
}
