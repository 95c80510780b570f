//! What a line requests.

/// A frame that a line gives.
#[derive(Drop)]
pub struct FrameRequest<'l> {
    /// On which channel it came.
    pub channel: u32,
    /// Its bytes.
    pub bytes: &'l [u8],
}

/// What a line requests.
#[derive(Drop)]
pub enum Request<'l> {
    /// A frame came.
    Frame(FrameRequest<'l>),
    /// The datagrams are dropped whose latest fragment came before the line of this number.
    Forget(u64),
    /// Nothing that is understood.
    Bad,
}
