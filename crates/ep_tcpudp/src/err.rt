//! Why bytes start with no TCP header. (UDP's only fault is a `LenError`.)

pub mod tcp;
