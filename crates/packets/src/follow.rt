//! What goes over a TCP connection.

pub(crate) mod connection_id;
pub(crate) mod event;
pub(crate) mod event_object;
pub(crate) mod event_text;
pub(crate) mod following;
