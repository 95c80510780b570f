//! A report on captures, as a page for a browser: one file, with nothing from elsewhere.

mod charts;
mod conversations;
pub(crate) mod escape;
mod kinds;
pub(crate) mod overview;
pub(crate) mod page;
mod protocols;
mod times;
mod totals;
pub(crate) mod web_page;
