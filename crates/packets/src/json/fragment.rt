//! What became of a fragment.

use crate::Fragment;
use crate::json::errors;
use header_descriptions::json::fields::{begin as begin_object, number};
use serde::Serializer;

/// Begins the object of a fragment, up to the members of a message that is complete. It has no
/// contract: tests compare the texts.
pub(crate) fn begin<S: Serializer>(out: &mut S, fragment: &Fragment) -> Result<(), S::Error> {
    begin_object(out, "fragment")?;
    match fragment {
        Fragment::Waits { started } => {
            begin_object(out, "Waits")?;
            number(out, "begun", *started)
        }
        Fragment::Completes { started, .. } => {
            begin_object(out, "Completes")?;
            number(out, "begun", *started)
        }
        Fragment::Refused { started, error } => {
            begin_object(out, "Refused")?;
            if let Some(started) = started {
                number(out, "begun", *started)?;
            }
            errors::fragment(out, error)
        }
    }
}

/// Ends the object. It has no contract: tests compare the texts.
pub(crate) fn end<S: Serializer>(out: &mut S) -> Result<(), S::Error> {
    out.end_map()?;
    out.end_map()
}
