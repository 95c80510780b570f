//! Fragments.

use crate::Fragment;
use crate::show::fragment_headers::FragmentHeaders;
use crate::show::{message, refusal};
use checksum_verdicts::Verdict;
use ep_packet::{Addresses, IpFragment};
use etherparse::defrag::IpDefragPayloadVec;
use header_descriptions::show::Line;
use header_descriptions::show::tcp::InitialNumbers;
use std::alloc::AllocError;

/// A fragment, and what became of it. It has no contract: tests compare the texts.
pub(crate) fn fragment(
    line: &mut Line<'_>,
    number: u64,
    cut: &IpFragment<'_>,
    fragment: Option<&Fragment>,
    checked: Option<Verdict>,
    initial_numbers: InitialNumbers,
) -> Result<(), AllocError> {
    FragmentHeaders::of(cut).show(line)?;
    match fragment {
        Some(Fragment::Waits { started }) => {
            started_before(line, number, *started)?;
            line.text(")")
        }
        Some(Fragment::Completes { started, message }) => {
            line.text("), ")?;
            completed(
                line,
                &cut.addresses,
                *started,
                message,
                checked,
                initial_numbers,
            )
        }
        Some(Fragment::Refused { started, error }) => {
            if let Some(started) = started {
                started_before(line, number, *started)?;
            }
            line.text(") ")?;
            refusal::fragment(line, error)
        }
        None => line.text(")"),
    }
}

fn started_before(line: &mut Line<'_>, number: u64, started: u64) -> Result<(), AllocError> {
    if started < number {
        line.counted(", begun in packet ", started)
    } else {
        Ok(())
    }
}

// The message between these addresses that a fragment completes.
fn completed(
    line: &mut Line<'_>,
    addresses: &Addresses,
    started: u64,
    payload: &IpDefragPayloadVec,
    checked: Option<Verdict>,
    initial_numbers: InitialNumbers,
) -> Result<(), AllocError> {
    let bytes = payload.payload.as_slice();
    line.counted("completes a message of ", bytes.len() as u64)?;
    line.counted(" bytes begun in packet ", started)?;
    line.text(": ")?;
    message::completed(
        line,
        addresses,
        payload.ip_number,
        bytes,
        checked,
        initial_numbers,
    )
}
