//! The lines of packets, with what depends on earlier ones or on the place.
ghost use Rattle.std.specs.Prelude.{◌≡◌};

use crate::run::line_writer::LineWriter;
use crate::show::connections::Connections;
use crate::show::segment::Segment;
use crate::{Dissection, ShowOptions};
use header_descriptions::show::TimeForm;
use header_descriptions::show::tcp::InitialNumbers;
use jiff::Timestamp;
use jiff::tz::TimeZone;
use std::alloc::AllocError;
use std::cell::RefCell;
use std::hash::BuildHasher;

/// Writes the lines of packets.
#[derive(Drop)]
pub struct ShowLines<'z, S: BuildHasher> {
    options: ShowOptions,
    // The zone of local times.
    zone: TimeZone<'z>,
    // Those whose segments have relative numbers.
    connections: Option<RefCell<Connections<S>>>,
}

/// What the numbers and the time of a packet's line are counted from.
#[derive(Clone, Copy)]
pub(crate) struct LineContext {
    /// The initial numbers of its segment's connection.
    pub initial_numbers: InitialNumbers,
    /// The seconds that clocks at the place are ahead of UTC.
    pub ahead: i32,
}

impl LineContext {
    /// Numbers as they are, and UTC.
    pub(crate) const NONE: LineContext = LineContext {
        initial_numbers: InitialNumbers::NONE,
        ahead: 0,
    };
}

impl<'z, S: BuildHasher + Drop> ShowLines<'z, S> {
    /// Lines that look so. Local times are those of this zone; numbers of TCP are relative if there are
    /// connections: of both tests compare the texts.
    pub fn new(
        options: ShowOptions,
        zone: TimeZone<'z>,
        connections: Option<Connections<S>>,
    ) -> ShowLines<'z, S>
        ensures { result.options ≡ options }
    {
        ShowLines {
            options,
            zone,
            connections: match connections {
                Some(connections) => Some(RefCell::new(connections)),
                None => None,
            },
        }
    }

    // No line is written while another one is.
    fn initial_numbers(&self, packet: &Dissection<'_>) -> Result<InitialNumbers, AllocError> {
        let Some(connections) = &self.connections else {
            return Ok(InitialNumbers::NONE);
        };
        match (Segment::of(packet), connections.try_borrow_mut()) {
            (Some(segment), Ok(mut connections)) => connections.take(&segment),
            _ => Ok(InitialNumbers::NONE),
        }
    }

    fn ahead(&self, packet: &Dissection<'_>) -> i32 {
        if self.options.time != TimeForm::Local {
            return 0;
        }
        match Timestamp::from_nanosecond(packet.time.into()) {
            Ok(time) => self.zone.to_offset(time).seconds(),
            Err(_) => 0,
        }
    }
}

impl<S: BuildHasher + Drop> LineWriter for ShowLines<'_, S> {
    ghost use Rattle.packets.specs.ShownBytes.{details_of};

    // Its texts are compared by tests.
    ghost describes = { λ lines packet text. Unit {0} };

    ghost details = { λ lines packet. details_of lines.options.bytes packet };

    fn write_line(&self, packet: &Dissection<'_>, out: &mut Vec<u8>) -> Result<(), AllocError> {
        let context = LineContext {
            initial_numbers: self.initial_numbers(packet)?,
            ahead: self.ahead(packet),
        };
        self.options.write_in(&context, packet, out)
    }

    fn write_details(&self, packet: &Dissection<'_>, out: &mut Vec<u8>) -> Result<(), AllocError> {
        self.options.write_bytes(packet, out)
    }
}
