//! The time zone of the system.
use jiff::Error;
use jiff::tz::{SystemTimeZone, TimeZone, TimeZoneDatabase};
use std::io::ErrorKind;

/// The time zone that the system names, by `TZ` or `/etc/localtime`, with the zones that it may name.
#[derive(Drop)]
pub struct LocalZone {
    // UTC, where there is none.
    system: Option<SystemTimeZone>,
    database: TimeZoneDatabase,
}

impl LocalZone {
    /// UTC. It has no contract, nor have the next two: it rests with the system which zone is meant.
    pub fn utc(rt: &HostRuntime) -> LocalZone {
        LocalZone {
            system: None,
            database: TimeZoneDatabase::new(rt.alloc()),
        }
    }

    /// The zone of the system; where there is neither `TZ` nor `/etc/localtime`, UTC. All zones are read
    /// only if its file isn't found by its name alone.
    pub fn read(rt: &HostRuntime) -> Result<LocalZone, Error> {
        let system = match SystemTimeZone::read(rt) {
            Ok(system) => system,
            Err(Error::Io(ErrorKind::NotFound)) => return Ok(LocalZone::utc(rt)),
            Err(error) => return Err(error),
        };
        let local = LocalZone {
            system: Some(system),
            database: TimeZoneDatabase::new(rt.alloc()),
        };
        let is_found = local.zone().is_ok();
        if is_found {
            return Ok(local);
        }
        Ok(LocalZone {
            database: TimeZoneDatabase::from_env(rt)?,
            ..local
        })
    }

    /// The zone.
    pub fn zone(&self) -> Result<TimeZone<'_>, Error> {
        match &self.system {
            Some(system) => system.time_zone(&self.database),
            None => Ok(TimeZone::UTC),
        }
    }
}
