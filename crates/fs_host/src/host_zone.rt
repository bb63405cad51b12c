//! The time zone of the host, by which dates of files are read.
ghost use Rattle.std.specs.Prelude.{◌≡◌, ◌⊎◌, ◌<◌, ◌+◌, ◌≤◌, ◌↔◌, pos, int_div, is_some, IfSome, IsTrue};
ghost use Rattle.fs_host.specs.Dates.{IsDated, IsSecondAt, IsSecondOf, full_year, two_at};
ghost use Rattle.fs_host.specs.Times.{IsLocal, IsMonth, IsStampAt};

use crate::local_time::stamp_of;
use jiff::Timestamp;
use jiff::civil::DateTime;
use jiff::tz::{SystemTimeZone, TimeZone, TimeZoneDatabase};
use ods_request::Stamp;
use std::rt::{Env, Files};

/// The time zone of the host: the zone in `TZ`, otherwise `/etc/localtime`; UTC if neither names one.
#[derive(Drop)]
pub struct HostZone {
    system: Option<SystemTimeZone>,
    all: TimeZoneDatabase,
}

impl HostZone {
    /// Reads the zone of the host. No contract can state what its variables and files return.
    pub fn read<R: Env + Files + AllocGlobal + Clone + Drop>(rt: &R) -> HostZone {
        let none = TimeZoneDatabase::new(rt.alloc());
        let Ok(system) = SystemTimeZone::read(rt) else {
            return HostZone {
                system: None,
                all: none,
            };
        };
        // All zones are read only where the name alone says which it is.
        if system.time_zone(&none).is_ok() {
            return HostZone {
                system: Some(system),
                all: none,
            };
        }
        match TimeZoneDatabase::from_env(rt) {
            Ok(all) => HostZone {
                system: Some(system),
                all,
            },
            Err(_) => HostZone {
                system: None,
                all: none,
            },
        }
    }

    /// Reads the zone of the host, if it is needed.
    pub fn read_where<R: Env + Files + AllocGlobal + Clone + Drop>(
        rt: &R,
        is_wanted: bool,
    ) -> Option<HostZone>
        ensures { is_some result ≡ is_wanted }
    {
        if is_wanted {
            Some(HostZone::read(rt))
        } else {
            None
        }
    }

    /// Returns the second since 1970 at which a clock in this zone shows a date of a header, its 13 bytes `01JAN80103000`. Returns 0 if there is no
    /// such day or time, or if it is before 1970.
    pub fn second_at(&self, date: &[u8; 13]) -> u32
        ensures { IsSecondAt date.now result }
    {
        let Some(time) = time_in(date) else {
            return 0;
        };
        match self.zone().to_timestamp(time) {
            Ok(instant) => second_of(instant),
            Err(_) => 0,
        }
    }

    /// Returns the stamp that a clock in this zone shows at a second since 1970. Returns `None` if there is no such time.
    pub fn stamp_at(&self, second: u32) -> Option<Stamp>
        ensures { IfSome result (IsStampAt second) }
    {
        let Ok(instant) = Timestamp::from_second(second as i64) else {
            return None;
        };
        stamp_of(self.local(instant))
    }

    /// Returns the time that a clock in this zone shows at an instant.
    pub fn local(&self, instant: Timestamp) -> DateTime
        ensures { IsLocal instant result }
    {
        self.zone().to_datetime(instant)
    }

    /// The zone.
    fn zone(&self) -> TimeZone<'_> {
        let Some(system) = &self.system else {
            return TimeZone::UTC;
        };
        match system.time_zone(&self.all) {
            Ok(zone) => zone,
            Err(_) => TimeZone::UTC,
        }
    }
}

/// The whole seconds from 1970 to an instant; 0 where it is before that, or past the numbers of 32 bits.
fn second_of(instant: Timestamp) -> u32
    ensures { (result ≡ 0) ⊎ (int_div instant.nanosecond (pos 1000000000) ≡ pos result) }
{
    match u32::try_from(instant.as_second()) {
        Ok(second) => second,
        Err(_) => 0,
    }
}

/// The time that the characters of a date say, where they are such, and the calendar and a clock have it.
fn time_in(date: &[u8; 13]) -> Option<DateTime>
    ensures { IfSome result (IsDated date.now) }
{
    let month = month_of(&date[2..5])?;
    let year = full_year(two_at(date, 5)?);
    let day = two_at(date, 0)? as i8;
    let hour = two_at(date, 7)? as i8;
    let minute = two_at(date, 9)? as i8;
    let second = two_at(date, 11)? as i8;
    match DateTime::new(year, month as i8, day, hour, minute, second, 0) {
        Ok(time) => Some(time),
        Err(_) => None,
    }
}

/// The number that two digits of a date spell from a place on.
fn two_at(date: &[u8; 13], at: usize) -> Option<u8>
    requires { at + 1 < 13 }
    ensures value { IfSome result (λ number. number ≡ two_at date.now at) }
    ensures small { IfSome result (λ number. number < 100) }
{
    let (tens, ones) = (date[at], date[at + 1]);
    if !is_digit(tens) || !is_digit(ones) {
        return None;
    }
    Some((tens - b'0') * 10 + (ones - b'0'))
}

/// Whether a byte is a digit.
fn is_digit(byte: u8) -> bool
    ensures { IsTrue result ↔ ((48 ≤ byte) × (byte ≤ 57)) }
{
    48 <= byte && byte <= 57
}

/// The year of its last two digits.
fn full_year(year: u8) -> i16
    requires { year < 100 }
    ensures { result ≡ pos (full_year year) }
{
    if year < 70 {
        2000 + i16::from(year)
    } else {
        1900 + i16::from(year)
    }
}

/// The number of the month with these letters, counted from 1.
fn month_of(letters: &[u8]) -> Option<u8>
    ensures month { IfSome result (λ month. IsMonth month letters.now) }
    ensures small { IfSome result (λ month. month ≤ 12) }
{
    match letters {
        b"JAN" => Some(1),
        b"FEB" => Some(2),
        b"MAR" => Some(3),
        b"APR" => Some(4),
        b"MAY" => Some(5),
        b"JUN" => Some(6),
        b"JUL" => Some(7),
        b"AUG" => Some(8),
        b"SEP" => Some(9),
        b"OCT" => Some(10),
        b"NOV" => Some(11),
        b"DEC" => Some(12),
        _ => None,
    }
}
