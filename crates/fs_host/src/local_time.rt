//! The local time of the host, as stored in new files.
ghost use Rattle.std.specs.Prelude.{◌≡◌, IfSome};
ghost use Rattle.fs_host.specs.Times.{IsMonth, IsStampOf, IsStampOfLocal, stamp_text};

use crate::host_zone::HostZone;
use jiff::Timestamp;
use jiff::civil::DateTime;
use ods_request::Stamp;
use std::rt::{Clock, Env, Files};

/// Returns the current stamp, by the zone in `TZ`, otherwise `/etc/localtime`; by UTC if neither names one. Returns `None` if the clock fails.
/// No contract can state what the clock and files of the host return.
pub fn stamp_of_now<R: Clock + Env + Files + AllocGlobal + Clone + Drop>(rt: &R) -> Option<Stamp>
    ensures { IfSome result IsStampOfLocal }
{
    let Ok(now) = Timestamp::now(rt) else {
        return None;
    };
    stamp_of(HostZone::read(rt).local(now))
}

/// Returns the stamp of a time. Its year has two digits, so there is none of a time before 1970 or after 2069.
pub fn stamp_of(time: DateTime) -> Option<Stamp>
    ensures { IfSome result (IsStampOf time) }
{
    if time.year() < 1970 || 2069 < time.year() {
        return None;
    }
    let month = letters_of(time.month().unsigned_abs())?;
    let year = time.year().rem_euclid(100).unsigned_abs() as u8;
    let day = time.day().unsigned_abs();
    let hour = time.hour().unsigned_abs();
    let minute = time.minute().unsigned_abs();
    let second = time.second().unsigned_abs();
    stamp_with(day, &month, year, hour, minute, second)
}

/// The stamp with these letters of the month, and the last two digits of these numbers.
fn stamp_with(day: u8, month: &[u8; 3], year: u8, hour: u8, minute: u8, second: u8) -> Option<Stamp>
    ensures { IfSome result (λ stamp. stamp ≡ stamp_text day month.now year hour minute second) }
{
    let text = [
        b'0' + day / 10 % 10,
        b'0' + day % 10,
        month[0],
        month[1],
        month[2],
        b'0' + year / 10 % 10,
        b'0' + year % 10,
        b'0' + hour / 10 % 10,
        b'0' + hour % 10,
        b'0' + minute / 10 % 10,
        b'0' + minute % 10,
        b'0' + second / 10 % 10,
        b'0' + second % 10,
    ];
    Stamp::parse(&text)
}

/// The letters of the month of this number, counted from 1.
fn letters_of(month: u8) -> Option<[u8; 3]>
    ensures { IfSome result (IsMonth month) }
{
    Some(match month {
        1 => *b"JAN",
        2 => *b"FEB",
        3 => *b"MAR",
        4 => *b"APR",
        5 => *b"MAY",
        6 => *b"JUN",
        7 => *b"JUL",
        8 => *b"AUG",
        9 => *b"SEP",
        10 => *b"OCT",
        11 => *b"NOV",
        12 => *b"DEC",
        _ => return None,
    })
}
