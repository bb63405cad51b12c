//! Whether a stamp is a day of the calendar, and a time of that day.
ghost use Rattle.std.specs.Prelude.{◌≡◌};
ghost use Rattle.std.specs.{List.position, Str.bytes_eq};
ghost use Rattle.fs_words.specs.Days.{days_in, is_true_moment, is_true_stamp, of_two};

use ods_request::Stamp;

/// The months of a stamp.
const MONTHS: [[u8; 3]; 12] = [
    *b"JAN", *b"FEB", *b"MAR", *b"APR", *b"MAY", *b"JUN", *b"JUL", *b"AUG", *b"SEP", *b"OCT",
    *b"NOV", *b"DEC",
];

/// Returns whether a stamp is a valid day of its month and a time of the day. Years 70 to 99 are 19YY, otherwise 20YY.
pub fn is_true_day(stamp: &Stamp) -> bool
    ensures { result ≡ is_true_stamp stamp.now }
{
    let text = stamp.text();
    let Some(place) = place_among(&MONTHS, &text[2..5]) else {
        return false;
    };
    is_moment(
        two(text[0], text[1]),
        (place as u8).saturating_add(1),
        two(text[5], text[6]),
        two(text[7], text[8]),
        two(text[9], text[10]),
        two(text[11], text[12]),
    )
}

/// The place of a month's letters among these.
fn place_among(months: &[[u8; 3]], letters: &[u8]) -> Option<usize>
    ensures { result ≡ position (λ m. bytes_eq m letters.now) months.now }
{
    months.iter().position(|month| month.as_slice() == letters)
}

/// The number of two digits.
fn two(tens: u8, ones: u8) -> u8
    ensures { result ≡ of_two tens ones }
{
    let tens = tens.saturating_sub(b'0').saturating_mul(10);
    tens.saturating_add(ones.saturating_sub(b'0'))
}

/// How many days a month has, 1 to 12, of a year by its last two digits: of 1970 to 2069 each fourth is a leap year.
fn month_days(month: u8, year: u8) -> u8
    ensures { result ≡ days_in month year }
{
    match month {
        4 | 6 | 9 | 11 => 30,
        2 if year % 4 == 0 => 29,
        2 => 28,
        _ => 31,
    }
}

/// Whether there is this day of a month, 1 to 12, and this hour, minute and second.
fn is_moment(day: u8, month: u8, year: u8, hour: u8, minute: u8, second: u8) -> bool
    ensures { result ≡ is_true_moment day month year hour minute second }
{
    1 <= day && day <= month_days(month, year) && hour < 24 && minute < 60 && second < 60
}
