//! Numbers in decimal.
ghost use Rattle.ods_text.specs.One.{IsTheOne};
ghost use Rattle.ods_text.specs.Numbers.{IsLargeNumber, IsNumber, IsSmallNumber};

use crate::is_text;
use std::str;

/// Parses a decimal number below 2^64 without leading zeros. Returns `None` if the bytes are not such a number.
pub fn read_large(digits: &[u8]) -> Option<u64>
    ensures { IsTheOne (IsLargeNumber digits.now) result }
{
    if is_text(digits, b"0") {
        return Some(0);
    }
    let [b'1'..=b'9', ..] = digits else {
        return None;
    };
    let Ok(text) = str::from_utf8(digits) else {
        return None;
    };
    match text.parse::<u64>() {
        Ok(number) => Some(number),
        Err(_) => None,
    }
}

/// Parses a decimal number below 2^32 without leading zeros. Returns `None` if the bytes are not such a number.
pub fn read_decimal(digits: &[u8]) -> Option<u32>
    ensures { IsTheOne (IsNumber digits.now) result }
{
    let Some(number) = read_large(digits) else {
        return None;
    };
    if number > 4_294_967_295 {
        return None;
    }
    Some(number as u32)
}

/// Parses a decimal number below 2^16 without leading zeros. Returns `None` if the bytes are not such a number.
pub fn read_small(digits: &[u8]) -> Option<u16>
    ensures { IsTheOne (IsSmallNumber digits.now) result }
{
    let Some(number) = read_large(digits) else {
        return None;
    };
    if number > 65_535 {
        return None;
    }
    Some(number as u16)
}
