//! Times as they are printed.

ghost use Rattle.std.specs.Prelude.{◌≡◌, ◌<◌, IfOk};
ghost use Rattle.httpdate.specs.Date.{unix_secs};
ghost use Rattle.watch_report.specs.LineTimes.{IsUtcText, month_digits, utc_of};

use base_wire::append;
use httpdate::HttpDate;
use std::alloc::{AllocError, Global};

// The last second of the year 9999.
const LAST_SECOND: u64 = 253_402_300_799;

// The number of a month in two digits.
fn month_digits(name: &[u8]) -> &'static [u8]
    ensures { result.now ≡ month_digits name.now }
{
    if name == b"Jan".as_slice() {
        return b"01";
    }
    if name == b"Feb".as_slice() {
        return b"02";
    }
    if name == b"Mar".as_slice() {
        return b"03";
    }
    if name == b"Apr".as_slice() {
        return b"04";
    }
    if name == b"May".as_slice() {
        return b"05";
    }
    if name == b"Jun".as_slice() {
        return b"06";
    }
    if name == b"Jul".as_slice() {
        return b"07";
    }
    if name == b"Aug".as_slice() {
        return b"08";
    }
    if name == b"Sep".as_slice() {
        return b"09";
    }
    if name == b"Oct".as_slice() {
        return b"10";
    }
    if name == b"Nov".as_slice() {
        return b"11";
    }
    b"12"
}

// The date of a second since the start of 1970. Past the year 9999 it stays at the last second of that.
fn date_of(seconds: u64) -> HttpDate
    ensures { seconds < 253402300800 → unix_secs result ≡ seconds }
{
    match HttpDate::from_unix_secs(seconds) {
        Ok(date) => date,
        Err(_) => HttpDate::from_unix_secs(LAST_SECOND).unwrap(),
    }
}

// The same date in another order.
#[tactic(auto, unfolding(crate::specs::LineTimes::utc_of))]
fn in_order(alloc: Global, date: &[u8; 29]) -> Result<Vec<u8>, AllocError>
    ensures { IfOk result (λ text. text.items ≡ utc_of date.now) }
{
    let mut text = Vec::new(alloc);
    append(&mut text, &date[12..16])?;
    append(&mut text, b"-")?;
    append(&mut text, month_digits(&date[8..11]))?;
    append(&mut text, b"-")?;
    append(&mut text, &date[5..7])?;
    append(&mut text, b"T")?;
    append(&mut text, &date[17..25])?;
    append(&mut text, b"Z")?;
    Ok(text)
}

/// The second of UTC so many behind the start of 1970, as `2026-03-01T12:00:00Z`. Past the year 9999 it stays at the last
/// second of that.
pub fn utc_text(alloc: Global, seconds: u64) -> Result<Vec<u8>, AllocError>
    ensures { seconds < 253402300800 → IfOk result (λ text. IsUtcText seconds text.items) }
{
    in_order(alloc, &date_of(seconds).to_bytes())
}
