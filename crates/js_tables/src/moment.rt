//! Dates in answers.
ghost use Rattle.std.specs.Prelude.{◌<◌, ◌^◌, IfOk};
ghost use Rattle.js_tables.specs.Moments.{IsDate};

use jiff_core::Timestamp;
use jiff_fmt::temporal::DateTimePrinter;
use json_form::Text;
use std::alloc::{AllocError, Global};

/// The date of a moment, in microseconds since 1970: in UTC, with six places of a second, as
/// `1970-01-01T00:00:00.000000Z` (RFC 3339).
///
/// # Errors
/// Where there is no memory.
pub fn date_text(alloc: Global, moment: u64) -> Result<Text, AllocError>
    requires { moment < 2 ^ 57 }
    ensures { IfOk result (IsDate moment) }
{
    let printer = DateTimePrinter::new().precision(Some(6));
    match Timestamp::from_nanosecond(moment as i128 * 1000) {
        Ok(instant) => Text::from_str(alloc, printer.timestamp_text(instant).as_str()),
        Err(_) => unreachable!(),
    }
}
