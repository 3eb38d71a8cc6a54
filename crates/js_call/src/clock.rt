//! Moments and random words.
ghost use Rattle.std.specs.Prelude.{◌<◌, ◌^◌};

use js_tables::{Given, date_text};
use json_form::Text;
use std::alloc::Global;
use std::io;
use std::random::RandomSource;
use std::time::{Clock, SystemTime, UNIX_EPOCH};

/// The last moment that has a date here.
const LAST: u64 = (1 << 57) - 1;

/// Microseconds since 1970, cut to what has a date; 0 where the clock can't be read.
fn moment<R: Clock>(rt: &R) -> u64
    ensures { result < 2 ^ 57 }
{
    let Ok(now) = SystemTime::now(rt) else {
        return 0;
    };
    let Ok(since) = now.duration_since(UNIX_EPOCH) else {
        return 0;
    };
    u64::try_from(since.as_micros()).unwrap_or(LAST).min(LAST)
}

/// The date of this moment. There is none where memory is refused.
pub fn date_now<R: Clock>(rt: &R, alloc: Global) -> Option<Text> {
    date_text(alloc, moment(rt)).ok()
}

/// A random word.
fn word<R: RandomSource>(rt: &R) -> io::Result<u64> {
    let mut bytes = [0; 8];
    rt.fill_bytes(&mut bytes)?;
    Ok(u64::from_le_bytes(bytes))
}

/// The date of this moment, and four random words. There is nothing where the system has none, or memory is refused.
pub fn given_now<R: Clock + RandomSource>(rt: &R, alloc: Global) -> Option<Given> {
    let first = word(rt).ok()?;
    let second = word(rt).ok()?;
    let third = word(rt).ok()?;
    let fourth = word(rt).ok()?;
    Given::new(alloc, moment(rt), first, second, third, fourth).ok()
}
