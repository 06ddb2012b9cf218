//! Lines of a log, each with its moment.

use jiff_core::civil::DateTime;
use jiff_core::{Offset, Timestamp};
use libc::net as c;
use libc::types::pollfd;
use log::kv::Source;
use log::span::Spans;
use log::{Log, Metadata, Record};
use std::fmt;
use std::fmt::Display;
use std::time::{Clock, SystemTime, UNIX_EPOCH};

/// Writes each record to the standard error of `R`, a line: the moment in UTC as RFC 3339 has it, the
/// record's target, and its message. A line of up to 1,024 bytes takes one write. A line that the
/// system's standard error doesn't take at once is dropped, and nobody waits for it.
#[derive(Clone, Copy, Debug, Drop)]
pub struct Stamped<R>(pub R);

impl<R: Eprint + Clock> Log for Stamped<R> {
    ghost use Rattle.std.specs.Prelude.{Some, true, []};

    ghost enables = { λ _ _ _. Some true };

    ghost target_of = { λ _. Some [] };

    fn enabled(&self, _metadata: &Metadata<'_>) -> bool {
        true
    }

    fn log<D: Display, K: Source, S: Spans>(&self, record: &Record<'_, D, K, S>) {
        if !takes_a_line() {
            return;
        }
        let now = Moment(now(&self.0));
        let (target, message) = (record.target(), record.args());
        let _ = self.0.eprintln(format_args!("{now} {target} {message}"));
    }

    fn flush(&self) {}

    fn target(&self) -> &str {
        ""
    }
}

// Whether standard error takes a line at once. Asking first saves whoever tells something from
// standing still with a reader that does, and the edits and the stop that wait for that thread. A
// pipe that is ready has room for 4,096 bytes. Where the reader is gone the answer is yes, since a
// write fails at once; where the system doesn't answer, it is no.
fn takes_a_line() -> bool {
    let mut asked = [pollfd {
        fd: libc::STDERR_FILENO,
        events: c::POLLOUT,
        revents: 0,
    }];
    c::poll(&mut asked, 0) > 0
}

// What the clock shows in UTC; 1970 without a clock.
fn now<R: Clock>(rt: &R) -> DateTime {
    let since = match SystemTime::now(rt) {
        Ok(now) => now.duration_since(UNIX_EPOCH).ok(),
        Err(_) => None,
    };
    let seconds = since.map_or(0, |since| since.as_secs());
    let moment = Timestamp::from_nanosecond(seconds as i128 * 1_000_000_000);
    Offset::UTC.to_datetime(moment.unwrap_or(Timestamp::UNIX_EPOCH))
}

// A moment as RFC 3339 has it, to the second.
#[derive(Clone, Copy)]
struct Moment(DateTime);

impl Display for Moment {
    fn fmt<W: fmt::Write>(&self, f: &mut fmt::Formatter<W>) -> fmt::Result {
        let Moment(DateTime { date, time }) = self;
        write!(f, "{:04}-{:02}-{:02}T", date.year, date.month, date.day)?;
        write!(f, "{:02}:{:02}:{:02}Z", time.hour, time.minute, time.second)
    }
}
