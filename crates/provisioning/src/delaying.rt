//! Runs whose records wait as the provider asks.
ghost use Rattle.std.specs.Prelude.{◌≡◌};
ghost use Rattle.std.specs.Char.{is_ascii_digit};
ghost use Rattle.std.specs.List.{list_all};
ghost use Rattle.provisioning.specs.Delays.{is_number, number_in, seconds_in};

use crate::delays::{Delays, put_off, take_due, time_left};
use crate::dialing::Dial;
use crate::explaining::Ended;
use crate::heads::Head;
use crate::recording::Heard;
use journal_core::kind_word;
use scim_key::RecordName;
use std::alloc::Global;
use std::cell::Cell;
use std::io::Eprint;
use std::time::{Clock, Duration, Instant};
use std::{io, str, thread};

/// The most seconds for which a record waits. If the provider asks for more, it doesn't wait.
const LONGEST_WAIT_SECONDS: u64 = 60;

/// The most digits of a number of seconds that is read.
const SECONDS_DIGITS: usize = 18;

/// Opens the streams of another, and has a record wait if the provider is busy and says for how long.
#[derive(Drop)]
pub(crate) struct Delaying<'a, D: Drop, R> {
    pub dial: D,
    pub alloc: Global,
    pub runtime: &'a R,
    pub delays: &'a Cell<Option<Delays>>,
}

impl<'a, D: Dial + Drop, R: Clock + Eprint> Dial for Delaying<'a, D, R> {
    type Reader = D::Reader;

    type Writer = D::Writer;

    fn dial(&mut self) -> io::Result<(Self::Reader, Self::Writer)> {
        self.dial.dial()
    }

    fn end(&self, reader: Self::Reader, writer: Self::Writer) {
        self.dial.end(reader, writer);
    }

    fn explain(&self, ended: &Ended<'_>) {
        self.dial.explain(ended);
    }

    /// Prints that the record waits. If the clock fails or memory runs out, it doesn't wait.
    fn puts_off(&self, name: &RecordName, heard: &Heard) -> bool {
        let Some(asked) = Asked::of(heard) else {
            return false;
        };
        let Some(due) = self.after(asked.seconds) else {
            return false;
        };
        if put_off(self.alloc, self.delays, name, due).is_err() {
            return false;
        }
        report(self.runtime, name, asked);
        true
    }

    /// If the clock fails, every record is due.
    fn is_due(&self, name: &RecordName) -> bool {
        match Instant::now(self.runtime) {
            Ok(now) => take_due(self.delays, name, now),
            Err(_) => true,
        }
    }

    fn rest(&self) {
        if let Ok(now) = Instant::now(self.runtime) {
            if let Some(left) = time_left(self.delays, now) {
                thread::sleep(self.runtime, left);
            }
        }
    }
}

impl<'a, D: Dial + Drop, R: Clock + Eprint> Delaying<'a, D, R> {
    /// The moment in so many seconds, if the clock tells it.
    fn after(&self, seconds: u64) -> Option<Instant> {
        match Instant::now(self.runtime) {
            Ok(now) => now.checked_add(Duration::from_secs(seconds)),
            Err(_) => None,
        }
    }
}

/// What a provider that is busy asks for.
#[derive(Clone, Copy)]
struct Asked {
    status: u16,
    seconds: u64,
}

impl Asked {
    /// What an answer 429 (RFC 6585, section 4) or 503 (RFC 9110, section 15.6.4) asks for, if it is a wait.
    fn of(heard: &Heard) -> Option<Asked> {
        let head = Head::of(heard.first())?;
        match head.status {
            429 | 503 => Some(Asked {
                status: head.status,
                seconds: seconds_of(&head)?,
            }),
            _ => None,
        }
    }
}

/// How many seconds the field `Retry-After` of a head says (RFC 9110, section 10.2.3), if it is a wait.
fn seconds_of(head: &Head<'_>) -> Option<u64> {
    match str::from_utf8(head.field("retry-after")?) {
        Ok(text) => seconds_in(text),
        Err(_) => None,
    }
}

/// The seconds that a text writes, if it is a number from 1 to `LONGEST_WAIT_SECONDS`. A date isn't read.
fn seconds_in(text: &str) -> Option<u64>
    ensures { result ≡ seconds_in text.now }
{
    match number_in(text) {
        Some(seconds) if seconds > 0 && seconds <= LONGEST_WAIT_SECONDS => Some(seconds),
        _ => None,
    }
}

/// The number that 1 to `SECONDS_DIGITS` digits write.
fn number_in(text: &str) -> Option<u64>
    ensures { result ≡ number_in text.now }
{
    if is_number(text.as_bytes()) {
        text.parse().ok()
    } else {
        None
    }
}

fn is_number(text: &[u8]) -> bool
    ensures { result ≡ is_number text.now }
{
    !text.is_empty() && text.len() <= SECONDS_DIGITS && has_digits_alone(text)
}

fn has_digits_alone(text: &[u8]) -> bool
    ensures { result ≡ list_all is_ascii_digit text.now }
{
    text.iter().all(|byte| byte.is_ascii_digit())
}

/// Prints for how long a record waits, and why.
fn report<E: Eprint>(stderr: &E, name: &RecordName, asked: Asked) {
    let (kind, key) = (kind_word(name.kind), name.key.as_str());
    let Asked { status, seconds } = asked;
    let _ = eprintln!(stderr; "{kind} {key}: {status}, asked again after {seconds} s");
}
