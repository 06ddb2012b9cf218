//! The log of the services, which a file keeps.

use fp_transcript::Text;
use std::alloc::AllocGlobal;
use std::fmt::Display;
use std::fs::OpenOptions;
use std::io::Write;
use std::time::{Clock, Duration};
use std::{fs, io, thread};

const NAME: &str = "told.log";

// What stands in for a number that no trial knows.
const SOME: &str = "..";

/// Stands in for the error stream of a service, whose lines a file keeps, and for its log's clock,
/// which shows one moment.
#[derive(Clone, Copy, Drop)]
pub struct LogFile(pub HostRuntime);

impl LogFile {
    /// Forgets what was told.
    pub fn clear(&self) {
        self.remove_beside(NAME);
    }

    /// Removes a file that a trial left beside it.
    pub fn remove_beside(&self, name: &str) {
        let _ = fs::remove_file(&self.0, name);
    }

    /// Whether this is told within ten seconds.
    pub fn comes_to(&self, text: &str) -> bool {
        for _ in 0..1000 {
            if self.told().is_ok_and(|told| told.contains(text)) {
                return true;
            }
            thread::sleep(&self.0, Duration::from_millis(10));
        }
        false
    }

    /// What was told, but for ports and durations.
    pub fn tell(&self, out: &mut Text) {
        let Ok(told) = self.told() else {
            return;
        };
        for line in told.as_str().lines() {
            out.end_line();
            put_line(line, out);
        }
    }

    fn told(&self) -> io::Result<String> {
        fs::read_to_string(&self.0, NAME)
    }
}

/// A line, but for ports and durations.
pub fn put_line(line: &str, out: &mut Text) {
    for (at, word) in line.split(' ').enumerate() {
        if at > 0 {
            out.push(" ");
        }
        put_word(word, out);
    }
}

fn put_word(word: &str, out: &mut Text) {
    if word.starts_with("ms=") {
        out.push("ms=");
        out.push(SOME);
    } else if let Some((before, _)) = word.split_once("127.0.0.1:") {
        out.push(before);
        out.push("127.0.0.1:");
        out.push(SOME);
    } else {
        out.push(word);
    }
}

impl Eprint for LogFile {
    fn eprint<D: Display + Drop>(&self, value: D) -> io::Result<()> {
        let text = format!(in self.0.alloc(); "{value}")?;
        let mut how = OpenOptions::new();
        let mut file = how.append(true).create(true).open(&self.0, NAME)?;
        file.write_all(text.as_str().as_bytes())
    }

    fn eprintln<D: Display + Drop>(&self, value: D) -> io::Result<()> {
        self.eprint(format_args!("{value}\n"))
    }
}

impl Clock for LogFile {
    fn monotonic(&self) -> io::Result<Duration> {
        Ok(Duration::from_secs(0))
    }

    fn since_1970(&self) -> io::Result<Duration> {
        Ok(Duration::from_secs(0))
    }
}
