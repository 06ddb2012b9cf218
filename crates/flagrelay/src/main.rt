//! The program: its words, standard input, output and errors, and its status.
#![tactic(auto)]

use fp_connections::hold_closed_streams;
use fp_log::{Reported, Source, Stamped};
use fp_relay::{Host, SystemFiles, WordsFault, options_of, relay};
use fp_streams::FailureCounted;
use log::{LevelFilter, Logged};
use std::alloc::AllocGlobal;
use std::env;
use std::io::{Read, Write};
use std::net::{TcpListener, TcpStream};
use std::process::ExitCode;

// The status where the words ask for nothing that can be done, and where a fault ended it.
const NO_TASK: u8 = 2;

const FAULT: u8 = 1;

// The runtime, with a log on standard error.
type LoggedRuntime = Logged<HostRuntime, Stamped<HostRuntime>>;

// A log is written where the environment asks for it, and nowhere else.
fn logged(rt: HostRuntime) -> LoggedRuntime {
    let level = match env::var(&rt, "FLAGPLANE_LOG") {
        Ok(value) if value.as_str() == "1" => LevelFilter::Info,
        _ => LevelFilter::Off,
    };
    Logged::new(rt, level, Stamped(rt))
}

fn words(rt: &HostRuntime) -> Option<Vec<String>> {
    let mut words = Vec::new(rt.alloc());
    for word in env::args(rt).ok()? {
        words.push(word).ok()?;
    }
    Some(words)
}

// Relays as the words say, and answers the program's status.
fn run<R, I, O, E>(
    rt: &R,
    files: SystemFiles<HostRuntime>,
    words: &[&str],
    input: I,
    output: O,
    errors: E,
) -> u8
where
    R: Host,
    I: Read + Drop,
    O: Write + Drop,
    E: Write + Drop,
{
    let mut r = FailureCounted::new(Reported::new(*rt, Source::Input, input));
    let mut w = FailureCounted::new(Reported::new(*rt, Source::Output, output));
    let mut e = FailureCounted::new(errors);
    let options = match options_of(rt.alloc(), words) {
        Ok(options) => options,
        Err(WordsFault::Help(text)) => {
            let _ = w.say(&text);
            return 0;
        }
        Err(fault) => {
            let _ = e.say(&format_args!("flagrelay: {fault}"));
            return NO_TASK;
        }
    };
    match relay(rt, files, options, &mut r, &mut w) {
        Ok(()) => 0,
        Err(fault) => {
            let _ = e.say(&format_args!("flagrelay: {fault}"));
            FAULT
        }
    }
}

fn main(rt: HostRuntime) -> ExitCode {
    // A call whose bounds name sockets is only checked where these are named.
    let _sockets: Option<(TcpListener, TcpStream)> = None;
    let Some(_held) = hold_closed_streams(&rt) else {
        return ExitCode::from(FAULT);
    };
    // Words that aren't text ask for nothing, just as if there were no words.
    let given = words(&rt);
    let mut texts = Vec::new(rt.alloc());
    for word in given.iter().flatten() {
        if texts.push(word.as_str()).is_err() {
            return ExitCode::from(FAULT);
        }
    }
    let logged = logged(rt);
    let files = SystemFiles::of(rt);
    let status = run(
        &logged,
        files,
        &texts,
        rt.reader(),
        rt.stdout(),
        rt.stderr(),
    );
    ExitCode::from(status)
}
