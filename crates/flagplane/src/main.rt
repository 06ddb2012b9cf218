//! The program: its words, standard input, output and errors, and its status.
#![tactic(auto)]

use fp_commands::command;
use fp_connections::hold_closed_streams;
use fp_files::SystemFiles;
use fp_log::{Reported, Source, Stamped};
use fp_server::{Host, Moment, attend};
use fp_streams::FailureCounted;
use log::{LevelFilter, Logged};
use std::alloc::AllocGlobal;
use std::env;
use std::fs::File;
use std::io::{Read, Write};
use std::net::{TcpListener, TcpStream};
use std::process::ExitCode;
use std::rt::Files;

fn words(rt: &HostRuntime) -> Option<Vec<String>> {
    let mut words = Vec::new(rt.alloc());
    for word in env::args(rt).ok()?.skip(1) {
        words.push(word).ok()?;
    }
    Some(words)
}

// The runtime, with a log on standard error.
type LoggedRuntime = Logged<HostRuntime, Stamped<HostRuntime>>;

// A log is written where the environment asks for it, and nowhere else.
fn logged(rt: HostRuntime) -> LoggedRuntime {
    let level = match env::var(&rt, "FLAGPLANE_LOG") {
        Ok(value) if value.as_str() == "1" => LevelFilter::Info,
        _ => LevelFilter::Off,
    };
    Logged::new(rt, level, Stamped(rt))
}

// Does what the words ask of the service, or runs the command that they name, over the files of the
// runtime. A task waits, which a runtime may where its type is a parameter.
fn run<R, I, O, E>(rt: &R, words: &[String], input: I, output: O, errors: E) -> u8
where
    R: Host + Files<File = File>,
    I: Read + Drop,
    O: Write + Drop,
    E: Write + Drop,
{
    let mut files = SystemFiles::of(*rt);
    let mut r = FailureCounted::new(Reported::new(*rt, Source::Input, input));
    let mut w = FailureCounted::new(Reported::new(*rt, Source::Output, output));
    let mut e = FailureCounted::new(errors);
    match attend(rt, &mut files, words, &mut r, &mut w, &mut e) {
        Some(status) => status,
        None => {
            let now = Moment::now(rt).seconds();
            command(rt.alloc(), &mut files, words, &mut r, &mut w, &mut e, now)
        }
    }
}

fn main(rt: HostRuntime) -> ExitCode {
    // A call whose bounds name sockets is only checked where these are named.
    let _sockets: Option<(TcpListener, TcpStream)> = None;
    let Some(_held) = hold_closed_streams(&rt) else {
        return ExitCode::from(1);
    };
    // Words that aren't text name no command, just as if there were no words.
    let given = words(&rt);
    let words: &[String] = match &given {
        Some(words) => words.as_slice(),
        None => &[],
    };
    let logged = logged(rt);
    ExitCode::from(run(&logged, words, rt.reader(), rt.stdout(), rt.stderr()))
}
