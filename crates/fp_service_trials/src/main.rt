//! Runs trials of the service, which are written as text, and says whether each file of them is
//! answered as it is written. With no file named, standard input is written out again with the
//! answers.
#![tactic(auto)]

mod clients;
mod courses;
mod crowd;
mod held;
mod log_file;
mod operands;
mod program;
mod relays;
mod replay;
mod running;
mod script;

use crate::log_file::LogFile;
use crate::replay::answered;
use fp_log::Stamped;
use fp_transcript::{report, transcript};
use log::{LevelFilter, Logged};
use std::alloc::AllocGlobal;
use std::net::{TcpListener, TcpStream};
use std::{env, fs, io};

fn main(rt: HostRuntime) -> io::Result<()> {
    let _sockets: Option<(TcpListener, TcpStream)> = None;
    let log = LogFile(rt);
    let rt = Logged::new(rt, LevelFilter::Info, Stamped(log));
    let mut is_named = false;
    for name in env::args(&rt)?.skip(1) {
        is_named = true;
        let file = fs::read_to_string(&rt, name.as_str())?;
        report(&rt, name.as_str(), &mut answered(&rt, log, file.as_str())?)?;
    }
    if is_named {
        return Ok(());
    }
    let file = io::read_to_string(rt.alloc(), rt.reader())?;
    let mut answers = answered(&rt, log, file.as_str())?;
    let text = transcript(rt.alloc(), file.as_str(), &mut answers)?;
    print!(rt; "{text}")
}
