//! What the program's words ask for.

use clap::builder::ValueParser;
use clap::error::ErrorKind;
use clap::{Arg, ArgAction, ArgMatches, Command, Error, value_parser};
use fp_relay_replies::{Origins, is_origin};
use std::alloc::{AllocError, Global};
use std::fmt;
use std::net::SocketAddrV4;

// How many connections there may be at once, where no word says it.
const USUAL_CONNECTIONS: u32 = 4_096;

/// What is asked of the program.
#[derive(Drop)]
pub struct Options<'w> {
    /// Where snapshots come from.
    pub source: SocketAddrV4,
    /// Where evaluations are asked for.
    pub ofrep: SocketAddrV4,
    /// Where snapshots are shown.
    pub stream: Option<SocketAddrV4>,
    /// Where an operator looks.
    pub status: Option<SocketAddrV4>,
    /// The file in which the last frame is kept.
    pub keep: Option<&'w str>,
    /// The origins whose pages may ask.
    pub origins: Origins,
    /// How many connections for evaluations there may be at once.
    pub connections: u32,
}

/// Why the words ask for nothing that is done.
#[derive(Drop)]
pub enum WordsFault<'w> {
    /// They ask for this help.
    Help(String),
    /// They are wrong, as this line tells.
    Words(String),
    /// What stands for this argument is no four numbers and a port, or a source's port is 0.
    NoAddress {
        argument: &'static str,
        text: &'w str,
    },
    /// What stands for `--allow-origin` is neither `*` nor an origin.
    NoOrigin {
        text: &'w str,
    },
    /// There was no memory.
    Memory,
}

impl fmt::Display for WordsFault<'_> {
    fn fmt<W: fmt::Write>(&self, f: &mut fmt::Formatter<W>) -> fmt::Result {
        match self {
            WordsFault::Help(text) | WordsFault::Words(text) => f.write_str(text.as_str()),
            WordsFault::NoAddress { argument, text } => {
                write!(f, "{argument} is no address: {text}")
            }
            WordsFault::NoOrigin { text } => write!(f, "--allow-origin is no origin: {text}"),
            WordsFault::Memory => f.write_str("out of memory"),
        }
    }
}

impl From<AllocError> for WordsFault<'_> {
    fn from(_fault: AllocError) -> Self {
        WordsFault::Memory
    }
}

// What `clap` tells.
fn told<'w>(alloc: Global, fault: &Error) -> Result<WordsFault<'w>, AllocError> {
    let text = format!(in alloc; "{fault}")?;
    match fault.kind() {
        ErrorKind::DisplayHelp => Ok(WordsFault::Help(text)),
        ErrorKind::OutOfMemory => Ok(WordsFault::Memory),
        _ => Ok(WordsFault::Words(first_part(alloc, text.as_str())?)),
    }
}

// The lines up to the first empty one, as one: they say what is wrong.
fn first_part(alloc: Global, text: &str) -> Result<String, AllocError> {
    let mut part = String::new(alloc);
    for line in text.lines() {
        if line.is_empty() {
            break;
        }
        if !part.is_empty() {
            part.push_str(" ")?;
        }
        part.push_str(line.trim())?;
    }
    Ok(part)
}

/// What the words of a command line ask for, of which the first is the program's name, so that
/// `relay` can do it. `Err`: the help that they ask for, or what is wrong with them.
pub fn options_of<'w>(alloc: Global, words: &'w [&'w str]) -> Result<Options<'w>, WordsFault<'w>> {
    let matches = match command(alloc)?.try_get_matches_from(words) {
        Ok(matches) => matches,
        Err(fault) => return Err(told(alloc, &fault)?),
    };
    options_in(alloc, &matches)
}

fn options_in<'w>(alloc: Global, matches: &ArgMatches<'w>) -> Result<Options<'w>, WordsFault<'w>> {
    let source = source_of(matches.get_str("source").unwrap_or(""))?;
    let ofrep = address_of("OFREP", matches.get_str("ofrep").unwrap_or(""))?;
    let stream = address_at("--stream", matches.get_str("stream"))?;
    let status = address_at("--status", matches.get_str("status"))?;
    check_origins(matches)?;
    Ok(Options {
        source,
        ofrep,
        stream,
        status,
        keep: matches.get_str("keep"),
        origins: origins_of(alloc, matches)?,
        connections: matches
            .get_one::<u32>("connections")
            .unwrap_or(USUAL_CONNECTIONS),
    })
}

fn command<'w>(alloc: Global) -> Result<Command<'w>, AllocError> {
    let source = Arg::new(alloc, "source")
        .value_name("SOURCE")
        .required(true)
        .action(ArgAction::Set)
        .help("The stream port of a service or of another relay");
    let ofrep = Arg::new(alloc, "ofrep")
        .value_name("OFREP")
        .required(true)
        .action(ArgAction::Set)
        .help("Where evaluations are answered");
    let stream = Arg::new(alloc, "stream")
        .long("stream")
        .value_name("ADDR")
        .help("Where snapshots are passed on");
    let status = Arg::new(alloc, "status")
        .long("status")
        .value_name("ADDR")
        .help("Where health and metrics are shown");
    let command = Command::new(alloc, "flagrelay")
        .about("Answers evaluations from the snapshots of a flagplane service")
        .arg(source)?
        .arg(ofrep)?
        .arg(stream)?
        .arg(status)?;
    with_more(alloc, command)
}

fn with_more<'w>(alloc: Global, command: Command<'w>) -> Result<Command<'w>, AllocError> {
    let keep = Arg::new(alloc, "keep")
        .long("keep")
        .value_name("FILE")
        .value_parser(ValueParser::NonEmptyString)
        .help("Where the last snapshot is kept for the next start");
    let origins = Arg::new(alloc, "allow-origin")
        .long("allow-origin")
        .value_name("ORIGIN")
        .action(ArgAction::Append)
        .help("An origin whose pages may ask, or * for every one");
    let connections = Arg::new(alloc, "connections")
        .long("connections")
        .value_name("N")
        .value_parser(value_parser!(u32).range(1..))
        .help("How many connections for evaluations there may be at once");
    command.arg(keep)?.arg(origins)?.arg(connections)
}

// That each origin is one, or stands for all.
fn check_origins<'w>(matches: &ArgMatches<'w>) -> Result<(), WordsFault<'w>> {
    for &text in matches.get_strs("allow-origin").unwrap_or(&[]) {
        if text != "*" && !is_origin(text) {
            return Err(WordsFault::NoOrigin { text });
        }
    }
    Ok(())
}

fn origins_of(alloc: Global, matches: &ArgMatches<'_>) -> Result<Origins, AllocError> {
    let mut texts = Vec::new(alloc);
    for text in matches.get_strs("allow-origin").unwrap_or(&[]) {
        texts.push(String::from_str(alloc, text)?)?;
    }
    Ok(Origins::of(texts))
}

// The address that stands for this argument.
fn address_of<'w>(argument: &'static str, text: &'w str) -> Result<SocketAddrV4, WordsFault<'w>> {
    match text.parse() {
        Ok(address) => Ok(address),
        Err(_) => Err(WordsFault::NoAddress { argument, text }),
    }
}

// Where snapshots come from: nobody listens at port 0.
fn source_of(text: &str) -> Result<SocketAddrV4, WordsFault<'_>> {
    let argument = "SOURCE";
    match address_of(argument, text)? {
        address if address.port() == 0 => Err(WordsFault::NoAddress { argument, text }),
        address => Ok(address),
    }
}

// The same of an address that may be left out.
fn address_at<'w>(
    argument: &'static str,
    text: Option<&'w str>,
) -> Result<Option<SocketAddrV4>, WordsFault<'w>> {
    match text {
        Some(text) => Ok(Some(address_of(argument, text)?)),
        None => Ok(None),
    }
}
