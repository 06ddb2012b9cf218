//! Relays that run beside the service, and a source of frames that a trial plays.

use crate::running::{Pipes, address, both_ends};
use fp_relay::{SystemFiles, options_of, relay};
use fp_server::Host;
use fp_streams::FailureCounted;
use fp_transcript::Text;
use std::alloc::{AllocGlobal, Global};
use std::collections::BTreeMap;
use std::io::Read;
use std::net::{Ipv4Addr, Shutdown, SocketAddr, SocketAddrV4, TcpListener, TcpStream};
use std::os::unix::net::UnixStream;
use std::thread;
use std::thread::JoinHandle;
use std::time::Duration;

// A port that is free.
const FREE: &str = "127.0.0.1:0";

// A relay in a thread of its own, and where evaluators, subscribers and operators reach it.
#[derive(Drop)]
struct Running {
    ports: [SocketAddr; 3],
    pipes: Pipes,
    thread: JoinHandle<String>,
}

/// The relays that run, by their names, and the source that the trial plays.
#[derive(Drop)]
pub struct Relays {
    running: BTreeMap<String, Running>,
    source: Option<TcpListener>,
}

impl Relays {
    /// None, and no source.
    pub fn new(alloc: Global) -> Relays {
        Relays {
            running: BTreeMap::new(alloc),
            source: None,
        }
    }

    /// Where `source`, or `NAME.ofrep`, `NAME.stream` and `NAME.status` of a relay, are reached.
    pub fn address_of(&self, name: &str) -> Option<SocketAddr> {
        if name == "source" {
            return self.source.as_ref()?.local_addr().ok();
        }
        let (name, port) = name.split_once('.')?;
        let [ofrep, stream, status] = self.running.get(name)?.ports;
        match port {
            "ofrep" => Some(ofrep),
            "stream" => Some(stream),
            "status" => Some(status),
            _ => None,
        }
    }

    /// Listens as a source.
    pub fn play<R: Host>(&mut self, rt: &R) -> bool {
        let free = SocketAddrV4::new(Ipv4Addr::LOCALHOST, 0);
        self.source = TcpListener::bind(rt, free).ok();
        self.source.is_some()
    }

    /// The next connection to the source, if one comes within ten seconds. Its reads give up after
    /// ten seconds.
    pub fn take<R: Host>(&self, rt: &R) -> Option<TcpStream> {
        let listener = self.source.as_ref()?;
        listener.set_nonblocking(true).ok()?;
        for _ in 0..1000 {
            if let Ok((stream, _)) = listener.accept() {
                stream.set_nonblocking(false).ok()?;
                stream.set_read_timeout(Some(Duration::from_secs(10))).ok()?;
                return Some(stream);
            }
            thread::sleep(rt, Duration::from_millis(10));
        }
        None
    }

    /// Starts a relay under this name, by words of which the first is the source's address, and
    /// waits until it tells where it is reached.
    pub fn start<R: Host>(
        &mut self,
        rt: &R,
        plain: HostRuntime,
        name: &str,
        words: Vec<String>,
    ) -> bool {
        let Ok(name) = String::from_str(rt.alloc(), name) else {
            return false;
        };
        match started(rt, plain, words) {
            Some(running) => self.running.insert(name, running).is_ok(),
            None => false,
        }
    }

    /// Ends the input of the relay of this name, and waits for its end: its fault, if it had one.
    pub fn end<R: Host>(&mut self, rt: &R, name: &str) -> Option<String> {
        let running = self.running.remove(name)?;
        Some(ended(rt, running))
    }

    /// Ends all that still run.
    pub fn end_all<R: Host>(self, rt: &R) {
        let Relays { running, .. } = self;
        for (_, running) in running {
            let _fault = ended(rt, running);
        }
    }
}

// The words of a relay: its source, ports that are free, and what else was said.
fn full_words(alloc: Global, words: &[String]) -> Option<Vec<String>> {
    let (source, rest) = words.split_first()?;
    let mut full = Vec::new(alloc);
    for word in [source.as_str(), FREE, "--stream", FREE, "--status", FREE] {
        full.push(String::from_str(alloc, word).ok()?).ok()?;
    }
    for word in rest {
        let word = String::from_str(alloc, word.as_str()).ok()?;
        full.push(word).ok()?;
    }
    Some(full)
}

// Where it is reached, as it says it.
fn ports_heard(alloc: Global, output: &mut UnixStream) -> Option<[SocketAddr; 3]> {
    let ofrep = address(alloc, output, "ofrep ")?;
    let stream = address(alloc, output, "stream ")?;
    let status = address(alloc, output, "status ")?;
    Some([ofrep, stream, status])
}

fn started<R: Host>(rt: &R, plain: HostRuntime, words: Vec<String>) -> Option<Running> {
    let alloc = rt.alloc();
    let words = full_words(alloc, &words)?;
    let (mut own, theirs) = both_ends(plain)?;
    let thread = spawned(rt, SystemFiles::of(plain), words, theirs)?;
    let ports = ports_heard(alloc, &mut own.output)?;
    Some(Running {
        ports,
        pipes: own,
        thread,
    })
}

// Relays in a thread of its own.
fn spawned<R: Host>(
    rt: &R,
    files: SystemFiles<HostRuntime>,
    words: Vec<String>,
    pipes: Pipes,
) -> Option<JoinHandle<String>> {
    let own = *rt;
    match thread::spawn(rt, move || run(&own, files, &words, pipes)) {
        Ok(thread) => Some(thread),
        Err(_) => None,
    }
}

// Relays as the words say, and gives the fault that ended it.
fn run<R: Host>(rt: &R, files: SystemFiles<HostRuntime>, words: &[String], pipes: Pipes) -> String {
    let mut said = Text::new(rt.alloc());
    if let Some(texts) = texts_of(rt.alloc(), words) {
        relayed(rt, files, &texts, pipes, &mut said);
    }
    said.text
}

fn relayed<R: Host>(
    rt: &R,
    files: SystemFiles<HostRuntime>,
    words: &[&str],
    pipes: Pipes,
    said: &mut Text,
) {
    let Pipes { input, output } = pipes;
    let mut r = FailureCounted::new(input);
    let mut w = FailureCounted::new(output);
    let options = match options_of(rt.alloc(), words) {
        Ok(options) => options,
        Err(fault) => {
            said.shown(&fault);
            return;
        }
    };
    if let Err(fault) = relay(rt, files, options, &mut r, &mut w) {
        said.shown(&fault);
    }
}

fn ended<R: Host>(rt: &R, running: Running) -> String {
    let Running {
        ports: _,
        mut pipes,
        thread,
    } = running;
    let _ = pipes.input.shutdown(Shutdown::Both);
    let mut said = String::new(rt.alloc());
    let _ = pipes.output.read_to_string(&mut said);
    let fault = thread.join(rt);
    let _ = said.push_str(fault.as_str());
    said
}

// Words as a program is handed them, behind its name.
fn texts_of<'w>(alloc: Global, words: &'w [String]) -> Option<Vec<&'w str>> {
    let mut texts = Vec::new(alloc);
    texts.push("flagrelay").ok()?;
    for word in words {
        texts.push(word.as_str()).ok()?;
    }
    Some(texts)
}

/// What words ask of a relay: `well`, or why they ask for nothing that is done.
pub fn judged(alloc: Global, words: &[String], out: &mut Text) {
    let Some(texts) = texts_of(alloc, words) else {
        out.is_short = true;
        return;
    };
    match options_of(alloc, &texts) {
        Ok(_) => out.push("well"),
        Err(fault) => out.shown(&fault),
    }
}
