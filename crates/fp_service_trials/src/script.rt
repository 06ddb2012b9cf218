//! The commands of a file of trials of the service.

use crate::clients::{
    bytes_of, comes, connect, end, is_closed, is_quiet, line_of, page_has, put_often, say,
};
use crate::courses::{
    Courses, seen, shown, start_editors, start_evaluators, start_subscribers, told,
};
use crate::crowd::{comes_in, enter, found, is_refused, see};
use crate::log_file::LogFile;
use crate::operands::{
    bytes, course, filled, first_line, hold_of, is_at, limits_of, say_last, say_told,
};
use crate::program::attended;
use crate::relays::{Relays, judged};
use crate::running::{DiskPlan, Ended, Plan, Running};
use fp_server::{Host, TimeLimits};
use fp_transcript::{Args, Text, Texts};
use std::alloc::AllocGlobal;
use std::collections::BTreeMap;
use std::net::{SocketAddr, TcpStream};
use std::thread;
use std::time::Duration;

/// What answers the lines of a file: the log of what runs, the texts that are named, the service
/// that runs and what the last one left, and who is connected to it.
#[derive(Drop)]
pub struct Script<R: Host> {
    rt: R,
    log: LogFile,
    texts: Texts,
    service: Option<Running<R>>,
    left: String,
    peers: BTreeMap<String, TcpStream>,
    crowd: Vec<TcpStream>,
    courses: Courses,
    relays: Relays,
}

impl<R: Host> Script<R> {
    /// No service, and nobody.
    pub fn new(rt: R, log: LogFile) -> Script<R> {
        let alloc = rt.alloc();
        Script {
            rt,
            log,
            texts: BTreeMap::new(alloc),
            service: None,
            left: String::new(alloc),
            peers: BTreeMap::new(alloc),
            crowd: Vec::new(alloc),
            courses: Courses::new(alloc),
            relays: Relays::new(alloc),
        }
    }

    /// Ends the relays and the service that still run.
    pub fn end(self) {
        let Script {
            rt,
            service,
            relays,
            ..
        } = self;
        relays.end_all(&rt);
        if let Some(service) = service {
            let _ended = service.end(&rt);
        }
    }
}

impl<R: Host> Script<R> {
    /// Appends the answer to a command.
    pub fn answer(&mut self, command: &str, out: &mut Text) {
        let mut args = Args::of(out.alloc, command);
        let word = args.word();
        self.run(word, &mut args, out);
        if args.is_bad {
            out.push("not understood");
        }
        out.is_short = out.is_short || args.is_short;
    }
}

// The words of `on_service`.
const OF_SERVICE: [&str; 12] = [
    "serve", "attend", "hold", "held", "let-go", "closes", "end", "stop", "left", "log", "logs",
    "pause",
];

// The words of `on_peer`.
const OF_PEER: [&str; 7] = ["say", "line", "hear", "puts", "fills", "quiet", "closed"];

// The words of `on_relay`.
const OF_RELAY: [&str; 9] = [
    "relay",
    "relay-ends",
    "relay-words",
    "source",
    "takes",
    "leaves",
    "comes",
    "page",
    "forget",
];

// The words of `on_crowd`.
const OF_CROWD: [&str; 5] = ["enter", "refused", "comes-in", "one-leaves", "all-leave"];

// The words of `on_course`.
const OF_COURSE: [&str; 7] = [
    "editors",
    "turners",
    "evaluators",
    "askers",
    "subscribers",
    "see",
    "finds",
];

impl<R: Host> Script<R> {
    fn run(&mut self, word: &str, args: &mut Args<'_>, out: &mut Text) {
        if OF_SERVICE.contains(&word) {
            self.on_service(word, args, out);
        } else if OF_PEER.contains(&word) {
            self.on_peer(word, args, out);
        } else if OF_RELAY.contains(&word) {
            self.on_relay(word, args, out);
        } else if OF_CROWD.contains(&word) {
            self.on_crowd(word, args, out);
        } else if OF_COURSE.contains(&word) {
            self.on_course(word, args, out);
        } else {
            self.on_other(word, args, out);
        }
    }

    // Where the next word's port is reached.
    fn port(&self, args: &mut Args<'_>) -> Option<SocketAddr> {
        let port = self.address_of(args.word());
        args.is_bad = port.is_none();
        port
    }

    // The address of the port of this name, of the service that runs, a relay or the source.
    fn address_of(&self, name: &str) -> Option<SocketAddr> {
        match &self.service {
            Some(service) if !name.contains('.') && name != "source" => service.ports.port(name),
            _ => self.relays.address_of(name),
        }
    }

    // `serve`, `serve failing CALL`, `serve slots SIZE`, `serve old`,
    // `serve within IDLE REQUEST REPLY SIZE`, `attend WORD ..`, `hold behind COUNT`,
    // `hold from PLACE`, `held`, `let-go`, `closes`, `end`, `stop`, `left`, `log`, `logs TEXT`,
    // `pause MILLISECONDS`.
    fn on_service(&mut self, word: &str, args: &mut Args<'_>, out: &mut Text) {
        match word {
            "serve" => self.serve(args, out),
            "attend" => attended(&self.rt, &self.words(args), out),
            "end" => {
                let said = self.ended();
                out.push(said.as_str());
            }
            "stop" => {
                let said = self.ended();
                out.yes(is_at(said.as_str(), self.left.as_str()) == Some(true));
            }
            "left" => out.push(first_line(self.left.as_str())),
            "log" => self.log.tell(out),
            "logs" => out.yes(self.log.comes_to(args.rest)),
            "pause" => thread::sleep(&self.rt, Duration::from_millis(args.number())),
            _ => self.on_gate(word, args, out),
        }
    }

    fn serve(&mut self, args: &mut Args<'_>, out: &mut Text) {
        let mut disk = DiskPlan::plain();
        let mut limits = TimeLimits::usual();
        match args.word() {
            "failing" => disk.failing = Some(args.number()),
            "slots" => disk.slot = args.number(),
            "old" => disk.is_old = true,
            "within" => {
                limits = limits_of(args);
                disk.slot = args.number();
            }
            _ => (),
        }
        self.log.clear();
        self.service = Running::start(&self.rt, self.log.0, Plan { disk, limits });
        if self.service.is_none() {
            out.push("no service");
        } else {
            // It was said before.
            let _ = self.log.comes_to("port=stream");
        }
    }

    // The words that are left, in which a port's name stands for its address.
    fn words(&self, args: &mut Args<'_>) -> Vec<String> {
        let mut words = Vec::new(args.alloc);
        let mut word = Text::new(args.alloc);
        for name in args.rest.split_whitespace() {
            word.clear();
            match self.address_of(name) {
                Some(at) => word.shown(&at),
                None => word.push(name),
            }
            args.is_short = args.is_short || !word.push_copy(word.as_str(), &mut words);
        }
        words
    }

    fn on_gate(&mut self, word: &str, args: &mut Args<'_>, out: &mut Text) {
        let Some(service) = &self.service else {
            args.is_bad = true;
            return;
        };
        match word {
            "hold" => service.gate.hold(hold_of(args)),
            "held" if service.gate.comes_to_hold() => out.push("held"),
            "held" => out.push("not held"),
            "closes" => service.close(),
            _ => service.gate.let_go(),
        }
    }

    // Ends the service, and gives what it said last.
    fn ended(&mut self) -> String {
        match self.service.take() {
            Some(service) => {
                let Ended { said, left } = service.end(&self.rt);
                self.left = left;
                said
            }
            None => String::new(self.rt.alloc()),
        }
    }

    // `say NAME BYTES`, `line NAME`, `hear NAME COUNT`, `puts NAME KEY COUNT`,
    // `fills NAME COUNT BYTES`, `quiet NAME`, `closed NAME`.
    fn on_peer(&mut self, word: &str, args: &mut Args<'_>, out: &mut Text) {
        let alloc = args.alloc;
        let Some(mut peer) = self.peers.get(args.word()) else {
            args.is_bad = true;
            return;
        };
        match word {
            "say" => {
                let _ = say(peer, &bytes(&self.texts, args));
            }
            "line" => out.written(&line_of(alloc, &mut peer)),
            "hear" => out.written(&bytes_of(alloc, &mut peer, args.number())),
            "puts" => say_last(put_often(alloc, peer, args.word(), args.number()), out),
            "fills" => say_last(filled(peer, &self.texts, args), out),
            "quiet" => out.yes(is_quiet(peer)),
            _ => out.yes(is_closed(peer)),
        }
    }

    // `connect NAME PORT`, `ends NAME`, `let NAME BYTES`, `told`, `kept`, `seen`, `shown`.
    fn on_other(&mut self, word: &str, args: &mut Args<'_>, out: &mut Text) {
        match word {
            "connect" => self.connect(args, out),
            "ends" => self.peers.get(args.word()).map_or((), end),
            "let" => self.name(args),
            "told" => say_told(&told(&self.rt, &mut self.courses), out),
            "kept" => self.kept(out),
            "seen" => seen(&self.rt, &mut self.courses, out),
            "shown" => shown(&self.rt, &mut self.courses, out),
            _ => args.is_bad = true,
        }
    }

    fn connect(&mut self, args: &mut Args<'_>, out: &mut Text) {
        let name = args.word();
        let Some(at) = self.port(args) else {
            return;
        };
        match (connect(&self.rt, at), String::from_str(args.alloc, name)) {
            (Ok(stream), Ok(name)) => {
                let _ = self.peers.insert(name, stream);
            }
            _ => out.push("no connection"),
        }
    }

    fn name(&mut self, args: &mut Args<'_>) {
        let name = args.word();
        let bytes = bytes(&self.texts, args);
        if let Ok(name) = String::from_str(args.alloc, name) {
            let _ = self.texts.insert(name, bytes);
        }
    }

    // How many edits the editors were told of, and how many of them the disk doesn't hold.
    fn kept(&mut self, out: &mut Text) {
        let told = told(&self.rt, &mut self.courses);
        let mut lost = 0u64;
        for line in told.as_str().lines() {
            if !self.left.as_str().lines().any(|held| held == line) {
                lost = lost.saturating_add(1);
            }
        }
        out.push(if told.is_empty() {
            "none told"
        } else {
            "some told"
        });
        out.named(", lost", lost);
    }

    // `relay NAME PORT WORD ..`, `relay-ends NAME`, `relay-words WORD ..`, `source`, `takes NAME`,
    // `leaves NAME`, `forget FILE`, `comes PORT KEY`, `page PORT PATH LINE`.
    fn on_relay(&mut self, word: &str, args: &mut Args<'_>, out: &mut Text) {
        match word {
            "relay" => self.relay(args, out),
            "relay-ends" => match self.relays.end(&self.rt, args.word()) {
                Some(said) => out.push(said.as_str()),
                None => args.is_bad = true,
            },
            "relay-words" => judged(self.rt.alloc(), &self.words(args), out),
            "source" if self.relays.play(&self.rt) => (),
            "source" => out.push("no source"),
            "takes" => self.take(args, out),
            "leaves" => drop(self.peers.remove(args.word())),
            "forget" => self.log.remove_beside(args.word()),
            _ => match self.port(args) {
                Some(at) if word == "page" => {
                    out.yes(page_has(&self.rt, at, args.word(), args.rest));
                }
                Some(at) => out.yes(comes(&self.rt, at, args.word())),
                None => args.is_bad = true,
            },
        }
    }

    fn relay(&mut self, args: &mut Args<'_>, out: &mut Text) {
        let name = args.word();
        let words = self.words(args);
        if !self.relays.start(&self.rt, self.log.0, name, words) {
            out.push("no relay");
        }
    }

    // Who comes to the source next.
    fn take(&mut self, args: &mut Args<'_>, out: &mut Text) {
        match (
            self.relays.take(&self.rt),
            String::from_str(args.alloc, args.word()),
        ) {
            (Some(stream), Ok(name)) => {
                let _ = self.peers.insert(name, stream);
            }
            _ => out.push("nobody"),
        }
    }

    // `enter PORT COUNT BYTES`, `refused PORT`, `comes-in PORT BYTES`, `one-leaves`, `all-leave`.
    fn on_crowd(&mut self, word: &str, args: &mut Args<'_>, out: &mut Text) {
        match word {
            "one-leaves" => drop(self.crowd.pop()),
            "all-leave" => self.crowd.clear(),
            _ => self.come(word, args, out),
        }
    }

    fn come(&mut self, word: &str, args: &mut Args<'_>, out: &mut Text) {
        let Some(at) = self.port(args) else {
            return;
        };
        let count = if word == "enter" { args.number() } else { 1 };
        let bytes = bytes(&self.texts, args);
        match word {
            "enter" => {
                let entered = enter(&self.rt, at, count, &bytes, &mut self.crowd);
                out.named("let in", entered);
            }
            "refused" => out.yes(is_refused(&self.rt, at)),
            _ => out.yes(comes_in(&self.rt, at, &bytes, &mut self.crowd)),
        }
    }

    // `editors COUNT EDITS`, with `at-once` behind it or without; `turners COUNT SETS`,
    // `evaluators COUNT REVISION`, `askers COUNT REVISION`, `subscribers COUNT`, `see COUNT KEY`,
    // `finds COUNT`.
    fn on_course(&mut self, word: &str, args: &mut Args<'_>, out: &mut Text) {
        let Some(service) = &self.service else {
            args.is_bad = true;
            return;
        };
        let rt = &self.rt;
        let count = args.number();
        match word {
            "editors" | "turners" => start_editors(
                rt,
                service.ports.edit,
                count,
                course(word, args),
                &mut self.courses,
            ),
            "evaluators" | "askers" => start_evaluators(
                rt,
                service.ports.ofrep,
                count,
                word == "askers",
                args.number(),
                &mut self.courses,
            ),
            "subscribers" => start_subscribers(rt, service.ports.stream, count, &mut self.courses),
            "see" => see(rt, service.ports.ofrep, count, args.word(), out),
            _ => out.number(found(rt, service.ports.edit, service.ports.ofrep, count)),
        }
    }
}
