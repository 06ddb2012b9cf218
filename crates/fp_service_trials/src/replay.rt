//! The commands of a file, and their answers, one behind the other: what a command starts in a
//! thread rests on bounds of a function, and in a method of a trait none holds in another thread.

use crate::log_file::LogFile;
use crate::script::Script;
use fp_server::Host;
use fp_transcript::{Answers, Text, transcript};
use std::alloc::{AllocError, AllocGlobal};
use std::collections::VecDeque;

// The commands of a file, in order.
#[derive(Drop)]
struct Commands {
    lines: Vec<String>,
}

impl Answers for Commands {
    fn answer(&mut self, command: &str, out: &mut Text) {
        if !out.push_copy(command.trim(), &mut self.lines) {
            out.is_short = true;
        }
    }
}

/// Answers that were given, in order.
#[derive(Drop)]
pub struct Given {
    answers: VecDeque<Text>,
}

impl Answers for Given {
    fn answer(&mut self, _command: &str, out: &mut Text) {
        match self.answers.pop_front() {
            Some(answer) => out.put(&answer),
            None => out.push("no answer"),
        }
    }
}

/// The answers to the commands of a file, over a runtime with this log.
pub fn answered<R: Host>(rt: &R, log: LogFile, file: &str) -> Result<Given, AllocError> {
    let alloc = rt.alloc();
    let lines = Vec::new(alloc);
    let mut commands = Commands { lines };
    let _copy = transcript(alloc, file, &mut commands)?;
    let answers = run(rt, log, &commands.lines);
    if answers.len() == commands.lines.len() {
        Ok(Given { answers })
    } else {
        Err(AllocError)
    }
}

// The answers, as many as there was memory for.
fn run<R: Host>(rt: &R, log: LogFile, commands: &[String]) -> VecDeque<Text> {
    let mut answers = VecDeque::new(rt.alloc());
    let mut script = Script::new(*rt, log);
    for command in commands {
        let mut answer = Text::new(rt.alloc());
        script.answer(command.as_str(), &mut answer);
        let _ = answers.push_back(answer);
    }
    script.end();
    answers
}
