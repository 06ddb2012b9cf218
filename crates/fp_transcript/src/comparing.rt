//! What a program says of a file of commands: whether it is answered as it is written.

use crate::answering::{Answers, cases, transcript};
use std::alloc::AllocGlobal;
use std::rt::Files;
use std::{fs, io};

/// Prints how many commands a file has and that they are answered as written, or the first line
/// that differs, as written and as answered.
pub fn report<R: Files + AllocGlobal + Print, A: Answers>(
    rt: &R,
    name: &str,
    answers: &mut A,
) -> io::Result<()> {
    let written = fs::read_to_string(rt, name)?;
    let written = written.as_str();
    let answered = transcript(rt.alloc(), written, answers)?;
    if answered.as_str() == written {
        return println!(rt; "{name}: {} cases, answered as written", cases(written));
    }
    say_first_difference(rt, name, written, answered.as_str())
}

fn say_first_difference<R: Print>(
    rt: &R,
    name: &str,
    written: &str,
    answered: &str,
) -> io::Result<()> {
    let mut answers = answered.lines();
    for (before, line) in written.lines().enumerate() {
        let answer = answers.next().unwrap_or("nothing more");
        if line != answer {
            let at = before.saturating_add(1);
            println!(rt; "{name}:{at}: written:  {line}")?;
            return println!(rt; "{name}:{at}: answered: {answer}");
        }
    }
    println!(rt; "{name}: more is answered than written")
}

/// Prints standard input again with the answers to its commands: so a new file is begun.
pub fn rewrite<R: AllocGlobal + Print + Input, A: Answers>(
    rt: &R,
    answers: &mut A,
) -> io::Result<()> {
    let written = io::read_to_string(rt.alloc(), rt.reader())?;
    let answered = transcript(rt.alloc(), written.as_str(), answers)?;
    print!(rt; "{answered}")
}
