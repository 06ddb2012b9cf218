//! A file of commands, written out again with what is answered to them.

ghost use Rattle.std.specs.Prelude.{◌≡◌, count_by};
ghost use Rattle.std.specs.Str.Lines.{lines};
ghost use Rattle.fp_transcript.specs.Lines.{is_answer, is_command};

use crate::text::Text;
use std::alloc::{AllocError, Global};

/// A longer line of an answer is cut.
const LONGEST: usize = 400;

/// What answers the commands of a file, one after another.
pub trait Answers {
    /// Appends the answer to a command, of no line or of several. What one command set
    /// holds for those behind it.
    fn answer(&mut self, command: &str, out: &mut Text);
}

// Whether a line is one of an answer.
fn is_answer(line: &str) -> bool
    ensures { result ≡ is_answer line.now }
{
    line.starts_with('=')
}

// Whether a line is a command: not empty, no comment and no answer.
fn is_command(line: &str) -> bool
    ensures { result ≡ is_command line.now }
{
    !line.is_empty() && !line.starts_with('#') && !is_answer(line)
}

/// How many commands a file has: the lines that are neither empty, nor begin with `#` or `=`.
pub fn cases(file: &str) -> usize
    ensures { result ≡ count_by is_command (lines file.now) }
{
    file.lines().filter(|line| is_command(line)).count()
}

/// The file without its answers, and behind each command the answer that it is given now, each line
/// of which begins with `= `.
pub fn transcript<A: Answers>(
    alloc: Global,
    file: &str,
    answers: &mut A,
) -> Result<String, AllocError> {
    let mut text = Text::new(alloc);
    let mut answer = Text::new(alloc);
    for line in file.lines() {
        if is_answer(line) {
            continue;
        }
        text.push(line);
        text.push("\n");
        if is_command(line) {
            answer.clear();
            answers.answer(line, &mut answer);
            push_answer(&answer, &mut text);
        }
    }
    text.whole()
}

fn push_answer(answer: &Text, text: &mut Text) {
    for line in answer.as_str().lines() {
        push_line(line, text);
    }
    text.is_short = text.is_short || answer.is_short;
}

fn push_line(line: &str, text: &mut Text) {
    text.push("= ");
    match line.get(..LONGEST) {
        Some(start) if LONGEST < line.len() => {
            text.push(start);
            text.named(" ..", line.len() as u64);
            text.push(" bytes");
        }
        _ => text.push(line),
    }
    text.push("\n");
}
