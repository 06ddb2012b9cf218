//! Editors, evaluators and subscribers in threads of their own, and what they came to.

use crate::clients::{connect, evaluated, is_mixed, line_of, revision_in, say_put, say_turn};
use fp_server::Host;
use fp_stream::{Hello, watch_loop, write_hello};
use fp_streams::FailureCounted;
use fp_transcript::Text;
use std::alloc::{AllocGlobal, Global};
use std::net::{SocketAddr, TcpStream};
use std::thread::JoinHandle;
use std::time::Duration;
use std::{mem, thread};

// An evaluator that sees nothing new so often gives up.
const MOST_TURNS: u32 = 2_000;

/// Who is at work.
#[derive(Drop)]
pub struct Courses {
    editors: Vec<JoinHandle<String>>,
    evaluators: Vec<JoinHandle<Option<u64>>>,
    subscribers: Vec<JoinHandle<Vec<u8>>>,
}

impl Courses {
    /// Nobody.
    pub fn new(alloc: Global) -> Courses {
        Courses {
            editors: Vec::new(alloc),
            evaluators: Vec::new(alloc),
            subscribers: Vec::new(alloc),
        }
    }
}

/// What an editor does: its number, how many edits it makes, whether it says them all before it
/// hears of one, and whether each of them turns all flags together.
#[derive(Clone, Copy)]
pub struct Course {
    pub number: u64,
    pub count: u64,
    pub is_at_once: bool,
    pub is_turning: bool,
}

// The key of an editor's put.
fn key_of(course: Course, n: u64, key: &mut Text) {
    key.clear();
    key.push("editor-");
    key.number(course.number);
    key.push("-flag-");
    key.number(n);
}

// Says the edit of this place: a put, or a set that turns all flags.
fn say_edit(alloc: Global, stream: &TcpStream, course: Course, n: u64, key: &str) {
    let _ = if course.is_turning {
        say_turn(alloc, stream, n % 2 == 0)
    } else {
        say_put(alloc, stream, key)
    };
}

// Makes the edits until one isn't told a revision: for each that is, a line of its key and revision,
// and for one that is told that the store failed one of its key and that.
fn told_of<R: Host>(rt: &R, at: SocketAddr, course: Course) -> String {
    let alloc = rt.alloc();
    let mut told = Text::new(alloc);
    if let Ok(stream) = connect(rt, at) {
        let mut key = Text::new(alloc);
        if course.is_at_once {
            say_all(alloc, &stream, course, &mut key);
        }
        for n in 0..course.count {
            key_of(course, n, &mut key);
            if !course.is_at_once {
                say_edit(alloc, &stream, course, n, key.as_str());
            }
            let line = line_of(alloc, &mut &stream);
            let Some(revision) = revision_in(&line) else {
                say_failed(&line, key.as_str(), &mut told);
                break;
            };
            told.named(key.as_str(), revision);
            told.push("\n");
        }
    }
    told.text
}

// Says so of an edit of which this line tells that the store failed.
fn say_failed(line: &[u8], key: &str, told: &mut Text) {
    if line == b"{\"error\":\"store-failed\"}".as_slice() {
        told.push(key);
        told.push(" store-failed\n");
    }
}

fn say_all(alloc: Global, stream: &TcpStream, course: Course, key: &mut Text) {
    for n in 0..course.count {
        key_of(course, n, key);
        say_edit(alloc, stream, course, n, key.as_str());
    }
}

/// Starts so many editors.
pub fn start_editors<R: Host>(
    rt: &R,
    at: SocketAddr,
    editors: u64,
    course: Course,
    courses: &mut Courses,
) {
    for number in 0..editors {
        start_editor(rt, at, Course { number, ..course }, courses);
    }
}

fn start_editor<R: Host>(rt: &R, at: SocketAddr, course: Course, courses: &mut Courses) {
    let own = *rt;
    if let Ok(handle) = thread::spawn(rt, move || told_of(&own, at, course)) {
        let _ = courses.editors.push(handle);
    }
}

/// Waits for the editors, and gives all lines of what they were told.
pub fn told<R: Host>(rt: &R, courses: &mut Courses) -> Text {
    let mut told = Text::new(rt.alloc());
    let none = Vec::new(rt.alloc());
    for editor in mem::replace(&mut courses.editors, none) {
        told.push(editor.join(rt).as_str());
    }
    told
}

/// The revisions in such lines, in order.
pub fn revisions_in(alloc: Global, lines: &str) -> Vec<u64> {
    let mut revisions = Vec::new(alloc);
    for line in lines.lines() {
        if let Some((_, revision)) = line.rsplit_once(' ') {
            let _ = revisions.push(revision.parse().unwrap_or(0));
        }
    }
    revisions.sort_unstable();
    revisions
}

// Evaluates until this revision is seen, or nothing new is for long, and gives the one seen last.
// None where one fell, or flags were mixed.
fn seen_until<R: Host>(rt: &R, at: SocketAddr, is_all: bool, last: u64) -> Option<u64> {
    let key = if is_all { "" } else { "a" };
    let stream = connect(rt, at).ok()?;
    let mut seen = 0;
    let mut turns: u32 = 0;
    for _ in 0..u64::MAX {
        let response = evaluated(rt.alloc(), &stream, key);
        let now = response.revision;
        if now < seen || response.is_mixed {
            return None;
        }
        turns = if seen < now {
            0
        } else {
            turns.saturating_add(1)
        };
        seen = now;
        if seen == last || turns >= MOST_TURNS {
            break;
        }
        thread::sleep(rt, Duration::from_millis(5));
    }
    Some(seen)
}

/// Starts so many evaluators of the flag `a`, or of all flags, each until it sees this revision.
pub fn start_evaluators<R: Host>(
    rt: &R,
    at: SocketAddr,
    count: u64,
    is_all: bool,
    last: u64,
    courses: &mut Courses,
) {
    for _ in 0..count {
        let own = *rt;
        if let Ok(handle) = thread::spawn(rt, move || seen_until(&own, at, is_all, last)) {
            let _ = courses.evaluators.push(handle);
        }
    }
}

/// Waits for the evaluators, and says the revision that each saw last, or that one fell or flags
/// were mixed.
pub fn seen<R: Host>(rt: &R, courses: &mut Courses, out: &mut Text) {
    let none = Vec::new(rt.alloc());
    for evaluator in mem::replace(&mut courses.evaluators, none) {
        out.part();
        match evaluator.join(rt) {
            Some(revision) => out.number(revision),
            None => out.push("fell or mixed"),
        }
    }
}

// A subscriber that has nothing, and was sent something.
fn subscribed<R: Host>(rt: &R, at: SocketAddr) -> Option<TcpStream> {
    let stream = connect(rt, at).ok()?;
    let is_said = write_hello(&mut FailureCounted::new(&stream), Hello::Nothing).is_ok();
    if is_said && matches!(stream.peek(&mut [0; 1]), Ok(1)) {
        Some(stream)
    } else {
        None
    }
}

// What it is shown until the stream ends.
fn shown_to(alloc: Global, stream: &TcpStream) -> Vec<u8> {
    let mut shown = FailureCounted::new(Vec::new(alloc));
    let _ = stream.set_read_timeout(None);
    let mut frames = FailureCounted::new(stream);
    if watch_loop(alloc, &mut frames, &mut shown, Hello::Nothing).is_err() {
        let _ = shown.send(b"0 fault\n");
    }
    shown.into_inner()
}

/// Starts so many subscribers.
pub fn start_subscribers<R: Host>(rt: &R, at: SocketAddr, count: u64, courses: &mut Courses) {
    for _ in 0..count {
        if let Some(stream) = subscribed(rt, at) {
            start_subscriber(rt, stream, courses);
        }
    }
}

fn start_subscriber<R: Host>(rt: &R, stream: TcpStream, courses: &mut Courses) {
    let alloc = rt.alloc();
    if let Ok(handle) = thread::spawn(rt, move || shown_to(alloc, &stream)) {
        let _ = courses.subscribers.push(handle);
    }
}

// The revision of the last line that was shown. None where they don't rise, or flags are mixed.
fn last_shown(shown: &[u8]) -> Option<u64> {
    let mut last = None;
    for line in str::from_utf8(shown).ok()?.lines() {
        let (revision, _) = line.split_once(' ')?;
        let revision = revision.parse::<u64>().ok()?;
        if last >= Some(revision) || is_mixed(line) {
            return None;
        }
        last = Some(revision);
    }
    last
}

/// Waits for the subscribers, and says the revision that each was shown last, behind rising ones.
pub fn shown<R: Host>(rt: &R, courses: &mut Courses, out: &mut Text) {
    let none = Vec::new(rt.alloc());
    for subscriber in mem::replace(&mut courses.subscribers, none) {
        out.part();
        match last_shown(&subscriber.join(rt)) {
            Some(revision) => out.number(revision),
            None => out.push("not rising or mixed"),
        }
    }
}
