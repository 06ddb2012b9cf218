//! What a world told, and what its disk has to be opened as.

use crate::trial::Answer;
use fp_definition::{Definition, FlagKey};
use fp_edit::{Change as Part, Edit, FlagSet};
use fp_group_commit::StoreFault;
use fp_transcript::{Text, number};
use fp_world::{Answer as Reply, Event};
use std::alloc::{AllocError, Global};

// An accepted edit: its revision, and the length of the definition that its key has from then on.
#[derive(Clone, Copy)]
struct Change {
    key: u64,
    revision: u64,
    length: Option<u64>,
}

// What a key has.
#[derive(Clone, Copy, PartialEq, Eq)]
struct Mark {
    changed: u64,
    length: u64,
}

// Keys are `k` and a digit.
const KEYS: u64 = 10;

/// The edits that were accepted, the greatest revision that was told, and
/// what wasn't as it has to be.
#[derive(Drop)]
pub struct Told {
    changes: Vec<Change>,
    newest: u64,
    told: u64,
    violations: u64,
    // Whether a call of the disk has failed since the disk was opened.
    is_failed: bool,
    // How many stops there were.
    pub stops: u64,
    // The kinds of answers that were given.
    kinds: Vec<&'static str>,
}

fn key_of(key: &str) -> u64 {
    match key.strip_prefix("k") {
        Some(digit) => number(digit).unwrap_or(KEYS),
        None => KEYS,
    }
}

impl Told {
    /// Of a world over an empty disk.
    pub fn new(alloc: Global) -> Told {
        Told {
            changes: Vec::new(alloc),
            newest: 0,
            told: 0,
            violations: 0,
            is_failed: false,
            stops: 0,
            kinds: Vec::new(alloc),
        }
    }

    /// The newest revision.
    pub fn newest(&self) -> u64 {
        self.newest
    }

    /// Begins anew with this set.
    pub fn begin(&mut self, set: &FlagSet) -> Result<(), AllocError> {
        self.changes.clear();
        for (key, flag) in set.iter() {
            self.changes.push(Change {
                key: key_of(key.as_str()),
                revision: flag.changed,
                length: Some(flag.definition.text().len() as u64),
            })?;
        }
        self.go_on(set.revision());
        Ok(())
    }

    fn go_on(&mut self, revision: u64) {
        self.newest = revision;
        self.told = revision;
        self.is_failed = false;
    }

    /// Notes what events were answered.
    pub fn note_all(&mut self, events: &[Event], answers: &[Reply]) -> Result<(), AllocError> {
        for (event, answer) in events.iter().zip(answers.iter()) {
            self.note(event, answer)?;
        }
        Ok(())
    }

    fn note(&mut self, event: &Event, answer: &Reply) -> Result<(), AllocError> {
        self.note_kind(kind_of(answer))?;
        self.note_call(event, answer);
        match answer {
            Reply::Ticket(revision) => self.accept(event, *revision)?,
            Reply::Acked(revision) => self.tell_of(*revision),
            Reply::Handed(handed) => self.tell_of(handed.revision()),
            Reply::Reply(revision, _) => self.tell_of(*revision),
            _ => {}
        }
        Ok(())
    }

    // From a call that fails on, and not before, each event that calls the disk has to be answered
    // that the store has failed.
    fn note_call(&mut self, event: &Event, answer: &Reply) {
        let is_refused = matches!(answer, Reply::Fault(StoreFault::Failed));
        if calls_disk(event) && is_refused != self.is_failed {
            self.lost();
        }
        if matches!(answer, Reply::Fault(StoreFault::Device)) {
            self.is_failed = true;
        }
    }

    fn note_kind(&mut self, kind: &'static str) -> Result<(), AllocError> {
        if !self.kinds.contains(&kind) {
            self.kinds.push(kind)?;
        }
        Ok(())
    }

    // Tickets number the accepted edits.
    fn accept(&mut self, event: &Event, revision: u64) -> Result<(), AllocError> {
        if revision != self.newest.saturating_add(1) {
            self.lost();
        }
        self.newest = revision;
        if let Event::Submit(edit) = event {
            self.note_edit(edit, revision)?;
        }
        Ok(())
    }

    // Notes each change that an accepted edit made.
    fn note_edit(&mut self, edit: &Edit, revision: u64) -> Result<(), AllocError> {
        match edit {
            Edit::Put { key, flag, .. } => self.note_change(put_of(key, flag, revision)),
            Edit::Delete { key, .. } => self.note_change(deletion_of(key, revision)),
            Edit::Set(changes) => self.note_parts(changes.as_slice(), revision),
        }
    }

    fn note_parts(&mut self, parts: &[Part], revision: u64) -> Result<(), AllocError> {
        for part in parts {
            self.note_change(change_of(part, revision))?;
        }
        Ok(())
    }

    fn note_change(&mut self, change: Change) -> Result<(), AllocError> {
        self.changes.push(change)?;
        Ok(())
    }

    fn tell_of(&mut self, revision: u64) {
        self.told = self.told.max(revision);
    }

    /// Something isn't as it has to be.
    pub fn lost(&mut self) {
        self.violations = self.violations.saturating_add(1);
    }

    /// Compares it with what was found behind a crash, which is gone on with.
    pub fn compare(&mut self, set: &FlagSet) {
        let revision = set.revision();
        if revision < self.told || revision > self.newest {
            self.lost();
        }
        self.forget_behind(revision);
        if !self.is_shown_by(set) {
            self.lost();
        }
        self.go_on(revision);
    }

    fn forget_behind(&mut self, revision: u64) {
        for _ in 0..self.changes.len() {
            match self.changes.last() {
                Some(last) if last.revision > revision => {
                    let _last = self.changes.pop();
                }
                _ => break,
            }
        }
    }

    fn is_shown_by(&self, set: &FlagSet) -> bool {
        let mut count = 0usize;
        for key in 0..KEYS {
            let mark = self.mark(key);
            if mark != mark_in(set, key) {
                return false;
            }
            if mark.is_some() {
                count = count.saturating_add(1);
            }
        }
        set.len() == count
    }

    // What the last edit of this key made of it.
    fn mark(&self, key: u64) -> Option<Mark> {
        for change in self.changes.iter().rev() {
            if change.key == key {
                return change.length.map(|length| Mark {
                    changed: change.revision,
                    length,
                });
            }
        }
        None
    }

    /// Tells what came of it.
    pub fn tell(&self, out: &mut Text) -> Answer {
        out.named("violations", self.violations);
        out.push(", kinds of answers ");
        out.number(self.kinds.len() as u64);
        if self.stops > 0 {
            out.push(", stops ");
            out.number(self.stops);
        }
        Answer::Text
    }
}

fn change_of(part: &Part, revision: u64) -> Change {
    match part {
        Part::Put { key, flag, .. } => put_of(key, flag, revision),
        Part::Delete { key, .. } => deletion_of(key, revision),
    }
}

fn put_of(key: &FlagKey, flag: &Definition, revision: u64) -> Change {
    Change {
        key: key_of(key.as_str()),
        revision,
        length: Some(flag.text().len() as u64),
    }
}

fn deletion_of(key: &FlagKey, revision: u64) -> Change {
    Change {
        key: key_of(key.as_str()),
        revision,
        length: None,
    }
}

fn mark_in(set: &FlagSet, key: u64) -> Option<Mark> {
    for (name, flag) in set.iter() {
        if key_of(name.as_str()) == key {
            return Some(Mark {
                changed: flag.changed,
                length: flag.definition.text().len() as u64,
            });
        }
    }
    None
}

fn calls_disk(event: &Event) -> bool {
    matches!(
        event,
        Event::Stage | Event::SyncBody | Event::OpenGate | Event::SyncGate | Event::Compact
    )
}

fn kind_of(answer: &Reply) -> &'static str {
    match answer {
        Reply::NotNow => "not now",
        Reply::Memory => "memory",
        Reply::Refused(_) => "refused",
        Reply::Fault(StoreFault::Device) => "device",
        Reply::Fault(_) => "fault",
        Reply::Ticket(_) => "ticket",
        Reply::Drawn(_) => "drawn",
        Reply::Done => "done",
        Reply::Sealed(_) => "sealed",
        answer => later_kind(answer),
    }
}

fn later_kind(answer: &Reply) -> &'static str {
    match answer {
        Reply::Settled(_) => "settled",
        Reply::Acked(_) => "acked",
        Reply::Waiting => "waiting",
        Reply::Phase(_) => "phase",
        Reply::Published(_) => "published",
        Reply::Handed(_) => "handed",
        Reply::Nothing => "nothing",
        _ => "reply",
    }
}
