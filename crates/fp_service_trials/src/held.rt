//! A disk in memory of which one call is held, until it is let go.

use fp_disk::{Disk, DiskFault};
use std::alloc::Global;
use std::sync::{Arc, Mutex, Wait};
use std::thread;
use std::time::{Clock, Duration};

/// What is waited for comes within so many turns, or not at all.
pub const MOST_TURNS: u32 = 10_000;

/// Waits a millisecond, which is a turn.
pub fn turn(clock: &impl Clock) {
    thread::sleep(clock, Duration::from_millis(1));
}

/// Which write or sync is held.
#[derive(Drop, Clone, Copy)]
pub enum Hold {
    /// None.
    Nothing,
    /// The one behind so many.
    Behind(u64),
    /// The first write at this place or further on.
    WriteFrom(u64),
}

// How far it came.
#[derive(Drop, Clone, Copy)]
enum State {
    Awaiting(Hold),
    Holding,
    LetGo,
}

impl State {
    // What it comes to by a sync, or a write at a place.
    fn after(self, place: Option<u64>) -> State {
        match (self, place) {
            (State::Awaiting(Hold::Behind(0)), _) => State::Holding,
            (State::Awaiting(Hold::Behind(n)), _) => State::Awaiting(Hold::Behind(n - 1)),
            (State::Awaiting(Hold::WriteFrom(from)), Some(at)) if from <= at => State::Holding,
            _ => self,
        }
    }
}

/// Holds a call of a disk.
#[derive(Drop)]
pub struct Gate<R: Wait + Clock + Drop> {
    rt: R,
    state: Mutex<State>,
}

impl<R: Wait + Clock + Drop> Gate<R> {
    /// Holds no call.
    pub fn new(rt: R) -> Gate<R> {
        Gate {
            rt,
            state: Mutex::new(State::Awaiting(Hold::Nothing)),
        }
    }

    /// From now on this call is held.
    pub fn hold(&self, hold: Hold) {
        *self.state.lock(&self.rt) = State::Awaiting(hold);
    }

    /// Whether the call is held now.
    pub fn is_holding(&self) -> bool {
        matches!(*self.state.lock(&self.rt), State::Holding)
    }

    /// Waits until the call is held. False where it isn't within the turns.
    pub fn comes_to_hold(&self) -> bool {
        for _ in 0..MOST_TURNS {
            if self.is_holding() {
                return true;
            }
            turn(&self.rt);
        }
        false
    }

    /// Lets the call go.
    pub fn let_go(&self) {
        *self.state.lock(&self.rt) = State::LetGo;
    }

    // Whether a sync, or a write at a place, is the call that is held.
    fn holds(&self, place: Option<u64>) -> bool {
        let mut state = self.state.lock(&self.rt);
        if matches!(*state, State::Holding) {
            return false;
        }
        *state = state.after(place);
        matches!(*state, State::Holding)
    }

    // Holds the call if it is the one. After the turns it is let go.
    fn pass(&self, place: Option<u64>) {
        if !self.holds(place) {
            return;
        }
        for _ in 0..MOST_TURNS {
            if !self.is_holding() {
                return;
            }
            turn(&self.rt);
        }
        self.let_go();
    }
}

/// A disk behind such a gate.
#[derive(Drop)]
pub struct HeldDisk<D: Disk + Drop, R: Wait + Clock + Drop> {
    disk: D,
    gate: Arc<Gate<R>, Global>,
}

impl<D: Disk + Drop, R: Wait + Clock + Drop> HeldDisk<D, R> {
    /// The disk, behind the gate.
    pub fn new(disk: D, gate: Arc<Gate<R>, Global>) -> HeldDisk<D, R> {
        HeldDisk { disk, gate }
    }
}

impl<D: Disk + Drop, R: Wait + Clock + Drop> Disk for HeldDisk<D, R> {
    ghost honest = { λ d. D.honest d.disk };

    ghost bytes = { λ d. D.bytes d.disk };

    ghost unsynced = { λ d. D.unsynced d.disk };

    ghost moment = { λ d. D.moment d.disk };

    ghost crash_states_since = { λ d t c. D.crash_states_since d.disk t c };

    ghost faults = { λ d. D.faults d.disk };

    ghost calls = { λ d. D.calls d.disk };

    ghost present = { λ d h. D.present d.disk h };

    ghost counts_now = { λ d t c h le out. D.counts_now d.disk t c h le out };

    ghost only_now = { λ d c h left. D.only_now d.disk c h left };

    fn len(&mut self) -> Result<u64, DiskFault> {
        self.disk.len()
    }

    fn read_at(&mut self, at: u64, into: &mut [u8]) -> Result<(), DiskFault> {
        self.disk.read_at(at, into)
    }

    fn write_at(&mut self, at: u64, from: &[u8]) -> Result<(), DiskFault> {
        self.gate.pass(Some(at));
        self.disk.write_at(at, from)
    }

    fn sync(&mut self) -> Result<(), DiskFault> {
        self.gate.pass(None);
        self.disk.sync()
    }
}
