//! How a flusher lets those whom it has just told come back before it draws again.
//!
//! Who was just told comes back with the next edit a moment after a flusher would draw: so four
//! editors would be two groups of two, and each batch have half of them. Behind a batch of four
//! edits at most the flusher lets them come back: it looks and yields, until as many edits wait as
//! were told and waited meanwhile, for at most three quarters as long as sealing that batch took
//! and at most 5,000 looks, of some 0.4 microseconds each. It looks without the lock, which those
//! who come want, at a count that is noted as edits are handed in and drawn. The count is a hint:
//! where it is wrong, a draw comes a little sooner or later, and what is drawn is what waits under
//! the lock.
//!
//! Where somebody doesn't come, the next draw waits for nobody, then the next two, and so on up to
//! 64. Behind a larger batch nobody is waited for, nor behind one that was sealed in less than 200
//! microseconds, nor where one editor is alone.

ghost use Rattle.std.specs.Prelude.{◌≡◌, ◌⊎◌, ◌<◌, ◌≤◌, ◌+◌, ◌-◌, ◌/◌, length, true, false};
ghost use Rattle.std.specs.Prelude.{MatchBool};
ghost use Rattle.std.specs.Duration.{as_nanos};
ghost use Rattle.fp_plane.specs.declared.gathering.TheConstants.{LEAST_WORTH, MOST_AWAITED};

use crate::plane::Plane;
use fp_disk::Disk;
use fp_group_commit::Store;
use fp_hall::Naming;
use std::sync::Wait;
use std::sync::atomic::Ordering;
use std::thread;
use std::time::{Clock, Duration, Instant};

/// The most edits of a batch behind which its editors are waited for, and the most that wait already.
pub const MOST_AWAITED: usize = 4;

/// Microseconds. Behind a batch that was sealed quicker nobody is waited for: two hand-overs and a
/// client's turn take some 150, so that waiting costs more than it gives.
pub const LEAST_WORTH: u128 = 200;

// How often a flusher looks at most whether they came.
const MOST_LOOKS: u32 = 5_000;

// Of the time that sealing the batch took, one part of so many isn't waited.
const PARTS_OF_WAIT: u32 = 4;

// Before so many draws at most nobody is waited for, since somebody didn't come.
const MOST_SKIPPED: u32 = 64;

/// For how many edits a flusher waits before it draws, and for how long.
#[derive(Drop, Clone, Copy)]
pub struct Gathering {
    wanted: usize,
    // Whether who was told last was alone.
    alone: bool,
    most: Duration,
    // Before so many draws nobody is waited for; and before how many, where somebody doesn't come again.
    skipped: u32,
    next: u32,
}

/// A batch that is sealed: behind which revision, and since when.
#[derive(Drop, Clone, Copy)]
pub struct Sealing {
    behind: u64,
    begun: Option<Instant>,
}

impl Sealing {
    /// Begins now, behind what the store has.
    pub fn begin<R: Clock, D: Disk>(rt: &R, store: &Store<D>) -> Sealing
        ensures { result.behind ≡ store.now.store.start.revision + length store.now.sealed }
    {
        Sealing {
            behind: store.revision(),
            begun: Instant::now(rt).ok(),
        }
    }

    /// How many edits more the store has now than behind that revision.
    pub fn edits<D: Disk>(&self, store: &Store<D>) -> usize
        ensures { result ≡ (store.now.store.start.revision + length store.now.sealed)
            - self.now.behind }
    {
        store.revision().saturating_sub(self.behind) as usize
    }

    /// How long it took, or nothing without a clock.
    pub fn taken<R: Clock>(&self, rt: &R) -> Duration {
        let taken = self.begun.and_then(|begun| begun.elapsed(rt).ok());
        taken.unwrap_or(Duration::ZERO)
    }
}

impl Gathering {
    /// Nobody was told yet.
    pub fn new() -> Gathering
        ensures wanted { result.wanted ≡ 0 }
        ensures alone { result.alone ≡ true }
    {
        Gathering {
            wanted: 0,
            alone: true,
            most: Duration::ZERO,
            skipped: 0,
            next: 1,
        }
    }

    /// So many were told while so many others waited, and to seal their batch took so long. Who is
    /// alone has nobody to wait for, and a large batch or a quick one is worth no wait.
    pub fn note_told(&mut self, told: usize, waiting: usize, taken: Duration)
        // All who were told and all who waited meanwhile are waited for, where both are four at
        // most and together more than one, and sealing took long enough,
        ensures few { told ≤ MOST_AWAITED → waiting ≤ MOST_AWAITED → 1 < told + waiting →
            LEAST_WORTH ≤ as_nanos taken / 1_000 → self.new.wanted ≡ told + waiting }
        // nobody behind a batch of more than four edits,
        ensures large { MOST_AWAITED < told → self.new.wanted ≡ 0 }
        // nor where more than four waited already,
        ensures busy { MOST_AWAITED < waiting → self.new.wanted ≡ 0 }
        // nor behind a batch that was sealed quicker than waiting is worth,
        ensures quick { as_nanos taken / 1_000 < LEAST_WORTH → self.new.wanted ≡ 0 }
        // nor where one editor is alone.
        ensures alone { told + waiting ≤ 1 → self.new.wanted ≡ 0 }
        ensures by_itself { MatchBool self.new.alone ((told ≤ 1) × (waiting ≡ 0))
            ((1 < told) ⊎ (0 < waiting)) }
        // At most as long as sealing the batch took.
        ensures most { self.new.most ≡ taken }
        ensures rest { self.new.skipped ≡ self.old.skipped }
    {
        self.most = taken;
        self.alone = told <= 1 && waiting == 0;
        self.wanted = 0;
        if told > MOST_AWAITED || waiting > MOST_AWAITED || taken.as_micros() < LEAST_WORTH {
            return;
        }
        let all = told + waiting;
        if all > 1 {
            self.wanted = all;
        }
    }

    /// Whether the last batch had one edit alone and nobody waited behind it, or there was none yet.
    pub fn is_alone(&self) -> bool
        ensures { result ≡ self.now.alone }
    {
        self.alone
    }

    /// For how many edits is waited before this draw.
    pub fn wanted(&mut self) -> usize
        // Nobody, for some draws behind a wait in vain.
        ensures skipped { 0 < self.old.skipped → result ≡ 0 }
        ensures wanted { self.old.skipped ≡ 0 → result ≡ self.old.wanted }
    {
        if self.skipped > 0 {
            self.skipped -= 1;
            return 0;
        }
        self.wanted
    }

    // For how long is waited at most: three quarters of the time that sealing the batch took.
    fn patience(&self) -> Duration {
        let rest = self.most / PARTS_OF_WAIT;
        self.most.saturating_sub(rest)
    }

    /// Notes whether they came. Where they didn't, the next draws wait for nobody.
    pub fn note(&mut self, came: bool)
        // Where they came, no draws are skipped for it.
        ensures came { came ≡ true → self.new.skipped ≡ self.old.skipped }
        // Where they didn't, some next draws wait for nobody.
        ensures missed { came ≡ false → 0 < self.new.skipped }
    {
        if came {
            self.next = 1;
        } else {
            self.skipped = self.next.max(1);
            self.next = self.next.saturating_mul(2).min(MOST_SKIPPED);
        }
    }
}

impl<K: Naming, R: Wait + Clock + Drop> Plane<K, R> {
    /// Lets those who were told just now come back, where they are few.
    pub(crate) fn gather(&self, gathering: &mut Gathering) {
        let wanted = gathering.wanted();
        if wanted > 0 {
            let came = self.come_within(wanted, gathering.patience());
            gathering.note(came);
        }
    }

    // Whether so many edits wait before this time has passed, by the count that is noted of them.
    // That the plane is to stop isn't looked for: the draw behind it sees that.
    fn come_within(&self, wanted: usize, most: Duration) -> bool {
        let shared = &self.shared;
        let Ok(begun) = Instant::now(&shared.rt) else {
            return false;
        };
        for _ in 0..MOST_LOOKS {
            if shared.waiting.load(Ordering::SeqCst) >= wanted {
                return true;
            }
            match begun.elapsed(&shared.rt) {
                Ok(passed) if passed < most => thread::yield_now(),
                _ => return false,
            }
        }
        false
    }
}
