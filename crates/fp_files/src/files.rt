//! Files that are disks.

ghost use Rattle.std.specs.Prelude.{◌≡◌, ◌⊎◌, [], ◌∷◌, ◌++◌, List, ℕ, Option, Some, None, IfOk};
ghost use Rattle.std.specs.Prelude.{OnOk, OnErr};
ghost use Rattle.fp_disk.specs.Outcomes.{CountsFaults};
ghost use Rattle.fp_files.specs.Openings.{KeepsAll, KeepsOthers};
ghost use Rattle.fp_files.specs.declared.openings.Purpose.{Purpose};
ghost use Rattle.fp_files.specs.declared.openings.Purpose.TheVariants.{Making, Writing, Reading};

use fp_disk::{Disk, DiskFault};

/// Files that are disks, each at its path. A disk that was opened is lent until it is closed. One
/// that was opened to be written is locked so long: nobody else has it to write.
pub trait DiskFiles {
    type Disk: Disk;

    /// The disk at a path, as whoever had it last left it.
    ghost at: { Self → List ℕ → Option Self.Disk };

    /// That the disk at this path is lent.
    ghost lent: { Self → List ℕ → Type 0 };

    /// Which paths were to be opened so far, in order, each with what it was opened for.
    ghost asked: { Self → List (List ℕ × Purpose) };

    /// How often a file wasn't opened.
    ghost faults: { Self → ℕ };

    /// Lends the disk at this path to be written, an empty one where there is none. It is a fault
    /// where somebody has it to write; then no byte of it is changed.
    fn create(&mut self, path: &str) -> Result<Self::Disk, DiskFault>
        // `Ok`: it is the disk that stands at the path; where there is none, H: one that is empty.
        ensures found { IfOk result (λ d. (at self.old path.now ≡ Some d)
            ⊎ ((at self.old path.now ≡ None) × (Self.Disk.honest d → Self.Disk.bytes d ≡ []))) }
        // `Ok`: the disk at this path is lent.
        ensures lent { OnOk result (lent self.new path.now) }
        // H: at `Ok` the disk at this path was not lent: who has a disk to write has it alone.
        ensures alone { IfOk result (λ d. Self.Disk.honest d → lent self.old path.now → ⊥) }
        // What stands at other paths stays.
        ensures others { KeepsOthers at self.old self.new path.now }
        // At a fault what stands at each path stays, at this one too.
        ensures failed { OnErr result (KeepsAll at self.old self.new) }
        // The path was noted, with `Making`.
        ensures asked { asked self.new ≡ asked self.old ++ (path.now, Making) ∷ [] }
        // A fault exactly where the count of failures rose.
        ensures cause { CountsFaults (faults self.old) (faults self.new) result };

    /// Lends the disk at this path to be written. It is a fault where there is none, or somebody
    /// has it to write; then no byte of it is changed.
    fn open(&mut self, path: &str) -> Result<Self::Disk, DiskFault>
        // `Ok`: it is the disk that stands at the path.
        ensures found { IfOk result (λ d. at self.old path.now ≡ Some d) }
        // `Ok`: the disk at this path is lent.
        ensures lent { OnOk result (lent self.new path.now) }
        // H: at `Ok` the disk at this path was not lent: who has a disk to write has it alone.
        ensures alone { IfOk result (λ d. Self.Disk.honest d → lent self.old path.now → ⊥) }
        // What stands at other paths stays.
        ensures others { KeepsOthers at self.old self.new path.now }
        // At a fault what stands at each path stays, at this one too.
        ensures failed { OnErr result (KeepsAll at self.old self.new) }
        // The path was noted, with `Writing`.
        ensures asked { asked self.new ≡ asked self.old ++ (path.now, Writing) ∷ [] }
        // A fault exactly where the count of failures rose.
        ensures cause { CountsFaults (faults self.old) (faults self.new) result };

    /// Lends the disk at this path to be read and not written, whoever has it to write. It is a
    /// fault where there is none.
    fn open_read_only(&mut self, path: &str) -> Result<Self::Disk, DiskFault>
        // `Ok`: it is the disk that stands at the path.
        ensures found { IfOk result (λ d. at self.old path.now ≡ Some d) }
        // `Ok`: the disk at this path is lent.
        ensures lent { OnOk result (lent self.new path.now) }
        // What stands at other paths stays.
        ensures others { KeepsOthers at self.old self.new path.now }
        // At a fault what stands at each path stays, at this one too.
        ensures failed { OnErr result (KeepsAll at self.old self.new) }
        // The path was noted, with `Reading`.
        ensures asked { asked self.new ≡ asked self.old ++ (path.now, Reading) ∷ [] }
        // A fault exactly where the count of failures rose.
        ensures cause { CountsFaults (faults self.old) (faults self.new) result };

    /// Takes back the disk of this path, and with it the lock.
    fn close(&mut self, path: &str, disk: Self::Disk)
        // H, and where the disk at this path was lent: this disk stands there now.
        ensures kept { lent self.old path.now → Self.Disk.honest disk
            → at self.new path.now ≡ Some disk }
        // What stands at other paths stays.
        ensures others { KeepsOthers at self.old self.new path.now }
        // What was asked for stays.
        ensures asked { asked self.new ≡ asked self.old }
        // The count of failures stays.
        ensures faults { faults self.new ≡ faults self.old };
}
