//! A disk that is there, opened.

ghost use Rattle.std.specs.Prelude.{◌≡◌, ◌≢◌, ◌≤◌, ◌<◌, ◌+◌, ◌-◌, [], ◌∷◌, List, ℕ, length, min};
ghost use Rattle.std.specs.Prelude.{◌↔◌, slice_index, slice_range, IfOk, IfErr, IsTrue, OnOk};
ghost use Rattle.std.specs.Prelude.{IsErrOf};
ghost use Rattle.fp_gate.specs.declared.gate.TheConstants.{OPEN};
ghost use Rattle.fp_disk.specs.declared.history.CallKind.TheVariants.{Length, Sync};
ghost use Rattle.fp_disk.specs.Outcomes.{all_synced};
ghost use Rattle.fp_journal.specs.Pieces.{OnlyReads};
ghost use Rattle.fp_journal.specs.Reading.{IsWrong};
ghost use Rattle.fp_journal.specs.declared.journal.Phase.TheVariants.{Idle};
ghost use Rattle.fp_slots.specs.Rules.{HasLeads};
ghost use Rattle.fp_slots.specs.declared.places.TheConstants.{IMAGE_PLACE};
ghost use Rattle.fp_slots.specs.declared.slots.Step.TheVariants.{Begin};
ghost use Rattle.fp_layout.specs.Size.{IsSlotSize, first_slot, second_slot};
ghost use Rattle.fp_layout.specs.Faults.{IsDamage, RefusesHeader, UnlessWanting};
ghost use Rattle.fp_layout.specs.Fronts.{FoundIn, IsFrontOn, IsHeadOn, StandsIn};
ghost use Rattle.fp_layout.specs.Layout.{HasSlots, IsHeader};
ghost use Rattle.fp_layout.specs.Opening.{BreaksRuling, FoundDisk, ReadsSlot};
ghost use Rattle.fp_layout.specs.Opening.{RefusesFront, RefusesDisk};
ghost use Rattle.fp_layout.specs.Opens.{Opens, OpensDisk};
ghost use Rattle.fp_layout.specs.declared.fault.OpenFault.TheVariants.{Device, Memory};
ghost use Rattle.fp_layout.specs.declared.header.TheConstants.{HEADER};

use crate::fault::OpenFault;
use crate::head::{Head, read_head};
use crate::header::{HEADER, read_header};
use crate::size::SlotSize;
use fp_disk::Disk;
use fp_journal::{BodyFault, Reader, Slot, Text, read_bytes, read_chain, read_first, resume};
use fp_slots::{IMAGE_PLACE, Slots, pick};
use std::alloc::Global;

/// What takes a slot's image, and then the bodies of its chain.
pub trait SlotReader: Reader {
    /// Beginning with this image, of a slot of this version, of this revision and at most this
    /// long, makes that of it.
    ghost begins: { Self → ℕ → ℕ → ℕ → List ℕ → Self → Type 0 };

    /// The image is none, as its byte at this offset is the first to show.
    ghost rejects: { Self → ℕ → ℕ → ℕ → List ℕ → ℕ → Type 0 };

    /// Takes the image of the slot that rules, before any body.
    fn begin(&mut self, version: u8, base: u64, limit: u64, image: &[u8]) -> Result<(), BodyFault>
        // Asked of a reader. `Ok`: it has begun with this image, of a slot of this version, at this
        // revision, under this limit.
        ensures taken { OnOk result (begins self.old version base limit image.now self.new) }
        // `BadBody`: the first byte that shows that it is no such image, at its end at the latest;
        // or `Memory`.
        ensures fault { IfErr result
            (IsWrong (length image.now) (rejects self.old version base limit image.now)) };
}

// The slot that rules, the other one, and what stands in front of the image.
#[derive(Drop)]
pub(crate) struct Ruling {
    pub(crate) slot: Slot,
    pub(crate) other: Slot,
    pub(crate) is_open: bool,
    pub(crate) head: Head,
    pub(crate) text: Text,
}

// Where reading goes on behind the image, and what was found on the way there.
#[derive(Drop)]
pub(crate) struct Front {
    pub(crate) slot: Slot,
    pub(crate) other: Slot,
    pub(crate) is_open: bool,
    pub(crate) version: u8,
    pub(crate) generation: u64,
    pub(crate) text: Text,
    pub(crate) at: u64,
    // How many bytes the disk has.
    pub(crate) len: u64,
}

// Which slot rules, of two of this size, and its head, by the first bytes of both.
fn choose(size: SlotSize, len: u64, mine: &[u8], its: &[u8]) -> Result<Ruling, OpenFault>
    requires within { HEADER + 1 + size ≤ len }
    requires first { length mine.now ≡ min IMAGE_PLACE (len - (first_slot size).start) }
    requires second { length its.now ≡ min IMAGE_PLACE (len - (second_slot size).start) }
    ensures read { IfOk result (IsHeadOn size len) }
    ensures found { IfOk result (λ r. (c : List ℕ) →
        HasLeads (first_slot size) mine.now (second_slot size) its.now c → StandsIn r c) }
    ensures fault { IfErr result (λ f. (c : List ℕ) →
        HasLeads (first_slot size) mine.now (second_slot size) its.now c →
        length c ≡ len → IsDamage (BreaksRuling c size) f) }
    ensures no_device { IfErr result (λ e. e ≢ Device) }
{
    let active = pick(size.first_slot(), mine, size.second_slot(), its)?;
    let head = read_head(active.bytes, active.slot.start, len, size)?;
    Ok(Ruling {
        slot: active.slot,
        other: active.other,
        is_open: active.is_open,
        head,
        text: Text::new(active.bytes),
    })
}

// Reads which slot rules, of two of this size, and its head.
fn read_ruling<D: Disk>(
    alloc: Global,
    disk: &mut D,
    size: SlotSize,
    len: u64,
) -> Result<Ruling, OpenFault>
    requires within { HEADER + 1 + size ≤ len }
    requires long { D.honest disk.old → len ≡ length (D.bytes disk.old) }
    ensures read { IfOk result (IsHeadOn size len) }
    ensures found { D.honest disk.old → IfOk result (λ r. StandsIn r (D.bytes disk.old)) }
    ensures fault { D.honest disk.old →
        IfErr result (UnlessWanting (IsDamage (BreaksRuling (D.bytes disk.old) size))) }
    ensures kept { OnlyReads D.Disk disk.old disk.new }
    ensures no_failure { OnOk result (D.faults disk.new ≡ D.faults disk.old) }
    ensures cause { IsErrOf result Device → D.faults disk.old < D.faults disk.new }
    ensures memory { IsErrOf result Memory → D.faults disk.new ≡ D.faults disk.old }
{
    let first = size.first_slot().start;
    let second = size.second_slot().start;
    let mine = read_first(alloc, disk, first, IMAGE_PLACE, len)?;
    let its = read_first(alloc, disk, second, IMAGE_PLACE, len)?;
    let ruling = choose(size, len, &mine, &its)?;
    Ok(ruling)
}

// Reads how many bytes a slot of a disk of this length has.
fn read_size<D: Disk>(alloc: Global, disk: &mut D, len: u64) -> Result<SlotSize, OpenFault>
    requires long { D.honest disk.old → len ≡ length (D.bytes disk.old) }
    ensures allowed { IfOk result IsSlotSize }
    ensures within { IfOk result (λ s. HEADER + 1 + s ≤ len) }
    ensures found { D.honest disk.old → IfOk result (IsHeader (D.bytes disk.old)) }
    ensures fault { D.honest disk.old →
        IfErr result (UnlessWanting (RefusesHeader (D.bytes disk.old))) }
    ensures kept { OnlyReads D.Disk disk.old disk.new }
    ensures no_failure { OnOk result (D.faults disk.new ≡ D.faults disk.old) }
    ensures cause { IsErrOf result Device → D.faults disk.old < D.faults disk.new }
    ensures memory { IsErrOf result Memory → D.faults disk.new ≡ D.faults disk.old }
{
    let bytes = read_first(alloc, disk, 0, HEADER, len)?;
    let size = read_header(&bytes, len)?;
    Ok(size)
}

// Reads the image of the slot that rules, of two of this size, and gives it to the reader.
fn read_image<D: Disk, R: SlotReader>(
    alloc: Global,
    disk: &mut D,
    size: SlotSize,
    len: u64,
    ruling: Ruling,
    reader: &mut R,
) -> Result<Front, OpenFault>
    requires read { IsHeadOn size len ruling }
    requires long { D.honest disk.old → len ≡ length (D.bytes disk.old) }
    requires header { D.honest disk.old → IsHeader (D.bytes disk.old) size }
    requires stands { D.honest disk.old → StandsIn ruling (D.bytes disk.old) }
    ensures read { IfOk result (IsFrontOn R.begins reader.old reader.new) }
    ensures found { D.honest disk.old → IfOk result (λ p.
        FoundIn R.begins reader.old reader.new p (D.bytes disk.old)) }
    ensures fault { D.honest disk.old →
        IfErr result (RefusesFront R.rejects (D.bytes disk.old) reader.old) }
    ensures kept { OnlyReads D.Disk disk.old disk.new }
    ensures no_failure { OnOk result (D.faults disk.new ≡ D.faults disk.old) }
    ensures cause { IsErrOf result Device → D.faults disk.old < D.faults disk.new }
    ensures memory { IsErrOf result Memory → D.faults disk.new ≡ D.faults disk.old }
{
    let Ruling {
        slot,
        other,
        is_open,
        head,
        mut text,
    } = ruling;
    let place = slot.start + IMAGE_PLACE as u64;
    let image = read_bytes(alloc, disk, place, head.len)?;
    match reader.begin(head.version, head.base, size.bytes() / 2, &image) {
        Ok(()) => {
            text.push(&image);
            Ok(Front {
                slot,
                other,
                is_open,
                version: head.version,
                generation: head.generation,
                text,
                at: place + image.len() as u64,
                len,
            })
        }
        Err(BodyFault::BadBody { at }) => Err(OpenFault::Damaged { at: place + at }),
        Err(BodyFault::Memory) => Err(OpenFault::Memory),
    }
}

// Reads what stands in front of the batches of a disk of this length.
fn read_fronts<D: Disk, R: SlotReader>(
    alloc: Global,
    disk: &mut D,
    len: u64,
    reader: &mut R,
) -> Result<Front, OpenFault>
    requires long { D.honest disk.old → len ≡ length (D.bytes disk.old) }
    ensures read { IfOk result (IsFrontOn R.begins reader.old reader.new) }
    ensures found { D.honest disk.old → IfOk result (λ p.
        FoundIn R.begins reader.old reader.new p (D.bytes disk.old)) }
    ensures fault { D.honest disk.old →
        IfErr result (RefusesFront R.rejects (D.bytes disk.old) reader.old) }
    ensures kept { OnlyReads D.Disk disk.old disk.new }
    ensures no_failure { OnOk result (D.faults disk.new ≡ D.faults disk.old) }
    ensures cause { IsErrOf result Device → D.faults disk.old < D.faults disk.new }
    ensures memory { IsErrOf result Memory → D.faults disk.new ≡ D.faults disk.old }
{
    let size = read_size(alloc, disk, len)?;
    let ruling = read_ruling(alloc, disk, size, len)?;
    let front = read_image(alloc, disk, size, len, ruling, reader)?;
    Ok(front)
}

// Asks how long the disk is, and reads what stands in front of the batches.
fn read_front<D: Disk, R: SlotReader>(
    alloc: Global,
    disk: &mut D,
    reader: &mut R,
) -> Result<Front, OpenFault>
    ensures read { IfOk result (IsFrontOn R.begins reader.old reader.new) }
    ensures found { D.honest disk.old → IfOk result (λ p.
        FoundIn R.begins reader.old reader.new p (D.bytes disk.old)) }
    ensures fault { D.honest disk.old →
        IfErr result (RefusesFront R.rejects (D.bytes disk.old) reader.old) }
    ensures unsynced { D.honest disk.old → D.unsynced disk.new ≡ D.unsynced disk.old }
    ensures kept { Opens D.Disk (Length ∷ []) disk.old disk.new result }
{
    let len = disk.len()?;
    let front = read_fronts(alloc, disk, len, reader)?;
    Ok(front)
}

// Makes sure of all that is there, and reads what stands in front of the batches: no crash takes
// back what was read.
fn sync_front<D: Disk, R: SlotReader>(
    alloc: Global,
    disk: &mut D,
    reader: &mut R,
) -> Result<Front, OpenFault>
    ensures read { IfOk result (IsFrontOn R.begins reader.old reader.new) }
    ensures found { D.honest disk.old → IfOk result (λ p.
        FoundIn R.begins reader.old reader.new p (D.bytes disk.old)) }
    ensures fault { D.honest disk.old →
        IfErr result (RefusesFront R.rejects (D.bytes disk.old) reader.old) }
    ensures all_synced { D.honest disk.old →
        OnOk result (D.unsynced disk.new ≡ all_synced (D.bytes disk.old)) }
    ensures kept { Opens D.Disk (Sync ∷ Length ∷ []) disk.old disk.new result }
{
    disk.sync()?;
    let front = read_front(alloc, disk, reader)?;
    Ok(front)
}

/// Where a disk goes on: the slot that rules, and the closed gate behind what stands in it.
#[derive(Clone, Copy)]
pub struct Place {
    /// The slot that rules.
    pub slot: Slot,
    /// The place of the gate.
    pub gate: u64,
}

/// Gives a reader what stands in the slot that rules, and answers that slot and the place of the
/// closed gate behind it. Nothing is synced and nothing written.
pub fn read_disk<D: Disk, R: SlotReader>(
    alloc: Global,
    disk: &mut D,
    reader: &mut R,
) -> Result<Place, OpenFault>
    // H: `Ok`: the header is there, this slot rules, and the reader has taken its image and then
    // each body, in order.
    ensures found { D.honest disk.old → IfOk result (λ p.
        FoundDisk R.begins R.takes (D.bytes disk.old) reader.old reader.new p.slot
        (slice_range (D.bytes disk.old) p.slot.start p.gate)) }
    // H: `Ok`: this is the place of the closed gate behind the last body.
    ensures gate { D.honest disk.old → IfOk result (λ p.
        p.gate ≡ p.slot.start + length (slice_range (D.bytes disk.old) p.slot.start p.gate)) }
    // H: `Err`: the first fault of header, slots, head and chain, no body read past the slot;
    // inside image and body, what the reader says; or `Device` or `Memory`.
    ensures fault { D.honest disk.old → IfErr result
        (RefusesDisk R.begins R.rejects R.takes R.refuses (D.bytes disk.old) reader.old) }
    // H: what is pending stays.
    ensures unsynced { D.honest disk.old → D.unsynced disk.new ≡ D.unsynced disk.old }
    // What it leaves of the disk; its calls are length, and behind it reads.
    ensures kept { Opens D.Disk (Length ∷ []) disk.old disk.new result }
{
    let Front {
        slot,
        other: _,
        is_open: _,
        version: _,
        generation: _,
        mut text,
        at,
        len,
    } = read_front(alloc, disk, reader)?;
    let gate = read_chain(alloc, disk, at, slot, len, reader, &mut text)?;
    Ok(Place { slot, gate })
}

/// Opens a disk: gives what stands in the slot that rules to the reader, and goes on behind it. A
/// fault gives the disk back.
pub fn open<D: Disk, R: SlotReader>(
    alloc: Global,
    mut disk: D,
    reader: &mut R,
) -> Result<Slots<D>, (OpenFault, D)>
    // `Ok`: nothing is sealed, no body is on its way and no compaction runs.
    ensures begins { IfOk result (λ s. (s.journal.sealed ≡ []) × (s.journal.phase ≡ Idle)
        × (s.step ≡ Begin)) }
    // H: `Ok`: the journal goes on in the slot that rules, behind all that stands there, which the
    // reader has taken in order.
    ensures found { D.honest disk → IfOk result (λ s. FoundDisk R.begins R.takes (D.bytes disk)
        reader.old reader.new s.journal.slot s.journal.front) }
    // H: `Ok`: the two slots are the disk's, and the journal's rules, under this generation and of
    // this version.
    ensures slots { D.honest disk → IfOk result (λ s.
        HasSlots (D.bytes disk) s.journal.slot s.other s.version s.generation) }
    // H: `Ok`: the other slot's gate counts as open exactly where it is. Where it is closed a
    // compaction doesn't close it again.
    ensures other_gate { D.honest disk → IfOk result (λ s. IsTrue s.may_open
        ↔ (slice_index (D.bytes disk) s.other.start ≡ OPEN)) }
    // `Ok`, over any disk: the slots are the two of a disk, and what the journal goes on behind was
    // read: a head, with whose image the reader has begun, and bodies, which it has then taken in
    // order.
    ensures read { IfOk result (λ s. ReadsSlot R.begins R.takes reader.old reader.new
        s.journal.slot s.other s.version s.generation s.journal.front) }
    // H: `Err`: as of `read_disk`.
    ensures fault { D.honest disk → IfErr result (λ e.
        RefusesDisk R.begins R.rejects R.takes R.refuses (D.bytes disk) reader.old e.0) }
    // H: `Ok`: the bytes are the one crash state.
    ensures all_synced { D.honest disk → IfOk result (λ s. D.unsynced s.journal.disk
        ≡ all_synced (D.bytes disk)) }
    // As of `read_disk`, but its calls are sync, length, and behind them reads.
    ensures kept { OpensDisk D.Disk (λ s. s.journal.disk) disk result }
{
    let front = match sync_front(alloc, &mut disk, reader) {
        Ok(front) => front,
        Err(fault) => return Err((fault, disk)),
    };
    let Front {
        slot,
        other,
        is_open,
        version,
        generation,
        text,
        at,
        len,
    } = front;
    match resume(alloc, disk, slot, at, len, text, reader) {
        Ok(journal) => Ok(Slots::new(alloc, journal, other, generation, version, is_open)),
        Err((fault, disk)) => Err((fault.into(), disk)),
    }
}
