//! Reading the chain of a slot, body by body.

ghost use Rattle.std.specs.Prelude.{◌≡◌, ◌≢◌, ◌<◌, ◌≤◌, ◌+◌, ◌^◌, ◌∷◌, List, ℕ, min, length};
ghost use Rattle.std.specs.Prelude.{slice_index, IfOk, IfErr, OnOk, IsErrOf, MatchOption};
ghost use Rattle.fp_gate.specs.declared.gate.TheConstants.{OPEN};
ghost use Rattle.fp_journal.specs.Chain.{with_length};
ghost use Rattle.fp_journal.specs.Pieces.{OnlyReads};
ghost use Rattle.fp_journal.specs.Windows.{IsWindowAt, StandsIn};
ghost use Rattle.fp_journal.specs.Holds.{Holds};
ghost use Rattle.fp_journal.specs.Reading.{BreaksBefore, BreaksLink, IsOnlyDamage, IsWrong};
ghost use Rattle.fp_journal.specs.Reading.{ReadsChain, Refuses, SpellsLink, TellsDamage};
ghost use Rattle.fp_journal.specs.Reading.{fault_of_bytes};
ghost use Rattle.fp_journal.specs.declared.chain.ChainFault.TheVariants.{Damaged, Device, Memory};
ghost use Rattle.fp_journal.specs.declared.framed.TheConstants.{BODY_PLACE};

use crate::framed::BODY_PLACE;
use crate::pieces::BytesFault;
use crate::slot::Slot;
use crate::text::Text;
use crate::window::Window;
use fp_disk::Disk;
use fp_gate::OPEN;
use std::alloc::{AllocError, Global};

/// Why a body wasn't taken.
#[derive(Debug, Drop)]
pub enum BodyFault {
    /// It is none to take now, and this byte of it, counted from its first,
    /// is the first to show it.
    BadBody { at: u64 },
    /// Memory ran out.
    Memory,
}

/// Why bytes are no chain.
#[derive(Debug, Drop)]
pub enum ChainFault {
    /// This byte is the first to show it.
    Damaged { at: u64 },
    /// The device refused.
    Device,
    /// Memory ran out.
    Memory,
}

impl From<BytesFault> for ChainFault {
    ghost from_gives = { λ f e. e ≡ fault_of_bytes f };

    fn from(fault: BytesFault) -> ChainFault {
        match fault {
            BytesFault::Device => ChainFault::Device,
            BytesFault::Memory => ChainFault::Memory,
        }
    }
}

impl From<AllocError> for ChainFault {
    ghost from_gives = { λ _ e. e ≡ Memory };

    fn from(_fault: AllocError) -> ChainFault {
        ChainFault::Memory
    }
}

/// What takes the bodies of a chain, one after another.
pub trait Reader {
    /// Taking this body makes that of it.
    ghost takes: { Self → List ℕ → Self → Type 0 };

    /// The body is none to take now, as its byte at this offset is the first to show.
    ghost refuses: { Self → List ℕ → ℕ → Type 0 };

    /// Takes the next body. After a fault it isn't read from again.
    fn take(&mut self, body: &[u8]) -> Result<(), BodyFault>
        // Asked of a reader. `Ok`: it took the body.
        ensures taken { OnOk result (takes self.old body.now self.new) }
        // `BadBody`: the first byte that shows that it is none to take now, at its end at the
        // latest; or `Memory`.
        ensures fault { IfErr result (IsWrong (length body.now) (refuses self.old body.now)) };
}

// How long the body behind the gate is that stands at the front of these bytes, or nothing where
// the gate is closed. The gate's place is `at`, and so many bytes lie between it and the end.
fn body_length(bytes: &[u8], at: u64, left: u64, most: u32) -> Result<Option<u32>, ChainFault>
    requires there { (0 < left) × (min left BODY_PLACE ≤ length bytes.now) }
    requires fits { at + left < 2 ^ 64 }
    ensures found { IfOk result (λ o. MatchOption o (slice_index bytes.now 0 ≢ OPEN)
        (SpellsLink bytes.now left most)) }
    ensures fault { IfErr result (IsOnlyDamage (BreaksLink most bytes.now left at)) }
{
    if bytes[0] != OPEN {
        return Ok(None);
    }
    if left < BODY_PLACE {
        return Err(ChainFault::Damaged { at: at + 1 });
    }
    let len = u32::from_be_bytes([bytes[1], bytes[2], bytes[3], bytes[4]]);
    if len > most {
        return Err(ChainFault::Damaged { at: at + 1 });
    }
    if left - BODY_PLACE < u64::from(len) {
        return Err(ChainFault::Damaged {
            at: at + BODY_PLACE,
        });
    }
    Ok(Some(len))
}

// The body behind the gate at `at`, which lies in front of the limit, or nothing where the gate is
// closed. What was read of the disk already is in the window.
fn next_body<D: Disk>(
    alloc: Global,
    disk: &mut D,
    window: &mut Window,
    at: u64,
    limit: u64,
    most: u32,
) -> Result<Option<Vec<u8>>, ChainFault>
    requires place { IsWindowAt window.old at }
    requires long { D.honest disk.old → limit ≤ length (D.bytes disk.old) }
    requires stands { D.honest disk.old → StandsIn window.old (D.bytes disk.old) }
    ensures found { IfOk result (λ o. MatchOption o (at < limit)
        (λ b. (length b.items ≤ most) × (at + BODY_PLACE + length b.items ≤ limit)
        × IsWindowAt window.new (at + BODY_PLACE + length b.items))) }
    ensures stands { D.honest disk.old → IfOk result (λ o. MatchOption o
        (slice_index (D.bytes disk.old) at ≢ OPEN)
        (λ b. Holds (D.bytes disk.old) at (OPEN ∷ with_length b.items)
        × StandsIn window.new (D.bytes disk.old))) }
    ensures fault { D.honest disk.old →
        IfErr result (TellsDamage (BreaksBefore most limit (D.bytes disk.old) at)) }
    ensures kept { OnlyReads D.Disk disk.old disk.new }
    ensures no_failure { OnOk result (D.faults disk.new ≡ D.faults disk.old) }
    ensures cause { IsErrOf result Device → D.faults disk.old < D.faults disk.new }
    ensures memory { IsErrOf result Memory → D.faults disk.new ≡ D.faults disk.old }
    ensures small { most < 2 ^ 32 }
{
    if at >= limit {
        return Err(ChainFault::Damaged { at });
    }
    let left = limit - at;
    window.reach(alloc, disk, at, left.min(BODY_PLACE) as usize, limit)?;
    let Some(len) = body_length(window.from(at), at, left, most)? else {
        return Ok(None);
    };
    window.reach(alloc, disk, at, BODY_PLACE as usize + len as usize, limit)?;
    let body = window.copy(alloc, at + BODY_PLACE, len as usize)?;
    Ok(Some(body))
}

/// Gives a reader the bodies of the chain that begins at `at` of a disk of this length, and answers
/// the place of the closed gate behind the last. The text of the chain goes behind the one given.
pub fn read_chain<D: Disk, R: Reader>(
    alloc: Global,
    disk: &mut D,
    at: u64,
    slot: Slot,
    len: u64,
    reader: &mut R,
    text: &mut Text,
) -> Result<u64, ChainFault>
    // The chain begins within the disk, or at its end.
    requires there { at ≤ len }
    // H: the disk has this length.
    requires long { D.honest disk.old → len ≡ length (D.bytes disk.old) }
    // `Ok`: the reader took bodies in order, and their text stands behind the one given. H: they
    // are the one chain that stands there, and this is its closed gate.
    ensures found { IfOk result (ReadsChain (D.honest disk.old) R.takes slot.most at slot.stop
        (D.bytes disk.old) reader.old reader.new text.old text.new) }
    // H: `Damaged`: the first byte that shows that there is no chain, or what the reader says of a
    // body.
    ensures fault { D.honest disk.old → IfErr result
        (Refuses R.takes R.refuses slot.most at slot.stop (D.bytes disk.old) reader.old) }
    // What it leaves of the disk.
    ensures kept { OnlyReads D.Disk disk.old disk.new }
    // `Ok`: no call of the disk failed.
    ensures no_failure { OnOk result (D.faults disk.new ≡ D.faults disk.old) }
    // `Device`: a call of the disk failed.
    ensures cause { IsErrOf result Device → D.faults disk.old < D.faults disk.new }
    // `Memory`: no call of the disk failed.
    ensures memory { IsErrOf result Memory → D.faults disk.new ≡ D.faults disk.old }
{
    let limit = slot.stop.min(len);
    let mut window = Window::new(alloc, at);
    let mut place = at;
    while let Some(body) = next_body(alloc, disk, &mut window, place, limit, slot.most)? {
        match reader.take(&body) {
            Ok(()) => {
                text.push_body(&body);
                place = place + BODY_PLACE + body.len() as u64;
            }
            Err(BodyFault::BadBody { at: offset }) => {
                return Err(ChainFault::Damaged {
                    at: place + BODY_PLACE + offset,
                });
            }
            Err(BodyFault::Memory) => return Err(ChainFault::Memory),
        }
    }
    Ok(place)
}
