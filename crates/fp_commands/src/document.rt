//! Flagd documents as they are read.

ghost use Rattle.std.specs.Prelude.{◌≡◌, ◌≢◌, Ok, Err, IfSome, IfOk, IfErr, map};
ghost use Rattle.fp_imports.specs.Faults.{Tells};
ghost use Rattle.fp_session.specs.Asks.{flag_bytes};
ghost use Rattle.fp_commands.specs.Disks.{Blames};
ghost use Rattle.fp_commands.specs.Documents.{import_of, IsDocumentFault};
ghost use Rattle.fp_commands.specs.declared.fault.CommandFault.TheVariants.{Device};

use crate::fault::CommandFault;
use bumpalo::Bump;
use fp_base::read_tree;
use fp_definition::{Definition, FlagKey};
use fp_imports::{ImportFault, expand_tree};
use fp_streams::FailureCounted;
use json::Scratch;
use std::alloc::Global;
use std::io::Read;

// The flags of the flagd document that the reader gives.
pub fn read_document<R: Read>(
    alloc: Global,
    r: &mut FailureCounted<R>,
) -> Result<Vec<(FlagKey, Definition)>, CommandFault>
    ensures flags { IfSome (R.remaining r.old.inner) (λ input.
        IfOk result (λ flags. import_of input ≡ Ok (map flag_bytes flags.items))) }
    ensures fault { IfErr result (IsDocumentFault (R.remaining r.old.inner)) }
    ensures device { Blames r.old.failures r.new.failures result }
    // No other fault is told in place of the reader's.
    ensures read { IfErr result (λ f. f ≢ Device → r.new.failures ≡ r.old.failures) }
{
    let bytes = r.read_to_end(alloc)?;
    let flags = flags_of(alloc, &bytes)?;
    Ok(flags)
}

// The flags of the flagd document that bytes spell.
fn flags_of(alloc: Global, bytes: &[u8]) -> Result<Vec<(FlagKey, Definition)>, ImportFault>
    ensures flags { IfOk result (λ flags. import_of bytes.now ≡ Ok (map flag_bytes flags.items)) }
    ensures refused { IfErr result (λ f. Tells f (λ e. import_of bytes.now ≡ Err e)) }
{
    let mut scratch = Scratch::new(alloc);
    let arena = Bump::new(alloc);
    match read_tree(alloc, &arena, bytes, &mut scratch)? {
        Some(document) => expand_tree(alloc, &arena, &document),
        None => Err(ImportFault::NotDocument),
    }
}
