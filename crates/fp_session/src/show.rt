//! The flags as they are shown.

ghost use Rattle.std.specs.Prelude.{◌≡◌, IfOk};
ghost use Rattle.fp_session.specs.Run.{show_line};

use fp_edit::FlagSet;
use itoa::Buffer;
use std::alloc::{AllocError, Global};

/// The line that shows flags: their revision, a space, their document and a newline.
pub fn shown(alloc: Global, flags: &FlagSet) -> Result<Vec<u8>, AllocError>
    ensures { IfOk result (λ line. line.items ≡ show_line flags.now) }
{
    let document = flags.document()?;
    let mut line = Vec::from_slice(alloc, Buffer::new().format(flags.revision()).as_bytes())?;
    line.push(b' ')?;
    line.extend_from_slice(&document)?;
    line.push(b'\n')?;
    Ok(line)
}
