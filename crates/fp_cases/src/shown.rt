//! Cases of sets that are shown of frames.

use fp_edit::FlagSet;
use fp_shown::{Shown, ShownFault};
use fp_stream::Frame;
use fp_transcript::Text;

/// The set that is shown of a frame, if there is one, and what it is.
pub fn shown_set(revision: u64, document: &[u8], out: &mut Text) -> Option<FlagSet> {
    let body = out.got(Vec::from_slice(out.alloc, document))?;
    match Shown::of_frame(out.alloc, Frame { revision, body }) {
        Ok(shown) => {
            put_shown(&shown, out);
            out.got(shown.set().try_copy())
        }
        Err(ShownFault::NoSet) => {
            out.shown(&ShownFault::NoSet);
            None
        }
        Err(ShownFault::Memory) => {
            out.is_short = true;
            None
        }
    }
}

fn put_shown(shown: &Shown, out: &mut Text) {
    out.named("revision", shown.revision());
    out.push(", ");
    out.number(shown.set().len() as u64);
    out.push(" flags, ");
    out.number(shown.document().len() as u64);
    out.push(" bytes");
}
