//! What was kept, shown again at a start.

ghost use Rattle.std.specs.Prelude.{◌≡◌, [], IfOk, IfSome, IfNone, OnErr};
ghost use Rattle.fp_stream.specs.Frames.{has_after};
ghost use Rattle.fp_stream.specs.declared.hello.Hello.TheVariants.{Nothing, Has};

use crate::events::{Event, tell, tell_failure};
use crate::following::Showing;
use crate::set::Set;
use fp_connections::Host;
use fp_kept::{KeptFile, KeptFiles};
use fp_shown::Shown;
use fp_stream::Hello;
use std::io;
use std::sync::Arc;

/// Shows what the file keeps, and answers what is shown then.
pub fn restored<R: Host, K: KeptFiles>(
    rt: &R,
    files: &K,
    file: &KeptFile,
    showing: &mut Showing<R>,
) -> Hello
    // Nothing was shown before.
    requires { showing.old.seen.log ≡ [] }
    // It is what was shown last.
    ensures { result ≡ has_after Nothing showing.new.seen.log }
{
    match restore(rt, files, file, showing) {
        Ok(Some(revision)) => Hello::Has(revision),
        Ok(None) => {
            let path = file.path();
            tell(rt, &Event::NotRestored { path });
            Hello::Nothing
        }
        Err(reason) => {
            let path = file.path();
            tell_failure(rt, &Event::NotRestored { path }, &reason);
            Hello::Nothing
        }
    }
}

// The revision that is shown; `None` where the file keeps no set.
fn restore<R: Host, K: KeptFiles>(
    rt: &R,
    files: &K,
    file: &KeptFile,
    showing: &mut Showing<R>,
) -> io::Result<Option<u64>>
    requires { showing.old.seen.log ≡ [] }
    ensures one { IfOk result (λ found. IfSome found
        (λ revision. Has revision ≡ has_after Nothing showing.new.seen.log)) }
    ensures none { IfOk result (λ found. IfNone found (showing.new.seen.log ≡ [])) }
    ensures unchanged { OnErr result (showing.new.seen.log ≡ []) }
{
    let Some(frame) = file.read(rt.alloc(), files)? else {
        return Ok(None);
    };
    let Ok(shown) = Shown::of_frame(rt.alloc(), frame) else {
        return Ok(None);
    };
    let (revision, flags) = (shown.revision(), shown.set().len() as u64);
    let set = Arc::new(rt.alloc(), Set::of(shown))?;
    showing.show_set(&set)?;
    let path = file.path();
    tell(
        rt,
        &Event::Restored {
            revision,
            flags,
            path,
        },
    );
    Ok(Some(revision))
}
