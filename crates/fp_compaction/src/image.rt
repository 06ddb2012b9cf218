//! The image of a set.

ghost use Rattle.std.specs.Prelude.{◌≡◌, ◌≤◌, length, IfOk};
ghost use Rattle.fp_edit.specs.Flags.{size as size_of};
ghost use Rattle.fp_documents.specs.declared.flags.TheConstants.{IMAGE_HEAD};
ghost use Rattle.fp_recovery.specs.Stands.{IsImageOf};

use fp_edit::FlagSet;
use fp_record::Image;
use std::alloc::{AllocError, Global};

/// The bytes of a set's image, for the other slot to begin with.
pub fn image_of(alloc: Global, set: &FlagSet) -> Result<Vec<u8>, AllocError>
    // The set's limit takes at least an image of no flags.
    requires { IMAGE_HEAD ≤ set.now.limit }
    // `Ok`: they are the image of the set, at its revision and under its limit.
    ensures image { IfOk result (λ bytes.
        IsImageOf set.now.revision set.now.limit bytes.items set.now) }
    // `Ok`: as many as the set's size.
    ensures len { IfOk result (λ bytes. length bytes.items ≡ size_of set.now.flags) }
    // The set's size is within its limit.
    ensures within { size_of set.now.flags ≤ set.now.limit }
{
    // What the set's flags, its size and its revision may be is known only where it is asked.
    let _ = set.iter();
    let _ = set.size();
    let _ = set.revision();
    let image = Image::of(alloc, set)?;
    let bytes = image.encode(alloc)?;
    Ok(bytes)
}
