//! Fields of a request's head that stand there more than once.

ghost use Rattle.std.specs.Prelude.{◌≡◌, ◌++◌, IfOk, OnOk, codes, flat_map, option_map};
ghost use Rattle.fp_ofrep.specs.Fields.{list_of};

use http::header::{GetAll, HeaderValue, ValueIter};
use std::alloc::{AllocError, Global};

/// The values of all fields of one name as one list, with a comma between, and none where there is
/// no field (RFC 9110, section 5.3).
pub fn field_list(
    alloc: Global,
    fields: GetAll<'_, HeaderValue>,
) -> Result<Option<Vec<u8>>, AllocError>
    ensures { IfOk result (λ list. option_map (λ v. v.items) list ≡ list_of fields.entry) }
{
    let mut fields = fields.iter();
    let Some(first) = fields.next() else {
        return Ok(None);
    };
    let mut list = Vec::new(alloc);
    list.extend_from_slice(first.as_bytes())?;
    add_values(&mut list, fields)?;
    Ok(Some(list))
}

// Puts each value behind a list, with a comma before it.
fn add_values(list: &mut Vec<u8>, fields: ValueIter<'_, HeaderValue>) -> Result<(), AllocError>
    ensures { OnOk result (list.new.items
        ≡ list.old.items ++ flat_map (λ v. codes ", " ++ v.bytes) fields.entry) }
{
    for field in fields {
        list.extend_from_slice(b", ")?;
        list.extend_from_slice(field.as_bytes())?;
    }
    Ok(())
}
