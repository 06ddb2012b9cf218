//! The variants of a definition, looked up by their names.

ghost use Rattle.std.specs.Prelude.{◌≡◌, IfSome, option_map};
ghost use Rattle.std.specs.Str.{bytes_eq};
ghost use Rattle.serde_json.specs.Data.{no_members, string};
ghost use Rattle.serde_json.specs.Find.{get_member};
ghost use Rattle.fp_base.specs.Sorted.{IsSorted};
ghost use Rattle.fp_definition.specs.Spelled.{AreWithin, IsWithin, at, spelled};

use crate::spelling::Variant;

// So many variants are looked through one by one. Of more, half are left out at a time.
const FEW: usize = 8;

// The variant of that name: the name as it is kept, and what stands at the place of its value.
pub(crate) fn variant_named<'d>(
    text: &'d [u8],
    variants: &'d [Variant],
    name: &str,
) -> Option<(&'d str, &'d [u8])>
    requires sorted { IsSorted (spelled text.now variants.now no_members) }
    requires within { AreWithin text.now variants.now }
    ensures named { IfSome result (λ m. m.0.now ≡ name.now) }
    ensures value { option_map (λ m. string m.1.now) result
        ≡ get_member name.now (spelled text.now variants.now no_members) }
{
    let found = variant_among(text, narrowed(text, variants, name), name)?;
    Some((
        found.name.as_str(),
        &text[found.value.start..found.value.end],
    ))
}

// A few variants, among which is the one of that name if it is among all.
fn narrowed<'d>(text: &[u8], variants: &'d [Variant], name: &str) -> &'d [Variant]
    requires sorted { IsSorted (spelled text.now variants.now no_members) }
    requires within { AreWithin text.now variants.now }
    ensures found { get_member name.now (spelled text.now result.now no_members)
        ≡ get_member name.now (spelled text.now variants.now no_members) }
    ensures within { AreWithin text.now result.now }
{
    let mut left = variants;
    while left.len() > FEW {
        let (front, behind) = left.split_at(left.len() / 2);
        if behind[0].name.as_str().cmp(name).is_gt() {
            left = front;
        } else {
            left = behind;
        }
    }
    left
}

// The first variant of that name.
fn variant_among<'d>(text: &[u8], variants: &'d [Variant], name: &str) -> Option<&'d Variant>
    requires { AreWithin text.now variants.now }
    ensures named { IfSome result (λ v. v.now.name.bytes ≡ name.now) }
    ensures within { IfSome result (λ v. IsWithin text.now v.now.value) }
    ensures value { option_map (λ v. string (at text.now v.now.value)) result
        ≡ get_member name.now (spelled text.now variants.now no_members) }
{
    for variant in variants {
        if is_same(variant.name.as_str(), name) {
            return Some(variant);
        }
    }
    None
}

// Whether two names are the same. Most names that are looked through differ in length already.
#[inline(always)]
fn is_same(name: &str, other: &str) -> bool
    ensures { result ≡ bytes_eq name.now other.now }
{
    name.len() == other.len() && name == other
}
