//! What every set of flags keeps.

ghost use Rattle.fp_shown.specs.Sets.{IsLawful};

use fp_edit::FlagSet;

/// Law: every set of flags is lawful, so a plane's frame is never refused by `NoSet`. It looks at
/// each flag, and changes nothing.
pub fn every_set_is_lawful(set: &FlagSet)
    // The set is lawful.
    ensures { IsLawful set.now }
{
    let _revision = set.revision();
    let _count = set.len();
    for (key, flag) in set.iter() {
        let _key = key.as_str();
        let _text = flag.definition.text();
    }
}
