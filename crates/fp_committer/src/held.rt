//! Where the edits are that were drawn.

use fp_group_commit::{Draw, Receipt};

/// Where the edits are that were drawn and aren't settled.
pub(crate) enum Held {
    Nothing,
    Drawn(Draw),
    InFlight,
    Sealed(Receipt),
}

// Ends what is held no longer.
pub(crate) fn end(held: Held) {
    match held {
        Held::Sealed(receipt) => receipt.forgo(),
        Held::Nothing => {}
        Held::Drawn(_) => {}
        Held::InFlight => {}
    }
}
