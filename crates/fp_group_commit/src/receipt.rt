//! What a store gives for a batch that it sealed.

ghost use Rattle.std.specs.Prelude.{◌≡◌, ◌+◌};
ghost use Rattle.fp_group_commit.specs.Tokens.{front_revision};

use crate::draw::Draw;
use crate::part::Part;
use std::marker::Model;

/// All that a store kept when it had sealed a batch, and that batch.
/// It can't be copied, and is spent by who settles it or forgoes it.
pub struct Receipt {
    pub(crate) draw: Draw,
    pub(crate) part: Part,
}

impl Model for Receipt {
    ghost use Rattle.std.specs.Coded.{codes};
    ghost use Rattle.fp_edit.specs.Flags.{coded_state};
    ghost use Rattle.fp_group_commit.specs.Changes.{coded_change};
    ghost use Rattle.fp_group_commit.specs.Tokens.{IsReceipt, ReceiptState};

    ghost Value = { ReceiptState };

    ghost coded = { Prim.hlevel (codes, coded_state, coded_change) };

    ghost view = { λ r. record { store = r.part.store; edits = r.part.edits; batch = r.draw } };

    ghost invariant = { λ r. IsReceipt
        (record { store = r.part.store; edits = r.part.edits; batch = r.draw }) };
}

impl Receipt {
    /// The batch that was sealed last. `sync_gate` alone makes a receipt, one a batch.
    pub fn batch(&self) -> &Draw
        ensures { result.now ≡ self.now.batch }
    {
        &self.draw
    }

    /// The last revision that the store had kept as it sealed this batch.
    pub fn revision(&self) -> u64
        ensures { result
            ≡ front_revision (record { store = self.now.store; edits = self.now.edits }) }
    {
        self.draw.first - 1 + self.draw.edits.len() as u64
    }

    /// Spends it, and tells nobody. For who ends a store with a batch that nobody settles.
    pub fn forgo(self) {
        let Receipt { draw: _, part: _ } = self;
    }
}
