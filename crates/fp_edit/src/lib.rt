//! Sets of flags, the edits that they admit, and the lines that spell edits.
#![tactic(auto)]

mod changes;
mod edit;
mod flag_set;
mod judging;
mod keys;
mod known;
mod laws;
mod lent;
mod line;
mod one_flag;
mod outlining;
mod sums;
mod walks;

pub use changes::{
    Changes, DELETE_FRAME, LONGEST_EDIT, MOST_CHANGES, PUT_FRAME, SET_FRAME, SetFault, delete_len,
    put_len,
};
pub use edit::{Change, Edit, EditFault, Expect, REVISIONS_END};
pub use flag_set::{FlagSet, MOST_FLAGS};
pub use fp_documents::{Document, FLAG_FRAME, Flag, IMAGE_HEAD};
pub use keys::MetKeys;
pub use known::definition_under;
pub use laws::{
    one_outcome, refusals_leave_no_trace, revisions_count_edits, sets_keep_their_limit,
};
pub use lent::{EditParts, LentPart};
pub use line::{LONGEST_LINE, LineFault, PartFault, parse_line, parse_line_with};
pub use sums::{Sums, most_with, sums_after};
