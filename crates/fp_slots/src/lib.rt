//! Two slots of a disk: which one rules, and how the other takes its place.
#![tactic(auto)]

mod batch;
mod choosing;
mod compacting;
mod growing;
mod held;
mod laws;
mod places;
mod planning;
mod slots;

pub use choosing::{Active, SlotFault, pick};
pub use laws::{one_slot_rules, plan_goes_on, refusals_are_right};
pub use places::{
    BASE_PLACE, FIRST_VERSION, GENERATION_PLACE, IMAGE_PLACE, LENGTH_PLACE, PART, VERSION,
    VERSION_PLACE,
};
pub use slots::{Slots, Step};
