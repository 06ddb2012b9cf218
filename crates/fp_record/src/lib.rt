//! Batches and images as bytes: each value has one spelling, and a decoder takes spellings alone.
#![tactic(auto)]

mod batch;
mod edits;
mod fault;
mod fields;
mod image;
mod laws;
mod writing;

pub use batch::{
    BATCH_HEAD, Batch, DELETE_KIND, MOST_EDITS, PUT_KIND, SET_KIND, count_from, encoded_len,
};
pub use edits::edit_from;
pub use fault::RecordFault;
pub use fields::{u8_at, u64_at};
pub use image::{Image, flags_of_image};
pub use laws::{
    batches_stand_alone, batches_take_their_changes, images_stand_alone,
    images_take_their_sets_size,
};
