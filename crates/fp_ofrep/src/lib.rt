//! Replies to requests of the OpenFeature Remote Evaluation Protocol, over what is published.
#![tactic(auto)]

mod bulk;
mod context;
mod failure;
mod fields;
mod keeping;
mod laws;
mod moment;
mod reply;
mod request;
mod route;
mod single;
mod tag;
mod write;

pub use fields::field_list;
pub use keeping::{Kept, LONGEST_KEPT_BODY, MOST_KEPT_TAGS, answer_keeping};
pub use laws::{all_flags_agree_with_each, one_flag_is_looked_at, same_flags_have_the_same_tag};
pub use moment::Moment;
pub use reply::{Headers, Reply};
pub use request::{Body, LONGEST_BODY, answer, answer_for, answer_over};
pub use route::{Route, route_of};
