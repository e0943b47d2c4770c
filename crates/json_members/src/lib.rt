//! Exact readers of the members of a JSON object. Their contracts name the data of the value, so
//! that each result is exact.
#![tactic(auto)]

mod member;
mod names;
mod optional;
mod value;

pub use member::{is_text, list_at, number_at, object_at, text_at, truth_at};
pub use names::has_only;
pub use optional::{
    optional_list, optional_number, optional_object, optional_text, optional_truth,
};
pub use value::{read_text, read_value};
