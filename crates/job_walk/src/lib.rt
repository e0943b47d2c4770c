//! The walk of a job execution: the value of each of the job's lists, from the facts about its work
//! keys.
#![tactic(auto)]

mod changes;
mod cursor;
mod first_facts;
mod first_value;
mod keeping;
mod kept_list;
mod known_fact;
mod learnt;
mod split_flows;
mod walk;

pub use cursor::Cursor;
pub use first_value::value_at_first;
pub use walk::walk_value;
