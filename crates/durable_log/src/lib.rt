//! A log of records in a text file. Each record is on the disk before its reply is sent.
#![tactic(auto)]

mod columns;
mod frame;
mod fresh;
mod law;
mod link;
mod log;
mod place;
mod reading;
mod record;
mod rest;

pub use crc32c::check_of;
pub use fresh::{CleanLog, new_log, restored, with_record};
pub use law::{
    a_doubled_record_is_found, a_record_left_out_is_found, a_record_out_of_place_is_found,
    exchanged_records_are_found, one_changed_byte_is_found,
};
pub use link::Link;
pub use log::{CommitFault, Log, SHUT};
pub use log_host::{Host, HostFault};
pub use place::MAX_BATCH;
pub use reading::{Contents, End, ReadFault, read_log};
pub use record::Record;
pub use rest::{LogFile, Rest};
