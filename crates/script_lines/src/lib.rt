//! The lines of a script, over any reader and writer. There are devices whose past contracts can
//! name, and lines that are cut from the bytes of a reader. There is also a buffer for output that
//! waits to be written.
#![tactic(auto)]

mod at_hand;
mod buffer;
mod counted;
mod device;
mod input_buffer;
mod line;
mod line_fault;
mod output_buffer;
mod slice_source;
mod source_in_turn;
mod tape;

pub use at_hand::AtHand;
pub use counted::Counted;
pub use device::{DeviceFault, Sink, Source};
pub use input_buffer::{InputBuffer, MAX_READS};
pub use line::{Line, MAX_LINE};
pub use line_fault::LineFault;
pub use output_buffer::{OUTPUT_BUFFER_SIZE, OutputBuffer};
pub use slice_source::SliceSource;
pub use source_in_turn::SourceInTurn;
