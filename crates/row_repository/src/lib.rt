//! What a job repository is by its rows, and how it is restored from them. A script stands above it:
//! its replies follow from the rows, whatever history made them.
#![tactic(auto)]

mod repository;
mod restoration;
mod row_fault;
mod sink;

pub use batch_history::{Answer, Call, Query, Reply};
pub use repository::RowRepository;
pub use restoration::RowRestoration;
pub use row_fault::RowFault;
pub use sink::{NotTaken, RowSink};
