//! A host made from a file of the system and a sink. Its past is the calls that the disk and the
//! sink answered.
//!
//! No contract can say that a file of the system does what is asked of it. The module `system_files`
//! has the calls of std, each with its note. What the disk makes of their answers is proved.
#![tactic(auto)]

mod disk;
mod file_fault;
mod host;
mod making;
mod names;
mod no_disk;
mod steps;
mod system;
mod system_files;

pub use disk::{CallFault, Disk};
pub use file_fault::FileFault;
pub use host::FileHost;
pub use making::{make_anew, read_file, resume};
pub use no_disk::NoDisk;
pub use system::SystemDisk;
