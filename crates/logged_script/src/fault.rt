// The faults of a log.
ghost use Rattle.std.specs.Prelude.{◌≡◌};
ghost use Rattle.logged_script.specs.Texts.{log_fault_name};

use std::error::Error;
use std::fmt;

/// The reason why a log is refused. Its file is as it was.
#[derive(Clone, Copy, Debug, PartialEq, Eq)]
pub enum LogFault {
    /// Another program uses it.
    InUse,
    /// It is no log of a script: another file, or an empty one.
    Foreign,
    /// It is a log of another version.
    Later,
    /// A record is damaged.
    Damaged {
        /// The number of the record. Records count from 0.
        number: usize,
        /// The byte at which the record's gate begins. Bytes count from 0.
        byte: usize,
    },
    /// The given catalogue doesn't begin with all jobs of the log's catalogue.
    OtherCatalogue {
        /// The number of the first job that differs. Jobs count from 0.
        job: usize,
    },
    /// A record of the base stands elsewhere than right behind the first catalogue, or its line is
    /// none that may stand there: no row, a row out of order, one that breaks what a repository
    /// keeps.
    BadBase {
        /// The number of the first such record. Records count from 0.
        number: usize,
    },
    /// The line of a record is not accepted any more, or its reply has another check than the one
    /// in the record.
    OtherReply {
        /// The number of the record. Records count from 0.
        number: usize,
    },
}

impl LogFault {
    /// Returns the name of the fault, as its line has it.
    pub fn name(self) -> &'static str
        ensures { result.now ≡ log_fault_name self }
    {
        match self {
            LogFault::InUse => "LogInUse",
            LogFault::Foreign => "LogForeign",
            LogFault::Later => "LogLater",
            LogFault::Damaged { .. } => "LogDamaged",
            LogFault::OtherCatalogue { .. } => "LogOtherCatalogue",
            LogFault::BadBase { .. } => "LogBadBase",
            LogFault::OtherReply { .. } => "LogOtherReply",
        }
    }
}

impl fmt::Display for LogFault {
    fn fmt<W: fmt::Write>(&self, f: &mut fmt::Formatter<W>) -> fmt::Result {
        f.write_str(self.name())
    }
}

impl Error for LogFault {}
