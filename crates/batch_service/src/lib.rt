//! The names under which programs use the service. What is proved over any job repository stands
//! here over the sequential one of at most 1,000,000 operations, and of a log over the one of at most
//! 4,294,967,296.
#![tactic(auto)]

mod scripts;

pub use batch_operator::CopyCount;
use batch_operator::Operator as OperatorOver;
use job_threads::SessionPort as SessionPortOver;
use logged_script::{
    LogToCompact as LogToCompactOver, RestoredLog as RestoredLogOver,
    ScriptEngine as ScriptEngineOver,
};
use op_log::Book as BookOver;
use read_copies::{RepositoryState as RepositoryStateOver, StatusCounts as StatusCountsOver};
pub use scripts::{answer_script, run_script};
pub use seq_repository::Repository;
use seq_repository::Restored;
use sessions::Desk as DeskOver;

/// A repository of at most `LIMIT` operations with its log ([`op_log::Book`]).
pub type Book<const LIMIT: u64> = BookOver<Repository<LIMIT>>;

/// A book with the seat of its log ([`sessions::Desk`]).
pub type Desk<N, const LIMIT: u64> = DeskOver<N, Repository<LIMIT>>;

/// A repository as the state of a read copy ([`read_copies::RepositoryState`]).
pub type RepositoryState = RepositoryStateOver<Repository<1_000_000>>;

/// The counts of a read copy ([`read_copies::StatusCounts`]).
pub type StatusCounts = StatusCountsOver<Repository<1_000_000>>;

/// An operator ([`batch_operator::Operator`]).
pub type Operator<N> = OperatorOver<N, Repository<1_000_000>>;

/// A session at an operator, as the port of a worker ([`job_threads::SessionPort`]).
pub type SessionPort<'a, R, N> = SessionPortOver<'a, R, N, Repository<1_000_000>>;

/// The engine of a script over a log, whose lines have tags or not
/// ([`logged_script::ScriptEngine`]).
pub type ScriptEngine<const TAGS: bool> = ScriptEngineOver<Repository<4_294_967_296>, TAGS>;

/// The rows from which the repository of a log is restored ([`seq_repository::Restored`]).
pub type LogRows = Restored<4_294_967_296>;

/// A log that was restored, with its engine ([`logged_script::RestoredLog`]).
pub type RestoredLog<const TAGS: bool> = RestoredLogOver<Repository<4_294_967_296>, TAGS>;

/// A log that was restored to be compacted ([`logged_script::LogToCompact`]).
pub type LogToCompact<const TAGS: bool> = LogToCompactOver<Repository<4_294_967_296>, TAGS>;
