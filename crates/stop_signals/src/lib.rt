//! Stop signals: a session finds out, without waiting, that a job execution was asked to stop.
#![tactic(auto)]

ghost use Rattle.std.specs.Prelude.{◌≡◌, ◌≤◌, [], ◌∷◌, ◌++◌, IsTrue, length};
ghost use mathlib.Core.List.{IsPrefix};
ghost use Rattle.batch_history.specs.Due.{IsDue};
ghost use Rattle.batch_history.specs.Legal.{entries_by};
ghost use Rattle.batch_history.specs.Replies.{reply};
ghost use Rattle.batch_history.specs.Rows.{history};
ghost use Rattle.seat_rules.specs.Places.{IsLegalLog};
ghost use Rattle.seat_rules.specs.Views.{Each, HasStop};
ghost use Rattle.sessions.specs.Answered.{entered, moved_on};

use batch_ids::{ExecutionId, Moment, Refusal};
use op_log::{Call, JobRepository, Reply};
use seat_rules::{SeatTable, Site};
use sessions::{Desk, Session};

/// Replies to a session's stop at this moment, as `Desk::act` does. If the stop is accepted, it is
/// signalled to all sessions after it is in the log. See Jakarta Batch 2.1, "JobOperator", stop.
///
/// # Errors
///
/// Returns the stop's first refusal that applies, then `RepositoryFull` if the log has as many
/// entries as the repository's limit says. Returns `OutOfMemory` instead of any reply if memory is
/// refused. A refused stop enters nothing and signals nothing.
pub fn stop<N: Site, J: JobRepository>(
    desk: &mut Desk<N, J>,
    session: &mut Session<N>,
    execution: ExecutionId,
    at: Moment,
    table: &SeatTable,
) -> Result<Reply, Refusal>
    requires table { table.now ≡ N.place }
    requires alone { desk.old.hosted ≡ [] }
    ensures reply { IsDue result (reply J.limit (history N.place.catalogue desk.old.log) session.old.number (Call.Stop execution)) }
    ensures log { desk.new.log ≡ entered desk.old.log session.old.number (Call.Stop execution) at result }
    ensures session { session.new ≡ moved_on session.old desk.new.log
        (entered session.old.mine session.old.number (Call.Stop execution) at result) }
    ensures grows { IsPrefix session.old.seen desk.old.log }
    ensures own { entries_by session.new.number session.new.seen ≡ session.new.mine }
    ensures legal { IsLegalLog N.place.catalogue desk.new.log }
    ensures least { session.old.least ≤ length desk.old.log }
    ensures stops { Each (HasStop session.new.seen session.old.least) session.old.stops }
    ensures last { (desk.new.last ≡ desk.old.last) × (desk.new.hosted ≡ []) }
{
    let reply = desk.act(session, Call::Stop { execution }, at, table)?;
    raise(desk, execution, table);
    Ok(reply)
}

/// Signals to all sessions that a job execution was asked to stop. The log must have an accepted
/// stop of it. All job executions share 64 words, so a later stop may overwrite this one. Allocates
/// nothing.
pub fn raise<N: Site, J: JobRepository>(
    desk: &mut Desk<N, J>,
    execution: ExecutionId,
    table: &SeatTable,
)
    requires table { table.now ≡ N.place }
    requires stopped { HasStop desk.old.log (length desk.old.log) execution }
    ensures { desk.new ≡ desk.old }
{
    desk.raise(execution, table);
}

/// Checks whether a job execution was asked to stop, as far as the session can see. See Jakarta
/// Batch 2.1, "JobOperator", stop.
///
/// If this returns true, the log has an accepted stop of the job execution, and every later call of
/// this session sees it. False proves nothing: the stop may not have arrived, or a stop of another
/// job execution may have overwritten it. Allocates nothing, and takes no lock.
pub fn look<N: Site>(session: &mut Session<N>, execution: ExecutionId, table: &SeatTable) -> bool
    requires { table.now ≡ N.place }
    ensures found { IsTrue result → (rest : _) × (session.new.stops ≡ execution ∷ rest) }
    ensures kept { (rest : _) × (session.new.stops ≡ rest ++ session.old.stops) }
    ensures least { session.old.least ≤ session.new.least }
    ensures front { length session.old.seen ≤ session.new.least }
    ensures same { (session.new.number ≡ session.old.number) × (session.new.seen ≡ session.old.seen) × (session.new.mine ≡ session.old.mine) }
{
    let found = session.read_stop(execution, table);
    let _count = session.operations_at_least(table);
    if execution.value() == 0 || found != execution.value() {
        return false;
    }
    true
}
