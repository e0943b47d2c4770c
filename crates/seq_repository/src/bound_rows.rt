//! The sequential repository by its rows, for the layers that know no history.
ghost use Rattle.std.specs.Prelude.{◌≡◌, ◌++◌, ◌↔◌, IsTrue, OnOk};
ghost use Rattle.row_repository.specs.Shown.{Shown};
ghost use Rattle.seq_repository.specs.Kept.{rows_in};

use crate::repository::Repository;
use batch_history::{JobInstance, LastNumbers};
use batch_ids::{Moment, OutOfMemory, Refusal};
use jsl_model::Catalogue;
use records::Records;
use row_repository::{Answer, Call, NotTaken, Query, Reply, RowRepository, RowSink};
use std::alloc::Global;

/// Shows all job executions.
fn show_executions<S: RowSink>(records: &Records, sink: &mut S) -> Result<(), NotTaken>
    ensures { OnOk result ((earlier : S) (s : Shown) → S.taken earlier s sink.old
        → S.taken earlier (record s { executions = s.executions ++ records.now.executions }) sink.new) }
{
    for row in records.executions() {
        sink.take_execution(row)?;
    }
    Ok(())
}

/// Shows all work items.
fn show_works<S: RowSink>(records: &Records, sink: &mut S) -> Result<(), NotTaken>
    ensures { OnOk result ((earlier : S) (s : Shown) → S.taken earlier s sink.old
        → S.taken earlier (record s { works = s.works ++ records.now.works }) sink.new) }
{
    for row in records.works() {
        sink.take_work(row)?;
    }
    Ok(())
}

/// Shows all checkpoints.
fn show_checkpoints<S: RowSink>(records: &Records, sink: &mut S) -> Result<(), NotTaken>
    ensures { OnOk result ((earlier : S) (s : Shown) → S.taken earlier s sink.old
        → S.taken earlier (record s { checkpoints = s.checkpoints ++ records.now.checkpoints }) sink.new) }
{
    let Ok(checkpoints) = records.checkpoints() else {
        return Err(NotTaken);
    };
    for row in checkpoints {
        sink.take_checkpoint(row)?;
    }
    Ok(())
}

/// Checks whether two job instances are equal.
fn is_same_instance(one: &JobInstance, other: &JobInstance) -> bool
    ensures { IsTrue result ↔ (one.now ≡ other.now) }
{
    one == other
}

/// Checks whether two repositories have the same job instances.
fn has_same_instances(records: &Records, others: &Records) -> bool
    ensures { IsTrue result → records.now.instances ≡ others.now.instances }
{
    let mut rest = others.instances();
    for row in records.instances() {
        match rest.next() {
            Some(other) if is_same_instance(other, row) => {}
            _ => return false,
        }
    }
    rest.next().is_none()
}

impl<const LIMIT: u64> RowRepository for Repository<LIMIT> {
    ghost rows = { rows_in };

    ghost limit = { LIMIT };

    fn new(alloc: Global, catalogue: Catalogue) -> Result<Repository<LIMIT>, OutOfMemory> {
        Repository::new(alloc, catalogue)
    }

    fn len(&self) -> u64 {
        self.len()
    }

    fn apply(&mut self, who: u64, call: &Call, at: Moment) -> Result<Reply, Refusal> {
        self.act_by_rows(who, call, at)
    }

    fn ask(&self, query: &Query) -> Result<Answer, Refusal> {
        self.ask_by_rows(query)
    }

    fn last(&self) -> LastNumbers {
        self.last
    }

    fn show_rows<S: RowSink>(&self, sink: &mut S) -> Result<(), NotTaken> {
        show_executions(&self.records, sink)?;
        show_works(&self.records, sink)?;
        show_checkpoints(&self.records, sink)
    }

    fn has_instances_of(&self, other: &Repository<LIMIT>) -> bool {
        has_same_instances(&self.records, &other.records)
    }
}
