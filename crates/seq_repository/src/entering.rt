ghost use Rattle.std.specs.Prelude.{ℕ, ◌≡◌, ◌<◌, ◌+◌, [], ◌∷◌, ◌++◌, true, false, find, Option, is_some, IfOk, IfSome, OnOk, OnErr, List, Ok};
ghost use Rattle.std.specs.List.{list_any};
ghost use Rattle.std.specs.Option.{option_copied, option_map};
ghost use Rattle.batch_history.specs.declared.rows.ExecutionRow.{ExecutionRow as Row};
ghost use Rattle.batch_history.specs.declared.rows.WorkRow.{WorkRow as Work};
ghost use Rattle.batch_history.specs.Lists.{change_first};
ghost use Rattle.batch_history.specs.Replies.{is_execution, is_running_in, reply_by, is_nothing};
ghost use Rattle.batch_history.specs.Walks.{job_named};
ghost use Rattle.batch_ids.specs.declared.metric_step.MetricStep.{MetricStep as Counts};
ghost use Rattle.batch_history.specs.NextRows.{over, reported as counted_to, rows_after};
ghost use Rattle.batch_history.specs.Works.{is_work};
ghost use Rattle.seq_repository.specs.Reports.{IsChange, IsHanded, IsReport};
ghost use Rattle.seq_repository.specs.Kept.{rows_in};
ghost use Rattle.records.specs.Maps.{is_instance};
ghost use Rattle.seq_repository.specs.Agendas.{is_ready_row};
ghost use Rattle.seq_repository.specs.Following.{Walks};
ghost use Rattle.jsl_model.specs.Jobs.{JobTree as Tree};
ghost use Rattle.seq_repository.specs.Changes.{Replaces, ReplacesExecution, abandoned_at, put_row, place_at, row_after, row_given_up, LeavesMark};

use crate::after::{After, End, Reported, after_checkpoint, after_end};
use crate::repository::Repository;
use crate::rows::Change;
use crate::{adding, agenda, cursors, rows};
use batch_history::{Call, ExecutionRow, JobInstance, Reply, WorkItem};
use batch_ids::{
    ExecutionId, InstanceId, MetricStep, Moment, OutOfMemory, Parameters, T256, Text, WorkId,
    WorkOutcome,
};
use job_walk::Cursor;
use records::Records;
use restart_rules::{first_plan, restart_plan};
use std::alloc::Global;
use walk_rules::WorkKey;

/// Replaces the row of a job execution, if a new one is given.
fn put_row(records: &mut Records, x: ExecutionId, new: Option<ExecutionRow>)
    requires { IfSome new (λ row. ReplacesExecution records.old.executions x row) }
    ensures { records.new ≡ record records.old { executions = put_row x new records.old.executions } }
{
    match new {
        None => {}
        Some(row) => records.change_execution(x, row),
    }
}

/// Drops the checkpoint of a step if the outcome is COMPLETED.
fn drop_mark(records: &mut Records, outcome: WorkOutcome, row: &Option<ExecutionRow>, step: WorkKey)
    ensures { LeavesMark outcome (place_at row.now step) records.old records.new }
{
    match outcome {
        WorkOutcome::Completed => match row {
            None => {}
            Some(row) => match records.set_checkpoint(row.instance, step, None) {
                Ok(()) => {}
                Err(_) => unreachable!(),
            },
        },
        WorkOutcome::Failed => {}
        WorkOutcome::Stopped => {}
    }
}

/// Returns the row of a job execution after an operation on it, if it exists, and whether there is
/// something to do for it. `owner` is its row before, and `cursor` has its walk after the operation.
pub(crate) fn execution_after(
    alloc: Global,
    owner: Option<&ExecutionRow>,
    change: Change,
    cursor: &Option<Cursor>,
    at: Moment,
) -> Result<(Option<ExecutionRow>, bool), OutOfMemory>
    ensures row { (catalogue : List Tree) (works : List Work)
        → Walks catalogue works (option_copied owner.entry) cursor.now
        → IfOk result (λ new. new.0 ≡ option_map (row_after change catalogue works at)
        (option_copied owner.entry)) }
    ensures own { IfOk result (λ new. IfSome new.0 (Replaces (option_copied owner.entry))) }
    ensures ready { (catalogue : List Tree) (works : List Work)
        → Walks catalogue works (option_copied owner.entry) cursor.now
        → IfOk result (λ new. new.1 ≡ is_ready_row catalogue works new.0) }
{
    let (Some(row), Some(cursor)) = (owner, cursor) else {
        return Ok((None, false));
    };
    let value = cursor.value();
    let shown = reply_rules::first_ready(value).is_some();
    let new = rows::change_row(alloc, change, value, at, row)?;
    let ready = reply_rules::has_something(new.status(), shown);
    Ok((Some(new), ready))
}

/// Returns the row of a job execution that is abandoned now, if it exists.
fn given_up(owner: Option<&ExecutionRow>, at: Moment) -> Result<Option<ExecutionRow>, OutOfMemory>
    ensures row { IfOk result (λ new. new ≡ option_map (abandoned_at at) (option_copied owner.entry)) }
    ensures own { IfOk result (λ new. IfSome new (Replaces (option_copied owner.entry))) }
{
    match owner {
        None => Ok(None),
        Some(row) => Ok(Some(rows::give_up_row(at, row)?)),
    }
}

impl<const LIMIT: u64> Repository<LIMIT> {
    fn enter_start(
        &mut self,
        job: &T256,
        parameters: &Parameters,
        at: Moment,
    ) -> Result<(), OutOfMemory>
        requires room { self.old.count < LIMIT }
        requires there { is_some (job_named self.old.catalogue job.now) ≡ true }
        ensures rows { OnOk result (rows_in self.new ≡ rows_after (rows_in self.old) record {
          who = 0;
          call = Call.Start job.now parameters.now;
          at = at;
          reply = Reply.Done;
        }) }
        ensures unchanged { OnErr result (self.new ≡ self.old) }
    {
        let Some(tree) = self.catalogue.job(job.as_str()) else {
            unreachable!();
        };
        let instance = InstanceId::new(self.last.instance + 1);
        let x = self.last.execution + 1;
        let job = job.try_clone()?;
        let made = JobInstance { instance, job };
        let plan = first_plan(self.alloc, tree)?;
        let job = &made.job;
        let row = rows::new_execution(self.alloc, x, instance, at, job, parameters, plan)?;
        adding::add_instance(&mut self.agenda, &mut self.records, made, row)?;
        self.last.instance += 1;
        self.last.execution += 1;
        self.count += 1;
        Ok(())
    }

    fn enter_restart(
        &mut self,
        y: ExecutionId,
        parameters: &Parameters,
        at: Moment,
    ) -> Result<(), OutOfMemory>
        requires room { self.old.count < LIMIT }
        requires there { is_some (find (is_execution y) self.old.records.executions) ≡ true }
        ensures rows { OnOk result (rows_in self.new ≡ rows_after (rows_in self.old) record {
          who = 0;
          call = Call.Restart y parameters.now;
          at = at;
          reply = Reply.Done;
        }) }
        ensures unchanged { OnErr result (self.new ≡ self.old) }
    {
        let Some(earlier) = self.records.execution(y) else {
            unreachable!();
        };
        let plan = restart_plan(self.alloc, &self.records, &self.catalogue, earlier)?;
        let instance = earlier.instance;
        let x = self.last.execution + 1;
        let job = &earlier.job;
        let row = rows::new_execution(self.alloc, x, instance, at, job, parameters, plan)?;
        adding::add_execution(&mut self.agenda, &mut self.records, row)?;
        self.last.execution += 1;
        self.count += 1;
        Ok(())
    }

    /// Enters an operation on a job execution that changes no work item.
    fn enter_change(
        &mut self,
        x: ExecutionId,
        change: Change,
        at: Moment,
    ) -> Result<(), OutOfMemory>
        requires { self.old.count < LIMIT }
        ensures rows { OnOk result (rows_in self.new ≡ record (rows_in self.old) {
          count = self.old.count + 1;
          executions = change_first (is_execution x)
              (row_after change self.old.catalogue self.old.records.works at)
              self.old.records.executions;
        }) }
        ensures unchanged { OnErr result (self.new ≡ self.old) }
    {
        let owner = self.records.execution(x);
        let kept = cursors::take(&mut self.cursors, x);
        let mut cursor = cursors::current(kept, self.alloc, &self.catalogue, &self.records, owner)?;
        let result = match execution_after(self.alloc, owner, change, &cursor, at) {
            Ok((row, ready)) => self.put_change(x, row, ready, &mut cursor),
            Err(error) => Err(error),
        };
        drop(cursor);
        result
    }

    /// Stores the row of a job execution after an operation that changes no work item, and its walk.
    fn put_change(
        &mut self,
        x: ExecutionId,
        row: Option<ExecutionRow>,
        ready: bool,
        cursor: &mut Option<Cursor>,
    ) -> Result<(), OutOfMemory>
        requires room { self.old.count < LIMIT }
        requires change { (f : Row → Row) × IsChange self.old x f row ready cursor.old }
        ensures rows { (f : Row → Row) → IsChange self.old x f row ready cursor.old
            → OnOk result (rows_in self.new ≡ record (rows_in self.old) {
              count = self.old.count + 1;
              executions = change_first (is_execution x) f self.old.records.executions;
            }) }
        ensures unchanged { OnErr result (self.new ≡ self.old) }
    {
        if let Err(error) = agenda::put(&mut self.agenda, x, ready) {
            drop(row);
            return Err(error);
        }
        agenda::remove_if(&mut self.agenda, x, !ready);
        cursors::keep(&mut self.cursors, x, &row, cursor.take());
        put_row(&mut self.records, x, row);
        self.count += 1;
        Ok(())
    }

    /// Enters that a job execution is abandoned. Nothing of its walk changes.
    fn enter_abandonment(&mut self, x: ExecutionId, at: Moment) -> Result<(), OutOfMemory>
        requires room { self.old.count < LIMIT }
        ensures rows { OnOk result (rows_in self.new ≡ record (rows_in self.old) {
          count = self.old.count + 1;
          executions = change_first (is_execution x)
              (row_given_up self.old.catalogue self.old.records.works at)
              self.old.records.executions;
        }) }
        ensures unchanged { OnErr result (self.new ≡ self.old) }
    {
        let row = given_up(self.records.execution(x), at)?;
        self.put_change(x, row, false, &mut None)
    }

    fn enter_work(&mut self, who: u64, at: Moment, item: &WorkItem) -> Result<(), OutOfMemory>
        requires room { self.old.count < LIMIT }
        requires due { reply_by LIMIT (rows_in self.old) who Call.Claim ≡ Ok (Reply.Work item.now) }
        ensures rows { OnOk result (rows_in self.new ≡ rows_after (rows_in self.old) record {
          who = who;
          call = Call.Claim;
          at = at;
          reply = Reply.Work item.now;
        }) }
        ensures unchanged { OnErr result (self.new ≡ self.old) }
    {
        let owner = self.records.execution(item.execution);
        let kept = cursors::take(&mut self.cursors, item.execution);
        let mut cursor = cursors::claimed(
            kept,
            self.alloc,
            &self.catalogue,
            &self.records,
            owner,
            item,
        )?;
        let result = match execution_after(self.alloc, owner, Change::Claim, &cursor, at) {
            Ok((row, ready)) => self.put_work(who, at, item, row, ready, &mut cursor),
            Err(error) => Err(error),
        };
        drop(cursor);
        result
    }

    /// Stores the row of a work item that is handed out, and that of its job execution, and its walk.
    fn put_work(
        &mut self,
        who: u64,
        at: Moment,
        item: &WorkItem,
        row: Option<ExecutionRow>,
        ready: bool,
        cursor: &mut Option<Cursor>,
    ) -> Result<(), OutOfMemory>
        requires room { self.old.count < LIMIT }
        requires due { reply_by LIMIT (rows_in self.old) who Call.Claim ≡ Ok (Reply.Work item.now) }
        requires handed { IsHanded self.old who at item.now row ready cursor.old }
        ensures rows { OnOk result (rows_in self.new ≡ rows_after (rows_in self.old) record {
          who = who;
          call = Call.Claim;
          at = at;
          reply = Reply.Work item.now;
        }) }
        ensures unchanged { OnErr result (self.new ≡ self.old) }
    {
        let x = item.execution;
        let added = adding::add_work(&mut self.agenda, &mut self.records, ready, who, at, item);
        if let Err(error) = added {
            drop(row);
            return Err(error);
        }
        agenda::remove_if(&mut self.agenda, x, !ready);
        cursors::keep(&mut self.cursors, x, &row, cursor.take());
        self.last.work += 1;
        put_row(&mut self.records, x, row);
        self.count += 1;
        Ok(())
    }

    fn enter_checkpoint(
        &mut self,
        at: Moment,
        w: WorkId,
        mark: &Text<65536>,
        step: &MetricStep,
    ) -> Result<(), OutOfMemory>
        requires room { self.old.count < LIMIT }
        requires held { is_some (find (is_work w) self.old.records.works) ≡ true }
        ensures rows { OnOk result (rows_in self.new ≡ rows_after (rows_in self.old) record {
          who = 0;
          call = Call.Checkpoint w mark.now step.now;
          at = at;
          reply = Reply.Done;
        }) }
        ensures unchanged { OnErr result (self.new ≡ self.old) }
    {
        let Some(work) = self.records.work(w) else {
            unreachable!();
        };
        let owner = self.records.execution(work.execution);
        let kept = cursors::take(&mut self.cursors, work.execution);
        let mut cursor = cursors::current(kept, self.alloc, &self.catalogue, &self.records, owner)?;
        let result = match after_checkpoint(self.alloc, owner, work, *step, &cursor, at) {
            Ok(reported) => self.put_checkpoint(w, mark, reported, &mut cursor),
            Err(error) => Err(error),
        };
        drop(cursor);
        result
    }

    /// Stores the rows of a work item and of its job execution after a checkpoint of the work item.
    fn put_checkpoint(
        &mut self,
        w: WorkId,
        mark: &Text<65536>,
        reported: Reported,
        cursor: &mut Option<Cursor>,
    ) -> Result<(), OutOfMemory>
        requires room { self.old.count < LIMIT }
        requires report { (at : ℕ) × IsReport self.old w at reported.work reported.after cursor.old }
        ensures rows { (at : ℕ) (step : Counts)
            → IsReport self.old w at reported.work reported.after cursor.old
            → IfSome (find (is_work w) self.old.records.works)
            (λ row. reported.work ≡ counted_to step row)
            → OnOk result (rows_in self.new ≡ rows_after (rows_in self.old) record {
              who = 0;
              call = Call.Checkpoint w mark.now step;
              at = at;
              reply = Reply.Done;
            }) }
        ensures unchanged { OnErr result (self.new ≡ self.old) }
    {
        let Reported { work, after } = reported;
        let x = work.execution;
        let After { step, row, ready } = after;
        let put = adding::put_mark(
            &mut self.agenda,
            &mut self.records,
            x,
            ready,
            &row,
            step,
            mark,
        );
        if let Err(error) = put {
            drop(work);
            drop(row);
            return Err(error);
        }
        agenda::remove_if(&mut self.agenda, x, !ready);
        cursors::keep(&mut self.cursors, x, &row, cursor.take());
        self.records.change_work(w, work);
        put_row(&mut self.records, x, row);
        self.count += 1;
        Ok(())
    }

    fn enter_finish(
        &mut self,
        at: Moment,
        w: WorkId,
        outcome: WorkOutcome,
        exit: &Option<T256>,
        step: &MetricStep,
    ) -> Result<(), OutOfMemory>
        requires room { self.old.count < LIMIT }
        requires held { is_some (find (is_work w) self.old.records.works) ≡ true }
        ensures rows { OnOk result (rows_in self.new ≡ rows_after (rows_in self.old) record {
          who = 0;
          call = Call.Finish w outcome exit.now step.now;
          at = at;
          reply = Reply.Done;
        }) }
        ensures unchanged { OnErr result (self.new ≡ self.old) }
    {
        let Some(work) = self.records.work(w) else {
            unreachable!();
        };
        let end = End {
            outcome,
            exit: reply_rules::exit_or_name(self.alloc, outcome, exit)?,
            step: *step,
            at,
            number: self.count + 1,
        };
        let owner = self.records.execution(work.execution);
        let kept = cursors::take(&mut self.cursors, work.execution);
        let mut cursor = cursors::finished(
            kept,
            self.alloc,
            &self.catalogue,
            &self.records,
            owner,
            work,
            w,
            outcome,
            &end.exit,
        )?;
        let result = match after_end(self.alloc, owner, work, end, &cursor) {
            Ok(reported) => self.put_end(w, outcome, reported, &mut cursor),
            Err(error) => Err(error),
        };
        drop(cursor);
        result
    }

    /// Stores the rows of a work item and of its job execution after the end of the work item.
    fn put_end(
        &mut self,
        w: WorkId,
        outcome: WorkOutcome,
        reported: Reported,
        cursor: &mut Option<Cursor>,
    ) -> Result<(), OutOfMemory>
        requires room { self.old.count < LIMIT }
        requires report { (at : ℕ) × IsReport self.old w at reported.work reported.after cursor.old }
        ensures rows { (at : ℕ) (given : Option (List ℕ)) (step : Counts)
            → IsReport self.old w at reported.work reported.after cursor.old
            → IfSome (find (is_work w) self.old.records.works)
            (λ row. reported.work ≡ over outcome given step at (self.old.count + 1) row)
            → OnOk result (rows_in self.new ≡ rows_after (rows_in self.old) record {
              who = 0;
              call = Call.Finish w outcome given step;
              at = at;
              reply = Reply.Done;
            }) }
        ensures unchanged { OnErr result (self.new ≡ self.old) }
    {
        let Reported { work, after } = reported;
        let x = work.execution;
        let After { step, row, ready } = after;
        if let Err(error) = agenda::put(&mut self.agenda, x, ready) {
            drop(work);
            drop(row);
            return Err(error);
        }
        agenda::remove_if(&mut self.agenda, x, !ready);
        cursors::keep(&mut self.cursors, x, &row, cursor.take());
        drop_mark(&mut self.records, outcome, &row, step);
        self.records.change_work(w, work);
        put_row(&mut self.records, x, row);
        self.count += 1;
        Ok(())
    }

    /// Enters that a work item is lost: it is FAILED.
    fn enter_loss(&mut self, at: Moment, w: WorkId) -> Result<(), OutOfMemory>
        requires room { self.old.count < LIMIT }
        requires held { is_some (find (is_work w) self.old.records.works) ≡ true }
        ensures rows { OnOk result (rows_in self.new ≡ rows_after (rows_in self.old) record {
          who = 0;
          call = Call.Lose w;
          at = at;
          reply = Reply.Done;
        }) }
        ensures unchanged { OnErr result (self.new ≡ self.old) }
    {
        self.enter_finish(at, w, WorkOutcome::Failed, &None, &MetricStep::zero())
    }

    /// Enters that a job instance is purged. It takes no memory.
    fn enter_purge(&mut self, i: InstanceId)
        requires room { self.old.count < LIMIT }
        requires there { is_some (find (is_instance i) self.old.records.instances) ≡ true }
        requires finished { list_any (is_running_in i) self.old.records.executions ≡ false }
        ensures { rows_in self.new ≡ rows_after (rows_in self.old) record {
          who = 0;
          call = Call.Purge i;
          at = 0;
          reply = Reply.Done;
        } }
    {
        self.records.remove_instance(i);
        self.count += 1;
    }

    #[tactic(auto, using(crate::proofs::Replying::claimed_next, crate::proofs::Entries::closed_rows))]
    fn enter_claim(&mut self, who: u64, at: Moment, reply: &Reply) -> Result<(), OutOfMemory>
        requires room { self.old.count < LIMIT }
        requires due { reply_by LIMIT (rows_in self.old) who Call.Claim ≡ Ok reply.now }
        requires entered { is_nothing reply.now ≡ false }
        ensures rows { OnOk result (rows_in self.new ≡ rows_after (rows_in self.old) record {
          who = who;
          call = Call.Claim;
          at = at;
          reply = reply.now;
        }) }
        ensures unchanged { OnErr result (self.new ≡ self.old) }
    {
        match reply {
            Reply::Work(item) => self.enter_work(who, at, item),
            Reply::Closed(x) => self.enter_change(*x, Change::Claim, at),
            _ => unreachable!(),
        }
    }

    /// Enters a call with its reply.
    #[tactic(auto, using(crate::proofs::Replying::started_there, crate::proofs::Replying::restarted_there, crate::proofs::Replying::lost_there, crate::proofs::Replying::checkpointed_there, crate::proofs::Replying::finished_there, crate::proofs::Entries::stop_rows, crate::proofs::Entries::abandon_rows))]
    pub(crate) fn enter_call(
        &mut self,
        who: u64,
        call: &Call,
        at: Moment,
        reply: &Reply,
    ) -> Result<(), OutOfMemory>
        requires room { self.old.count < LIMIT }
        requires due { reply_by LIMIT (rows_in self.old) who call.now ≡ Ok reply.now }
        requires entered { is_nothing reply.now ≡ false }
        ensures rows { OnOk result (rows_in self.new ≡ rows_after (rows_in self.old) record {
          who = who;
          call = call.now;
          at = at;
          reply = reply.now;
        }) }
        ensures unchanged { OnErr result (self.new ≡ self.old) }
    {
        match call {
            Call::Start { job, parameters } => self.enter_start(job, parameters, at),
            Call::Restart {
                execution,
                parameters,
            } => self.enter_restart(*execution, parameters, at),
            Call::Stop { execution } => self.enter_change(*execution, Change::StopRequest, at),
            Call::Abandon { execution } => self.enter_abandonment(*execution, at),
            Call::Claim => self.enter_claim(who, at, reply),
            Call::Checkpoint { work, mark, step } => {
                self.enter_checkpoint(at, *work, mark, step)
            }
            Call::Finish {
                work,
                outcome,
                exit,
                step,
            } => self.enter_finish(at, *work, *outcome, exit, step),
            Call::Lose { work } => self.enter_loss(at, *work),
            Call::Purge { instance } => {
                self.enter_purge(*instance);
                Ok(())
            }
        }
    }
}
