ghost use Rattle.std.specs.Prelude.{◌≡◌, if◌then◌else◌};
ghost use Rattle.job_threads.specs.Ports.{one_more, onward_of};

use crate::port::{Claimed, Port};
use crate::report::Onward;
use batch_history::{Answer, Reply};
use batch_ids::{ExecutionId, MetricStep, Moment, Refusal, T256, Text, WorkId, WorkOutcome};
use batch_operator::Operator;
use job_repository::JobRepository;
use seat_rules::Site;
use sessions::Session;
use std::sync::Wait;

/// A session at an operator, as the port of a worker. Its reports are the checkpoints and finishes
/// among the session's own accepted operations. Its stops are those that the session has found.
#[derive(Drop)]
pub struct SessionPort<'a, R: Wait, N: Site, J: JobRepository> {
    rt: &'a R,
    operator: &'a Operator<N, J>,
    session: Session<N>,
    found_stop: bool,
    finds: u64,
    refused: Option<Refusal>,
    refused_loss: Option<Refusal>,
}

impl<'a, R: Wait, N: Site, J: JobRepository> SessionPort<'a, R, N, J> {
    /// Returns the port of this session.
    pub fn new(
        rt: &'a R,
        operator: &'a Operator<N, J>,
        session: Session<N>,
    ) -> SessionPort<'a, R, N, J> {
        SessionPort {
            rt,
            operator,
            session,
            found_stop: false,
            finds: 0,
            refused: None,
            refused_loss: None,
        }
    }
}

/// Converts the reply to a checkpoint for a worker.
fn onward(reply: &Reply) -> Onward
    ensures { result ≡ onward_of reply.now }
{
    match reply {
        Reply::StopAsked => Onward::StopAsked,
        Reply::Go => Onward::Go,
        Reply::Execution(_) => Onward::Go,
        Reply::Work(_) => Onward::Go,
        Reply::Closed(_) => Onward::Go,
        Reply::Nothing => Onward::Go,
        Reply::Done => Onward::Go,
    }
}

/// Converts the reply to a claim for a worker.
fn claimed(reply: Reply) -> Claimed {
    match reply {
        Reply::Work(item) => Claimed::Work(item),
        Reply::Closed(_) => Claimed::Closed,
        Reply::Nothing => Claimed::Nothing,
        Reply::Execution(_) => Claimed::Nothing,
        Reply::Done => Claimed::Nothing,
        Reply::Go => Claimed::Nothing,
        Reply::StopAsked => Claimed::Nothing,
    }
}

/// Checks whether these counts have an unfinished job execution.
fn is_unfinished(answer: &Answer) -> bool {
    match answer {
        Answer::StatusCounts(counts) => {
            counts.starting > 0 || counts.started > 0 || counts.stopping > 0
        }
        _ => false,
    }
}

/// Returns the number of looks that found a stop, after one more look.
fn finds_after(finds: u64, found: bool) -> u64
    ensures { result ≡ (if found then one_more finds else finds) }
{
    if found { finds.wrapping_add(1) } else { finds }
}

impl<R: Wait, N: Site, J: JobRepository> Port for SessionPort<'_, R, N, J> {
    ghost use Rattle.job_threads.specs.Ports.{reports_in, stops_of};

    ghost reports = { λ port. reports_in port.session.mine };

    ghost stops = { λ port. stops_of port.session.stops port.found_stop port.finds };

    ghost refused = { λ port. port.refused };

    ghost refused_loss = { λ port. port.refused_loss };

    fn claim(&mut self, at: Moment) -> Result<Claimed, Refusal> {
        match self.operator.claim(self.rt, &mut self.session, at) {
            Ok(reply) => Ok(claimed(reply)),
            Err(refusal) => {
                self.refused = Some(refusal);
                Err(refusal)
            }
        }
    }

    fn checkpoint(
        &mut self,
        work: WorkId,
        mark: Text<65536>,
        step: MetricStep,
        at: Moment,
    ) -> Result<Onward, Refusal> {
        match self
            .operator
            .checkpoint(self.rt, &mut self.session, work, mark, step, at)
        {
            Ok(reply) => {
                let told = onward(&reply);
                drop(reply);
                Ok(told)
            }
            Err(refusal) => {
                self.refused = Some(refusal);
                Err(refusal)
            }
        }
    }

    fn finish(
        &mut self,
        work: WorkId,
        outcome: WorkOutcome,
        exit: Option<T256>,
        step: MetricStep,
        at: Moment,
    ) -> Result<(), Refusal> {
        match self
            .operator
            .finish(self.rt, &mut self.session, work, outcome, exit, step, at)
        {
            Ok(done) => {
                drop(done);
                Ok(())
            }
            Err(refusal) => {
                self.refused = Some(refusal);
                Err(refusal)
            }
        }
    }

    fn lose(&mut self, work: WorkId, at: Moment) -> Result<(), Refusal> {
        match self.operator.lose(self.rt, &mut self.session, work, at) {
            Ok(done) => {
                drop(done);
                Ok(())
            }
            Err(refusal) => {
                self.refused_loss = Some(refusal);
                Err(refusal)
            }
        }
    }

    fn stop_seen(&mut self, execution: ExecutionId) -> bool {
        self.found_stop = self.operator.stop_seen(&mut self.session, execution);
        self.finds = finds_after(self.finds, self.found_stop);
        self.found_stop
    }

    fn unfinished(&mut self) -> Result<bool, Refusal> {
        match self.operator.status_counts(self.rt, &mut self.session) {
            Ok(answer) => {
                let unfinished = is_unfinished(&answer);
                drop(answer);
                Ok(unfinished)
            }
            Err(refusal) => {
                self.refused = Some(refusal);
                Err(refusal)
            }
        }
    }
}
