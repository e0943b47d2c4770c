// Work items that run with built-in artifacts, over a port in memory.
use batch_history::{WorkItem, WorkTask};
use batch_ids::{ExecutionId, MetricStep, Moment, Refusal, T256, Text, WorkId, WorkOutcome};
use built_in_artifacts::{BuiltIn, BuiltInArtifact};
use job_threads::{Claimed, Kit, Onward, Port, Report, run_item};
use std::alloc::{AllocError, Global};
use std::test::Fail;

/// A port that stores the reports, and has no work.
#[derive(Drop)]
struct Memory {
    reports: Vec<Report>,
    refused: Option<Refusal>,
}

impl Port for Memory {
    ghost use Rattle.std.specs.Prelude.{[], false, None};
    ghost use Rattle.job_threads.specs.Ports.{stops_of};

    ghost reports = { λ p. p.reports.items };

    ghost stops = { λ _. stops_of [] false 0 };

    ghost refused = { λ p. p.refused };

    ghost refused_loss = { λ _. None };

    fn claim(&mut self, _at: Moment) -> Result<Claimed, Refusal> {
        Ok(Claimed::Nothing)
    }

    fn checkpoint(
        &mut self,
        work: WorkId,
        mark: Text<65536>,
        step: MetricStep,
        at: Moment,
    ) -> Result<Onward, Refusal> {
        let reply = Onward::Go;
        match self.reports.push(Report::Checkpoint {
            work,
            mark,
            step,
            at,
            reply,
        }) {
            Ok(()) => Ok(reply),
            Err(_) => {
                self.refused = Some(Refusal::OutOfMemory);
                Err(Refusal::OutOfMemory)
            }
        }
    }

    fn finish(
        &mut self,
        work: WorkId,
        outcome: WorkOutcome,
        exit: Option<T256>,
        step: MetricStep,
        at: Moment,
    ) -> Result<(), Refusal> {
        match self.reports.push(Report::Finish {
            work,
            outcome,
            exit,
            step,
            at,
        }) {
            Ok(()) => Ok(()),
            Err(_) => {
                self.refused = Some(Refusal::OutOfMemory);
                Err(Refusal::OutOfMemory)
            }
        }
    }

    fn lose(&mut self, _work: WorkId, _at: Moment) -> Result<(), Refusal> {
        Ok(())
    }

    fn stop_seen(&mut self, _execution: ExecutionId) -> bool {
        false
    }

    fn unfinished(&mut self) -> Result<bool, Refusal> {
        Ok(false)
    }
}

/// Returns the reports as a text, a word for each.
fn told(alloc: Global, reports: &[Report]) -> Result<String, Fail> {
    let mut told = String::new(alloc);
    for report in reports {
        tell(&mut told, report)?;
    }
    Ok(told)
}

/// Adds a report to a text.
fn tell(told: &mut String, report: &Report) -> Result<(), AllocError> {
    match report {
        Report::Checkpoint { mark, step, .. } => write!(
            told,
            "{}:{}-{}={} ",
            mark.as_str(),
            step.read_count,
            step.filter_count,
            step.write_count
        ),
        Report::Finish {
            outcome,
            exit,
            step,
            ..
        } => {
            let exit = match exit {
                None => "-",
                Some(exit) => exit.as_str(),
            };
            write!(told, "{outcome} {exit} {}", step.rollback_count)
        }
    }
}

/// Returns the reports of a task that runs with these artifacts.
fn run(alloc: Global, names: &[&str], task: WorkTask) -> Result<String, Fail> {
    let item = item_of(alloc, task)?;
    let told = run_with(alloc, names, &item);
    drop(item);
    told
}

fn item_of(alloc: Global, task: WorkTask) -> Result<WorkItem, Fail> {
    Ok(WorkItem {
        work: WorkId::new(1),
        execution: ExecutionId::new(1),
        element: T256::new(alloc, "s")?,
        partition: None,
        task,
    })
}

fn run_with(alloc: Global, names: &[&str], item: &WorkItem) -> Result<String, Fail> {
    let mut kit = Kit::new(alloc);
    for name in names {
        let built_in = BuiltIn::of(alloc, name)?.unwrap_or(BuiltIn::Fail);
        let artifact = Box::new(alloc, BuiltInArtifact::new(alloc, built_in))?;
        kit.add(name, artifact)?;
    }
    let told = run_on(alloc, &mut kit, item);
    drop(kit);
    told
}

fn run_on(alloc: Global, kit: &mut Kit, item: &WorkItem) -> Result<String, Fail> {
    let mut port = Memory {
        reports: Vec::new(alloc),
        refused: None,
    };
    let _outcome = run_item(alloc, &mut port, kit, item, 0)?;
    told(alloc, port.reports.as_slice())
}

fn chunk(alloc: Global, reader: &str, processor: &str, writer: &str) -> Result<WorkTask, Fail> {
    Ok(WorkTask::Chunk {
        reader: T256::new(alloc, reader)?,
        processor: Some(T256::new(alloc, processor)?),
        writer: T256::new(alloc, writer)?,
        item_count: 2,
        checkpoint: None,
    })
}

/// Names of artifacts, and the reports of a batchlet and of a decision by each.
const BATCHLETS: [(&str, &str); 5] = [
    ("ok", "COMPLETED - 0"),
    ("exit:T", "COMPLETED T 0"),
    ("fail", "FAILED - 0"),
    ("odd", "FAILED - 0"),
    ("other", "FAILED - 0"),
];

#[test]
fn batchlets_and_decisions(rt: HostRuntime) -> Result<(), Fail> {
    let alloc = rt.alloc();
    for (name, wanted) in &BATCHLETS {
        let artifact = T256::new(alloc, name)?;
        let batchlet = WorkTask::Batchlet { artifact };
        assert!(rt; is_told(alloc, &[*name], batchlet, wanted)?, "{name}");
        let artifact = T256::new(alloc, name)?;
        let decision = WorkTask::Decision { artifact };
        assert!(rt; is_told(alloc, &[*name], decision, wanted)?, "{name}");
    }
    Ok(())
}

/// Checks the reports of a task.
fn is_told(alloc: Global, names: &[&str], task: WorkTask, wanted: &str) -> Result<bool, Fail> {
    let told = run(alloc, names, task)?;
    Ok(told.as_str() == wanted)
}

/// Readers, processors and writers, and the reports of a chunk of them.
const CHUNKS: [(&str, &str, &str, &str); 11] = [
    (
        "count:5",
        "odd",
        "sink",
        "2:2-1=1 4:2-1=1 5:1-0=1 COMPLETED - 0",
    ),
    ("count:4", "odd", "sink", "2:2-1=1 4:2-1=1 COMPLETED - 0"),
    ("count:0", "ok", "sink", "COMPLETED - 0"),
    ("count:5", "ok", "sink", "FAILED - 1"),
    ("count:5", "odd", "count:5", "FAILED - 1"),
    ("count:5", "odd", "fail", "FAILED - 0"),
    ("sink", "odd", "sink", "FAILED - 1"),
    ("odd", "odd", "sink", "FAILED - 0"),
    ("other", "odd", "sink", "FAILED - 0"),
    ("count:5", "other", "sink", "FAILED - 1"),
    ("count:0", "other", "sink", "COMPLETED - 0"),
];

#[test]
fn chunks(rt: HostRuntime) -> Result<(), Fail> {
    let alloc = rt.alloc();
    for (reader, processor, writer, wanted) in &CHUNKS {
        let task = chunk(alloc, reader, processor, writer)?;
        let is_so = is_told(alloc, &[*reader, *processor, *writer], task, wanted)?;
        assert!(rt; is_so, "{reader} {processor} {writer}");
    }
    Ok(())
}
