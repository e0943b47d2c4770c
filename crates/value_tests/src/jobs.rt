use batch_ids::Listed;
use jsl_model::{BodyParts, ElementParts, Job, JobFault, JobParts, StepParts, TaskParts};
use std::alloc::{AllocError, Global};
use std::test::Fail;

/// Returns a job of one chunk with this item count and number of partitions. No catalogue in JSON
/// can give an item count of 0, or a step of 0 or more than 64 partitions.
fn chunk(alloc: Global, item_count: u32, partitions: Option<u32>) -> Result<JobParts, AllocError> {
    let id = String::from_str(alloc, "j")?;
    let step = StepParts {
        next: None,
        transitions: Listed::new(alloc),
        start_limit: 0,
        allow_start_if_complete: false,
        partitions,
        task: chunk_task(alloc, item_count)?,
    };
    let mut elements = Listed::new(alloc);
    elements.push(ElementParts {
        id,
        body: BodyParts::Step(step),
    })?;
    Ok(JobParts {
        id: String::from_str(alloc, "j")?,
        restartable: true,
        elements,
    })
}

fn chunk_task(alloc: Global, item_count: u32) -> Result<TaskParts, AllocError> {
    let reader = String::from_str(alloc, "r")?;
    let writer = String::from_str(alloc, "w")?;
    Ok(TaskParts::Chunk {
        reader,
        processor: None,
        writer,
        item_count,
    })
}

/// Returns the fault of such a job, if it has one.
fn fault_of(
    alloc: Global,
    item_count: u32,
    partitions: Option<u32>,
) -> Result<Option<JobFault>, AllocError> {
    let parts = chunk(alloc, item_count, partitions)?;
    Ok(Job::check(alloc, parts).err())
}

#[test]
fn a_chunk_has_an_item_count_from_1(rt: HostRuntime) -> Result<(), Fail> {
    assert!(rt; fault_of(rt.alloc(), 0, None)? == Some(JobFault::Empty));
    assert!(rt; fault_of(rt.alloc(), 1, None)?.is_none());
    Ok(())
}

/// Numbers of partitions, and their faults.
const PARTITIONS: [(u32, Option<JobFault>); 4] = [
    (0, Some(JobFault::Empty)),
    (1, None),
    (64, None),
    (65, Some(JobFault::TooMany)),
];

#[test]
fn a_step_has_1_to_64_partitions(rt: HostRuntime) -> Result<(), Fail> {
    for (partitions, wanted) in &PARTITIONS {
        let fault = fault_of(rt.alloc(), 1, Some(*partitions))?;
        assert!(rt; fault == *wanted, "{partitions}");
    }
    Ok(())
}
