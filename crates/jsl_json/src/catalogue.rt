ghost use Rattle.std.specs.Prelude.{◌≡◌, ◌++◌, ◌∷◌, [], false, option_map, Ok, Err, Some, None, IfOk, IfErr, OnOk};
ghost use Rattle.serde_json.specs.View.{view, items_view};
ghost use Rattle.jsl_model.specs.Parts.{tree_of};
ghost use Rattle.jsl_model.specs.Faults.{is_out_of_memory as is_memory};
ghost use Rattle.jsl_json.specs.Catalogues.{is_out_of_memory, entry_fault, job_at, with_job, with_jobs, jobs_of, catalogue_in, catalogue_of};

use crate::element::elements_at;
use crate::fault::ReadFault;
use crate::members::own_job_of;
use jsl_model::{Catalogue, Job, JobFault, JobParts};
use json_members::{has_only, list_at, read_value};
use serde_json::Value;
use std::alloc::Global;

/// Reads a catalogue from a JSON text (Jakarta Batch 2.1, "Job Specification Language").
///
/// Each object has the members listed here and no others. Those with `?` may be left out, and null
/// is not a value of any of them. If a member comes twice, the last one counts.
///
/// ```text
/// catalogue    {"jobs": [job, ..]}
/// job          id, restartable? (a truth value, true), elements: [element, ..]
/// step         kind: "step", id, next?, start-limit? (0 to 4,294,967,295, 0),
///              allow-start-if-complete? (a truth value, false), partitions? (1 to 64; left out:
///              not partitioned), transitions?, exactly one of batchlet: artifact and chunk
/// chunk        item-count? (1 to 4,294,967,295, 10), reader: artifact, processor?: artifact,
///              writer: artifact
/// artifact     ref
/// flow         kind: "flow", id, next?, elements: [element, ..], transitions?
/// split        kind: "split", id, next?, flows: [split flow, ..]
/// split flow   kind: "flow", id, elements: [element, ..]
/// decision     kind: "decision", id, ref, transitions?
/// transitions  [transition, ..]; left out: none
/// transition   kind: "next", on, to
///              kind: "end" or "fail", on, exit-status?
///              kind: "stop", on, exit-status?, restart?
/// ```
///
/// The other members are texts.
///
/// The elements of a job are counted from 0 in written order, an element before those inside it.
/// The flows of splits are counted too.
///
/// The time and memory are proportional to the bytes of the text. Each job also costs time and
/// memory proportional to the jobs of the catalogue.
///
/// # Errors
///
/// Returns the first fault in this order:
/// - `NotJson`: the bytes are not UTF-8 or not one JSON value.
/// - `NotACatalogue`: the value is no object with just `jobs`, a list.
/// - Then, for each job in turn, counted from 0:
///   - `BadElement` without an element, for the job's own members.
///   - `BadElement` with the number of the first element whose own members are wrong, with its
///     artifacts and transition elements.
///   - `InJob` with the faults of `Job::check`.
///   - `InJob` with the faults of `Catalogue::add`.
///
/// Returns `OutOfMemory` instead of any result if memory is refused.
#[tactic(auto, unfolding(crate::specs::Catalogues::catalogue_of))]
pub fn read_catalogue(alloc: Global, bytes: &[u8]) -> Result<Catalogue, ReadFault>
    ensures read { IfOk result (λ catalogue. catalogue_of bytes.now ≡ Ok catalogue) }
    ensures fault { IfErr result (λ fault. is_out_of_memory fault ≡ false
        → catalogue_of bytes.now ≡ Err fault) }
{
    let value = read_value(alloc, bytes)?;
    match &value {
        Some(value) => catalogue_of_value(alloc, value),
        None => Err(ReadFault::NotJson),
    }
}

#[tactic(auto, unfolding(crate::specs::Catalogues::catalogue_in))]
fn catalogue_of_value(alloc: Global, value: &Value) -> Result<Catalogue, ReadFault>
    ensures read { IfOk result (λ catalogue. catalogue_in (view value.now) ≡ Ok catalogue) }
    ensures fault { IfErr result (λ fault. is_out_of_memory fault ≡ false
        → catalogue_in (view value.now) ≡ Err fault) }
{
    match jobs_of(value) {
        Some(jobs) => catalogue_of_jobs(alloc, jobs),
        None => Err(ReadFault::NotACatalogue),
    }
}

#[tactic(auto, unfolding(crate::specs::Catalogues::jobs_of))]
fn jobs_of(value: &Value) -> Option<&[Value]>
    ensures { option_map (λ jobs. items_view jobs.now) result ≡ jobs_of (view value.now) }
{
    if !has_only(value, &["jobs"]) {
        return None;
    }
    list_at(value, "jobs")
}

fn catalogue_of_jobs(alloc: Global, jobs: &[Value]) -> Result<Catalogue, ReadFault>
    ensures read { IfOk result (λ catalogue. with_jobs [] (items_view jobs.now) ≡ Ok catalogue) }
    ensures fault { IfErr result (λ fault. is_out_of_memory fault ≡ false
        → with_jobs [] (items_view jobs.now) ≡ Err fault) }
{
    let mut catalogue = Catalogue::new(alloc);
    for value in jobs {
        add_job(alloc, &mut catalogue, value)?;
    }
    Ok(catalogue)
}

/// Adds the job of a value. Its number is the number of jobs before it.
#[tactic(auto, unfolding(crate::specs::Catalogues::with_job))]
fn add_job(alloc: Global, catalogue: &mut Catalogue, value: &Value) -> Result<(), ReadFault>
    ensures added { OnOk result (with_job catalogue.old (view value.now) ≡ Ok catalogue.new) }
    ensures fault { IfErr result (λ fault. is_out_of_memory fault ≡ false
        → with_job catalogue.old (view value.now) ≡ Err fault) }
{
    let number = catalogue.len() as u64;
    let parts = job_at(alloc, number, value)?;
    let job = match Job::check(alloc, parts) {
        Ok(job) => job,
        Err(fault) => return Err(in_job(number, fault)),
    };
    match add_to(catalogue, job) {
        Ok(()) => Ok(()),
        Err(fault) => Err(in_job(number, fault)),
    }
}

/// Reads the parts of the job of this number.
#[tactic(auto, unfolding(crate::specs::Catalogues::job_at))]
fn job_at(alloc: Global, job: u64, value: &Value) -> Result<JobParts, ReadFault>
    ensures read { IfOk result (λ parts. job_at job (view value.now) ≡ Ok (tree_of parts)) }
    ensures fault { IfErr result (λ fault. is_out_of_memory fault ≡ false
        → job_at job (view value.now) ≡ Err fault) }
{
    let Some(own) = own_job_of(value) else {
        return Err(ReadFault::BadElement { job, element: None });
    };
    let id = String::from_str(alloc, own.id)?;
    let (elements, _) = elements_at(alloc, job, own.elements, 0)?;
    Ok(JobParts {
        id,
        restartable: own.restartable,
        elements,
    })
}

/// Adds a job to a catalogue.
fn add_to(catalogue: &mut Catalogue, job: Job) -> Result<(), JobFault>
    ensures added { OnOk result (catalogue.new ≡ catalogue.old ++ job ∷ []) }
    ensures faultless { OnOk result (entry_fault catalogue.old job ≡ None) }
    ensures fault { IfErr result (λ fault. is_memory fault ≡ false
        → entry_fault catalogue.old job ≡ Some fault) }
{
    catalogue.add(job)
}

/// Makes the fault of the job of this number.
fn in_job(job: u64, fault: JobFault) -> ReadFault
    ensures memory { is_out_of_memory result ≡ is_memory fault }
    ensures same { is_memory fault ≡ false → result ≡ ReadFault.InJob job fault }
{
    match fault {
        JobFault::TextTooLong => ReadFault::InJob { job, fault },
        JobFault::Empty => ReadFault::InJob { job, fault },
        JobFault::TooDeep => ReadFault::InJob { job, fault },
        JobFault::TooMany => ReadFault::InJob { job, fault },
        JobFault::DuplicateId => ReadFault::InJob { job, fault },
        JobFault::NoSuchTarget => ReadFault::InJob { job, fault },
        JobFault::Loop => ReadFault::InJob { job, fault },
        JobFault::RestartNotJobLevel => ReadFault::InJob { job, fault },
        JobFault::OutOfMemory => ReadFault::OutOfMemory,
    }
}
