// The site of a fault: the steps to the value that is wrong, or to the object that lacks a member.
ghost use Rattle.std.specs.Prelude.{◌≡◌, ◌++◌, ◌∷◌, [], map, slice_get, option_map, option_and_then, IfOk};
ghost use Rattle.std.specs.BTreeMap.{keys};
ghost use Rattle.serde_json.specs.View.{view};
ghost use Rattle.catalogue_places.specs.Flaws.{job_flaw};
ghost use Rattle.element_numbers.specs.Numbering.{nth, key_of, value_by};
ghost use Rattle.fault_places.specs.Sites.{spot_of, to_member, to_name, nth_name, site_of, path_inside, job_of, job_path, element_of, element_path, element_site, element_or_job, job_fault_site, site_in};
ghost use Rattle.fault_places.specs.SiteViews.{keys_of, site_view, Few, FewIn};

use crate::deep::too_deep_site;
use crate::hits::hit_or_job;
use batch_ids::OutOfMemory;
use catalogue_places::{
    Flaw, Inside, Member, Spot, catalogue_flaw, element_spot, job_flaw, split_flow_flaw,
};
use element_numbers::{Numbered, element_of_number};
use jsl_json::ReadFault;
use jsl_model::JobFault;
use json_members::list_at;
use json_places::Step;
use serde_json::{Map, Value};
use std::alloc::Global;

/// The value that is wrong, or the object that lacks a member.
#[derive(Drop)]
pub struct Site {
    /// The steps to it from the root.
    pub path: Vec<Step>,
    /// The member that it lacks.
    pub lacks: Option<Member>,
}

pub(crate) fn with_member(
    alloc: Global,
    path: Vec<Step>,
    member: Member,
) -> Result<Vec<Step>, OutOfMemory>
    ensures { IfOk result (λ longer. keys_of longer ≡ keys_of path ++ to_member member ∷ []) }
{
    let name = String::from_str(alloc, member.name())?;
    let mut longer = path;
    longer.push(Step::Member(name))?;
    Ok(longer)
}

/// Adds the step to a member by its name, if there is one.
fn with_name(alloc: Global, path: Vec<Step>, name: Option<&str>) -> Result<Vec<Step>, OutOfMemory>
    ensures { IfOk result (λ longer. keys_of longer
        ≡ keys_of path ++ to_name (option_map (λ text. text.now) name.entry)) }
{
    let Some(name) = name else {
        return Ok(path);
    };
    let step = Step::Member(String::from_str(alloc, name)?);
    let mut longer = path;
    longer.push(step)?;
    Ok(longer)
}

fn nth_key(members: &Map<String, Value>, number: usize) -> Option<&String>
    ensures { option_map (λ key. key.now) result ≡ slice_get (keys members.now) number }
{
    members.keys().nth(number)
}

/// Returns the name of the member of this number of an object, in the order of the names.
fn name_of_number(value: &Value, number: usize) -> Option<&str>
    ensures { option_map (λ text. text.now) result ≡ nth_name number (view value.now) }
{
    match value.as_object() {
        Some(members) => match nth_key(members, number) {
            Some(key) => Some(key.as_str()),
            None => None,
        },
        None => None,
    }
}

/// Returns the object of a flaw inside an element.
fn object_inside(value: &Value, inside: Inside) -> Option<&Value>
    ensures { option_map (λ found. view found.now) result
        ≡ value_by (path_inside inside) (view value.now) }
{
    match inside {
        Inside::Own => Some(value),
        Inside::In(member) => value.get(member.name()),
        Inside::InChunk(member) => value.get("chunk")?.get(member.name()),
        Inside::Transition(number) => value.get("transitions")?.get(number as usize),
    }
}

pub(crate) fn with_item(path: Vec<Step>, number: u64) -> Result<Vec<Step>, OutOfMemory>
    ensures { IfOk result (λ longer. keys_of longer ≡ keys_of path ++ nth number ∷ []) }
{
    let mut longer = path;
    longer.push(Step::Item(number as usize))?;
    Ok(longer)
}

/// Returns the site of a flaw of this object, which is at the end of this path.
fn site_of(alloc: Global, path: Vec<Step>, object: &Value, flaw: Flaw) -> Result<Site, OutOfMemory>
    ensures { IfOk result (λ site. site_view site
        ≡ site_of (keys_of path) (view object.now) flaw) }
{
    match flaw {
        Flaw::NoObject => Ok(Site { path, lacks: None }),
        Flaw::Unlisted(number) => {
            let path = with_name(alloc, path, name_of_number(object, number))?;
            Ok(Site { path, lacks: None })
        }
        Flaw::Missing(member) => Ok(Site {
            path,
            lacks: Some(member),
        }),
        Flaw::Wrong(member) => {
            let path = with_member(alloc, path, member)?;
            Ok(Site { path, lacks: None })
        }
        Flaw::NotOneTask => Ok(Site { path, lacks: None }),
    }
}

/// Adds the steps from an element to the object inside it that has the flaw.
pub(crate) fn with_inside(
    alloc: Global,
    path: Vec<Step>,
    inside: Inside,
) -> Result<Vec<Step>, OutOfMemory>
    ensures { IfOk result (λ longer. keys_of longer ≡ keys_of path ++ path_inside inside) }
{
    match inside {
        Inside::Own => Ok(path),
        Inside::In(member) => with_member(alloc, path, member),
        Inside::InChunk(member) => {
            let chunk = with_member(alloc, path, Member::Chunk)?;
            with_member(alloc, chunk, member)
        }
        Inside::Transition(number) => {
            let list = with_member(alloc, path, Member::Transitions)?;
            with_item(list, number)
        }
    }
}

fn job_of(value: &Value, job: u64) -> Option<&Value>
    ensures { option_map (λ found. view found.now) result ≡ job_of job (view value.now) }
{
    let jobs = list_at(value, "jobs")?;
    if job as usize >= jobs.len() {
        return None;
    }
    Some(&jobs[job as usize])
}

pub(crate) fn job_path(alloc: Global, job: u64) -> Result<Vec<Step>, OutOfMemory>
    ensures { IfOk result (λ path. keys_of path ≡ job_path job) }
{
    let jobs = with_member(alloc, Vec::new(alloc), Member::Jobs)?;
    with_item(jobs, job)
}

/// Makes the path to an element from the root, of the path from the list of its job's elements.
pub(crate) fn element_path(
    alloc: Global,
    job: u64,
    inner: Vec<Step>,
) -> Result<Vec<Step>, OutOfMemory>
    ensures { IfOk result (λ path. keys_of path
        ≡ job_path job ++ to_member Member.Elements ∷ keys_of inner) }
{
    let job = job_path(alloc, job)?;
    let mut path = with_member(alloc, job, Member::Elements)?;
    let mut rest = inner;
    path.append(&mut rest)?;
    Ok(path)
}

fn spot_of(numbered: Numbered<'_>) -> Option<Spot>
    ensures { result ≡ spot_of numbered.entry.in_split (view numbered.entry.value.now) }
{
    if !numbered.in_split {
        return element_spot(numbered.value);
    }
    match split_flow_flaw(numbered.value) {
        Some(flaw) => Some(Spot {
            inside: Inside::Own,
            flaw,
        }),
        None => None,
    }
}

fn job_site(alloc: Global, job: u64, value: &Value) -> Result<Option<Site>, OutOfMemory>
    ensures { IfOk result (λ site. option_map site_view site
        ≡ option_map (site_of (job_path job) (view value.now)) (job_flaw (view value.now))) }
{
    match job_flaw(value) {
        Some(flaw) => {
            let path = job_path(alloc, job)?;
            Ok(Some(site_of(alloc, path, value, flaw)?))
        }
        None => Ok(None),
    }
}

/// Returns the site of the flaw of an element of a job.
fn element_site(
    alloc: Global,
    job: u64,
    value: &Value,
    element: u64,
) -> Result<Option<Site>, OutOfMemory>
    ensures site { IfOk result (λ site. option_map site_view site
        ≡ option_and_then (element_site job) (element_of element (view value.now))) }
    ensures few { IfOk result (λ site. FewIn (view value.now)) }
{
    let Some(elements) = list_at(value, "elements") else {
        return Ok(None);
    };
    let Some(found) = element_of_number(alloc, elements, element as usize)? else {
        return Ok(None);
    };
    let Some(spot) = spot_of(found.numbered) else {
        return Ok(None);
    };
    let Some(object) = object_inside(found.numbered.value, spot.inside) else {
        return Ok(None);
    };
    let path = element_path(alloc, job, found.path)?;
    let path = with_inside(alloc, path, spot.inside)?;
    Ok(Some(site_of(alloc, path, object, spot.flaw)?))
}

/// Returns the site of the element after the first 1,000 of a job, or of the job if it has not so
/// many.
fn too_many_site(alloc: Global, job: u64, value: &Value) -> Result<Site, OutOfMemory>
    ensures { IfOk result (λ site. site_view site
        ≡ element_or_job job (element_of 1000 (view value.now))) }
{
    let Some(elements) = list_at(value, "elements") else {
        let path = job_path(alloc, job)?;
        return Ok(Site { path, lacks: None });
    };
    match element_of_number(alloc, elements, 1000)? {
        Some(found) => {
            let path = element_path(alloc, job, found.path)?;
            Ok(Site { path, lacks: None })
        }
        None => {
            let path = job_path(alloc, job)?;
            Ok(Site { path, lacks: None })
        }
    }
}

fn job_fault_site(
    alloc: Global,
    job: u64,
    value: &Value,
    fault: JobFault,
) -> Result<Option<Site>, OutOfMemory>
    ensures { IfOk result (λ site. option_map site_view site
        ≡ job_fault_site job fault (view value.now)) }
{
    match fault {
        JobFault::TooDeep => Ok(Some(too_deep_site(alloc, job, value)?)),
        JobFault::TooMany => Ok(Some(too_many_site(alloc, job, value)?)),
        JobFault::TextTooLong => Ok(Some(hit_or_job(alloc, job, fault, value)?)),
        JobFault::Empty => Ok(Some(hit_or_job(alloc, job, fault, value)?)),
        JobFault::DuplicateId => Ok(Some(hit_or_job(alloc, job, fault, value)?)),
        JobFault::NoSuchTarget => Ok(Some(hit_or_job(alloc, job, fault, value)?)),
        JobFault::Loop => Ok(Some(hit_or_job(alloc, job, fault, value)?)),
        JobFault::RestartNotJobLevel => Ok(Some(hit_or_job(alloc, job, fault, value)?)),
        JobFault::OutOfMemory => Ok(None),
    }
}

/// Returns the site of a fault in a catalogue's value.
pub fn site_in(alloc: Global, value: &Value, fault: ReadFault) -> Result<Option<Site>, OutOfMemory>
    ensures site { IfOk result (λ site. option_map site_view site
        ≡ site_in fault (view value.now)) }
    ensures few { IfOk result (λ site. Few fault (view value.now)) }
{
    match fault {
        ReadFault::NotACatalogue => match catalogue_flaw(value) {
            Some(flaw) => Ok(Some(site_of(alloc, Vec::new(alloc), value, flaw)?)),
            None => Ok(None),
        },
        ReadFault::BadElement { job, element } => match (job_of(value, job), element) {
            (Some(found), None) => job_site(alloc, job, found),
            (Some(found), Some(element)) => element_site(alloc, job, found, element),
            (None, _) => Ok(None),
        },
        ReadFault::NotJson => Ok(None),
        ReadFault::InJob { job, fault } => match job_of(value, job) {
            Some(found) => job_fault_site(alloc, job, found, fault),
            None => Ok(None),
        },
        ReadFault::OutOfMemory => Ok(None),
    }
}
