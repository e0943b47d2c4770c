// The site of the member for which a job has a fault.
ghost use Rattle.std.specs.Prelude.{◌≡◌, ◌++◌, [], false, map, slice_get, is_some, option_map, option_and_then, IfOk};
ghost use Rattle.std.specs.List.{list_any};
ghost use Rattle.serde_json.specs.View.{view, items_view};
ghost use Rattle.json_members.specs.Members.{list_at};
ghost use Rattle.catalogue_places.specs.Names.{name_of};
ghost use Rattle.element_numbers.specs.Numbering.{all_in};
ghost use Rattle.element_numbers.specs.Ways.{bare, bare_of, found_of};
ghost use Rattle.catalogue_places.specs.declared.member.Member.TheVariants.{Elements};
ghost use Rattle.rule_spots.specs.Hits.{hit_of};
ghost use Rattle.fault_places.specs.Sites.{item_path, hit_site, number_from, same_id, number_of_twice, ids_of, is_duplicate, hit_number, numbered_hit, element_hit, own_hit, first_hit, hit_or_job, job_path};
ghost use Rattle.fault_places.specs.SiteViews.{keys_of, site_view};

use crate::site::{Site, element_path, job_path, with_inside, with_item, with_member};
use batch_ids::OutOfMemory;
use catalogue_places::Member;
use element_numbers::{Found, Numbered, element_of_number, elements_of};
use jsl_model::JobFault;
use json_members::{list_at, text_at};
use json_places::Step;
use rule_spots::{Hit, hit_of};
use serde_json::Value;
use std::alloc::Global;

/// Adds the steps to an item of the list of elements, if there is one.
fn with_hit_item(
    alloc: Global,
    path: Vec<Step>,
    item: Option<u64>,
) -> Result<Vec<Step>, OutOfMemory>
    ensures { IfOk result (λ longer. keys_of longer ≡ keys_of path ++ item_path item) }
{
    match item {
        Some(number) => {
            let list = with_member(alloc, path, Member::Elements)?;
            with_item(list, number)
        }
        None => Ok(path),
    }
}

/// Makes the site of a hit in what is at the end of this path.
fn hit_site(alloc: Global, path: Vec<Step>, hit: Hit) -> Result<Site, OutOfMemory>
    ensures { IfOk result (λ site. site_view site ≡ hit_site (keys_of path) hit) }
{
    let item = with_hit_item(alloc, path, hit.item)?;
    let object = with_inside(alloc, item, hit.part.inside)?;
    let path = with_member(alloc, object, hit.part.member)?;
    Ok(Site { path, lacks: None })
}

fn first_number(fault: JobFault, elements: &[Value], all: &[Numbered<'_>]) -> Option<usize>
    ensures { result ≡ number_from (λ e. is_some (hit_of fault (items_view elements.now) e.1)) 0
        (map bare_of all.now) }
{
    for (index, numbered) in all.iter().enumerate() {
        if hit_of(fault, elements, numbered.value).is_some() {
            return Some(index);
        }
    }
    None
}

fn same_id(one: Option<&str>, other: Option<&str>) -> bool
    ensures { result ≡ same_id (option_map (λ text. text.now) one.entry)
        (option_map (λ text. text.now) other.entry) }
{
    match one {
        Some(one) => match other {
            Some(other) => one == other,
            None => false,
        },
        None => false,
    }
}

/// Checks whether one of these ids is this one.
fn has_id(ids: &[Option<&str>], id: Option<&str>) -> bool
    ensures { result ≡ list_any (same_id (option_map (λ text. text.now) id.entry))
        (map (option_map (λ text. text.now)) ids.now) }
{
    for other in ids {
        if same_id(id, *other) {
            return true;
        }
    }
    false
}

fn number_of_twice(alloc: Global, all: &[Numbered<'_>]) -> Result<Option<usize>, OutOfMemory>
    ensures { IfOk result (λ number. number ≡ number_of_twice [] 0 (ids_of (map bare_of all.now))) }
{
    let mut before = Vec::new(alloc);
    for (index, numbered) in all.iter().enumerate() {
        let id = text_at(numbered.value, "id");
        if has_id(&before, id) {
            return Ok(Some(index));
        }
        before.push(id)?;
    }
    Ok(None)
}

fn is_duplicate(fault: JobFault) -> bool
    ensures { result ≡ is_duplicate fault }
{
    matches!(fault, JobFault::DuplicateId)
}

fn hit_number(
    alloc: Global,
    fault: JobFault,
    elements: &[Value],
    all: &[Numbered<'_>],
) -> Result<Option<usize>, OutOfMemory>
    ensures { IfOk result (λ number. number
        ≡ hit_number fault (items_view elements.now) (map bare_of all.now)) }
{
    if is_duplicate(fault) {
        let number = number_of_twice(alloc, all)?;
        return Ok(number);
    }
    Ok(first_number(fault, elements, all))
}

/// Returns the number of the first element of a job with a hit. `elements` is the list of the job's
/// elements.
fn element_number(
    alloc: Global,
    fault: JobFault,
    elements: &[Value],
) -> Result<Option<usize>, OutOfMemory>
    ensures { IfOk result (λ number. number ≡ hit_number fault (items_view elements.now)
        (map bare (all_in false 0 (items_view elements.now)))) }
{
    let all = elements_of(alloc, elements)?;
    let number = hit_number(alloc, fault, elements, &all)?;
    Ok(number)
}

/// Returns the site of the hit of an element.
fn numbered_hit(
    alloc: Global,
    job: u64,
    fault: JobFault,
    elements: &[Value],
    found: Found<'_>,
) -> Result<Option<Site>, OutOfMemory>
    ensures { IfOk result (λ site. option_map site_view site
        ≡ numbered_hit job fault (items_view elements.now) (found_of found.entry)) }
{
    match hit_of(fault, elements, found.numbered.value) {
        Some(hit) => {
            let path = element_path(alloc, job, found.path)?;
            Ok(Some(hit_site(alloc, path, hit)?))
        }
        None => Ok(None),
    }
}

/// Returns the site of the hit of the element of this number.
fn hit_at(
    alloc: Global,
    job: u64,
    fault: JobFault,
    elements: &[Value],
    number: usize,
) -> Result<Option<Site>, OutOfMemory>
    ensures { IfOk result (λ site. option_map site_view site
        ≡ option_and_then (numbered_hit job fault (items_view elements.now))
        (slice_get (all_in false 0 (items_view elements.now)) number)) }
{
    match element_of_number(alloc, elements, number)? {
        Some(found) => numbered_hit(alloc, job, fault, elements, found),
        None => Ok(None),
    }
}

/// Returns the site of the first element of a job with a hit.
fn element_hit(
    alloc: Global,
    job: u64,
    fault: JobFault,
    elements: &[Value],
) -> Result<Option<Site>, OutOfMemory>
    ensures { IfOk result (λ site. option_map site_view site
        ≡ element_hit job fault (items_view elements.now)) }
{
    match element_number(alloc, fault, elements)? {
        Some(number) => hit_at(alloc, job, fault, elements, number),
        None => Ok(None),
    }
}

/// Returns the site of the hit of the job itself.
fn own_hit(
    alloc: Global,
    job: u64,
    fault: JobFault,
    elements: &[Value],
    value: &Value,
) -> Result<Option<Site>, OutOfMemory>
    ensures { IfOk result (λ site. option_map site_view site
        ≡ own_hit job fault (items_view elements.now) (view value.now)) }
{
    match hit_of(fault, elements, value) {
        Some(hit) => {
            let path = job_path(alloc, job)?;
            Ok(Some(hit_site(alloc, path, hit)?))
        }
        None => Ok(None),
    }
}

/// Returns the site of the first hit of a job.
fn first_hit(
    alloc: Global,
    job: u64,
    fault: JobFault,
    elements: &[Value],
    value: &Value,
) -> Result<Option<Site>, OutOfMemory>
    ensures { IfOk result (λ site. option_map site_view site
        ≡ first_hit job fault (view value.now) (items_view elements.now)) }
{
    if is_duplicate(fault) {
        match element_hit(alloc, job, fault, elements)? {
            Some(site) => Ok(Some(site)),
            None => own_hit(alloc, job, fault, elements, value),
        }
    } else {
        match own_hit(alloc, job, fault, elements, value)? {
            Some(site) => Ok(Some(site)),
            None => element_hit(alloc, job, fault, elements),
        }
    }
}

fn any_hit(
    alloc: Global,
    job: u64,
    fault: JobFault,
    value: &Value,
) -> Result<Option<Site>, OutOfMemory>
    ensures { IfOk result (λ site. option_map site_view site ≡ option_and_then
        (first_hit job fault (view value.now)) (list_at (name_of Elements) (view value.now))) }
{
    match list_at(value, "elements") {
        Some(elements) => first_hit(alloc, job, fault, elements, value),
        None => Ok(None),
    }
}

/// Returns the site of the first hit of a job, or of the job if there is none.
pub(crate) fn hit_or_job(
    alloc: Global,
    job: u64,
    fault: JobFault,
    value: &Value,
) -> Result<Site, OutOfMemory>
    ensures { IfOk result (λ site. site_view site ≡ hit_or_job job fault (view value.now)) }
{
    match any_hit(alloc, job, fault, value)? {
        Some(site) => Ok(site),
        None => {
            let path = job_path(alloc, job)?;
            Ok(Site { path, lacks: None })
        }
    }
}
