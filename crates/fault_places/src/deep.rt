// The element that is too deep.
ghost use Rattle.std.specs.Prelude.{◌≡◌, ◌==◌, ℕ, option_map, option_and_then, IfOk};
ghost use Rattle.serde_json.specs.View.{view, items_view};
ghost use Rattle.json_members.specs.Members.{list_at};
ghost use Rattle.catalogue_places.specs.Names.{name_of};
ghost use Rattle.catalogue_places.specs.declared.member.Member.TheVariants.{Elements};
ghost use Rattle.element_numbers.specs.Ways.{found_of};
ghost use Rattle.fault_places.specs.Sites.{number_from, deep_element, element_or_job};
ghost use Rattle.fault_places.specs.SiteViews.{site_view};

use crate::site::{Site, element_path, job_path};
use batch_ids::OutOfMemory;
use element_levels::steps_left;
use element_numbers::{Found, element_of_number};
use json_members::list_at;
use serde_json::Value;
use std::alloc::Global;

fn first_zero(all: &[u64]) -> Option<usize>
    ensures { result ≡ number_from (λ (left : ℕ). left == 0) 0 all.now }
{
    for (index, left) in all.iter().enumerate() {
        if *left == 0 {
            return Some(index);
        }
    }
    None
}

/// Finds the first element that is deeper than 16. Its path has more than 32 steps.
fn deep_element<'v>(alloc: Global, elements: &'v [Value]) -> Result<Option<Found<'v>>, OutOfMemory>
    ensures { IfOk result (λ found. option_map found_of found
        ≡ deep_element (items_view elements.now)) }
{
    let left = steps_left(alloc, elements, 33)?;
    match first_zero(&left) {
        Some(number) => {
            let found = element_of_number(alloc, elements, number)?;
            Ok(found)
        }
        None => Ok(None),
    }
}

fn deep_in(alloc: Global, value: &Value) -> Result<Option<Found<'_>>, OutOfMemory>
    ensures { IfOk result (λ found. option_map found_of found
        ≡ option_and_then deep_element (list_at (name_of Elements) (view value.now))) }
{
    match list_at(value, "elements") {
        Some(elements) => deep_element(alloc, elements),
        None => Ok(None),
    }
}

/// Returns the site of the first element of a job that is deeper than 16, or of the job if there is
/// none.
pub(crate) fn too_deep_site(alloc: Global, job: u64, value: &Value) -> Result<Site, OutOfMemory>
    ensures { IfOk result (λ site. site_view site ≡ element_or_job job
        (option_and_then deep_element (list_at (name_of Elements) (view value.now)))) }
{
    match deep_in(alloc, value)? {
        Some(found) => {
            let path = element_path(alloc, job, found.path)?;
            Ok(Site { path, lacks: None })
        }
        None => {
            let path = job_path(alloc, job)?;
            Ok(Site { path, lacks: None })
        }
    }
}
