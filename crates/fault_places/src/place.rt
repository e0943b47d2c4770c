ghost use Rattle.std.specs.Prelude.{◌≡◌, ◌≤◌, length, is_some, Some, Err, IfOk};
ghost use Rattle.serde_json.specs.Data.{Data};
ghost use Rattle.serde_json.specs.Read.{read};
ghost use Rattle.serde_json.specs.View.{view};
ghost use Rattle.jsl_json.specs.Catalogues.{catalogue_of};
ghost use Rattle.fault_places.specs.Sites.{site_in, has_place};
ghost use Rattle.fault_places.specs.PlacesOfFaults.{IsPlaceOf};

use crate::site::site_in;
use batch_ids::OutOfMemory;
use catalogue_places::{Member, byte_in};
use jsl_json::ReadFault;
use json_members::read_text;
use json_places::Step;
use serde_json::Value;
use std::alloc::Global;

/// The place of a fault in the text of a catalogue.
#[derive(Debug, Drop)]
pub struct Place {
    /// The steps from the root to the value that is wrong, or that lacks a member.
    pub path: Vec<Step>,
    /// The member that the value lacks.
    pub lacks: Option<Member>,
    /// The byte at which the value begins, counted from 0.
    pub byte: usize,
}

fn place_in(
    alloc: Global,
    text: &str,
    value: &Value,
    fault: ReadFault,
) -> Result<Option<Place>, OutOfMemory>
    requires short { length text.now ≤ 16777216 }
    requires read { read text.now ≡ Some (view value.now) }
    ensures site { IfOk result (λ found.
        IsPlaceOf text.now (view value.now) (site_in fault (view value.now)) found) }
    ensures known { IfOk result (λ found. catalogue_of text.now ≡ Err fault
        → is_some found ≡ has_place fault) }
{
    match site_in(alloc, value, fault)? {
        Some(site) => match byte_in(alloc, text, site.path.as_slice())? {
            Some(byte) => Ok(Some(Place {
                path: site.path,
                lacks: site.lacks,
                byte,
            })),
            None => Ok(None),
        },
        None => Ok(None),
    }
}

/// Returns the place of a fault in the text of a catalogue: the byte, and the member. `read_catalogue`
/// of `jsl_json` gives the fault.
///
/// Each fault has a place but `NotJson` and `OutOfMemory`, for which it returns `None`:
///
/// - `NotACatalogue` and `BadElement`: the first member that is wrong, missing or not listed.
/// - `TextTooLong`, `Empty`, `NoSuchTarget`, `RestartNotJobLevel`: the first text, or for `Empty` also
///   the list, for which a job has the fault. The job's own come before those of its elements.
/// - `TooDeep`: the first element that is deeper than 16.
/// - `TooMany`: the element after the first 1,000 of the job. If the job has not so many, it is the job,
///   which is one too many for the catalogue.
/// - `DuplicateId`: the first id of an element that an element before it has, or else that of the job.
/// - `Loop`: the job.
///
/// The time is proportional to the bytes of the text, but for `DuplicateId` to the square of the number
/// of elements, and for `NoSuchTarget` and `RestartNotJobLevel` to the product of the names and of the
/// elements among which they are looked for. The memory is proportional to the bytes of the text.
///
/// # Errors
///
/// Returns `OutOfMemory` if memory is refused.
pub fn place_of(alloc: Global, text: &str, fault: ReadFault) -> Result<Option<Place>, OutOfMemory>
    requires { length text.now ≤ 16777216 }
    ensures site { IfOk result (λ found. (d : Data) → read text.now ≡ Some d
        → IsPlaceOf text.now d (site_in fault d) found) }
    ensures known { IfOk result (λ found. catalogue_of text.now ≡ Err fault
        → is_some found ≡ has_place fault) }
{
    let value = read_text(alloc, text)?;
    match &value {
        Some(value) => place_in(alloc, text, value, fault),
        None => Ok(None),
    }
}
