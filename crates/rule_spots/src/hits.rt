// The text or the list for which a job has a fault.
ghost use Rattle.std.specs.Prelude.{◌≡◌, option_map};
ghost use Rattle.serde_json.specs.View.{view, items_view};
ghost use Rattle.rule_spots.specs.Hits.{own_hit, item_hit, is_empty_list, list_part, empty_part, id_part, target_hit_from, target_hit, hit_of};

use crate::rules::TextRule;
use crate::texts::{Part, part_if, texts_part};
use catalogue_places::{Inside, Member};
use jsl_model::JobFault;
use json_members::{list_at, text_at};
use serde_json::Value;

/// The member for which a job has a fault, from an element, a flow of a split or the job.
#[derive(Clone, Copy, Debug, PartialEq, Eq, Drop)]
pub struct Hit {
    /// The number of the item that has the member, in the list of elements, or `None` for the element
    /// itself.
    pub item: Option<u64>,
    /// The member.
    pub part: Part,
}

fn own_hit(part: Option<Part>) -> Option<Hit>
    ensures { result ≡ own_hit part }
{
    match part {
        Some(part) => Some(Hit { item: None, part }),
        None => None,
    }
}

fn item_hit(item: u64, part: Option<Part>) -> Option<Hit>
    ensures { result ≡ item_hit item part }
{
    match part {
        Some(part) => Some(Hit {
            item: Some(item),
            part,
        }),
        None => None,
    }
}

fn is_empty_list(list: Option<&[Value]>) -> bool
    ensures { result ≡ is_empty_list (option_map (λ items. items_view items.now) list.entry) }
{
    match list {
        Some(list) => list.is_empty(),
        None => false,
    }
}

fn list_part(member: Member, value: &Value) -> Option<Part>
    ensures { result ≡ list_part member (view value.now) }
{
    let list = list_at(value, member.name());
    part_if(is_empty_list(list), Inside::Own, member)
}

fn empty_part(value: &Value) -> Option<Part>
    ensures { result ≡ empty_part (view value.now) }
{
    let text = texts_part(TextRule::Given, value);
    let elements = list_part(Member::Elements, value);
    let flows = list_part(Member::Flows, value);
    text.or(elements.or(flows))
}

fn id_part(value: &Value) -> Option<Part>
    ensures { result ≡ id_part (view value.now) }
{
    part_if(text_at(value, "id").is_some(), Inside::Own, Member::Id)
}

fn target_hit_from(list: &[Value]) -> Option<Hit>
    ensures { result ≡ target_hit_from (items_view list.now) 0 (items_view list.now) }
{
    for (index, value) in list.iter().enumerate() {
        if let Some(part) = texts_part(TextRule::Target(list), value) {
            return item_hit(index as u64, Some(part));
        }
    }
    None
}

fn target_hit(value: &Value) -> Option<Hit>
    ensures { result ≡ target_hit (view value.now) }
{
    match list_at(value, "elements") {
        Some(list) => target_hit_from(list),
        None => None,
    }
}

/// Returns the member of an element, of a flow of a split or of a job for which the job has this
/// fault. `elements` is the list of the job's elements. Of the elements inside it only `next` and `to`
/// are looked at, which name no element of its own list. For `DuplicateId` it is the id, whether or
/// not another one has it. The other faults have no such member.
pub fn hit_of(fault: JobFault, elements: &[Value], value: &Value) -> Option<Hit>
    ensures { result ≡ hit_of fault (items_view elements.now) (view value.now) }
{
    match fault {
        JobFault::TextTooLong => own_hit(texts_part(TextRule::Short, value)),
        JobFault::Empty => own_hit(empty_part(value)),
        JobFault::NoSuchTarget => target_hit(value),
        JobFault::RestartNotJobLevel => own_hit(texts_part(TextRule::Restart(elements), value)),
        JobFault::DuplicateId => own_hit(id_part(value)),
        JobFault::TooDeep => None,
        JobFault::TooMany => None,
        JobFault::Loop => None,
        JobFault::OutOfMemory => None,
    }
}
