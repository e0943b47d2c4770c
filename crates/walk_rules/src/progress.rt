//! The progress of a walk over a list.
ghost use Rattle.std.specs.Prelude.{◌≡◌, [], ◌<◌, ◌≤◌, ℕ, List, length, IfOk, slice_set, slice_index_or};
ghost use Rattle.std.specs.List.{position};
ghost use Rattle.std.specs.Str.{bytes_eq};
ghost use Rattle.walk_rules.specs.declared.element_result.ElementResult.{ElementResult};
ghost use Rattle.walk_rules.specs.Standing.{rows_by, progress};
ghost use Rattle.walk_rules.specs.Counts.{count_of};

use crate::continuation::{Continuation, continuation_after};
use crate::element_result::ElementResult;
use crate::facts::Value;
use batch_ids::{OutOfMemory, T256};
use jsl_model::{Element, ElementIndex};
use std::alloc::Global;

/// The progress of a walk over a list.
#[derive(Debug, Drop)]
pub struct Progress {
    /// The value of the list.
    pub value: Value,
    /// The index of the element at which the walk halts.
    pub place: Option<usize>,
    /// How many elements the walk may go over from there.
    pub left: usize,
}

/// Returns the index of the first element with this id. If `index` has the element there, this
/// takes no search.
pub fn place_in(index: &ElementIndex, elements: &[Element], id: &T256) -> Option<usize>
    requires once { count_of id.now elements.now ≤ 1 }
    ensures { result ≡ position (λ e. bytes_eq e.id id.now) elements.now }
{
    let place = index.place_of(id);
    if place < elements.len() && elements[place].id == *id {
        return Some(place);
    }
    elements.iter().position(|element| element.id == *id)
}

/// Returns the own result of the element at a place: `comes_to` if it is the changed one, else its
/// entry in `results`.
fn result_at<'a>(
    results: &'a [ElementResult],
    changed: usize,
    comes_to: &'a ElementResult,
    place: usize,
) -> &'a ElementResult
    requires { place < length results.now }
    ensures { (d : ElementResult)
        → result.now ≡ slice_index_or (slice_set results.now changed comes_to.now) place d }
{
    if place == changed {
        comes_to
    } else {
        &results[place]
    }
}

/// Returns the progress of a walk that has left its list, or has gone over as many elements as it
/// may.
fn ended_at(place: Option<usize>, left: usize) -> Progress
    ensures { result ≡ record { value = Value.Done []; place = place; left = left } }
{
    Progress {
        value: Value::Done {
            exit: T256::empty(),
        },
        place,
        left,
    }
}

/// Walks over a list from an element on, over at most `left` elements, and returns its progress.
/// `results` has the own results of the elements. The changed element has `comes_to` instead.
///
/// # Errors
///
/// `OutOfMemory` if memory is refused.
pub fn walk_on(
    alloc: Global,
    index: &ElementIndex,
    elements: &[Element],
    results: &[ElementResult],
    changed: usize,
    comes_to: &ElementResult,
    from: &T256,
    place: Option<usize>,
    left: usize,
) -> Result<Progress, OutOfMemory>
    requires once { (id : List ℕ) → count_of id elements.now ≤ 1 }
    requires same { length results.now ≡ length elements.now }
    requires place { place ≡ position (λ e. bytes_eq e.id from.now) elements.now }
    ensures { IfOk result (λ come. come ≡ progress left
        (rows_by elements.now (slice_set results.now changed comes_to.now)) from.now) }
{
    let mut id = from.try_clone()?;
    let mut at = place;
    for passed in 0..left {
        let Some(here) = at else {
            return Ok(ended_at(None, left - passed));
        };
        let element = &elements[here];
        match result_at(results, changed, comes_to, here) {
            ElementResult::ListValue(value) => {
                return Ok(Progress {
                    value: value.try_clone()?,
                    place: at,
                    left: left - passed,
                });
            }
            ElementResult::Outcome(outcome, exit) => {
                let exit = exit.try_clone()?;
                match continuation_after(alloc, element, *outcome, exit)? {
                    Continuation::WithValue(value) => {
                        return Ok(Progress {
                            value,
                            place: at,
                            left: left - passed,
                        });
                    }
                    Continuation::AtElement(to) => {
                        at = place_in(index, elements, &to);
                        id = to;
                    }
                }
            }
        }
    }
    Ok(ended_at(at, 0))
}
