ghost use Rattle.std.specs.Prelude.{◌≡◌, List, ℕ, IfOk, unwrap_or};
ghost use Rattle.batch_ids.specs.Statuses.{status_name};
ghost use Rattle.transitions.specs.Transitions.{matching_transition};
ghost use Rattle.walk_rules.specs.Continuations.{continuation_by, continuation_of};
ghost use Rattle.walk_rules.specs.Walk.{value_by_transition, value_after_outcome, value_of_continuation};
ghost use Rattle.walk_rules.specs.declared.facts.Value.{Value};

use crate::element_result::{ended_value, name_of};
use crate::facts::Value;
use batch_ids::{BatchStatus, OutOfMemory, T256, WorkOutcome, try_clone_option};
use jsl_model::{Element, Then};
use std::alloc::Global;
use transitions::find_match;

/// How a list goes on after an element's outcome.
#[derive(Debug, Drop)]
pub enum Continuation {
    /// It goes on at the element with this id, in the same list.
    AtElement(T256),
    /// It doesn't go on: the list has this value.
    WithValue(Value),
}

/// Returns the given exit status, or the status's name if there is none.
fn exit_or_name(
    alloc: Global,
    exit: &Option<T256>,
    status: BatchStatus,
) -> Result<T256, OutOfMemory>
    ensures { IfOk result (λ text. text ≡ unwrap_or exit.now (status_name status)) }
{
    match exit {
        Some(exit) => Ok(exit.try_clone()?),
        None => Ok(name_of(alloc, status)?),
    }
}

/// Returns the effect of a transition element.
fn continuation_by(alloc: Global, then: &Then) -> Result<Continuation, OutOfMemory>
    ensures value { IfOk result (λ made. (on : List ℕ → Value)
        → value_by_transition on then.now ≡ value_of_continuation on made) }
    ensures is { IfOk result (λ made. made ≡ continuation_by then.now) }
{
    match then {
        Then::Next { to } => Ok(Continuation::AtElement(to.try_clone()?)),
        Then::End { exit_status } => Ok(Continuation::WithValue(Value::Ended {
            status: BatchStatus::Completed,
            exit: exit_or_name(alloc, exit_status, BatchStatus::Completed)?,
            point: None,
        })),
        Then::Fail { exit_status } => Ok(Continuation::WithValue(Value::Ended {
            status: BatchStatus::Failed,
            exit: exit_or_name(alloc, exit_status, BatchStatus::Failed)?,
            point: None,
        })),
        Then::Stop {
            exit_status,
            restart,
        } => Ok(Continuation::WithValue(Value::Ended {
            status: BatchStatus::Stopped,
            exit: exit_or_name(alloc, exit_status, BatchStatus::Stopped)?,
            point: try_clone_option(restart)?,
        })),
    }
}

/// Returns how a list goes on after an outcome of this element. The first of its transition
/// elements that matches the exit status decides, and else its `next`. See Jakarta Batch 2.1,
/// "Transition Elements".
///
/// # Errors
///
/// `OutOfMemory` if memory is refused.
pub fn continuation_after(
    alloc: Global,
    element: &Element,
    outcome: WorkOutcome,
    exit: T256,
) -> Result<Continuation, OutOfMemory>
    ensures value { IfOk result (λ made. (on : List ℕ → Value)
        → value_after_outcome on element.now.next
        (matching_transition element.now.transitions exit) outcome exit
        ≡ value_of_continuation on made) }
    ensures is { IfOk result (λ made. made ≡ continuation_of element.now.next
        (matching_transition element.now.transitions exit) outcome exit) }
{
    match outcome {
        WorkOutcome::Stopped => {
            Ok(Continuation::WithValue(ended_value(alloc, BatchStatus::Stopped)?))
        }
        WorkOutcome::Failed => match find_match(element.transitions.as_slice(), &exit) {
            Some(transition) => continuation_by(alloc, &transition.then),
            None => Ok(Continuation::WithValue(ended_value(alloc, BatchStatus::Failed)?)),
        },
        WorkOutcome::Completed => match find_match(element.transitions.as_slice(), &exit) {
            Some(transition) => continuation_by(alloc, &transition.then),
            None => match &element.next {
                Some(to) => Ok(Continuation::AtElement(to.try_clone()?)),
                None => Ok(Continuation::WithValue(Value::Done { exit })),
            },
        },
    }
}
