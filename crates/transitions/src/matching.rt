ghost use Rattle.std.specs.Prelude.{◌≡◌, ◌<◌, All, MatchOption, None, length, slice_get};
ghost use Rattle.std.specs.List.{AllWithin, HoldsAt};
ghost use Rattle.std.specs.Option.{option_copied};
ghost use Rattle.transitions.specs.Transitions.{matching_transition, MatchesOn};

use crate::pattern::matches;
use batch_ids::T256;
use jsl_model::Transition;

/// Returns the first transition element, in written order, whose `on` matches this exit status.
/// Returns `None` if no `on` matches. See Jakarta Batch 2.1, "Transition Elements".
pub fn find_match<'a>(transitions: &'a [Transition], exit: &T256) -> Option<&'a Transition>
    ensures { option_copied result ≡ matching_transition transitions.now exit.now }
{
    let place = first_match(transitions, exit.as_str())?;
    Some(&transitions[place])
}

/// Returns the least index of a transition element whose `on` matches this exit status. Returns
/// `None` if no `on` matches. See Jakarta Batch 2.1, "Transition Elements".
pub fn first_match(transitions: &[Transition], exit: &str) -> Option<usize>
    ensures least { MatchOption result
        (All (λ t. ¬ MatchesOn exit.now t) transitions.now)
        (λ i. i < length transitions.now × HoldsAt (MatchesOn exit.now) transitions.now i
        × AllWithin (λ t. ¬ MatchesOn exit.now t) transitions.now 0 i) }
    ensures same { MatchOption result
        (matching_transition transitions.now exit.now ≡ None)
        (λ i. i < length transitions.now
        × matching_transition transitions.now exit.now ≡ slice_get transitions.now i) }
{
    for (i, transition) in transitions.iter().enumerate() {
        if matches(transition.on.as_str(), exit) {
            return Some(i);
        }
    }
    None
}
