//! The agenda of a job repository: an ordered set of the numbers of the job executions that have
//! something to do.
#![tactic(auto)]

ghost use Rattle.std.specs.Prelude.{◌≡◌, IfOk, OnOk, OnErr, if◌then◌else◌};
ghost use Rattle.std.specs.BTreeSet.{insert_key};
ghost use Rattle.std.specs.Ordering.{is_eq, nat_cmp};
ghost use Rattle.std.specs.Set.{remove_key};

use batch_ids::{ExecutionId, OutOfMemory};
use std::collections::BTreeSet;

/// Adds a job execution to the agenda if `ready`. Returns whether it was missing and has been
/// added.
///
/// # Errors
///
/// Returns `OutOfMemory` if memory is refused. The agenda is then as it was.
pub fn put(agenda: &mut BTreeSet<u64>, x: ExecutionId, ready: bool) -> Result<bool, OutOfMemory>
    ensures put { OnOk result (agenda.new.keys
        ≡ (if ready then insert_key nat_cmp agenda.old.keys x else agenda.old.keys)) }
    ensures back { IfOk result (λ added.
        (if added then remove_key (λ y. is_eq (nat_cmp x y)) agenda.new.keys else agenda.new.keys)
        ≡ agenda.old.keys) }
    ensures unchanged { OnErr result (agenda.new.keys ≡ agenda.old.keys) }
{
    if ready {
        let added = agenda.insert(x.value())?;
        Ok(added)
    } else {
        Ok(false)
    }
}

/// Removes a job execution from the agenda if `goes`.
pub fn remove_if(agenda: &mut BTreeSet<u64>, x: ExecutionId, goes: bool)
    ensures { agenda.new.keys
        ≡ (if goes then remove_key (λ y. is_eq (nat_cmp x y)) agenda.old.keys else agenda.old.keys) }
{
    if goes {
        agenda.remove(&x.value());
    }
}
