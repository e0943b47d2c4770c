//! Puts prepared changes into a cursor's stored lists, without memory.
ghost use Rattle.std.specs.Prelude.{◌≡◌};
ghost use Rattle.job_walk.specs.KeptLists.{put_in, put_at, put_all};

use crate::kept_list::{KeptList, ListChange};
use std::mem::replace;

fn put_in(kept: &mut KeptList, change: ListChange)
    ensures { kept.new ≡ put_in change kept.old }
{
    let ListChange {
        progress,
        place,
        result,
        ..
    } = change;
    drop(replace(&mut kept.progress, progress));
    if place < kept.results.len() {
        kept.results.set(place, result);
    } else {
        drop(result);
    }
}

/// Puts a change into the list that it names.
#[tactic(auto, using(crate::proofs::Putting::put_here, crate::proofs::Putting::put_past))]
fn put_at(lists: &mut Vec<KeptList>, change: ListChange)
    ensures { lists.new.items ≡ put_at change.list change lists.old.items }
{
    let list = change.list;
    if list < lists.len() {
        put_in(&mut lists[list], change);
    } else {
        drop(change);
    }
}

/// Puts all changes into the stored lists, the last change first.
#[tactic(auto, using(crate::proofs::Putting::put_last))]
pub(crate) fn put_changes(lists: &mut Vec<KeptList>, mut changes: Vec<ListChange>)
    ensures { lists.new.items ≡ put_all changes.items lists.old.items }
{
    while let Some(change) = changes.pop() {
        put_at(lists, change);
    }
}
