ghost use Rattle.std.specs.Prelude.{◌≡◌, ◌≤◌, IfOk};
ghost use Rattle.walk_rules.specs.declared.work_key.WorkKey.{WorkKey};
ghost use Rattle.walk_rules.specs.Keys.{key_of};
ghost use Rattle.walk_rules.specs.Walk.{fact_of};
ghost use Rattle.job_plans.specs.Cursors.{known_keys};
ghost use Rattle.job_plans.specs.Lists.{key_count};

use batch_ids::{OutOfMemory, T256};
use jsl_model::ElementIndex;
use walk_rules::{Fact, Known, fact_of};

/// Returns the fact of an element's partition. There is no search if it is at the place that the
/// index has.
#[tactic(auto, using(job_plans::proofs::KeysOnce::known_there))]
pub(crate) fn known_fact(
    index: &ElementIndex,
    known: &[Known],
    id: &T256,
    partition: u32,
) -> Result<Fact, OutOfMemory>
    requires each { (one : WorkKey) → key_count one (known_keys known.now) ≤ 1 }
    ensures { IfOk result (λ fact. fact ≡ fact_of known.now (key_of id.now partition)) }
{
    let place = index.key_place_of(id, partition);
    if place < known.len() {
        let one = &known[place];
        if one.key.is_of(id, partition) {
            return Ok(one.fact.try_clone()?);
        }
    }
    Ok(fact_of(known, id, partition)?)
}
