ghost use Rattle.std.specs.Prelude.{IsNone, IfSome};
ghost use Rattle.catalogue_growth.specs.Growth.{IsGrown, IsFirstOther};

use crate::sameness::is_same_job;
use jsl_model::{Catalogue, Job};

/// Returns the number, from 0, of the first job of `kept` that `given` does not have in the same
/// place. Returns `None` if `given` begins with all jobs of `kept`, each equal.
///
/// The time is proportional to the elements of the jobs of `kept`. It takes no memory.
pub fn first_other_job(kept: &Catalogue, given: &Catalogue) -> Option<usize>
    ensures grown { IsNone result → IsGrown kept.now given.now }
    ensures other { IfSome result (λ number. IsFirstOther kept.now given.now number) }
{
    first_other(kept.jobs(), given.jobs())
}

fn first_other(kept: &[Job], given: &[Job]) -> Option<usize>
    ensures grown { IsNone result → IsGrown kept.now given.now }
    ensures other { IfSome result (λ number. IsFirstOther kept.now given.now number) }
{
    for (number, job) in kept.iter().enumerate() {
        match given.get(number) {
            None => return Some(number),
            Some(other) => {
                if !is_same_job(job, other) {
                    return Some(number);
                }
            }
        }
    }
    None
}
