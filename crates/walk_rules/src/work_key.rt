ghost use Rattle.std.specs.Prelude.{◌≡◌, IfOk};
ghost use Rattle.walk_rules.specs.Keys.{key_of, keys_of_step, is_same_key, has_key};

use batch_ids::{OutOfMemory, T256};

/// The name of a work item in its job execution: a step or a decision, and a partition of it.
///
/// See Jakarta Batch 2.1, "Step Partitioning".
#[derive(PartialEq, Eq, Debug, Drop)]
pub struct WorkKey {
    /// The id of the step or decision.
    pub element: T256,
    /// The number of the partition, from 0. It is 0 for a decision, and for a step that isn't
    /// partitioned.
    pub partition: u32,
}

impl WorkKey {
    /// Returns an equal work key.
    ///
    /// # Errors
    ///
    /// `OutOfMemory` if memory is refused.
    pub fn try_clone(&self) -> Result<WorkKey, OutOfMemory>
        ensures { IfOk result (λ copy. copy ≡ self.now) }
    {
        key_of(&self.element, self.partition)
    }

    /// Checks whether this is a work key of this step or decision: that of one of `partitions`
    /// partitions, or the only one.
    #[tactic(auto, using(crate::proofs::SameKeys::one_of_partitions))]
    pub fn is_one_of(&self, id: &T256, partitions: Option<u32>) -> bool
        ensures { result ≡ has_key (keys_of_step id.now partitions) self.now }
    {
        match partitions {
            None => self.is_of(id, 0),
            Some(count) => self.element == *id && self.partition < count,
        }
    }

    /// Checks whether this is the work key of this partition of this step or decision.
    pub fn is_of(&self, element: &T256, partition: u32) -> bool
        ensures { result ≡ is_same_key self.now (key_of element.now partition) }
    {
        self.element == *element && self.partition == partition
    }
}

/// Returns the work key of this partition of a step or decision.
///
/// # Errors
///
/// `OutOfMemory` if memory is refused.
pub fn key_of(element: &T256, partition: u32) -> Result<WorkKey, OutOfMemory>
    ensures { IfOk result (λ key. key ≡ key_of element.now partition) }
{
    let element = element.try_clone()?;
    Ok(WorkKey { element, partition })
}

/// Checks whether `keys` contains this work key.
pub fn has_key(keys: &[WorkKey], key: &WorkKey) -> bool
    ensures { result ≡ has_key keys.now key.now }
{
    for one in keys {
        if key.is_of(&one.element, one.partition) {
            return true;
        }
    }
    false
}
