//! Lists of work keys, which the copies of a value share.
ghost use Rattle.std.specs.Prelude.{◌≡◌, [], IfOk};

use crate::work_key::WorkKey;
use batch_ids::{Listed, OutOfMemory, Shared};
use std::alloc::Global;
use std::marker::Model;

/// A list of work keys, which its copies share. Contracts see the list.
#[derive(Debug, Drop)]
pub struct WorkKeys {
    shared: Option<Shared<Listed<WorkKey>>>,
}

impl Model for WorkKeys {
    ghost use Rattle.std.specs.Prelude.{List, []};
    ghost use Rattle.std.specs.Option.{unwrap_or};
    ghost use Rattle.walk_rules.specs.declared.work_key.WorkKey.{WorkKey};

    ghost Value = { List WorkKey };

    ghost view = { λ keys. unwrap_or keys.shared [] };
}

impl WorkKeys {
    /// Returns an empty list. It takes no memory.
    pub(crate) fn none() -> WorkKeys
        ensures { result ≡ [] }
    {
        WorkKeys { shared: None }
    }

    /// Creates a list of these work keys. If there are none, it takes no memory.
    pub(crate) fn new(alloc: Global, keys: Listed<WorkKey>) -> Result<WorkKeys, OutOfMemory>
        ensures { IfOk result (λ made. made ≡ keys) }
    {
        if keys.is_empty() {
            return Ok(WorkKeys::none());
        }
        let shared = Shared::new(alloc, keys)?;
        Ok(WorkKeys {
            shared: Some(shared),
        })
    }

    /// Returns the work keys as a slice.
    pub fn as_slice(&self) -> &[WorkKey]
        ensures { result.now ≡ self.now }
    {
        match &self.shared {
            None => &[],
            Some(keys) => keys.get().as_slice(),
        }
    }

    /// Returns a copy, which shares the list. It takes no memory.
    ///
    /// # Errors
    ///
    /// `OutOfMemory` if the list has as many copies as can be counted.
    pub fn try_clone(&self) -> Result<WorkKeys, OutOfMemory>
        ensures { IfOk result (λ copy. copy ≡ self.now) }
    {
        match &self.shared {
            None => Ok(WorkKeys::none()),
            Some(keys) => Ok(WorkKeys {
                shared: Some(keys.try_clone()?),
            }),
        }
    }
}
