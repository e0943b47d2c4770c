//! Copies of facts and values.
ghost use Rattle.std.specs.Prelude.{◌≡◌, ◌++◌, IfOk, OnOk};

use crate::facts::{Fact, Known, Value};
use crate::work_key::WorkKey;
use batch_ids::{OutOfMemory, try_clone_option};
use std::alloc::Global;

/// Adds copies of the work keys.
pub(crate) fn add_keys(to: &mut Vec<WorkKey>, more: &[WorkKey]) -> Result<(), OutOfMemory>
    ensures { OnOk result (to.new.items ≡ to.old.items ++ more.now) }
{
    for key in more {
        to.push(key.try_clone()?)?;
    }
    Ok(())
}

impl Fact {
    /// Returns an equal fact.
    ///
    /// # Errors
    ///
    /// `OutOfMemory` if memory is refused.
    pub fn try_clone(&self) -> Result<Fact, OutOfMemory>
        ensures { IfOk result (λ copy. copy ≡ self.now) }
    {
        match self {
            Fact::Nothing => Ok(Fact::Nothing),
            Fact::Carried(exit) => Ok(Fact::Carried(exit.try_clone()?)),
            Fact::Busy => Ok(Fact::Busy),
            Fact::Over(outcome, exit) => Ok(Fact::Over(*outcome, exit.try_clone()?)),
            Fact::Barred => Ok(Fact::Barred),
        }
    }
}

/// Returns equal entries, in the same order.
///
/// # Errors
///
/// `OutOfMemory` if memory is refused.
pub fn copies_of_known(alloc: Global, known: &[Known]) -> Result<Vec<Known>, OutOfMemory>
    ensures { IfOk result (λ copies. copies.items ≡ known.now) }
{
    let mut copies = Vec::new(alloc);
    for one in known {
        let key = one.key.try_clone()?;
        let fact = one.fact.try_clone()?;
        copies.push(Known { key, fact })?;
    }
    Ok(copies)
}

impl Value {
    /// Returns an equal value.
    ///
    /// # Errors
    ///
    /// `OutOfMemory` if memory is refused.
    pub fn try_clone(&self) -> Result<Value, OutOfMemory>
        ensures { IfOk result (λ copy. copy ≡ self.now) }
    {
        match self {
            Value::Open { ready, busy } => Ok(Value::Open {
                ready: ready.try_clone()?,
                busy: busy.try_clone()?,
            }),
            Value::Done { exit } => Ok(Value::Done {
                exit: exit.try_clone()?,
            }),
            Value::Ended {
                status,
                exit,
                point,
            } => {
                Ok(Value::Ended {
                    status: *status,
                    exit: exit.try_clone()?,
                    point: try_clone_option(point)?,
                })
            }
        }
    }
}
