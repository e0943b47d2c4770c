ghost use Rattle.std.specs.Prelude.{◌≡◌, false, IfOk};
ghost use Rattle.serde_json.specs.View.{view};
ghost use Rattle.jsl_json.specs.Catalogues.{is_out_of_memory};
ghost use Rattle.script_text.specs.Faults.{fault_data, fault_text};

use crate::objects::{Shown, count_or_null, object_value};
use crate::written::line_of;
use batch_ids::OutOfMemory;
use jsl_json::ReadFault;
use serde_json::Value;
use std::alloc::Global;

/// Writes the line of a fault other than `OutOfMemory`, with its line feed:
/// - `{"fault":NAME}` for a line that is no catalogue.
/// - `{"element":N,"fault":"BadElement","job":N}` for wrong members, with null for no element.
/// - `{"fault":NAME,"job":N}` with the job's fault.
///
/// # Errors
///
/// Returns `OutOfMemory` if memory is refused.
#[tactic(auto, using(crate::proofs::Floats::fault_has_no_float))]
pub fn fault_text(alloc: Global, fault: &ReadFault) -> Result<Vec<u8>, OutOfMemory>
    requires { is_out_of_memory fault.now ≡ false }
    ensures { IfOk result (λ text. text.items ≡ fault_text fault.now) }
{
    let value = fault_value(alloc, fault)?;
    line_of(alloc, &value)
}

fn fault_value(alloc: Global, fault: &ReadFault) -> Result<Value, OutOfMemory>
    requires { is_out_of_memory fault.now ≡ false }
    ensures { IfOk result (λ value. view value ≡ fault_data fault.now) }
{
    let name = fault.name();
    match fault {
        ReadFault::NotJson => object_value(alloc, &[("fault", Shown::Text(name))]),
        ReadFault::NotACatalogue => object_value(alloc, &[("fault", Shown::Text(name))]),
        ReadFault::BadElement { job, element } => object_value(
            alloc,
            &[
                ("element", count_or_null(*element)),
                ("fault", Shown::Text(name)),
                ("job", Shown::Count(*job)),
            ],
        ),
        ReadFault::InJob { job, .. } => object_value(
            alloc,
            &[("fault", Shown::Text(name)), ("job", Shown::Count(*job))],
        ),
        ReadFault::OutOfMemory => unreachable!(),
    }
}
