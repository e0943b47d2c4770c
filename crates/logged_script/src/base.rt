// The engine of a log's base.
ghost use Rattle.std.specs.Prelude.{◌≡◌, List, ℕ, map, Ok, IfOk, IfErr, OnOk};
ghost use Rattle.batch_history.specs.Legal.{most_numbered};
ghost use Rattle.durable_log.specs.Shown.{record_shown};
ghost use Rattle.script_engine.specs.Script.{catalogue_at};
ghost use Rattle.script_log.specs.Replays.{begun};
ghost use Rattle.logged_script.specs.Faults.{HasBase, IsNoBase};
ghost use Rattle.logged_script.specs.Histories.{Answers};

use crate::engine::ScriptEngine;
use crate::fault::LogFault;
use crate::opening::OpeningFault;
use durable_log::Record;
use jsl_model::Catalogue;
use log_base::BaseFault;
use row_repository::{RowRepository, RowRestoration};
use script_log::find_base;
use std::alloc::Global;

/// Makes the engine of a log's base, which no line of the log was given to yet. Returns `Refused` with
/// `BadBase` if a record can't be of the base.
pub(crate) fn engine_of_base<J: RowRepository, B: RowRestoration<J>, const TAGS: bool>(
    alloc: Global,
    records: &[Record<'_>],
    catalogue: Catalogue,
) -> Result<ScriptEngine<J, TAGS>, OpeningFault>
    requires { J.limit ≡ most_numbered }
    ensures base { OnOk result (HasBase (map record_shown records.now) catalogue) }
    ensures answers { IfOk result (λ engine. (line : List ℕ) → catalogue_at line ≡ Ok catalogue → Answers TAGS J.limit J.rows engine (begun line (map record_shown records.now))) }
    ensures fault { IfErr result (IsNoBase (map record_shown records.now) catalogue) }
{
    let base = match find_base(records) {
        Ok(base) => base,
        Err(fault) => {
            drop(catalogue);
            return Err(OpeningFault::Refused(LogFault::BadBase {
                number: fault.number,
            }));
        }
    };
    match ScriptEngine::restored::<B>(alloc, catalogue, base) {
        Ok(engine) => Ok(engine),
        Err(BaseFault::BadLine { place }) => {
            // The base begins behind record 0.
            Err(OpeningFault::Refused(LogFault::BadBase { number: place + 1 }))
        }
        Err(BaseFault::OutOfMemory) => Err(OpeningFault::OutOfMemory),
    }
}
