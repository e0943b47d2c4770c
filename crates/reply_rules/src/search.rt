//! The search for a job instance.
ghost use Rattle.std.specs.Prelude.{◌≡◌};
ghost use Rattle.std.specs.List.{list_any};
ghost use Rattle.records.specs.Maps.{is_instance};

use batch_ids::InstanceId;
use records::Records;

/// Checks whether there is a job instance with this number.
#[tactic(auto, using(crate::proofs::Lists::any_found))]
pub(crate) fn is_there(records: &Records, i: InstanceId) -> bool
    ensures { result ≡ list_any (is_instance i) records.now.instances }
{
    records.instance(i).is_some()
}
