// Objects whose own members hold no other objects.
ghost use Rattle.std.specs.Prelude.{◌≡◌};
ghost use Rattle.serde_json.specs.View.{view};
ghost use Rattle.jsl_json.specs.Members.{own_job_of, own_flow_of};
ghost use Rattle.jsl_json.specs.Transitions.{transition_of_data};
ghost use Rattle.jsl_json.specs.Tasks.{artifact_of};
ghost use Rattle.jsl_json.specs.Catalogues.{jobs_of};
ghost use Rattle.catalogue_places.specs.Flaws.{Agrees, catalogue_flaw, job_flaw, split_flow_flaw, artifact_flaw, end_flaw, then_flaw, transition_flaw};

use crate::flaws::Flaw;
use crate::member::Member;
use crate::readings::{first, list, other_kind, text, text_if, truth_if, unless, unlisted};
use json_members::is_text;
use serde_json::Value;

/// Returns the flaw of a value that is no catalogue, and `None` if it is an object with just `jobs`,
/// a list.
#[tactic(auto, unfolding(crate::specs::Flaws::catalogue_flaw))]
pub fn catalogue_flaw(value: &Value) -> Option<Flaw>
    ensures flaw { result ≡ catalogue_flaw (view value.now) }
    ensures law { Agrees (catalogue_flaw (view value.now)) (jobs_of (view value.now)) }
{
    first(&[unlisted(value, &["jobs"]), list(value, Member::Jobs)])
}

/// Returns the first flaw of a job's own members, and `None` if they are right.
#[tactic(auto, unfolding(crate::specs::Flaws::job_flaw))]
pub fn job_flaw(value: &Value) -> Option<Flaw>
    ensures flaw { result ≡ job_flaw (view value.now) }
    ensures law { Agrees (job_flaw (view value.now)) (own_job_of (view value.now)) }
{
    first(&[
        unlisted(value, &["id", "restartable", "elements"]),
        text(value, Member::Id),
        truth_if(value, Member::Restartable, true),
        list(value, Member::Elements),
    ])
}

/// Returns the first flaw of the own members of a flow of a split, and `None` if they are right.
#[tactic(auto, unfolding(crate::specs::Flaws::split_flow_flaw))]
pub fn split_flow_flaw(value: &Value) -> Option<Flaw>
    ensures flaw { result ≡ split_flow_flaw (view value.now) }
    ensures law { Agrees (split_flow_flaw (view value.now)) (own_flow_of (view value.now)) }
{
    first(&[
        unlisted(value, &["kind", "id", "elements"]),
        unless(is_text(value, "kind", "flow"), value, Member::Kind),
        text(value, Member::Id),
        list(value, Member::Elements),
    ])
}

#[tactic(auto, unfolding(crate::specs::Flaws::artifact_flaw))]
pub fn artifact_flaw(value: &Value) -> Option<Flaw>
    ensures { result ≡ artifact_flaw (view value.now) }
{
    first(&[unlisted(value, &["ref"]), text(value, Member::Ref)])
}

fn end_flaw(value: &Value) -> Option<Flaw>
    ensures { result ≡ end_flaw (view value.now) }
{
    first(&[
        unlisted(value, &["kind", "on", "exit-status"]),
        text_if(value, Member::ExitStatus),
    ])
}

#[tactic(auto, unfolding(crate::specs::Flaws::then_flaw))]
fn then_flaw(value: &Value) -> Option<Flaw>
    ensures { result ≡ then_flaw (view value.now) }
{
    if is_text(value, "kind", "next") {
        first(&[
            unlisted(value, &["kind", "on", "to"]),
            text(value, Member::To),
        ])
    } else if is_text(value, "kind", "end") {
        end_flaw(value)
    } else if is_text(value, "kind", "fail") {
        end_flaw(value)
    } else if is_text(value, "kind", "stop") {
        first(&[
            unlisted(value, &["kind", "on", "exit-status", "restart"]),
            text_if(value, Member::ExitStatus),
            text_if(value, Member::Restart),
        ])
    } else {
        Some(other_kind(value))
    }
}

#[tactic(auto, unfolding(crate::specs::Flaws::transition_flaw))]
pub fn transition_flaw(value: &Value) -> Option<Flaw>
    ensures { result ≡ transition_flaw (view value.now) }
{
    first(&[then_flaw(value), text(value, Member::On)])
}
