// Values that are written token by token.
ghost use Rattle.std.specs.Prelude.{◌≡◌, ◌∷◌, true, [], List, ℕ, map, IfOk, OnOk};
ghost use Rattle.json.specs.Token.{key};
ghost use Rattle.json.specs.Tree.{json_tokens, items_tokens, members_tokens};
ghost use Rattle.serde_json.specs.Data.{Data, object, string, boolean};
ghost use Rattle.serde_json.specs.View.{items_of};
ghost use Rattle.serde_json.specs.Written.{outline, items_outline, members_outline};
ghost use Rattle.script_text.specs.Written.{one, count, counts_data, list_of, refused, line_of};
ghost use Rattle.script_text.specs.Metrics.{metrics_data};
ghost use Rattle.script_text.specs.Answers.{status_counts};
ghost use Rattle.script_text.specs.Shown.{shown_data};
ghost use Rattle.script_text.specs.Telling.{Adds, AddsTokens, told_after, told_members, told_counts, count_tokens, rising_counts, rising_statuses};

use crate::objects::Shown;
use batch_history::CountsByStatus;
use batch_ids::{BatchStatus, ExecutionId, Listed, Metric, Metrics, OutOfMemory, T256};
use json::Writer;
use std::alloc::Global;

/// A value that is written token by token.
pub trait Told {
    // the value as it is written
    ghost told: { Self → Data };

    /// Writes the value.
    fn tell(&self, out: &mut Writer) -> Result<(), OutOfMemory>
        ensures { OnOk result (Adds (told self.now) out.old out.new) };
}

impl Told for T256 {
    ghost told = { string };

    #[tactic(auto, unfolding(crate::specs::Telling::told_after))]
    fn tell(&self, out: &mut Writer) -> Result<(), OutOfMemory> {
        out.string(self.as_str())
    }
}

impl Told for ExecutionId {
    ghost told = { count };

    #[tactic(auto, unfolding(crate::specs::Telling::told_after))]
    fn tell(&self, out: &mut Writer) -> Result<(), OutOfMemory> {
        out.u64(self.value())
    }
}

impl<T: Told> Told for Listed<T> {
    ghost told = { λ items. list_of (map T.told items) };

    #[tactic(auto, unfolding(crate::specs::Telling::told_after))]
    fn tell(&self, out: &mut Writer) -> Result<(), OutOfMemory> {
        out.begin_array()?;
        tell_items(out, self.as_slice())
    }
}

/// Writes the items of a list, and its end.
#[tactic(auto, unfolding(crate::specs::Telling::told_after))]
fn tell_items<T: Told>(out: &mut Writer, items: &[T]) -> Result<(), OutOfMemory>
    ensures { OnOk result
        (AddsTokens (items_tokens (items_outline (items_of (map T.told items.now)))) out.old out.new) }
{
    for item in items {
        item.tell(out)?;
    }
    out.end_array()
}

/// Writes the value of a member.
#[tactic(auto, unfolding(crate::specs::Telling::told_after))]
fn tell_shown(out: &mut Writer, shown: Shown<'_>) -> Result<(), OutOfMemory>
    ensures { OnOk result (Adds (shown_data shown.entry) out.old out.new) }
{
    match shown {
        Shown::Null => out.null(),
        Shown::Count(count) => out.u64(count),
        Shown::Text(text) => out.string(text),
        Shown::Metrics(metrics) => tell_metrics(out, metrics),
    }
}

/// Writes a member.
#[tactic(auto, unfolding(crate::specs::Telling::told_after))]
fn tell_member(out: &mut Writer, name: &str, shown: Shown<'_>) -> Result<(), OutOfMemory>
    ensures { OnOk result
        (AddsTokens (key name.now ∷ json_tokens (outline (shown_data shown.entry))) out.old out.new) }
{
    out.key(name)?;
    tell_shown(out, shown)
}

/// Writes members, and the end of their object.
fn tell_members(out: &mut Writer, members: &[(&str, Shown<'_>)]) -> Result<(), OutOfMemory>
    ensures { OnOk result
        (AddsTokens (members_tokens (members_outline (told_members members.now))) out.old out.new) }
{
    for (name, shown) in members {
        tell_member(out, name, *shown)?;
    }
    out.end_object()
}

/// Writes an object of these members, which the caller gives in rising order of their names.
#[tactic(auto, unfolding(crate::specs::Telling::told_after))]
pub fn tell_object(out: &mut Writer, members: &[(&str, Shown<'_>)]) -> Result<(), OutOfMemory>
    ensures { OnOk result (Adds (object (told_members members.now)) out.old out.new) }
{
    out.begin_object()?;
    tell_members(out, members)
}

/// Writes a count by its name, unless it is 0.
fn tell_count(out: &mut Writer, name: &str, count: u64) -> Result<(), OutOfMemory>
    ensures { OnOk result
        (AddsTokens (count_tokens (name.now, count)) out.old out.new) }
{
    if count == 0 {
        return Ok(());
    }
    out.key(name)?;
    out.u64(count)
}

/// Writes counts, and the end of their object.
fn tell_each_count(out: &mut Writer, counts: &[(&str, u64)]) -> Result<(), OutOfMemory>
    ensures { OnOk result
        (AddsTokens (members_tokens (members_outline (told_counts
        (map (λ named. (named.0.now, named.1)) counts.now)))) out.old out.new) }
{
    for (name, count) in counts {
        tell_count(out, name, *count)?;
    }
    out.end_object()
}

/// Writes an object of these counts, which the caller gives in rising order of their names. A count
/// of 0 is left out.
#[tactic(auto, unfolding(crate::specs::Telling::told_after))]
pub fn tell_counts(out: &mut Writer, counts: &[(&str, u64)]) -> Result<(), OutOfMemory>
    ensures { OnOk result
        (Adds (object (told_counts (map (λ named. (named.0.now, named.1)) counts.now))) out.old out.new) }
{
    out.begin_object()?;
    tell_each_count(out, counts)
}

/// Returns the counts of metrics, in rising order of the metrics' names.
fn rising_counts(metrics: &Metrics) -> [(&'static str, u64); 8]
    ensures { map (λ named. (named.0.now, named.1)) result ≡ rising_counts metrics.now }
{
    [
        (Metric::CommitCount.name(), metrics.commit_count),
        (Metric::FilterCount.name(), metrics.filter_count),
        (Metric::ProcessSkipCount.name(), metrics.process_skip_count),
        (Metric::ReadCount.name(), metrics.read_count),
        (Metric::ReadSkipCount.name(), metrics.read_skip_count),
        (Metric::RollbackCount.name(), metrics.rollback_count),
        (Metric::WriteCount.name(), metrics.write_count),
        (Metric::WriteSkipCount.name(), metrics.write_skip_count),
    ]
}

/// Writes the metrics of a step execution.
fn tell_metrics(out: &mut Writer, metrics: &Metrics) -> Result<(), OutOfMemory>
    ensures { OnOk result (Adds (metrics_data metrics.now) out.old out.new) }
{
    tell_counts(out, &rising_counts(metrics))
}

/// Returns the counts of job executions, in rising order of the names of their statuses.
fn rising_statuses(counts: &CountsByStatus) -> [(&'static str, u64); 7]
    ensures { map (λ named. (named.0.now, named.1)) result ≡ rising_statuses counts.now }
{
    [
        (BatchStatus::Abandoned.name(), counts.abandoned),
        (BatchStatus::Completed.name(), counts.completed),
        (BatchStatus::Failed.name(), counts.failed),
        (BatchStatus::Started.name(), counts.started),
        (BatchStatus::Starting.name(), counts.starting),
        (BatchStatus::Stopped.name(), counts.stopped),
        (BatchStatus::Stopping.name(), counts.stopping),
    ]
}

/// The number of job executions with each batch status.
impl Told for CountsByStatus {
    ghost told = { λ counts. counts_data (status_counts counts) };

    fn tell(&self, out: &mut Writer) -> Result<(), OutOfMemory> {
        tell_counts(out, &rising_statuses(self))
    }
}

/// Writes an object of one member.
#[tactic(auto, unfolding(crate::specs::Telling::told_after))]
pub fn tell_one<T: Told>(out: &mut Writer, name: &str, member: &T) -> Result<(), OutOfMemory>
    ensures { OnOk result (Adds (one name.now (T.told member.now)) out.old out.new) }
{
    out.begin_object()?;
    out.key(name)?;
    member.tell(out)?;
    out.end_object()
}

/// Writes an object of one member that is true.
#[tactic(auto, unfolding(crate::specs::Telling::told_after))]
pub fn tell_true(out: &mut Writer, name: &str) -> Result<(), OutOfMemory>
    ensures { OnOk result (Adds (one name.now (boolean true)) out.old out.new) }
{
    out.begin_object()?;
    out.key(name)?;
    out.boolean(true)?;
    out.end_object()
}

/// Writes a refusal by its name.
pub fn tell_refused(out: &mut Writer, name: &str) -> Result<(), OutOfMemory>
    ensures { OnOk result (Adds (refused name.now) out.old out.new) }
{
    tell_object(out, &[("refused", Shown::Text(name))])
}

/// Makes a writer of a new line.
pub fn new_line(alloc: Global) -> Result<Writer, OutOfMemory>
    ensures before { IfOk result (λ out. out.before ≡ []) }
    ensures tokens { IfOk result (λ out. out.tokens ≡ []) }
{
    Ok(Writer::new(Vec::with_capacity(alloc, 128)?))
}

/// Returns the written line, with its line feed.
#[tactic(auto, unfolding(crate::specs::Written::line_of, crate::specs::Telling::told_after))]
pub fn line_from(out: Writer) -> Result<Vec<u8>, OutOfMemory>
    requires { out.before ≡ [] }
    ensures { (d : Data) → out.tokens ≡ told_after d []
        → IfOk result (λ text. text.items ≡ line_of d) }
{
    let mut text = out.into_inner();
    text.push(b'\n')?;
    Ok(text)
}
