ghost use Rattle.std.specs.Prelude.{◌≡◌};
ghost use Rattle.lent_json.specs.Looks.{shown};
ghost use Rattle.base_text.specs.Heads.{counts_of, head_of};

use batch_history::LastNumbers;
use lent_json::Look;

/// The first line of a base: the counts of the repository whose rows follow.
#[derive(Clone, Copy, PartialEq, Eq, Debug)]
pub struct BaseHead {
    /// The number of operations that the repository has accepted.
    pub count: u64,
    /// The last numbers that it gave.
    pub last: LastNumbers,
    /// The number of lines that follow, one for each row.
    pub rows: u64,
}

/// Reads the head in a value.
#[tactic(auto, unfolding(crate::specs::Heads::head_of))]
pub fn head_of(value: Look<'_, '_>) -> Option<BaseHead>
    ensures { result ≡ head_of (shown value.entry) }
{
    if !value.has_only(&["base"]) {
        return None;
    }
    match value.optional_object("base")? {
        Some(counts) => counts_of(counts),
        None => None,
    }
}

#[tactic(auto, unfolding(crate::specs::Heads::counts_of))]
fn counts_of(value: Look<'_, '_>) -> Option<BaseHead>
    ensures { result ≡ counts_of (shown value.entry) }
{
    if !value.has_only(&["count", "execution", "instance", "rows", "work"]) {
        return None;
    }
    let count = value.number_at("count")?;
    let last = LastNumbers {
        instance: value.number_at("instance")?,
        execution: value.number_at("execution")?,
        work: value.number_at("work")?,
    };
    let rows = value.number_at("rows")?;
    Some(BaseHead { count, last, rows })
}
