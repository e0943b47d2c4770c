//! A cursor's stored lists, one for each list of its job, and the changes of them.
ghost use Rattle.std.specs.Prelude.{◌≡◌};

use batch_ids::Listed;
use walk_rules::{ElementResult, Progress, Value};

/// The stored state of a list of elements.
#[derive(Debug, Drop)]
pub(crate) struct KeptList {
    /// How far the list's walk has come.
    pub progress: Progress,
    /// Each element's own result.
    pub results: Listed<ElementResult>,
    /// For each element, the number of lists before those inside it.
    pub starts: Listed<usize>,
    /// The number of lists, with this one and all inside it.
    pub size: usize,
}

/// A change of one stored list.
#[derive(Debug, Drop)]
pub(crate) struct ListChange {
    /// The number of the list.
    pub list: usize,
    /// How far the list's walk has come.
    pub progress: Progress,
    /// The place of the element whose work key has a new fact.
    pub place: usize,
    /// This element's own result.
    pub result: ElementResult,
}

impl ListChange {
    /// Makes a change of the list with this number.
    pub(crate) fn new(
        list: usize,
        place: usize,
        own: ElementResult,
        progress: Progress,
    ) -> ListChange
        ensures { result ≡ record {
          list = list;
          progress = progress;
          place = place;
          result = own;
        } }
    {
        ListChange {
            list,
            progress,
            place,
            result: own,
        }
    }
}
