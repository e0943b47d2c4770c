// The names of a log's files.
ghost use Rattle.std.specs.Prelude.{◌≡◌, ◌++◌, codes, string_bytes};
ghost use Rattle.file_host.specs.Names.{IsFolderOf};

use crate::steps::Part;
use std::alloc::{AllocError, Global};

/// The names of a log, of its draft and of the bytes that were cut off from it.
#[derive(Drop)]
pub(crate) struct Names {
    log: String,
    draft: String,
    cut: String,
    ghost draft_is: { string_bytes draft ≡ string_bytes log ++ codes ".new" },
    ghost cut_is: { string_bytes cut ≡ string_bytes log ++ codes ".cut" },
}

impl Names {
    ghost use Rattle.std.specs.Prelude.{◌≡◌, IfOk, string_bytes};
    ghost use Rattle.file_host.specs.Names.{IsNameOf};

    /// Makes the names that belong to the name of a log.
    ///
    /// # Errors
    ///
    /// `AllocError` if memory for them is refused.
    pub(crate) fn new(alloc: Global, log: String) -> Result<Names, AllocError>
        ensures { IfOk result (λ names. string_bytes names.log ≡ string_bytes log) }
    {
        let draft = format!(in alloc; "{log}.new")?;
        let cut = format!(in alloc; "{log}.cut")?;
        Ok(Names { log, draft, cut })
    }

    /// Returns the name of a part.
    pub(crate) fn of(&self, part: Part) -> &str
        ensures { IsNameOf part (string_bytes self.now.log) result.now }
    {
        match part {
            Part::Log => &self.log,
            Part::Draft => &self.draft,
            Part::Cut => &self.cut,
            Part::Folder => folder(&self.log),
        }
    }
}

// Returns the folder of a file.
fn folder(path: &str) -> &str
    ensures { IsFolderOf path.now result.now }
{
    match path.rfind('/') {
        Some(0) => "/",
        Some(at) => &path[..at],
        None => ".",
    }
}
