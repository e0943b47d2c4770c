// A job repository that replies to the lines of a script.
ghost use Rattle.std.specs.Prelude.{◌≡◌, [], List, ℕ, length, map, box_value, Ok, IfOk, IfErr, OnOk};
ghost use Rattle.batch_history.specs.Legal.{most_numbered};
ghost use Rattle.durable_log.specs.Shown.{record_shown};
ghost use Rattle.log_base.specs.Bases.{IsBase, IsBaseFault, IsPlacedBelow};
ghost use Rattle.script_engine.specs.Script.{catalogue_at};
ghost use Rattle.script_log.specs.Bases.{lines_of_records};
ghost use Rattle.logged_script.specs.Histories.{Answers, is_kept, reply_at};

use crate::tags::command_in;
use batch_ids::OutOfMemory;
use durable_log::Record;
use jsl_model::Catalogue;
use log_base::{BaseFault, restored_base};
use row_repository::{RowRepository, RowRestoration};
use script_engine::{answer_whole, bad_line_text};
use script_lines::MAX_LINE;
use script_log::{Answered, Engine};
use script_text::CommandReader;
use std::alloc::{AllocError, Global};

/// A job repository that replies to the lines of a script, one after another. A line is logged if
/// it is a call that is accepted with another reply than Nothing. With `TAGS`, a line may begin with
/// a tag, which is logged with it, and on which no reply depends ([`command_of`](crate::command_of)).
#[derive(Drop)]
pub struct ScriptEngine<J: RowRepository, const TAGS: bool> {
    commands: CommandReader,
    repository: Box<J>,
}

impl<J: RowRepository, const TAGS: bool> ScriptEngine<J, TAGS> {
    /// Makes a repository over this catalogue, without operations.
    ///
    /// # Errors
    ///
    /// Returns `OutOfMemory` if memory is refused. The catalogue is dropped.
    pub fn new(alloc: Global, catalogue: Catalogue) -> Result<ScriptEngine<J, TAGS>, OutOfMemory>
        requires { J.limit ≡ most_numbered }
        ensures { IfOk result (λ engine. (line : List ℕ) → catalogue_at line ≡ Ok catalogue → Answers TAGS J.limit J.rows engine record { catalogue = line; base = []; lines = [] }) }
    {
        let repository = J::new(alloc, catalogue)?;
        ScriptEngine::over(alloc, repository)
    }

    /// Restores the repository of a base over this catalogue ([`restored_base`]). `B` is the type that
    /// restores it.
    ///
    /// # Errors
    ///
    /// - `BadLine` with the place of the first line that may not stand in the base.
    /// - `OutOfMemory` if memory is refused.
    pub fn restored<B: RowRestoration<J>>(
        alloc: Global,
        catalogue: Catalogue,
        base: &[Record<'_>],
    ) -> Result<ScriptEngine<J, TAGS>, BaseFault>
        requires { J.limit ≡ most_numbered }
        ensures base { OnOk result (IsBase most_numbered catalogue (lines_of_records (map record_shown base.now))) }
        ensures answers { IfOk result (λ engine. (line : List ℕ) → catalogue_at line ≡ Ok catalogue
            → Answers TAGS J.limit J.rows engine record { catalogue = line; base = lines_of_records (map record_shown base.now); lines = [] }) }
        ensures fault { IfErr result (IsBaseFault most_numbered catalogue (lines_of_records (map record_shown base.now))) }
        ensures within { IfErr result (IsPlacedBelow (length base.now)) }
    {
        let repository = restored_base::<J, B>(alloc, catalogue, base)?;
        match ScriptEngine::over(alloc, repository) {
            Ok(engine) => Ok(engine),
            Err(_) => Err(BaseFault::OutOfMemory),
        }
    }

    // Returns the repository.
    pub(crate) fn repository(&self) -> &J
        ensures { result.now ≡ box_value self.now.repository }
    {
        &self.repository
    }

    // Makes the engine of a repository.
    pub(crate) fn over(alloc: Global, repository: J) -> Result<ScriptEngine<J, TAGS>, OutOfMemory>
        ensures { IfOk result (λ engine. box_value engine.repository ≡ repository) }
    {
        match Box::new(alloc, repository) {
            Ok(repository) => Ok(ScriptEngine {
                commands: CommandReader::new(alloc),
                repository,
            }),
            Err(refused) => {
                drop(refused);
                Err(AllocError)
            }
        }
    }
}

impl<J: RowRepository, const TAGS: bool> Engine for ScriptEngine<J, TAGS> {
    ghost stands = { Answers TAGS J.limit J.rows };

    ghost keeps = { is_kept TAGS };

    ghost reply = { reply_at TAGS };

    fn answer(&mut self, alloc: Global, line: &[u8]) -> Result<Answered, AllocError> {
        if line.len() > MAX_LINE {
            let text = bad_line_text(alloc)?;
            return Ok(Answered { text, kept: false });
        }
        let repository: &mut J = &mut self.repository;
        let before = repository.len();
        let command = command_in::<TAGS>(line);
        let answered = answer_whole(alloc, &mut self.commands, repository, command)?;
        let kept = before < repository.len();
        Ok(Answered {
            text: answered.text,
            kept,
        })
    }

    fn answer_too_long(&mut self, alloc: Global) -> Result<Vec<u8>, AllocError> {
        bad_line_text(alloc)
    }
}
