ghost use Rattle.std.specs.Prelude.{◌≡◌, ◌≤◌};
ghost use Rattle.batch_history.specs.Due.{IsDue};
ghost use Rattle.batch_history.specs.Legal.{most_numbered};
ghost use Rattle.batch_history.specs.Replies.{reply_by};
ghost use Rattle.reply_rules.specs.Standings.{rows_at};
ghost use Rattle.restart_rules.specs.Placed.{ArePlaced};
ghost use Rattle.seq_repository.specs.Kept.{rows_in};

use crate::repository::Repository;
use crate::search::{Claimable, find_claimable};
use batch_history::{Call, Reply};
use batch_ids::Refusal;
use reply_rules::{Standing, accept};

impl<const LIMIT: u64> Repository<LIMIT> {
    /// Returns the state from which its calls are replied to.
    fn standing(&self) -> Standing<'_, LIMIT>
        ensures rows { rows_at result ≡ rows_in self.now }
        ensures executions { result.last.execution ≤ most_numbered }
        ensures works { result.last.work ≤ most_numbered }
        ensures placed { ArePlaced result.catalogue.now result.records.now.executions }
    {
        Standing {
            alloc: self.alloc,
            catalogue: &self.catalogue,
            count: self.count,
            last: self.last,
            records: &self.records,
        }
    }

    fn reply_to_claim(&self) -> Result<Reply, Refusal>
        ensures { IsDue result (reply_by LIMIT (rows_in self.now) 0 Call.Claim) }
    {
        match find_claimable(
            self.alloc,
            &self.catalogue,
            &self.records,
            &self.agenda,
            &self.cursors,
        )? {
            None => Ok(Reply::Nothing),
            Some(Claimable { row, key }) => {
                let reply = self.standing().claim_reply(row, &key)?;
                accept::<LIMIT>(self.count, reply)
            }
        }
    }

    /// Returns the reply to a call of the session `who`.
    pub(crate) fn reply(&self, who: u64, call: &Call) -> Result<Reply, Refusal>
        ensures { IsDue result (reply_by LIMIT (rows_in self.now) who call.now) }
    {
        let standing = self.standing();
        match call {
            Call::Start { job, .. } => standing.reply_to_start(job),
            Call::Restart { execution, .. } => standing.reply_to_restart(*execution),
            Call::Stop { execution } => standing.reply_to_stop(*execution),
            Call::Abandon { execution } => standing.reply_to_abandon(*execution),
            Call::Claim => self.reply_to_claim(),
            Call::Checkpoint { work, .. } => standing.reply_to_checkpoint(who, *work),
            Call::Finish { work, outcome, .. } => standing.reply_to_finish(who, *work, *outcome),
            Call::Lose { work } => standing.reply_to_loss(*work),
            Call::Purge { instance } => standing.reply_to_purge(*instance),
        }
    }
}
