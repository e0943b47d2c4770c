ghost use Rattle.std.specs.Prelude.{◌≡◌, ◌<◌, ◌+◌, ◌%◌};

use batch_ids::ExecutionId;

/// Returns the stop word's index for this job execution. All job executions share 64 words.
pub fn stop_word(execution: ExecutionId) -> usize
    ensures word { result ≡ 1 + execution % 64 }
    ensures place { (0 < result) × (result < 65) }
{
    1 + (execution.value() % 64) as usize
}
