// The records that answers show.
ghost use Rattle.script_text.specs.Answers.{instance_data, execution_data, step_data};

use crate::objects::{Shown, count_or_null, text_or_null};
use crate::telling::{Told, tell_object};
use batch_history::{JobExecution, JobInstance, StepExecution};
use batch_ids::OutOfMemory;
use json::Writer;

/// A job instance.
impl Told for JobInstance {
    ghost told = { instance_data };

    fn tell(&self, out: &mut Writer) -> Result<(), OutOfMemory> {
        tell_object(
            out,
            &[
                ("instance", Shown::Count(self.instance.value())),
                ("job", Shown::Text(self.job.as_str())),
            ],
        )
    }
}

/// The record of a job execution.
impl Told for JobExecution {
    ghost told = { execution_data };

    fn tell(&self, out: &mut Writer) -> Result<(), OutOfMemory> {
        tell_object(
            out,
            &[
                ("create", Shown::Count(self.create)),
                ("end", count_or_null(self.end)),
                ("execution", Shown::Count(self.execution.value())),
                ("exit", text_or_null(&self.exit)),
                ("instance", Shown::Count(self.instance.value())),
                ("job", Shown::Text(self.job.as_str())),
                ("start", count_or_null(self.start)),
                ("status", Shown::Text(self.status.name())),
                ("updated", Shown::Count(self.updated)),
            ],
        )
    }
}

/// The record of a step execution.
impl Told for StepExecution {
    ghost told = { step_data };

    fn tell(&self, out: &mut Writer) -> Result<(), OutOfMemory> {
        tell_object(
            out,
            &[
                ("end", count_or_null(self.end)),
                ("execution", Shown::Count(self.execution.value())),
                ("exit", text_or_null(&self.exit)),
                ("metrics", Shown::Metrics(&self.metrics)),
                ("start", Shown::Count(self.start)),
                ("status", Shown::Text(self.status.name())),
                ("step", Shown::Text(self.step.as_str())),
                ("work", Shown::Count(self.work.value())),
            ],
        )
    }
}
