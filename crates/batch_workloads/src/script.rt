// A script that grows line by line, and the numbers that its calls are answered.
use std::alloc::{AllocError, Global};

/// How many sessions take turns.
const SESSIONS: u64 = 16;

/// A script, with how many lines, job instances, job executions and work items it has made.
#[derive(Drop)]
pub(crate) struct Script {
    text: String,
    lines: u64,
    at: u64,
    pub(crate) instances: u64,
    pub(crate) executions: u64,
    works: u64,
}

impl Script {
    pub(crate) fn new(alloc: Global) -> Script {
        Script {
            text: String::new(alloc),
            lines: 0,
            at: 1_700_000_000_000,
            instances: 0,
            executions: 0,
            works: 0,
        }
    }

    pub(crate) fn bytes(&self) -> &[u8] {
        self.text.as_bytes()
    }

    /// How many lines it has.
    pub(crate) fn lines(&self) -> u64 {
        self.lines
    }

    /// Adds a part of a line.
    pub(crate) fn part(&mut self, text: &str) -> Result<(), AllocError> {
        self.text.push_str(text)
    }

    /// Adds a number to a line.
    pub(crate) fn number(&mut self, number: u64) -> Result<(), AllocError> {
        write!(self.text, "{number}")
    }

    /// Adds an id of a prefix and two numbers to a line.
    pub(crate) fn id(&mut self, prefix: &str, list: u64, place: u64) -> Result<(), AllocError> {
        write!(self.text, "{prefix}{list}-{place}")
    }

    /// Ends a line.
    pub(crate) fn end(&mut self) -> Result<(), AllocError> {
        self.lines = self.lines.wrapping_add(1);
        self.text.push_str("\n")
    }

    /// Begins a call by one of the sessions.
    fn call(&mut self, name: &str, turn: u64) -> Result<(), AllocError> {
        self.at = self.at.wrapping_add(7);
        let (by, at) = (1 + turn % SESSIONS, self.at);
        write!(self.text, "{{\"do\":\"{name}\",\"by\":{by},\"at\":{at}")
    }

    /// Starts a job whose id is a word and a number, and gives the number of the job execution.
    pub(crate) fn start(&mut self, word: &str, job: u64, day: u64) -> Result<u64, AllocError> {
        self.instances = self.instances.wrapping_add(1);
        self.executions = self.executions.wrapping_add(1);
        self.call("start", self.executions)?;
        write!(self.text, ",\"job\":\"{word}{job}\"")?;
        if day > 0 {
            write!(
                self.text,
                ",\"parameters\":{{\"day\":\"{day}\",\"region\":\"eu\"}}"
            )?;
        }
        self.part("}")?;
        self.end()?;
        Ok(self.executions)
    }

    /// Starts a job whose id is a word and a number, as a run has it.
    pub(crate) fn start_line(&mut self, word: &str, job: u64) -> Result<(), AllocError> {
        write!(self.text, "{{\"job\":\"{word}{job}\"}}")?;
        self.end()
    }

    /// Restarts a job execution, and gives the number of the new one.
    pub(crate) fn restart(&mut self, execution: u64) -> Result<u64, AllocError> {
        self.executions = self.executions.wrapping_add(1);
        self.call("restart", self.executions)?;
        write!(self.text, ",\"execution\":{execution}}}")?;
        self.end()?;
        Ok(self.executions)
    }

    /// Claims what is there to claim, and gives the number of the work item.
    pub(crate) fn claim(&mut self) -> Result<u64, AllocError> {
        self.works = self.works.wrapping_add(1);
        self.call("claim", self.works)?;
        self.part("}")?;
        self.end()?;
        Ok(self.works)
    }

    /// Reports a checkpoint at a row.
    pub(crate) fn checkpoint(&mut self, work: u64, row: u64) -> Result<(), AllocError> {
        self.call("checkpoint", work)?;
        write!(self.text, ",\"work\":{work},\"data\":\"row {row}\"")?;
        self.part(
            ",\"metrics\":{\"READ_COUNT\":100,\"WRITE_COUNT\":98,\"FILTER_COUNT\":2,\"COMMIT_COUNT\":1}}",
        )?;
        self.end()
    }

    /// Reports an end, with an exit status unless it is empty.
    pub(crate) fn finish(
        &mut self,
        work: u64,
        outcome: &str,
        exit: &str,
    ) -> Result<(), AllocError> {
        self.call("finish", work)?;
        write!(self.text, ",\"work\":{work},\"outcome\":\"{outcome}\"")?;
        if !exit.is_empty() {
            write!(self.text, ",\"exit\":\"{exit}\"")?;
        }
        self.part("}")?;
        self.end()
    }

    /// Asks for what is known by a number.
    pub(crate) fn ask(&mut self, query: &str, key: &str, number: u64) -> Result<(), AllocError> {
        write!(self.text, "{{\"ask\":\"{query}\",\"{key}\":{number}}}")?;
        self.end()
    }

    /// Asks for what is known of all.
    pub(crate) fn ask_alone(&mut self, query: &str) -> Result<(), AllocError> {
        write!(self.text, "{{\"ask\":\"{query}\"}}")?;
        self.end()
    }

    /// Asks for what is known of a job.
    pub(crate) fn ask_job(&mut self, query: &str, word: &str, job: u64) -> Result<(), AllocError> {
        write!(self.text, "{{\"ask\":\"{query}\",\"job\":\"{word}{job}\"}}")?;
        self.end()
    }

    /// Asks for ten job instances of a job.
    pub(crate) fn ask_page(&mut self, word: &str, job: u64, start: u64) -> Result<(), AllocError> {
        write!(
            self.text,
            "{{\"ask\":\"job_instances\",\"job\":\"{word}{job}\""
        )?;
        write!(self.text, ",\"start\":{start},\"count\":10}}")?;
        self.end()
    }
}
