/// The command that the command line asks for.
#[derive(Clone, Copy, PartialEq, Eq, Debug)]
pub enum Arguments<'a> {
    /// Runs a script.
    Script,
    /// Runs a script over a log.
    LoggedScript {
        /// The name of the log's file.
        log: &'a str,
        /// Whether lines may have tags.
        tags: bool,
        /// Whether the log is compacted before the first line is answered.
        compact: bool,
    },
    /// Runs a catalogue's jobs.
    Run {
        /// The number of workers, 1 to 16.
        workers: u64,
    },
    /// Checks a catalogue.
    Check {
        /// The name of its file, or `None` for the standard input.
        file: Option<&'a str>,
    },
}
