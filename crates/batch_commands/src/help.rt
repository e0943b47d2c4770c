// The help texts.

/// The purpose of the program.
pub const ABOUT: &str =
    "Drives a repository of batch jobs: starts and restarts them, hands out their work and tells how they stand";

/// The purpose of `script`.
pub const SCRIPT_ABOUT: &str =
    "Answers a script of commands from standard input, one reply line for each line";

/// The format of a script's lines.
pub const SCRIPT_HELP: &str =
    r#"Standard input is text, one JSON value a line. The first line is the catalogue of jobs; each later
line is a command or a query. An empty line has no reply; every other line has one, written to
standard output before the next line is waited for.

Commands (`by` is the session's number from 1, `at` the moment in milliseconds; what stands in
brackets may be left out):
  {"do":"start","by":N,"at":N,"job":T[,"parameters":{T:T,..}]}
                                   makes a job instance and its first execution
  {"do":"restart","by":N,"at":N,"execution":N[,"parameters":{T:T,..}]}
                                   goes on with the job instance of a FAILED or STOPPED execution,
                                   its most recent one, in a further execution
  {"do":"stop","by":N,"at":N,"execution":N}
                                   asks an unfinished execution to stop
  {"do":"abandon","by":N,"at":N,"execution":N}
                                   gives a finished execution up
  {"do":"claim","by":N,"at":N}     asks for a work item: a step, a partition of one, or a decision
  {"do":"checkpoint","by":N,"at":N,"work":N,"data":T[,"metrics":{M:N,..}]}
                                   keeps where the chunk of a work item goes on
  {"do":"finish","by":N,"at":N,"work":N,"outcome":O[,"exit":T][,"metrics":{M:N,..}]}
                                   ends a work item; O is COMPLETED, FAILED or STOPPED
  {"do":"lose","by":N,"at":N,"work":N}
                                   gives up a work item whose worker is gone: it is FAILED
  {"do":"purge","by":N,"at":N,"instance":N}
                                   removes a job instance whose executions are all finished
M is READ_COUNT, WRITE_COUNT, COMMIT_COUNT, ROLLBACK_COUNT, READ_SKIP_COUNT, PROCESS_SKIP_COUNT,
FILTER_COUNT or WRITE_SKIP_COUNT; its number, up to 4294967295, is added to the work item's.

Queries:
  {"ask":"job_names"}              the jobs that have an instance
  {"ask":"job_instance_count","job":T}
  {"ask":"job_instances","job":T,"start":N,"count":N}
                                   the newest first, the first "start" of them left out
  {"ask":"running_executions","job":T}
  {"ask":"parameters","execution":N}
  {"ask":"job_instance","execution":N}
  {"ask":"job_executions","instance":N}
  {"ask":"job_execution","execution":N}
  {"ask":"step_executions","execution":N}
  {"ask":"status_counts"}          how many executions have each status

A line that is none of these is answered {"refused":"BadLine"}; a refusal is {"refused":NAME}, and
changes nothing.

Example:
  batchctl script <<'END'
  {"jobs":[{"id":"nightly","elements":[{"kind":"step","id":"load","batchlet":{"ref":"ok"}}]}]}
  {"do":"start","by":1,"at":10,"job":"nightly"}
  {"do":"claim","by":2,"at":20}
  {"do":"finish","by":2,"at":30,"work":1,"outcome":"COMPLETED"}
  {"ask":"job_execution","execution":1}
  END

With `--log FILE` the history outlives the process: the line of each call that is accepted is on the
disk, in FILE, before its reply is written. A later script over FILE goes on from there. Its first
line is the same catalogue, or one with more jobs behind it. FILE is made if there is none.

A history has at most 1,000,000 operations, and one in FILE 4,294,967,296. The next one is refused
with RepositoryFull.

With `--tags`, too, each line behind the catalogue may begin with a tag: up to 512 bytes and a tab.
FILE keeps the whole line, and no reply depends on its tag. A line that begins with `{` has none. A
FILE that was made with tags is only read with them.

With `--compact`, too, FILE is made anew before the first line is answered: it has the rows that exist,
and none of the operations that led to them. Each reply is as if it had all of them. FILE is as small
then as what is kept, and is opened as fast. If that fails, one line on standard error says so, and FILE
goes on as it was. The catalogue may then lack jobs, or have other ones under their ids, of which FILE
has no job execution.

Exit status: 0 done, 2 the command line was refused, 3 the catalogue was refused (its fault is the
one line of output), 4 a read or a write failed, 5 out of memory; with a log also 6 its file failed,
7 the log was refused (its fault is the one line of output)."#;

/// The purpose of `--log`.
pub const LOG_HELP: &str = "Keeps what is accepted in this file, and goes on from what it has";

/// The purpose of `--tags`.
pub const TAGS_HELP: &str = "Lines may begin with a tag and a tab; a log keeps the tags";

/// The purpose of `--compact`.
pub const COMPACT_HELP: &str = "Makes the log's file anew from what exists, without its past";

/// The purpose of `run`.
pub const RUN_ABOUT: &str =
    "Starts jobs of a catalogue and runs them by workers with built-in artifacts";

/// The purpose of `--workers`.
pub const WORKERS_HELP: &str = "How many workers run the jobs, 1 to 16";

/// The format of a run's lines.
pub const RUN_HELP: &str =
    r#"Standard input is text, one JSON value a line. The first line is the catalogue of jobs; each later
line starts a job, at moment 0 (what stands in brackets may be left out):
  {"job":T[,"parameters":{T:T,..}]}

An empty line has no reply; every other line has one: {"execution":N}, or {"refused":NAME} where
nothing is started. When the input has ended, the workers run what was started. After that one line
is written for each job execution, by rising number: its exit status (null for none), its batch
status, and its step executions, by the step's id, with their metrics.

Artifacts that a catalogue may name (`ref`):
  ok        a batchlet or decider that completes
  fail      a batchlet or decider that faults
  exit:T    a batchlet or decider that completes with the exit status T
  count:N   a reader of the numbers 1 to N, of at most nine digits
  odd       a processor that filters out what ends in an even digit
  sink      a writer that takes everything
Any other name, and any other use of these, faults when it is called: its work item is FAILED.

Example:
  batchctl run --workers 2 <<'END'
  {"jobs":[{"id":"nightly","elements":[{"kind":"step","id":"load","batchlet":{"ref":"ok"}}]}]}
  {"job":"nightly"}
  END

Exit status: 0 done, 2 the command line was refused, 3 the catalogue was refused (its fault is the
one line of output), 4 a read or a write failed, 5 out of memory."#;

/// The purpose of `check`.
pub const CHECK_ABOUT: &str =
    "Checks a catalogue, and tells its first fault with the byte and the member";

/// The purpose of the name of a file behind `check`.
pub const FILE_HELP: &str = "The file to check; standard input if it is `-` or left out";

/// The format of a check's output.
pub const CHECK_HELP: &str =
    r#"The first line of the file is the catalogue of jobs, as for `script` and `run`. What stands behind
it is not looked at. One line is written. It is {"jobs":N} for a catalogue of N jobs, or the line of
its fault as `script` writes it, with two members more:
  "byte"    where the value begins that is wrong, or that lacks a member, in bytes from 0
  "member"  the way to what is wrong or missing, as jobs[2].elements[0].next; "" is the whole value
A line that is no JSON has neither, and so has one of more than 16777216 bytes.

Example:
  batchctl check <<'END'
  {"jobs":[{"id":"nightly","elements":[{"kind":"step","id":"load","batchlet":{"ref":7}}]}]}
  END
writes {"byte":82,"element":0,"fault":"BadElement","job":0,"member":"jobs[0].elements[0].batchlet.ref"}

Exit status: 0 the catalogue is good, 2 the command line was refused, 3 the catalogue was refused, 4
a read or a write failed, or there is no such file, 5 out of memory."#;
