use batch_ids::{
    BatchStatus, Metric, MetricStep, Metrics, Parameters, Refusal, T256, Text, UnknownName,
    WorkOutcome, try_clone_option,
};
use std::alloc::{AllocError, Global};
use std::test::Fail;

/// Checks whether this is a text of at most four bytes.
fn is_of_four(alloc: Global, text: &str) -> Result<bool, Refusal> {
    let of_four = Text::<4>::new(alloc, text)?;
    Ok(of_four.as_str() == text)
}

fn is_empty_copied(alloc: Global) -> Result<bool, Refusal> {
    let empty = T256::new(alloc, "")?;
    Ok(empty.try_clone()? == T256::empty())
}

#[test]
fn a_text_has_its_bound_in_bytes(rt: HostRuntime) {
    assert!(rt; is_of_four(rt.alloc(), "éé") == Ok(true));
    assert!(rt; is_of_four(rt.alloc(), "abcde") == Err(Refusal::TextTooLong));
    assert!(rt; is_empty_copied(rt.alloc()) == Ok(true));
}

// Each refusal, and its printed name.
const PRINTED: [(Refusal, &str); 17] = [
    (Refusal::JobStartException, "JobStartException"),
    (Refusal::NoSuchJobException, "NoSuchJobException"),
    (
        Refusal::NoSuchJobInstanceException,
        "NoSuchJobInstanceException",
    ),
    (
        Refusal::NoSuchJobExecutionException,
        "NoSuchJobExecutionException",
    ),
    (
        Refusal::JobExecutionNotRunningException,
        "JobExecutionNotRunningException",
    ),
    (
        Refusal::JobExecutionIsRunningException,
        "JobExecutionIsRunningException",
    ),
    (
        Refusal::JobExecutionAlreadyCompleteException,
        "JobExecutionAlreadyCompleteException",
    ),
    (
        Refusal::JobExecutionNotMostRecentException,
        "JobExecutionNotMostRecentException",
    ),
    (Refusal::JobRestartException, "JobRestartException"),
    (Refusal::NoSuchWork, "NoSuchWork"),
    (Refusal::WorkNotRunning, "WorkNotRunning"),
    (Refusal::NotClaimer, "NotClaimer"),
    (Refusal::NotStopping, "NotStopping"),
    (Refusal::WrongOutcome, "WrongOutcome"),
    (Refusal::TextTooLong, "TextTooLong"),
    (Refusal::RepositoryFull, "RepositoryFull"),
    (Refusal::OutOfMemory, "OutOfMemory"),
];

#[test]
fn a_refusal_prints_as_its_name(rt: HostRuntime) -> Result<(), Fail> {
    for (refusal, name) in &PRINTED {
        assert!(rt; is_printed(rt.alloc(), *refusal, name)?, "{name}");
    }
    Ok(())
}

fn is_printed(alloc: Global, refusal: Refusal, name: &str) -> Result<bool, AllocError> {
    let text = format!(in alloc; "{refusal}")?;
    Ok(text.as_str() == name)
}

/// Returns the parameters with these keys and values.
fn parameters_of(alloc: Global, pairs: &[(&str, &str)]) -> Result<Parameters, Fail> {
    let mut given = Vec::new(alloc);
    for (key, value) in pairs {
        given.push((
            String::from_str(alloc, key)?,
            String::from_str(alloc, value)?,
        ))?;
    }
    Ok(Parameters::new(alloc, given)?)
}

/// Checks whether there are two parameters, `from` and then `to` with its last value.
fn is_last_kept(parameters: &Parameters) -> bool {
    parameters.len() == 2
        && parameters.get("to") == Some("3")
        && parameters.get("via").is_none()
        && parameters.pairs()[0].key().as_str() == "from"
}

#[test]
fn the_last_value_of_a_key_counts(rt: HostRuntime) -> Result<(), Fail> {
    let parameters = parameters_of(rt.alloc(), &[("to", "1"), ("from", "2"), ("to", "3")])?;
    assert!(rt; is_last_kept(&parameters));
    let copy = parameters.try_clone();
    drop(parameters);
    assert!(rt; is_last_kept(&copy?));
    Ok(())
}

// Returns the result for a number of parameters, the first with a key and a value of these lengths.
fn refused(
    alloc: Global,
    count: u32,
    key: usize,
    value: usize,
) -> Result<Option<Refusal>, AllocError> {
    let mut given = Vec::new(alloc);
    given.push(("x".repeat(alloc, key)?, "x".repeat(alloc, value)?))?;
    for number in 1..count {
        given.push((format!(in alloc; "{number}")?, String::new(alloc)))?;
    }
    // A key given twice counts as one key.
    given.push(("x".repeat(alloc, key)?, String::new(alloc)))?;
    Ok(Parameters::new(alloc, given).err())
}

// A number of parameters, and the lengths of a key and of a value. One of the three is too large.
const TOO_LONG: [(u32, usize, usize); 3] = [(65, 1, 1), (1, 257, 1), (1, 1, 4097)];

#[test]
fn parameters_are_taken_up_to_their_bounds(rt: HostRuntime) -> Result<(), Fail> {
    assert!(rt; refused(rt.alloc(), 64, 256, 4096)?.is_none());
    for (count, key, value) in &TOO_LONG {
        let refusal = refused(rt.alloc(), *count, *key, *value)?;
        assert!(rt;
            refusal == Some(Refusal::TextTooLong),
            "{count} {key} {value}"
        );
    }
    Ok(())
}

#[test]
fn a_step_is_added_to_the_metrics(rt: HostRuntime) {
    let step = MetricStep::zero().with(Metric::FilterCount, 3);
    let mut metrics = Metrics::zero();
    metrics.add(&step);
    metrics.add(&step);
    assert!(rt; metrics.count(Metric::FilterCount) == 6);
    assert!(rt; metrics.count(Metric::ReadCount) == 0);
    assert!(rt; Metric::FilterCount.name() == "FILTER_COUNT");
}

// Each batch status, and its printed name.
const STATUSES: [(BatchStatus, &str); 7] = [
    (BatchStatus::Starting, "STARTING"),
    (BatchStatus::Started, "STARTED"),
    (BatchStatus::Stopping, "STOPPING"),
    (BatchStatus::Stopped, "STOPPED"),
    (BatchStatus::Failed, "FAILED"),
    (BatchStatus::Completed, "COMPLETED"),
    (BatchStatus::Abandoned, "ABANDONED"),
];

fn is_status(alloc: Global, status: BatchStatus, printed: &str) -> Result<bool, AllocError> {
    let text = status.to_string(alloc)?;
    Ok(text.as_str() == printed && printed.parse::<BatchStatus>() == Ok(status))
}

#[test]
fn a_status_prints_as_its_name_and_is_read_from_it(rt: HostRuntime) -> Result<(), Fail> {
    for (status, printed) in &STATUSES {
        assert!(rt; is_status(rt.alloc(), *status, printed)?, "{printed}");
    }
    Ok(())
}

#[test]
fn nothing_else_is_read_as_a_status(rt: HostRuntime) {
    for text in &[
        "",
        "starting",
        "STARTED ",
        "START",
        "COMPLETE",
        "COMPLETED\0",
    ] {
        assert!(rt; text.parse::<BatchStatus>().is_err(), "{text}");
    }
}

fn is_outcome(alloc: Global, outcome: WorkOutcome, printed: &str) -> Result<bool, AllocError> {
    let text = outcome.to_string(alloc)?;
    let is_printed = text.as_str() == printed && outcome.name() == printed;
    Ok(is_printed && printed.parse::<WorkOutcome>() == Ok(outcome))
}

const OUTCOMES: [(WorkOutcome, &str); 3] = [
    (WorkOutcome::Completed, "COMPLETED"),
    (WorkOutcome::Failed, "FAILED"),
    (WorkOutcome::Stopped, "STOPPED"),
];

#[test]
fn an_outcome_prints_as_its_name_and_is_read_from_it(rt: HostRuntime) -> Result<(), Fail> {
    for (outcome, printed) in &OUTCOMES {
        assert!(rt; is_outcome(rt.alloc(), *outcome, printed)?, "{printed}");
    }
    Ok(())
}

#[test]
fn nothing_else_is_read_as_an_outcome(rt: HostRuntime) {
    for text in &["", "failed", "STARTED", "ABANDONED", "STOPPED."] {
        assert!(rt; text.parse::<WorkOutcome>().is_err(), "{text}");
    }
}

fn is_metric(alloc: Global, metric: Metric, printed: &str) -> Result<bool, AllocError> {
    let text = metric.to_string(alloc)?;
    Ok(text.as_str() == printed && printed.parse::<Metric>() == Ok(metric))
}

const METRICS: [(Metric, &str); 8] = [
    (Metric::ReadCount, "READ_COUNT"),
    (Metric::WriteCount, "WRITE_COUNT"),
    (Metric::CommitCount, "COMMIT_COUNT"),
    (Metric::RollbackCount, "ROLLBACK_COUNT"),
    (Metric::ReadSkipCount, "READ_SKIP_COUNT"),
    (Metric::ProcessSkipCount, "PROCESS_SKIP_COUNT"),
    (Metric::FilterCount, "FILTER_COUNT"),
    (Metric::WriteSkipCount, "WRITE_SKIP_COUNT"),
];

#[test]
fn a_metric_prints_as_its_name_and_is_read_from_it(rt: HostRuntime) -> Result<(), Fail> {
    for (metric, printed) in &METRICS {
        assert!(rt; is_metric(rt.alloc(), *metric, printed)?, "{printed}");
    }
    Ok(())
}

#[test]
fn nothing_else_is_read_as_a_metric(rt: HostRuntime) {
    for text in &["", "read_count", "READ COUNT", "READ_COUNTS"] {
        assert!(rt; text.parse::<Metric>().is_err(), "{text}");
    }
}

#[test]
fn what_is_no_name_says_so(rt: HostRuntime) -> Result<(), Fail> {
    let text = UnknownName.to_string(rt.alloc())?;
    assert!(rt; text.as_str() == "not a printed name");
    Ok(())
}

#[test]
fn a_printed_name_keeps_to_its_width(rt: HostRuntime) -> Result<(), Fail> {
    let padded = format!(in rt.alloc(); "{:>8}|{:<8}|", BatchStatus::Failed, WorkOutcome::Failed)?;
    assert!(rt; padded.as_str() == "  FAILED|FAILED  |");
    Ok(())
}

#[test]
fn counts_are_zero_by_default(rt: HostRuntime) {
    assert!(rt; Metrics::default() == Metrics::zero());
    assert!(rt; MetricStep::default() == MetricStep::zero());
}

#[test]
fn parameters_are_walked_over_by_rising_keys(rt: HostRuntime) -> Result<(), Fail> {
    let parameters = parameters_of(rt.alloc(), &[("b", "1"), ("a", "2"), ("c", "3")])?;
    let walked = walk_over(rt.alloc(), &parameters);
    drop(parameters);
    assert!(rt; walked?);
    Ok(())
}

/// Checks whether the iterator of these parameters returns three, by rising keys.
fn walk_over(alloc: Global, parameters: &Parameters) -> Result<bool, AllocError> {
    let mut walked = String::new(alloc);
    for parameter in parameters {
        walked.push_str(parameter.key().as_str())?;
        walked.push_str(parameter.value().as_str())?;
    }
    Ok(walked.as_str() == "a2b1c3" && parameters.iter().len() == 3)
}

fn is_copied(text: &Option<T256>) -> Result<bool, AllocError> {
    Ok(try_clone_option(text)? == *text)
}

#[test]
fn a_text_that_is_left_out_is_copied(rt: HostRuntime) -> Result<(), Fail> {
    assert!(rt; is_copied(&None)?);
    let held = Some(T256::new(rt.alloc(), "a")?);
    let copied = is_copied(&held);
    drop(held);
    assert!(rt; copied?);
    Ok(())
}

#[test]
fn refusals_are_numbered_1_to_16_and_18(rt: HostRuntime) {
    const NUMBERS: [u8; 17] = [1, 2, 3, 4, 5, 6, 7, 8, 9, 10, 11, 12, 13, 14, 15, 16, 18];
    for ((refusal, _), number) in PRINTED.iter().zip(&NUMBERS) {
        assert!(rt; refusal.number() == *number, "{number}");
    }
}

#[test]
fn an_execution_is_unfinished_while_it_is_under_way(rt: HostRuntime) {
    for (status, printed) in &STATUSES {
        let expected = matches!(
            status,
            BatchStatus::Starting | BatchStatus::Started | BatchStatus::Stopping
        );
        assert!(rt; status.is_unfinished() == expected, "{printed}");
    }
}
