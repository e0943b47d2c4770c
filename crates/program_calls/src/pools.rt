//! Pools of one worker over an operator.
ghost use Rattle.std.specs.Prelude.{◌≡◌};
ghost use Rattle.batch_history.specs.Legal.{most_operations};

use crate::memory::{Open, Quiet};
use anyhow::{Result, bail};
use batch_ids::{Parameters, T256};
use batch_operator::{CopyCount, Operator};
use call_lines::{Line, Script, Tried, echoed, tell};
use job_repository::JobRepository;
use job_threads::{Kit, PoolReport, pool};
use jsl_json::read_catalogue;
use jsl_model::Catalogue;
use seat_rules::{BookSeat, SeatTable, Site};
use sessions::Session;
use std::marker::Brand;
use std::sync::Wait;
use std::thread::Threads;

/// Lets a pool of one worker run what there is to run.
fn run_pool<N: Site + Send + Sync, J: JobRepository + Send, R: Threads + Wait + AllocGlobal + Sync>(
    rt: &R,
    line: Line<'_>,
    operator: &Operator<N, J>,
) -> Tried<Tried<PoolReport>> {
    let alloc = rt.alloc();
    let mut kits = Vec::new(alloc);
    let mut kit = Kit::new(alloc);
    kit.add("quiet", Box::new(alloc, Quiet::new(alloc))?)?;
    kits.push(kit)?;
    line.mark(alloc);
    let report = pool(rt, alloc, operator, kits, &Open);
    line.mark(alloc);
    Ok(report)
}

/// Starts job `a`.
fn start<N: Site, J: JobRepository, R: Wait + AllocGlobal>(
    rt: &R,
    operator: &Operator<N, J>,
    session: &mut Session<N>,
) -> Result<()> {
    let job = T256::new(rt.alloc(), "a")?;
    drop(operator.start(rt, session, job, Parameters::none(), 0)?);
    Ok(())
}

/// `start` starts job `a`, `pool` runs a pool, `counts` prints the counts.
fn answer<
    N: Site + Send + Sync,
    J: JobRepository + Send,
    R: Threads + Wait + Print + AllocGlobal + Sync,
>(rt: &R, line: Line<'_>, operator: &Operator<N, J>, session: &mut Session<N>) -> Result<()> {
    match line.text {
        "start" => start(rt, operator, session),
        "pool" => tell(rt, run_pool(rt, line, operator)?),
        "counts" => tell(rt, operator.status_counts(rt, session)),
        _ => bail!("{}: no line of a pool", line.text),
    }
}

fn answer_lines<
    N: Site + Send + Sync,
    J: JobRepository + Send,
    R: Threads + Wait + Print + AllocGlobal + Sync,
>(rt: &R, lines: &str, operator: &Operator<N, J>, session: &mut Session<N>) -> Result<()> {
    for text in lines.lines() {
        let line = echoed(rt, text)?;
        answer(rt, line, operator, session)?;
    }
    Ok(())
}

fn answer_by<
    N: Site + Send + Sync,
    J: JobRepository + Send,
    R: Threads + Wait + Print + AllocGlobal + Sync,
>(rt: &R, script: Script<'_>, operator: &Operator<N, J>) -> Result<()> {
    let mut session = operator.open_session(rt)?;
    let answered = answer_lines(rt, script.lines, operator, &mut session);
    drop(session);
    answered
}

fn answer_at<
    N: Site + Send + Sync,
    J: JobRepository + Send,
    R: Threads + Wait + Print + AllocGlobal + Sync,
>(rt: &R, script: Script<'_>, table: SeatTable, seat: BookSeat, catalogue: Catalogue) -> Result<()>
    requires limit { J.limit ≡ most_operations }
    requires table { table ≡ N.place }
    requires seat { seat ≡ N.place.table }
    requires catalogue { catalogue ≡ N.place.catalogue }
{
    let Some(copies) = CopyCount::new(1) else {
        bail!("there is no copy");
    };
    let operator = Operator::<N, J>::new(rt.alloc(), table, seat, catalogue, copies)?;
    let answered = answer_by(rt, script, &operator);
    operator.close();
    answered
}

/// Runs a script by pools over one operator.
pub fn run_pools<J: JobRepository + Send, R: Threads + Wait + Print + AllocGlobal + Sync>(
    rt: &R,
    script: Script<'_>,
) -> Result<bool>
    requires { J.limit ≡ most_operations }
{
    let catalogue = read_catalogue(rt.alloc(), script.first.text.as_bytes())?;
    let (table, seat) = SeatTable::new(rt.alloc(), &catalogue)?;
    answer_at::<Brand, J, _>(rt, script, table, seat, catalogue)?;
    Ok(true)
}
