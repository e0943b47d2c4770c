//! Threads that wait for one another at one operator, many times.
//!
//! A call of an operator waits for the lock of its book. If a thread that waits were never woken,
//! this test would hang, and it fails in no other way. It shows neither how long a thread waits nor
//! whether a call tries the lock before it waits.
ghost use Rattle.std.specs.Prelude.{◌≡◌};

use crate::copies::catalogue;
use batch_ids::Refusal;
use batch_service::{CopyCount, Operator};
use jsl_model::Catalogue;
use op_log::Reply;
use seat_rules::{BookSeat, SeatTable, Site};
use std::marker::Brand;
use std::sync::Wait;
use std::test::Fail;
use std::thread;
use std::thread::Threads;

/// The number of claims of each thread.
const TURNS: u64 = 2_000;

/// Claims work although there is none. Returns the number of claims with the reply Nothing. Each
/// claim waits for the lock of the book.
fn claim_in_vain<N: Site>(rt: &impl Wait, operator: &Operator<N>) -> Result<u64, Refusal> {
    let mut session = operator.open_session(rt)?;
    let mut told = 0u64;
    for turn in 0..TURNS {
        let reply = operator.claim(rt, &mut session, turn)?;
        if matches!(reply, Reply::Nothing) {
            told = told.saturating_add(1);
        }
        drop(reply);
    }
    Ok(told)
}

/// Lets eight threads claim work. Returns the number of claims with the reply Nothing.
fn eight_claim<N: Site + Send + Sync, R: Threads + Wait + AllocGlobal + Sync>(
    rt: &R,
    operator: &Operator<N>,
) -> Result<u64, Refusal> {
    let told = thread::map_indices(rt, rt.alloc(), 8, &|_thread| claim_in_vain(rt, operator))?;
    let mut sum = 0u64;
    for count in told.as_slice() {
        sum = sum.saturating_add((*count)?);
    }
    Ok(sum)
}

/// Makes the operator, and lends it to eight threads.
fn run_crowd<N: Site + Send + Sync, R: Threads + Wait + AllocGlobal + Sync>(
    rt: &R,
    table: SeatTable,
    seat: BookSeat,
    catalogue: Catalogue,
) -> Result<u64, Refusal>
    requires table { table ≡ N.place }
    requires seat { seat ≡ N.place.table }
    requires catalogue { catalogue ≡ N.place.catalogue }
{
    let Some(copies) = CopyCount::new(1) else {
        return Ok(0);
    };
    let operator = Operator::<N>::new(rt.alloc(), table, seat, catalogue, copies)?;
    let told = eight_claim(rt, &operator);
    operator.close();
    told
}

#[test]
fn each_of_eight_threads_gets_the_lock_each_time(rt: HostRuntime) -> Result<(), Fail> {
    let catalogue = catalogue(rt.alloc())?;
    let (table, seat) = SeatTable::new(rt.alloc(), &catalogue)?;
    let told = run_crowd::<Brand, _>(&rt, table, seat, catalogue)?;
    assert!(rt; told == 8 * TURNS, "{told}");
    Ok(())
}
