// Passing on the waiting records to the disk, and then the waiting replies to the listener.
ghost use Rattle.std.specs.Prelude.{◌≡◌, ◌<◌, ◌++◌, [], true, OnOk, OnErr, IfErr};
ghost use Rattle.log_host.specs.Host.{LeavesOnly};
ghost use Rattle.durable_log.specs.Logs.{records_of, IsSettled, waiting_in, Told};
ghost use Rattle.script_log.specs.Hosts.{hosting, state_of, GoesOn};
ghost use Rattle.script_log.specs.Faults.{is_broken, all_records, HasBroken};
ghost use Rattle.script_log.specs.InTurn.{HasRoom};
ghost use Rattle.script_log.specs.Passing.{standing, Passing, IsPassedOn};
ghost use Rattle.script_log.specs.declared.fault.RunFault.TheVariants.{Write};

use crate::fault::RunFault;
use durable_log::{Host, Log};
use script_lines::OutputBuffer;

// Sends all of a text.
fn tell_all<H: Host>(log: &mut Log<H>, text: &[u8]) -> Result<(), RunFault>
    requires settled { IsSettled H.seen H.heard H.may_leave log.old }
    requires nothing_waits { waiting_in log.old ≡ [] }
    ensures told { OnOk result (H.heard log.new.host ≡ H.heard log.old.host ++ text.now) }
    ensures settled { OnOk result (IsSettled H.seen H.heard H.may_leave log.new) }
    ensures nothing_waits { waiting_in log.new ≡ [] }
    ensures seen { H.seen log.new.host ≡ H.seen log.old.host }
    ensures any_moment { LeavesOnly H.moment H.left_since log.old.host log.new.host
        (Told (records_of (H.seen log.old.host)) (H.heard log.old.host) text.now) }
    ensures goes_on { GoesOn (hosting H.seen H.heard H.may_leave H.moment H.left_since H.origin H.file_faults H.listener_faults) log.old.host log.new.host }
    ensures cause { OnErr result (H.listener_faults log.old.host < H.listener_faults log.new.host) }
    ensures fault { IfErr result (λ fault. fault ≡ Write) }
{
    let mut at = 0;
    while at < text.len() {
        match log.tell(&text[at..]) {
            Ok(n) => {
                if n == 0 {
                    return Err(RunFault::Write);
                }
                at += n;
            }
            Err(_) => return Err(RunFault::Write),
        }
    }
    Ok(())
}

// Commits the waiting records, then sends the waiting replies. It takes no memory.
pub(crate) fn commit_and_tell<H: Host>(
    log: &mut Log<H>,
    output: &mut OutputBuffer,
) -> Result<(), RunFault>
    requires { IsSettled H.seen H.heard H.may_leave log.old }
    ensures settled { OnOk result (IsSettled H.seen H.heard H.may_leave log.new) }
    ensures nothing_waits { OnOk result (waiting_in log.new ≡ []) }
    ensures room { OnOk result (HasRoom log.new) }
    ensures empty { OnOk result (output.new ≡ []) }
    ensures records { OnOk result (records_of (H.seen log.new.host) ≡ records_of (H.seen log.old.host) ++ waiting_in log.old) }
    ensures heard { OnOk result (H.heard log.new.host ≡ H.heard log.old.host ++ output.old) }
    ensures any_moment { LeavesOnly H.moment H.left_since log.old.host log.new.host
        (Passing (standing H.seen H.heard log.old output.old)) }
    ensures goes_on { GoesOn (hosting H.seen H.heard H.may_leave H.moment H.left_since H.origin H.file_faults H.listener_faults) log.old.host log.new.host }
    ensures broken { IfErr result (λ fault. is_broken fault ≡ true) }
    ensures cause { IfErr result (let d = hosting H.seen H.heard H.may_leave H.moment H.left_since H.origin H.file_faults H.listener_faults in
        HasBroken (all_records H.seen log.old) (state_of d log.old.host) (state_of d log.new.host)) }
{
    if let Err(fault) = log.commit() {
        return Err(RunFault::Log(fault));
    }
    tell_all(log, output.waiting())?;
    output.clear();
    Ok(())
}

// Adds a reply after the waiting replies. If there is no room for it, or the waiting records are
// long, the waiting records and replies are passed on first.
pub(crate) fn put_reply<H: Host>(
    log: &mut Log<H>,
    output: &mut OutputBuffer,
    text: &[u8],
) -> Result<(), RunFault>
    requires { IsSettled H.seen H.heard H.may_leave log.old }
    ensures settled { OnOk result (IsSettled H.seen H.heard H.may_leave log.new) }
    ensures room { OnOk result (HasRoom log.new) }
    ensures passed_on { OnOk result (IsPassedOn (standing H.seen H.heard log.old (output.old ++ text.now)) (standing H.seen H.heard log.new output.new)) }
    ensures any_moment { LeavesOnly H.moment H.left_since log.old.host log.new.host
        (Passing (standing H.seen H.heard log.old (output.old ++ text.now))) }
    ensures goes_on { GoesOn (hosting H.seen H.heard H.may_leave H.moment H.left_since H.origin H.file_faults H.listener_faults) log.old.host log.new.host }
    ensures broken { IfErr result (λ fault. is_broken fault ≡ true) }
    ensures cause { IfErr result (let d = hosting H.seen H.heard H.may_leave H.moment H.left_since H.origin H.file_faults H.listener_faults in
        HasBroken (all_records H.seen log.old) (state_of d log.old.host) (state_of d log.new.host)) }
{
    if !log.is_long() && text.len() <= output.room() {
        output.append(text);
        return Ok(());
    }
    commit_and_tell(log, output)?;
    if text.len() <= output.room() {
        output.append(text);
        return Ok(());
    }
    tell_all(log, text)
}
