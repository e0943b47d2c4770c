// A run of jobs by workers with built-in artifacts.
use crate::dice::Dice;
use crate::script::Script;
use std::alloc::AllocError;

/// How many jobs the catalogue has.
const JOBS: u64 = 8;

/// Adds a job of a chunk that filters, a split of two partitioned steps, and a step that ends it.
fn job(script: &mut Script, dice: &mut Dice, number: u64) -> Result<(), AllocError> {
    script.part("{\"id\":\"run-")?;
    script.number(number)?;
    script.part(
        "\",\"elements\":[{\"kind\":\"step\",\"id\":\"load\",\"next\":\"both\",\"chunk\":{\"reader\":{\"ref\":\"count:",
    )?;
    script.number(200 + dice.below(50))?;
    script.part(
        "\"},\"processor\":{\"ref\":\"odd\"},\"writer\":{\"ref\":\"sink\"},\"item-count\":10}},{\"kind\":\"split\",\"id\":\"both\",\"next\":\"end\",\"flows\":[{\"kind\":\"flow\",\"id\":\"left\",\"elements\":[{\"kind\":\"step\",\"id\":\"copy\",\"partitions\":3,\"chunk\":{\"reader\":{\"ref\":\"count:",
    )?;
    script.number(10 + dice.below(20))?;
    script.part(
        "\"},\"writer\":{\"ref\":\"sink\"},\"item-count\":5}}]},{\"kind\":\"flow\",\"id\":\"right\",\"elements\":[{\"kind\":\"step\",\"id\":\"check\",\"next\":\"sign\",\"batchlet\":{\"ref\":\"ok\"}},",
    )?;
    script.part(
        "{\"kind\":\"step\",\"id\":\"sign\",\"batchlet\":{\"ref\":\"ok\"}}]}]},{\"kind\":\"step\",\"id\":\"end\",\"batchlet\":{\"ref\":\"",
    )?;
    script.part(if dice.percent(20) {
        "fail"
    } else {
        "exit:sent"
    })?;
    script.part("\"}}]}")
}

fn catalogue(script: &mut Script, dice: &mut Dice) -> Result<(), AllocError> {
    script.part("{\"jobs\":[")?;
    for number in 0..JOBS {
        if number > 0 {
            script.part(",")?;
        }
        job(script, dice, number)?;
    }
    script.part("]}")?;
    script.end()
}

/// Starts so many job executions.
pub(crate) fn pool(script: &mut Script, dice: &mut Dice, size: u64) -> Result<(), AllocError> {
    catalogue(script, dice)?;
    for _start in 0..size {
        script.start_line("run-", dice.below(JOBS))?;
    }
    Ok(())
}
