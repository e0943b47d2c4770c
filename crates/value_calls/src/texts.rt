//! Texts, and values that are texts.
use anyhow::{Result, bail};
use batch_ids::{Metrics, Shared, T256, Text, try_clone_option};
use call_lines::{Line, told};
use script_text::{bad_line_text, metrics_value};

/// Makes the call that a line names, as a rule with the text that follows the name.
pub fn run_text<R: Print + AllocGlobal>(rt: &R, line: Line<'_>) -> Result<()> {
    let alloc = rt.alloc();
    let (word, text) = line.parted();
    match word {
        "new" => told!(rt, line, T256::new(alloc, text)),
        "new_of_4" => told!(rt, line, Text::<4>::new(alloc, text)),
        "within" => told!(rt, line, T256::within(alloc, "the nightly load")),
        "shared" => told!(rt, line, Shared::new(alloc, 7u64)),
        "bad_line_text" => told!(rt, line, bad_line_text(alloc)),
        "metrics_value" => {
            let metrics = Metrics {
                read_count: 5,
                filter_count: 2,
                ..Metrics::zero()
            };
            told!(rt, line, metrics_value(alloc, &metrics))
        }
        _ => copy_text(rt, line),
    }
}

fn copy_text<R: Print + AllocGlobal>(rt: &R, line: Line<'_>) -> Result<()> {
    let (word, text) = line.parted();
    let text = T256::new(rt.alloc(), text)?;
    match word {
        "try_clone" => told!(rt, line, text.try_clone()),
        "try_clone_option" => {
            let kept = Some(text);
            told!(rt, line, try_clone_option(&kept))
        }
        _ => bail!("no call of a text is named {word}"),
    }
}
