//! `tabled_show STYLE` reads rows of cells from standard input, and writes them as a framed table.
//!
//! A row is a line of the input, and its cells stand between tabs. What the program does stands in `tabled_pages`.
#![tactic(auto)]

use std::process::ExitCode;
use tabled_pages::{ShowError, all_words, run};

/// Runs the program over its words, its standard input and its standard output.
fn show(rt: &HostRuntime) -> Result<(), ShowError> {
    let words = all_words(rt.alloc(), rt)?;
    run(rt.alloc(), &words, &mut rt.stdin(), &mut rt.stdout())
}

fn main(rt: HostRuntime) -> ExitCode {
    match show(&rt) {
        Ok(()) => ExitCode::SUCCESS,
        Err(refusal) => {
            let _ = rt.eprintln(refusal.text());
            ExitCode::from(refusal.status())
        }
    }
}
