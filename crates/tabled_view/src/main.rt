//! `tabled_view [OPTIONS] [FILE]` reads rows of cells, and writes them as a table.
//!
//! What it does stands in `tabled_viewing`.
#![tactic(auto)]

use std::fs;
use std::io::{self, ErrorKind, IsTerminal, Read, Stdout, Write};
use std::process::ExitCode;
use tabled_request::{
    GivenError, Request, Surroundings, all_words, spread_words, told_by, word_at,
};
use tabled_viewing::{Notes, ViewError, is_about_itself, noted, run, said, understood};

/// Standard output, and whether its reader has gone away.
#[derive(Drop)]
struct Output {
    output: Stdout,
    is_closed: bool,
}

impl Write for Output {
    fn write(&mut self, bytes: &[u8]) -> io::Result<usize> {
        let written = self.output.write(bytes);
        if let Err(error) = &written {
            self.is_closed |= error.kind() == ErrorKind::BrokenPipe;
        }
        written
    }

    fn flush(&mut self) -> io::Result<()> {
        self.output.flush()
    }
}

/// Runs the program over an input. Where the reader of the output goes away, nothing more is written, and nothing is said of it.
fn view_input<R: Read>(
    rt: &HostRuntime,
    request: Request,
    words: &[String],
    around: Surroundings,
    input: &mut R,
) -> Result<Notes, ViewError> {
    let mut output = Output {
        output: rt.stdout(),
        is_closed: false,
    };
    match run(rt.alloc(), request, words, around, input, &mut output) {
        Err(ViewError::WriteFailed) if output.is_closed => Ok(Notes::none()),
        result => result,
    }
}

/// Runs the program over the file that is asked for, or over standard input.
fn view(
    rt: &HostRuntime,
    request: Request,
    words: &[String],
    around: Surroundings,
) -> Result<Notes, ViewError> {
    let file = if is_about_itself(request) {
        None
    } else {
        request.file
    };
    match (file, word_at(words, file)) {
        (Some(word), Some(name)) => match fs::open(rt, name) {
            Ok(mut input) => view_input(rt, request, words, around, &mut input),
            Err(_) => Err(ViewError::OpenFailed { word }),
        },
        _ => view_input(rt, request, words, around, &mut rt.stdin()),
    }
}

/// The words after the program's name, as if each `--x=y` stood as two.
fn given_words(rt: &HostRuntime) -> Result<Vec<String>, GivenError> {
    let words = all_words(rt.alloc(), rt)?;
    Ok(spread_words(rt.alloc(), &words)?)
}

/// Says why there is no table, and returns the status: that of memory, where memory for the text is refused.
fn refuse(rt: &HostRuntime, words: &[String], refusal: ViewError) -> ExitCode {
    match said(rt.alloc(), words, refusal) {
        Ok(text) => {
            let _ = eprintln!(rt; "tabled_view: {text}");
            ExitCode::from(refusal.status())
        }
        Err(_) => {
            let _ = rt.eprintln("tabled_view: out of memory");
            ExitCode::from(ViewError::OutOfMemory.status())
        }
    }
}

/// Says what there is to say beside the table.
fn note(rt: &HostRuntime, notes: Notes) {
    if let Ok(text) = noted(rt.alloc(), notes) {
        let _ = eprint!(rt; "{text}");
    }
}

fn main(rt: HostRuntime) -> ExitCode {
    let words = match given_words(&rt) {
        Ok(words) => words,
        Err(refusal) => return refuse(&rt, &[], ViewError::from(refusal)),
    };
    let request = match understood(&words) {
        Ok(request) => request,
        Err(refusal) => return refuse(&rt, &words, refusal),
    };
    let around = told_by(&rt, rt.stdout().is_terminal());
    match view(&rt, request, &words, around) {
        Ok(notes) => {
            note(&rt, notes);
            ExitCode::SUCCESS
        }
        Err(refusal) => refuse(&rt, &words, refusal),
    }
}
