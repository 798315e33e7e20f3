//! The program `black_view`: draws the trace in what `black` prints. The words, standard input and standard
//! output are given to `view::run`.
#![tactic(auto)]

mod input;
mod output;
mod status;
#[cfg(test)]
mod tests;
mod view;
mod words;

use ltl_io::{StdSink, StdSource};
use status::Status;
use std::env;
use std::io::ErrorKind;
use std::process::ExitCode;
use view::run;

/// The code where the system did not give the words. Nothing is written then.
const NO_WORDS: u8 = 8;

fn main(rt: HostRuntime) -> ExitCode {
    let words = match env::args(&rt) {
        Ok(words) => words,
        Err(error) => {
            return ExitCode::from(match error.kind() {
                ErrorKind::OutOfMemory => Status::NoMemory.code(),
                _ => NO_WORDS,
            });
        }
    };

    // The first word is the program's name.
    let Ok(words) = words.skip(1).collect::<Vec<String>>(rt.alloc()) else {
        return ExitCode::from(Status::NoMemory.code());
    };
    let mut source = StdSource::new(rt.stdin());
    let mut sink = StdSink::new(rt.stdout());
    let status = run(rt.alloc(), &words, &mut source, &mut sink);
    ExitCode::from(status.code())
}
