//! The program `black_requirements`: the words, standard input, output and error, given to
//! `requirements_top::run`.
#![tactic(auto)]

use ltl_io::{StdSink, StdSource};
use requirements_top::{Status, run};
use std::env;
use std::io::ErrorKind;
use std::process::ExitCode;

/// The code where the system did not give the words. Nothing is written then.
const NO_WORDS: u8 = 8;

fn main(rt: HostRuntime) -> ExitCode {
    let words = match env::args(&rt) {
        Ok(words) => words,
        Err(error) => {
            return ExitCode::from(match error.kind() {
                ErrorKind::OutOfMemory => Status::NoMemory.code(),
                _ => NO_WORDS,
            });
        }
    };

    // The first word is the program's name.
    let Ok(words) = words.skip(1).collect::<Vec<String>>(rt.alloc()) else {
        return ExitCode::from(Status::NoMemory.code());
    };
    let mut source = StdSource::new(rt.stdin());
    let mut sink = StdSink::new(rt.stdout());
    let mut notes = StdSink::new(rt.stderr());
    let status = run(&rt, rt.alloc(), &words, &mut source, &mut sink, &mut notes);
    ExitCode::from(status.code())
}
