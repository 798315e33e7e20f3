//! The program `black`: the words, standard input and standard output, given to `black_top::run`.
#![tactic(auto)]

use black_top::{Status, run};
use ltl_io::{NoGate, StdSink, StdSource};
use std::env;
use std::io::ErrorKind;
use std::process::ExitCode;

/// The code where the system did not give the words. Nothing is written then.
const NO_WORDS: u8 = 8;

fn main(rt: HostRuntime) -> ExitCode {
    let words = match env::args(&rt) {
        Ok(words) => words,
        Err(error) => {
            return ExitCode::from(match error.kind() {
                ErrorKind::OutOfMemory => Status::NoMemory.code(),
                _ => NO_WORDS,
            });
        }
    };

    // The first word is the program's name.
    let Ok(words) = words.skip(1).collect::<Vec<String>>(rt.alloc()) else {
        return ExitCode::from(Status::NoMemory.code());
    };
    let mut source = StdSource::new(rt.stdin());
    let mut sink = StdSink::new(rt.stdout());
    let status = run(&rt, rt.alloc(), &words, &mut source, &mut sink, &NoGate);
    ExitCode::from(status.code())
}
