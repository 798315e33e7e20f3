//! Measures parts of the product, on what standard input gives. The first word picks the part, the second one
//! is a depth, or how many workers check a certificate.
#![tactic(auto)]

ghost use Rattle.std.specs.Prelude.{◌≤◌, ⊤, MatchOption};

mod certificate;
mod clauses;
mod formula;
mod questions;
mod reading;
mod tableau;

use crate::certificate::check_certificate;
use crate::clauses::{count_clauses, print_clauses};
use crate::formula::read_formula;
use crate::questions::answer_questions;
use crate::tableau::decide_formula;
use ltl_closure::Closure;
use ltl_io::StdSource;
use ltl_syntax::Kind;
use std::env;
use std::process::ExitCode;
use std::thread::Threads;

/// What is measured.
#[derive(Clone, Copy, Drop)]
enum Bench {
    /// The entries of a formula's closure.
    Closure,
    /// How many clauses a formula has through a depth.
    Clauses,
    /// The clauses themselves.
    Dimacs,
    /// What the tableau says of a formula up to a depth.
    Tableau,
    /// The solver's answers to questions.
    Solver,
    /// The verdict on a certificate.
    Check,
}

/// The depth where no word gives one.
const DEPTH: u32 = 64;

/// The number that a text spells, at most 1,000.
fn depth_of(text: &str) -> u32
    ensures { result ≤ 1000 }
{
    match text.parse::<u32>() {
        Ok(number) => if number < 1000 { number } else { 1000 },
        Err(_) => DEPTH,
    }
}

fn bench_of(word: &str) -> Option<Bench> {
    match word {
        "closure" => Some(Bench::Closure),
        "clauses" => Some(Bench::Clauses),
        "dimacs" => Some(Bench::Dimacs),
        "tableau" => Some(Bench::Tableau),
        "solver" => Some(Bench::Solver),
        "check" => Some(Bench::Check),
        _ => None,
    }
}

/// From 1 to 16 workers.
fn workers_of(number: u32) -> u32
    ensures some { 1 ≤ result }
    ensures few { result ≤ 16 }
{
    if number < 1 {
        return 1;
    }
    if number < 16 { number } else { 16 }
}

/// The words: what is measured, and the depth.
fn words(rt: &HostRuntime) -> Option<(Bench, u32)>
    ensures { MatchOption result ⊤ (λ r. r.1 ≤ 1000) }
{
    let Ok(mut words) = env::args(rt) else {
        return None;
    };
    let _ = words.next();
    let bench = bench_of(&words.next()?)?;
    match words.next() {
        Some(word) => Some((bench, depth_of(&word))),
        None => Some((bench, DEPTH)),
    }
}

fn main(rt: HostRuntime) -> ExitCode {
    ExitCode::from(measure(&rt, &rt))
}

/// Measures, and gives the exit status: 0, or that of `black` where it would refuse.
fn measure<R: Threads + Sync>(rt: &HostRuntime, threads: &R) -> u8 {
    let Some((bench, depth)) = words(rt) else {
        return 2;
    };
    let alloc = rt.alloc();
    let mut source = StdSource::new(rt.stdin());
    if let Bench::Solver = bench {
        return answer_questions(rt, alloc, &mut source);
    }
    if let Bench::Check = bench {
        return match check_certificate(threads, alloc, &mut source, workers_of(depth)) {
            Ok(verified) => status(println!(rt; "{}", verified).is_ok()),
            Err(status) => status,
        };
    }
    let (table, root) = match read_formula(alloc, &mut source) {
        Ok(found) => found,
        Err(status) => return status,
    };
    let Ok(closure) = Closure::of(alloc, &table, root, Kind::Infinite) else {
        return 7;
    };
    match bench {
        Bench::Closure => status(println!(rt; "{}", closure.entries().len()).is_ok()),
        Bench::Clauses => count_clauses(rt, alloc, &closure, depth),
        Bench::Dimacs => print_clauses(rt, alloc, &closure, depth),
        Bench::Tableau => decide_formula(rt, alloc, &closure, depth),
        Bench::Solver | Bench::Check => 2,
    }
}

/// The exit status of a line that was written, or not.
fn status(written: bool) -> u8 {
    if written { 0 } else { 6 }
}
