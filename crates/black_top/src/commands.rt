// The commands. Each is one call, from what its words say and the bytes that were read to what is shown.
ghost use Rattle.std.specs.Prelude.{IfOk};
ghost use Rattle.black_top.specs.Answer.{Answer};
ghost use Rattle.black_top.specs.Inner.{Shows, Gives, IsInBounds};

mod batch;
mod check;
mod conflict;
mod demo;
mod limit;
mod monitor;
mod removal;
mod solve;
mod system;
mod trace;

use crate::output::Output;
use command_words::Asked;
use ltl_io::Gate;
use std::alloc::{AllocError, Global};
use std::thread::Threads;

/// What is shown for the bytes.
pub fn output<R: Threads + Sync, G: Gate + Sync>(
    rt: &R,
    alloc: Global,
    asked: Asked,
    bytes: &[u8],
    gate: &G,
) -> Result<Output, AllocError>
    requires { IsInBounds asked }
    ensures { IfOk result (λ out. (a : Answer) × Gives asked bytes.now a × Shows out a) }
{
    match asked {
        Asked::Solve(options) => solve::solve(rt, alloc, options, bytes, gate),
        Asked::Check(options) => check::check(rt, alloc, options, bytes, gate),
        Asked::Trace => trace::trace(alloc, bytes),
        Asked::Demo(number) => demo::demo(alloc, number),
        Asked::Batch(options) => batch::batch(rt, alloc, options, bytes, gate),
        Asked::System(options) => system::system(alloc, options, bytes),
        Asked::Monitor => monitor::monitor(alloc, bytes),
        Asked::Depast => removal::depast(alloc, bytes),
    }
}
