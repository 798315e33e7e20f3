// A search for a trace, depth after depth over one solver, without the questions that prune: it finds a trace
// where there is one, and need not end where there is none. The caller asks for one depth at a time, and so
// decides how long it goes on.
ghost use Rattle.std.specs.Prelude.{◌≡◌, ◌↔◌, ◌≤◌, IsTrue, IfOk};
ghost use Rattle.enc_layout.specs.Letters.{Fits};
ghost use Rattle.enc_layout.specs.Clauses.{layout_of};
ghost use Rattle.unravel.specs.Exploration.{CanGoOn, IsPrepared};
ghost use Rattle.unravel.specs.Exploring.{IsLooked, IsExplored};

use crate::growing::grow;
use crate::inputs::Inputs;
use crate::questions::ask_accepted;
use crate::showing::shown_trace;
use cnf_base::Literal;
use enc_layout::Layout;
use ltl_closure::Closure;
use ltl_word::Trace;
use std::alloc::{AllocError, Global};
use std::marker::Model;

/// The greatest depth that is looked at.
const LAST: u32 = 1000;

/// A search for a trace of the closure's kind that satisfies its formula. What the solver has learnt at one
/// depth serves the next.
///
/// Contracts see the closure, and the depth that comes next.
#[derive(Drop)]
pub struct Exploration<'c> {
    alloc: Global,
    closure: &'c Closure<'c>,
    inputs: Inputs,
    states: Vec<Literal>,
    depth: u32,
}

impl<'c> Model for Exploration<'c> {
    ghost use Rattle.unravel.specs.Exploration.{ExplorationValue, coded_exploration, IsPrepared};

    ghost Value = { ExplorationValue };

    ghost coded = { coded_exploration };

    ghost view = { λ e. record { closure = e.closure.now; depth = e.depth } };

    ghost invariant = { λ e. IsPrepared e.closure.now e.depth e.inputs e.states.items };
}

/// What one depth more comes to.
#[derive(Drop)]
pub enum Explored<'c> {
    /// A run of depth + 1 states is accepted, and the trace is that of one.
    Found { depth: u32, trace: Trace },
    /// No run of the depth is accepted, and the next depth can be looked at.
    Open(Exploration<'c>),
}

impl<'c> Exploration<'c> {
    /// A search that begins with runs of one state. Takes no memory.
    pub fn begin(alloc: Global, closure: &'c Closure<'c>) -> Exploration<'c>
        ensures { result ≡ record { closure = closure.now; depth = 0 } }
    {
        Exploration {
            alloc,
            closure,
            inputs: Inputs::new(alloc),
            states: Vec::new(alloc),
            depth: 0,
        }
    }

    /// The depth that comes next.
    pub fn depth(&self) -> u32
        ensures { result ≡ self.now.depth }
    {
        self.depth
    }

    /// How many lines were learnt so far, which tells what the search took. Nothing is promised of it.
    pub fn lines(&self) -> u64 {
        self.inputs.solver.log().view().lines()
    }

    /// Whether the next depth is at most 1,000, and its clauses have letters enough.
    pub fn can_go_on(&self) -> bool
        ensures { IsTrue result ↔ CanGoOn self.now }
    {
        let closure = self.closure;
        self.depth <= LAST && Layout::of(closure).fits(self.depth)
    }

    /// Looks for a trace of the next depth. Nothing is left of the search where memory runs out.
    pub fn explore(self) -> Result<Explored<'c>, AllocError>
        requires { CanGoOn self }
        ensures { IfOk result (IsExplored self.entry) }
    {
        let Exploration {
            alloc,
            closure,
            mut inputs,
            mut states,
            depth,
        } = self;
        match look(alloc, closure, &mut inputs, &mut states, depth) {
            Ok(Some(trace)) => Ok(Explored::Found { depth, trace }),
            Ok(None) => Ok(Explored::Open(Exploration {
                alloc,
                closure,
                inputs,
                states,
                depth: depth + 1,
            })),
            Err(error) => Err(error),
        }
    }
}

/// A trace of an accepted run of the depth, if there is one.
fn look(
    alloc: Global,
    closure: &Closure<'_>,
    inputs: &mut Inputs,
    states: &mut Vec<Literal>,
    depth: u32,
) -> Result<Option<Trace>, AllocError>
    requires few { depth ≤ 1000 }
    requires fits { Fits (layout_of closure.now) depth }
    requires prepared { IsPrepared closure.now depth inputs.old states.old.items }
    ensures { IfOk result (IsLooked closure.now depth inputs.new states.new.items) }
{
    grow(closure, depth, inputs)?;
    let Some(close) = ask_accepted(alloc, closure, inputs, states, depth)? else {
        return Ok(None);
    };
    let trace = shown_trace(alloc, closure, &inputs.solver, depth, close)?;
    Ok(Some(trace))
}
