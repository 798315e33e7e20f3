// Systems that were worked by hand.
ghost use Rattle.ltl_syntax.specs.Formula.{Formula};
ghost use Rattle.system_check.specs.Joining.{IsJoined};

use crate::formulas::formula;
use enc_layout::Layout;
use ltl_closure::Closure;
use ltl_syntax::Kind;
use std::alloc::Global;
use std::process::Abort;
use system_check::{JoinRefused, Joined, SystemAnswer, decide_system, join_parts, laws};

/// What is said of a system and a goal, without what shows it.
#[derive(Clone, Copy, PartialEq, Eq, Debug)]
enum Said {
    Refused(JoinRefused),
    NoPath(u32),
    Holds(u32),
    Fails(u32),
    Undecided(u32),
}

fn decided(rt: &impl Abort, alloc: Global, joined: &Joined, limit: u32) -> Said
    requires { (start step goal : Formula) × IsJoined start step goal joined.now }
{
    assert!(rt; joined.whole < joined.table.len() && limit <= 1000);
    let closure = Closure::of(alloc, &joined.table, joined.whole, Kind::Infinite).expect(
        rt, "memory",
    );
    let layout = Layout::of(&closure);
    assert!(rt; layout.fits(limit));
    match decide_system(alloc, joined, limit).expect(rt, "memory") {
        SystemAnswer::NoPath { depth } => Said::NoPath(depth),
        SystemAnswer::Holds { depth, .. } => Said::Holds(depth),
        SystemAnswer::Fails { depth, .. } => Said::Fails(depth),
        SystemAnswer::Undecided { depth } => Said::Undecided(depth),
    }
}

/// A start, a step, a goal, the last depth that is tried, and what is said.
type Row = (&'static str, &'static str, &'static str, u32, Said);

const ROWS: &[Row] = &[
    ("!p", "X p <-> !p", "G F p", 64, Said::Holds(5)),
    ("!p", "X p <-> !p", "G F p", 4, Said::Undecided(4)),
    ("!p", "true", "G !p", 64, Said::Fails(1)),
    ("p & !p", "true", "p", 64, Said::NoPath(0)),
    ("Y p", "true", "p", 64, Said::Refused(JoinRefused::Start)),
    ("p", "X X p", "p", 64, Said::Refused(JoinRefused::Step)),
    ("p", "X[1] p", "p", 64, Said::Refused(JoinRefused::Step)),
    // Letters go by their names: the goal's first one is the start's second.
    ("p & !q", "true", "!q & p", 64, Said::Holds(0)),
];

fn answered(rt: &impl Abort, alloc: Global, row: &Row) -> Said {
    let (start, start_root) = formula(rt, alloc, row.0);
    let (step, step_root) = formula(rt, alloc, row.1);
    let (goal, goal_root) = formula(rt, alloc, row.2);
    assert!(rt; start_root < start.len() && step_root < step.len() && goal_root < goal.len());
    match join_parts(
        alloc, &start, start_root, &step, step_root, &goal, goal_root,
    ) {
        Ok(joined) => decided(rt, alloc, &joined, row.3),
        Err(refused) => Said::Refused(refused),
    }
}

#[test]
fn decides_systems(rt: HostRuntime) {
    for row in ROWS {
        assert_eq!(rt; answered(&rt, rt.alloc(), row), row.4, "{row:?}");
    }
}

#[test]
fn states_laws() {
    laws::two_states();
    laws::paths();
    laws::sizes();
    laws::joining();
    laws::answers();
}
