ghost use Rattle.std.specs.Prelude.{◌<◌, ◌≤◌};
ghost use Rattle.ltl_syntax.specs.Table.{tree_at};
ghost use Rattle.lasso_eval.specs.Cells.{positions};
ghost use Rattle.lasso_eval.specs.Rows.{AreValues};

use crate::formulas::{formula, push};
use lasso_eval::{EvalRefused, TruthRows, holds, values};
use ltl_syntax::{FormulaTable, Node, UnaryOp};
use ltl_word::{Name, StateSet, States, Trace};
use std::alloc::{AllocError, Global};
use std::process::Abort;
use std::test::Fail;

// The states of a text such as "p q|q": states stand apart by bars, names by spaces.
fn states(alloc: Global, text: Option<&str>) -> Result<States, AllocError> {
    let mut states = Vec::new(alloc);
    if let Some(text) = text {
        for state in text.split('|') {
            let mut names = Vec::new(alloc);
            for name in state.split_whitespace() {
                names.push(Name::new(alloc, name)?)?;
            }
            states.push(StateSet::from_names(names)?)?;
        }
    }
    Ok(States::new(states))
}

fn holds_on(rt: &impl Abort, alloc: Global, text: &str, trace: &Trace) -> Result<bool, Fail> {
    let (table, root) = formula(rt, alloc, text)?;
    assert!(rt; root < table.len());
    match trace {
        Trace::Infinite { stem: _, loop_part } => assert!(rt; loop_part.as_slice().len() > 0),
        Trace::Finite { states } => assert!(rt; states.as_slice().len() > 0),
    }
    Ok(holds(alloc, &table, root, trace)?)
}

const ON_INFINITE: &[(&str, Option<&str>, &str, bool)] = &[
    ("F (p & Y Y Y Y p)", None, "p|", true),
    ("F (p & Y p)", None, "p|", false),
    ("p U q", Some("p"), "p|q", true),
    ("p U q", None, "p", false),
    ("F (p U q)", Some("q"), "p", true),
    ("F X (p U q)", Some("q"), "p", false),
    ("p W q", None, "p", true),
    ("q R p", None, "p", true),
    ("q R p", None, "p|", false),
    ("q M p", None, "p", false),
    ("G F p", None, "p|", true),
    ("F G p", Some("p"), "", false),
    ("X X X p", None, "|p", true),
    ("Z false", None, "p", true),
    ("G H p", None, "p", true),
    ("X (p T q)", Some("q"), "p", false),
    ("G (p S q)", Some("q"), "p", true),
    ("X (p <-> q)", None, "p|", true),
    ("!((p -> q) | q)", None, "p|q", true),
    ("F[0,2] p", None, "|||p", false),
    ("F[0,3] p", None, "|||p", true),
    ("F[4,6] p", None, "|||p", false),
    ("F[4,7] p", None, "|||p", true),
    ("F[2,9] p", Some("p"), "|p", true),
    ("F[7,255] p", Some("p"), "", false),
    ("G[0,2] p", None, "p|p|p|", true),
    ("G[0,3] p", None, "p|p|p|", false),
    ("G[4,6] p", None, "p|p|p|", true),
    ("G[1,9] p", Some(""), "p|p", true),
    ("G[1,9] p", None, "p|p|", false),
    ("X[0] p", None, "|p|", false),
    ("X[5] p", None, "|p|", false),
    ("X[7] p", None, "|p|", true),
    ("X[255] p", Some(""), "p", true),
    ("Y[0] true", None, "p", true),
    ("Y[2] true", None, "p", false),
    ("X Y[2] true", None, "p", false),
    ("X[2] Y[2] true", None, "p", true),
    ("X[4] Y[2] p", Some("q|q|p"), "", true),
    ("F (p & Y[4] p)", None, "p|", true),
    ("X[4] O[2,2] p", Some("q|p"), "", false),
    ("X[4] O[2,3] p", Some("q|p"), "", true),
    ("X[4] O[4,9] p", Some("q|p"), "", false),
    ("X[2] G O[0,3] p", None, "||p|", true),
    ("X[2] G O[0,2] p", None, "||p|", false),
    ("H[1,3] false", None, "p", true),
    ("X[2] H[1,3] p", Some("p|p"), "", true),
    ("X[2] H[0,3] p", Some("p|p"), "", false),
    ("X[5] H[4,9] p", Some("p|p"), "", true),
];

#[test]
fn holds_on_infinite_traces(rt: HostRuntime) -> Result<(), Fail> {
    for (text, stem, loop_part, want) in ON_INFINITE {
        let trace = Trace::Infinite {
            stem: states(rt.alloc(), *stem)?,
            loop_part: states(rt.alloc(), Some(*loop_part))?,
        };
        assert_eq!(rt;
            holds_on(&rt, rt.alloc(), text, &trace)?,
            *want,
            "{text} on {loop_part}"
        );
    }
    Ok(())
}

const ON_FINITE: &[(&str, &str, bool)] = &[
    ("F (p & wX false)", "q|p", true),
    ("G X true", "q|p", false),
    ("F (p & Y q)", "q|p", true),
    ("X (p S q)", "q|p", true),
    ("q S p", "q|p", false),
    ("G p", "p|p", true),
    ("q U p", "q|q", false),
    ("X[1] true", "q|p", true),
    ("X[2] true", "q|p", false),
    ("F[2,9] p", "q|p", false),
    ("F[0,3] p", "q|p", true),
    ("G[1,9] p", "q|p", true),
    ("G[1,9] p", "q|p|", false),
    ("G[4,6] false", "q|p", true),
    ("X H[1,3] p", "p|q", true),
    ("X[1] O[2,3] q", "q|q", false),
];

#[test]
fn holds_on_finite_traces(rt: HostRuntime) -> Result<(), Fail> {
    for (text, states_text, want) in ON_FINITE {
        let trace = Trace::Finite {
            states: states(rt.alloc(), Some(*states_text))?,
        };
        assert_eq!(rt;
            holds_on(&rt, rt.alloc(), text, &trace)?,
            *want,
            "{text} on {states_text}"
        );
    }
    Ok(())
}

// Positions that the table of the root has: the states, or the stem and one loop.
fn shown_positions(table: &FormulaTable, root: u32, trace: &Trace) -> u128
    ensures { result ≤ positions trace.now (tree_at table.now root) }
{
    match trace {
        Trace::Infinite { stem, loop_part } => stem.len() as u128 + loop_part.len() as u128,
        Trace::Finite { states } => states.len() as u128,
    }
}

fn at_root(
    values: &TruthRows,
    table: &FormulaTable,
    root: u32,
    trace: &Trace,
    position: u32,
) -> bool
    requires values { AreValues table.now root trace.now values.now }
    requires within { position < positions trace.now (tree_at table.now root) }
{
    values.at(root, position)
}

// The root's value at a position, where that is one of those shown.
fn shown_at(
    values: &TruthRows,
    table: &FormulaTable,
    root: u32,
    trace: &Trace,
    position: u32,
) -> Option<bool>
    requires { AreValues table.now root trace.now values.now }
{
    if position as u128 >= shown_positions(table, root, trace) {
        return None;
    }
    Some(at_root(values, table, root, trace, position))
}

// The root's values at the positions shown, as a word of 0 and 1.
fn values_on(rt: &impl Abort, alloc: Global, text: &str, trace: &Trace) -> Result<String, Fail> {
    let (table, root) = formula(rt, alloc, text)?;
    assert!(rt; root < table.len());
    match trace {
        Trace::Infinite { stem: _, loop_part } => assert!(rt; loop_part.as_slice().len() > 0),
        Trace::Finite { states } => assert!(rt; states.as_slice().len() > 0),
    }
    let values = values(alloc, &table, root, trace)?;
    let mut word = String::new(alloc);
    for position in 0..9 {
        match shown_at(&values, &table, root, trace, position) {
            Some(true) => word.push_str("1")?,
            Some(false) => word.push_str("0")?,
            None => {}
        }
    }
    Ok(word)
}

const FINITE_VALUES: &[(&str, &str, &str)] = &[
    ("Y p", "p|q|p|", "0101"),
    ("F[1,2] q", "p|q|p|q|p", "11100"),
    ("H[1,2] p", "p||p|p|p", "11001"),
];

const INFINITE_VALUES: &[(&str, Option<&str>, &str, &str)] = &[
    ("Y[2] p", Some("p|q"), "|p", "0010"),
    ("X[2] p", None, "p||", "010"),
    ("p U q", Some("|p"), "q|", "0110"),
];

#[test]
fn values_at_each_position(rt: HostRuntime) -> Result<(), Fail> {
    let alloc = rt.alloc();
    for (text, states_text, want) in FINITE_VALUES {
        let trace = Trace::Finite {
            states: states(alloc, Some(*states_text))?,
        };
        assert_eq!(rt;
            values_on(&rt, alloc, text, &trace)?.as_str(),
            *want,
            "{text}"
        );
    }
    for (text, stem, loop_part, want) in INFINITE_VALUES {
        let trace = Trace::Infinite {
            stem: states(alloc, *stem)?,
            loop_part: states(alloc, Some(*loop_part))?,
        };
        assert_eq!(rt;
            values_on(&rt, alloc, text, &trace)?.as_str(),
            *want,
            "{text}"
        );
    }
    Ok(())
}

// 101 nodes on the columns of 101 loops, and 18 nodes on those of 17 * 255 + 1.
#[test]
fn counts_the_cells(rt: HostRuntime) -> Result<(), Fail> {
    let rows = [
        (UnaryOp::Yesterday, 100, Err(EvalRefused::Cells(81_608_000))),
        (
            UnaryOp::YesterdayTimes(255),
            17,
            Err(EvalRefused::Cells(624_384_000)),
        ),
        (
            UnaryOp::HistoricallyIn(7, 255),
            17,
            Err(EvalRefused::Cells(624_384_000)),
        ),
        (UnaryOp::EventuallyIn(7, 255), 17, Ok(true)),
    ];
    let mut empty = Vec::new(rt.alloc());
    for _ in 0..8_000 {
        empty.push(StateSet::from_names(Vec::new(rt.alloc()))?)?;
    }
    let trace = Trace::Infinite {
        stem: states(rt.alloc(), None)?,
        loop_part: States::new(empty),
    };
    for (op, times, want) in rows {
        let (mut table, mut root) = formula(&rt, rt.alloc(), "true")?;
        for _ in 0..times {
            root = push(&rt, &mut table, Node::Unary(op, root))?;
        }
        assert!(rt; root < table.len());
        match &trace {
            Trace::Infinite { stem: _, loop_part } => assert!(rt; loop_part.as_slice().len() > 0),
            Trace::Finite { states } => assert!(rt; states.as_slice().len() > 0),
        }
        assert_eq!(rt; holds(rt.alloc(), &table, root, &trace), want);
    }
    Ok(())
}

// A fresh letter is true where a state has its number in braces.
#[test]
fn a_fresh_letter(rt: HostRuntime) -> Result<(), Fail> {
    let mut table = FormulaTable::new(rt.alloc());
    let mut root = push(&rt, &mut table, Node::Fresh(7))?;
    for op in [UnaryOp::Once, UnaryOp::Next] {
        root = push(&rt, &mut table, Node::Unary(op, root))?;
    }
    assert!(rt; root < table.len());
    let trace = Trace::Finite {
        states: states(rt.alloc(), Some("{7}|"))?,
    };
    match &trace {
        Trace::Infinite { stem: _, loop_part } => assert!(rt; loop_part.as_slice().len() > 0),
        Trace::Finite { states } => assert!(rt; states.as_slice().len() > 0),
    }
    assert!(rt; holds(rt.alloc(), &table, root, &trace)?);
    Ok(())
}
