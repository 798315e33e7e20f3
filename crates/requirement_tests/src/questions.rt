// Questions whose answers were found by hand: what can be, and the least sets of what cannot.
ghost use Rattle.std.specs.Prelude.{All, IfOk};
ghost use Rattle.requirement_questions.specs.Formulas.{IsThere, AskedIsThere};

use crate::answers::tell_answer;
use crate::reading::formula;
use ltl_syntax::{FormulaTable, Kind, print};
use requirement_questions::{
    Given, Limits, Question, QuestionAnswer, Wanted, answer_question, trigger,
};
use std::alloc::{AllocError, Global};
use std::process::Abort;
use std::test::Fail;

/// What is asked beside the given formulas.
#[derive(Clone, Copy)]
enum Ask {
    Nothing,
    Holds(&'static str),
    Fails(&'static str),
}

/// The kind, the given formulas, what is asked, and whether that can be; if it cannot, with which of them.
type Row = (Kind, &'static [&'static str], Ask, &'static str);

const ROWS: &[Row] = &[
    (Kind::Infinite, &[], Ask::Nothing, "can"),
    (
        Kind::Infinite,
        &["G F !rain", "G (low -> F[0,3] pump)", "F low"],
        Ask::Nothing,
        "can",
    ),
    // The set is found from the end: the last two are not needed, and then the first is not.
    (
        Kind::Infinite,
        &["G p", "F q", "G !q", "X X r", "F !p"],
        Ask::Nothing,
        "cannot 1 2",
    ),
    // What follows, from which; and that it does not follow from one of them.
    (
        Kind::Infinite,
        &["p", "G (p -> X p)", "G F q"],
        Ask::Fails("G p"),
        "cannot 0 1",
    ),
    (Kind::Infinite, &["p", "G F q"], Ask::Fails("G p"), "can"),
    (
        Kind::Infinite,
        &["G !p", "q"],
        Ask::Holds("F p"),
        "cannot 0",
    ),
    (Kind::Infinite, &["G !p", "q"], Ask::Holds("F q"), "can"),
    // What is asked cannot be by itself.
    (Kind::Infinite, &["q"], Ask::Holds("p & !p"), "cannot"),
    // A finite trace has a last state, an infinite one has none.
    (Kind::Finite, &["p", "G X true"], Ask::Nothing, "cannot 1"),
    (Kind::Finite, &["wX false", "p"], Ask::Nothing, "can"),
    (Kind::Infinite, &["wX false", "p"], Ask::Nothing, "cannot 0"),
];

pub(crate) fn tables(
    rt: &impl Abort,
    alloc: Global,
    texts: &[&str],
) -> Result<Vec<(FormulaTable, u32)>, AllocError> {
    let mut tables = Vec::new(alloc);
    for text in texts {
        let made = formula(rt, alloc, text);
        tables.push(made)?;
    }
    Ok(tables)
}

/// The given formulas of the tables. Each has its root.
pub(crate) fn given_of<'d>(
    alloc: Global,
    tables: &'d [(FormulaTable, u32)],
) -> Result<Vec<Given<'d>>, AllocError>
    ensures { IfOk result (λ given. All IsThere given.items) }
{
    let mut given = Vec::new(alloc);
    'tables: for k in 0..tables.len() {
        let table = &tables[k].0;
        let root = tables[k].1;
        if root >= table.len() {
            return Err(AllocError);
        }
        given.push(Given { table, root })?;
    }
    Ok(given)
}

/// What is asked of a formula.
fn asked_of<'d>(ask: Ask, given: Given<'d>) -> Wanted<'d>
    requires { IsThere given }
    ensures { AskedIsThere result }
{
    match ask {
        Ask::Nothing => Wanted::Nothing,
        Ask::Holds(_) => Wanted::Holds(given),
        Ask::Fails(_) => Wanted::Fails(given),
    }
}

/// The answer to the question, which is looked at for so long that each of these is settled.
pub(crate) fn answer_of(
    alloc: Global,
    kind: Kind,
    given: &[Given<'_>],
    asked: Wanted<'_>,
) -> Result<QuestionAnswer, AllocError>
    requires given { All IsThere given.now }
    requires asked { AskedIsThere asked }
{
    let question = Question { kind, given, asked };
    answer_question(alloc, &question, Limits { steps: 100_000 })
}

fn asked_text(ask: Ask) -> &'static str {
    match ask {
        Ask::Nothing => "true",
        Ask::Holds(text) | Ask::Fails(text) => text,
    }
}

fn told(rt: &impl Abort, alloc: Global, row: &Row) -> Result<String, Fail> {
    let (kind, texts, ask, _) = *row;
    let tables = tables(rt, alloc, texts)?;
    let given = given_of(alloc, &tables)?;
    let (table, root) = formula(rt, alloc, asked_text(ask));
    let part = Given {
        table: &table,
        root,
    };
    let answer = answer_of(alloc, kind, &given, asked_of(ask, part))?;
    let mut line = String::new(alloc);
    tell_answer(alloc, &mut line, &answer)?;
    Ok(line)
}

#[test]
fn answers(rt: HostRuntime) -> Result<(), Fail> {
    for row in ROWS {
        assert_eq!(rt; told(&rt, rt.alloc(), row)?.as_str(), row.3);
    }
    Ok(())
}

/// A formula, and its trigger, or nothing if it has none.
const TRIGGERS: &[(&str, &str)] = &[
    ("G (a -> b)", "F a"),
    ("G (a & X b -> c)", "F (a & X b)"),
    ("G a", ""),
    ("a -> b", ""),
    ("F (a -> b)", ""),
    ("G (a <-> b)", ""),
];

fn trigger_text(rt: &impl Abort, alloc: Global, text: &str) -> Vec<u8> {
    let (table, root) = formula(rt, alloc, text);
    match trigger(alloc, &table, root).expect(rt, "memory") {
        Some((made, at)) => print(alloc, &made, at).expect(rt, "memory"),
        None => Vec::new(alloc),
    }
}

#[test]
fn triggers(rt: HostRuntime) {
    for (text, wanted) in TRIGGERS {
        let found = trigger_text(&rt, rt.alloc(), text);
        assert!(rt; found.as_slice() == wanted.as_bytes(), "{text}");
    }
}
