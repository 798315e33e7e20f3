// Talks with the solver that were worked by hand, and a log that is followed line by line.
ghost use Rattle.std.specs.Prelude.{◌≡◌, ◌≤◌, ◌+◌, length};

use cdcl::{Answer, Solver, are_consistent, are_known, has};
use clause_log::LogView;
use cnf_base::{Hint, Letter, Literal};
use std::alloc::{AllocError, Global};
use std::process::Abort;
use std::test::Fail;

/// What is asked of the solver, and what has to come of it.
#[derive(Clone, Copy)]
enum Call {
    /// The literals become inputs, a zero after each.
    Add,
    /// Under the literals, values are found that make the others true as well.
    Grants,
    /// Under the literals, none are found.
    Refuses,
}

/// A call, what it is given, and what has to be true then: numbers of letters, with a minus sign where
/// negated.
type Row = (Call, &'static [i32], &'static [i32]);

/// The letters that are known from here on, the calls, and how many lines they may add.
type Turn = (u32, &'static [Row], u64);

const ANY: u64 = u64::MAX;

/// Pigeon p is in hole h where letter 4p + h is true: each of the five is in one of the four, and no two are
/// in one.
const PIGEONS: &[Row] = &[
    (
        Call::Add,
        &[
            1, 2, 3, 4, 0, 5, 6, 7, 8, 0, 9, 10, 11, 12, 0, 13, 14, 15, 16, 0, 17, 18, 19, 20, 0,
        ],
        &[],
    ),
    (
        Call::Add,
        &[
            -5, -1, 0, -9, -1, 0, -13, -1, 0, -17, -1, 0, -9, -5, 0, -13, -5, 0, -17, -5, 0, -13,
            -9, 0, -17, -9, 0, -17, -13, 0,
        ],
        &[],
    ),
    (
        Call::Add,
        &[
            -6, -2, 0, -10, -2, 0, -14, -2, 0, -18, -2, 0, -10, -6, 0, -14, -6, 0, -18, -6, 0, -14,
            -10, 0, -18, -10, 0, -18, -14, 0,
        ],
        &[],
    ),
    (
        Call::Add,
        &[
            -7, -3, 0, -11, -3, 0, -15, -3, 0, -19, -3, 0, -11, -7, 0, -15, -7, 0, -19, -7, 0, -15,
            -11, 0, -19, -11, 0, -19, -15, 0,
        ],
        &[],
    ),
    (
        Call::Add,
        &[
            -8, -4, 0, -12, -4, 0, -16, -4, 0, -20, -4, 0, -12, -8, 0, -16, -8, 0, -20, -8, 0, -16,
            -12, 0, -20, -12, 0, -20, -16, 0,
        ],
        &[],
    ),
    (Call::Refuses, &[], &[]),
];

const TALKS: &[&[Turn]] = &[
    &[(
        3,
        &[
            (Call::Add, &[1, 2, 0, -1, 3, 0], &[]),
            (Call::Refuses, &[1, -3], &[]),
            (Call::Grants, &[1], &[3]),
            (Call::Add, &[-1, 0], &[]),
            (Call::Refuses, &[1], &[]),
            (Call::Grants, &[], &[2]),
            (Call::Add, &[-2, 0], &[]),
            (Call::Refuses, &[], &[]),
        ],
        ANY,
    )],
    // No letters, a repeated literal, two that are opposites, and the empty clause.
    &[
        (0, &[(Call::Grants, &[], &[])], ANY),
        (
            3,
            &[
                (Call::Add, &[1, 1, 2, 0, 3, -3, 0, -1, -1, 0], &[]),
                (Call::Grants, &[3], &[2]),
                (Call::Grants, &[-3], &[2]),
                (Call::Refuses, &[-3, -2], &[]),
                (Call::Add, &[0], &[]),
                (Call::Refuses, &[3], &[]),
            ],
            ANY,
        ),
    ],
    // What was refused is refused again by one line.
    &[
        (
            2,
            &[
                (Call::Add, &[1, 2, 0, 1, -2, 0, -1, 2, 0], &[]),
                (Call::Grants, &[], &[1, 2]),
                (Call::Add, &[-1, -2, 0], &[]),
                (Call::Refuses, &[], &[]),
            ],
            ANY,
        ),
        (
            2,
            &[(Call::Refuses, &[], &[]), (Call::Refuses, &[], &[])],
            2,
        ),
    ],
    &[(20, PIGEONS, ANY)],
];

fn literal(number: i32) -> Literal {
    Literal {
        letter: Letter(number.unsigned_abs()),
        negated: number < 0,
    }
}

fn literals(alloc: Global, numbers: &[i32]) -> Result<Vec<Literal>, AllocError> {
    let mut literals: Vec<Literal> = Vec::new(alloc);
    for number in numbers {
        literals.push(literal(*number))?;
    }
    Ok(literals)
}

/// Whether each literal is among the others.
fn are_among(literals: &[Literal], others: &[Literal]) -> bool {
    for literal in literals {
        if !has(others, *literal) {
            return false;
        }
    }
    true
}

/// The literals that are not among the others, each once.
fn without(
    alloc: Global,
    literals: &[Literal],
    others: &[Literal],
) -> Result<Vec<Literal>, AllocError> {
    let mut left: Vec<Literal> = Vec::new(alloc);
    for literal in literals {
        if !has(others, *literal) && !has(&left, *literal) {
            left.push(*literal)?;
        }
    }
    Ok(left)
}

fn opposites(alloc: Global, literals: &[Literal]) -> Result<Vec<Literal>, AllocError> {
    let mut opposites: Vec<Literal> = Vec::new(alloc);
    for literal in literals {
        opposites.push(literal.opposite())?;
    }
    Ok(opposites)
}

/// Adds the clauses, each up to its zero.
fn add(
    rt: &impl Abort,
    alloc: Global,
    solver: &mut Solver,
    letters: u32,
    numbers: &[i32],
) -> Result<(), AllocError>
    requires { solver.old.letters ≡ letters }
    ensures { solver.new.letters ≡ letters }
{
    let mut clause: Vec<Literal> = Vec::new(alloc);
    for number in numbers {
        if *number != 0 {
            clause.push(literal(*number))?;
            continue;
        }
        assert!(rt; are_known(letters, &clause));
        solver.add(&clause)?;
        clause.truncate(0);
    }
    Ok(())
}

/// The literals that the values make true.
fn found(alloc: Global, solver: &Solver, letters: u32) -> Result<Vec<Literal>, AllocError>
    requires { length solver.now.model ≡ letters + 1 }
{
    let mut found: Vec<Literal> = Vec::new(alloc);
    for index in 0..letters {
        let letter = Letter(index + 1);
        found.push(Literal {
            letter,
            negated: !solver.value(letter),
        })?;
    }
    Ok(found)
}

/// Asks: true and the literals that were found, or false and the literals of the line.
fn ask(
    rt: &impl Abort,
    alloc: Global,
    solver: &mut Solver,
    letters: u32,
    given: &[Literal],
) -> Result<(bool, Vec<Literal>), AllocError>
    requires { solver.old.letters ≡ letters }
    ensures { solver.new.letters ≡ letters }
{
    assert!(rt; are_known(letters, given));
    assert!(rt; are_consistent(given));
    match solver.solve(given)? {
        Answer::Sat => {
            let literals = found(alloc, solver, letters)?;
            return Ok((true, literals));
        }
        Answer::Unsat(line) => {
            let literals = without(alloc, solver.log().view().literals(line), &[])?;
            return Ok((false, literals));
        }
    }
}

/// Whether no input is false where these literals are true.
fn meet_inputs(
    alloc: Global,
    view: &LogView<'_>,
    literals: &[Literal],
) -> Result<bool, AllocError> {
    for index in 0..view.inputs() {
        if are_among(&opposites(alloc, view.input(index + 1))?, literals) {
            return Ok(false);
        }
    }
    Ok(true)
}

fn take(
    rt: &impl Abort,
    alloc: Global,
    solver: &mut Solver,
    letters: u32,
    row: &Row,
) -> Result<(), AllocError>
    requires { solver.old.letters ≡ letters }
    ensures { solver.new.letters ≡ letters }
{
    if matches!(row.0, Call::Add) {
        return add(rt, alloc, solver, letters, row.1);
    }
    let given = literals(alloc, row.1)?;
    let (sat, literals) = ask(rt, alloc, solver, letters, &given)?;
    judge(rt, alloc, &solver.log().view(), row, &given, sat, &literals)
}

/// Looks at what was answered: at the values, or at the line.
fn judge(
    rt: &impl Abort,
    alloc: Global,
    view: &LogView<'_>,
    row: &Row,
    given: &[Literal],
    sat: bool,
    answer: &[Literal],
) -> Result<(), AllocError> {
    if sat {
        assert!(rt; matches!(row.0, Call::Grants));
        assert!(rt; are_among(given, answer));
        assert!(rt; are_among(&literals(alloc, row.2)?, answer));
        assert!(rt; meet_inputs(alloc, view, answer)?);
    } else {
        assert!(rt; matches!(row.0, Call::Refuses));
        assert!(rt; are_among(&opposites(alloc, answer)?, given));
    }
    Ok(())
}

/// Makes the calls in their order.
fn play(
    rt: &impl Abort,
    alloc: Global,
    solver: &mut Solver,
    letters: u32,
    rows: &[Row],
) -> Result<(), AllocError>
    requires { solver.old.letters ≡ letters }
    ensures { solver.new.letters ≡ letters }
{
    for row in rows {
        take(rt, alloc, solver, letters, row)?;
    }
    Ok(())
}

/// The clause that the hint names.
fn clause_of<'a>(rt: &impl Abort, view: &LogView<'a>, hint: Hint) -> &'a [Literal] {
    match hint {
        Hint::Clause(number) => {
            assert!(rt; 1 <= number && number <= view.inputs());
            view.input(number)
        }
        Hint::Line(number) => {
            assert!(rt; 1 <= number && number <= view.lines());
            view.literals(number)
        }
    }
}

/// Whether unit propagation over the line's hints alone, from the opposites of its literals, ends in a
/// conflict.
fn is_step(
    rt: &impl Abort,
    alloc: Global,
    view: &LogView<'_>,
    line: u64,
) -> Result<bool, AllocError>
    requires from_one { 1 ≤ line }
    requires in_list { line ≤ length view.now.lines }
{
    let mut falses = without(alloc, view.literals(line), &[])?;
    for hint in view.hints(line) {
        let open = without(alloc, clause_of(rt, view, *hint), &falses)?;
        if open.len() == 0 {
            return Ok(true);
        }
        if open.len() > 1 {
            return Ok(false);
        }
        falses.push(open[0].opposite())?;
    }
    Ok(false)
}

fn follow(rt: &impl Abort, alloc: Global, view: &LogView<'_>) -> Result<(), AllocError> {
    for index in 0..view.lines() {
        assert!(rt; is_step(rt, alloc, view, index + 1)?);
    }
    Ok(())
}

/// One solver takes the turns; each line of its log then follows from the lines before it.
fn talk(rt: &impl Abort, alloc: Global, turns: &[Turn]) -> Result<(), AllocError> {
    let mut solver = Solver::new(alloc);
    let mut known = 0;
    for (letters, rows, more) in turns {
        assert!(rt; known <= *letters);
        solver.letters(*letters)?;
        known = *letters;
        let lines = solver.log().view().lines();
        play(rt, alloc, &mut solver, known, rows)?;
        assert!(rt; solver.log().view().lines() <= lines.saturating_add(*more));
    }
    follow(rt, alloc, &solver.into_log().view())
}

#[test]
fn answers_in_turn(rt: HostRuntime) -> Result<(), Fail> {
    for turns in TALKS {
        talk(&rt, rt.alloc(), turns)?;
    }
    Ok(())
}
