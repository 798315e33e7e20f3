// Documents, and what is answered about them, worked out by hand.
use crate::refusals::{DEFINITIONS, repeated};
use crate::reporting::reported;
use requirement_answers::laws::behaviours_are_traces;
use requirement_answers::{Effort, NoWatch, Report, ReportRefused, Scope, report_on};
use requirement_document::read;
use requirement_questions::{Because, Limits, QuestionAnswer};
use std::alloc::Global;
use std::test::Fail;
use std::thread::Threads;

const LIMITS: Limits = Limits { steps: 100_000 };

const EFFORT: Effort = Effort {
    limits: LIMITS,
    workers: 1,
};

/// The members, each with `?` where it is not shown to be needed.
fn tell_because(alloc: Global, line: &mut String, because: &Because) -> Result<(), Fail> {
    line.push_str("cannot")?;
    for member in &because.members {
        let mark = if member.needed { "" } else { "?" };
        let told = format!(in alloc; " {}{mark}", member.given)?;
        line.push_str(told.as_str())?;
    }
    Ok(())
}

pub(crate) fn tell_answer(
    alloc: Global,
    line: &mut String,
    answer: &QuestionAnswer,
) -> Result<(), Fail> {
    match answer {
        QuestionAnswer::Can(_) => line.push_str("can")?,
        QuestionAnswer::Cannot(because) => tell_because(alloc, line, because)?,
        QuestionAnswer::Undecided => line.push_str("undecided")?,
        QuestionAnswer::TooLarge(_) => line.push_str("too large")?,
    }
    Ok(())
}

fn tell_together(alloc: Global, line: &mut String, report: &Report) -> Result<(), Fail> {
    for conflict in &report.conflicts {
        tell_because(alloc, line, conflict)?;
        line.push_str("; ")?;
    }
    let left = format!(in alloc; "{:?} ", report.left.as_slice())?;
    line.push_str(left.as_str())?;
    tell_answer(alloc, line, &report.together)
}

fn tell_replies(alloc: Global, line: &mut String, report: &Report) -> Result<(), Fail> {
    for reply in &report.replies {
        let asking = format!(in alloc; "; {:?} ", reply.asking)?;
        line.push_str(asking.as_str())?;
        tell_answer(alloc, line, &reply.answer)?;
    }
    Ok(())
}

fn tell_checks(alloc: Global, line: &mut String, report: &Report) -> Result<(), Fail> {
    for check in &report.checks {
        let told = format!(in alloc; "; {} {:?}", check.behaviour, check.breaks.as_slice())?;
        line.push_str(told.as_str())?;
    }
    Ok(())
}

/// What is answered about the document that the text is.
fn told<R: Threads + Sync>(
    rt: &R,
    alloc: Global,
    text: &str,
    scope: Scope,
) -> Result<String, Fail> {
    let (_, report) = reported(rt, alloc, text, scope, LIMITS)?;
    told_report(alloc, &report)
}

pub(crate) fn told_report(alloc: Global, report: &Report) -> Result<String, Fail> {
    let mut line = String::new(alloc);
    tell_together(alloc, &mut line, report)?;
    tell_replies(alloc, &mut line, report)?;
    tell_checks(alloc, &mut line, report)?;
    Ok(line)
}

pub(crate) const WISHED: &str = "[[assume]]\nname = \"calm\"\nformula = \"G F !rain\"\n\
    [[require]]\nname = \"fill\"\nformula = \"G (low -> F[0,3] pump)\"\n\
    [[allow]]\nname = \"dry\"\nformula = \"F low\"\n\
    [[ensure]]\nname = \"no flood\"\nformula = \"!(F G rain)\"\n\
    [[behaviour]]\nname = \"log\"\nstates = [[\"low\"], [\"pump\"]]\n";

pub(crate) const CONFLICTS: &str = "[[assume]]\nname = \"a\"\nformula = \"p\"\n\
    [[require]]\nname = \"b\"\nformula = \"!p\"\n[[require]]\nname = \"c\"\nformula = \"G q\"\n\
    [[require]]\nname = \"d\"\nformula = \"F !q\"\n[[require]]\nname = \"e\"\nformula = \"r\"\n\
    [[allow]]\nname = \"f\"\nformula = \"!r\"\n[[ensure]]\nname = \"g\"\nformula = \"r\"\n";

pub(crate) const REMARKS: &str =
    "traces = \"finite\"\n[[require]]\nname = \"a\"\nformula = \"G !p\"\n\
    [[require]]\nname = \"b\"\nformula = \"G (p -> X q)\"\n\
    [[require]]\nname = \"c\"\nformula = \"G !(p & q)\"\n\
    [[behaviour]]\nname = \"log\"\nstates = [[\"q\"], [\"p\"], [\"q\"]]\n";

/// A document, what is asked of it, and what is told: the conflicts, what is left and whether it can be met
/// together, the further answers, and each behaviour with what it breaks.
const ROWS: &[(&str, Scope, &str)] = &[
    ("", Scope::All, "[] can"),
    (
        WISHED,
        Scope::All,
        "[0, 1] can; Triggered(1) can; New(1) can; Possible(2) can; Follows(3) cannot 0; 0 []",
    ),
    // Two conflicts that have nothing to do with each other, and questions of what is left.
    (
        CONFLICTS,
        Scope::All,
        "cannot 0 1; cannot 2 3; [4] can; New(4) can; Possible(5) cannot 4; Follows(6) cannot 4",
    ),
    // Never triggered, and nothing new. The behaviour breaks the first item in its second state.
    (
        REMARKS,
        Scope::All,
        "[0, 1, 2] can; New(0) can; Triggered(1) cannot 0; New(1) cannot 0; New(2) cannot 0; \
         0 [Break { item: 0, position: 1 }]",
    ),
    (
        REMARKS,
        Scope::Item(1),
        "[0, 1, 2] can; Triggered(1) cannot 0; New(1) cannot 0",
    ),
    (
        REMARKS,
        Scope::Behaviour(0),
        "[0, 1, 2] can; 0 [Break { item: 0, position: 1 }]",
    ),
];

#[test]
fn answers_documents(rt: HostRuntime) -> Result<(), Fail> {
    for (text, scope, wanted) in ROWS {
        assert_eq!(rt; told(&rt, rt.alloc(), text, *scope)?.as_str(), *wanted);
    }
    Ok(())
}

// 4,097 states and 16,383 nodes: one state fewer would be within the limit.
#[test]
fn refuses_long_behaviours(rt: HostRuntime) -> Result<(), Fail> {
    let alloc = rt.alloc();
    let back = "]\nassume = [{ name = \"large\", formula = \"a6\" }]\n\
        behaviour = [{ name = \"long\", states = [";
    let front = repeated(alloc, DEFINITIONS, back, 1, "")?;
    let text = repeated(alloc, front.as_str(), "[],", 4097, "] }]")?;
    let document = read(alloc, text.as_bytes())?;
    behaviours_are_traces();
    let Err(refused) = report_on(&rt, alloc, &document, Scope::All, EFFORT, &mut NoWatch) else {
        return Err(Fail::new("it is answered"));
    };
    let cells = ReportRefused::Cells {
        behaviour: 0,
        item: 0,
    };
    assert_eq!(rt; refused, cells);
    Ok(())
}
