// What is written of an answer that says that there is no trace: its formula stands in front, and a check
// verifies the whole.
use crate::reporting::reported;
use requirement_answers::Scope;
use requirement_certificate::{certificate, is_verified};
use requirement_questions::Limits;
use std::alloc::Global;
use std::test::Fail;
use std::thread::Threads;

const LIMITS: Limits = Limits { steps: 100_000 };

/// What stands before the certificate's lines, and whether all of it is verified, and without its last byte.
fn told<R: Threads + Sync>(
    rt: &R,
    alloc: Global,
    text: &str,
    scope: Scope,
) -> Result<String, Fail> {
    let (document, report) = reported(rt, alloc, text, scope, LIMITS)?;
    let Some(shown) = certificate(alloc, &report, scope)? else {
        return Ok(String::from_str(alloc, "none")?);
    };
    let whole = is_verified(alloc, document.kind, &shown)?;
    let front = is_verified(
        alloc,
        document.kind,
        &shown[..shown.len().saturating_sub(1)],
    )?;
    let shown = String::from_utf8(shown)?;
    let formula = shown.as_str().lines().next().unwrap_or("");
    Ok(format!(in alloc; "{formula} {whole} {front}")?)
}

/// Two items that conflict, one that is left, and two that may not be and follow.
const DOCUMENT: &str = "[[require]]\nname = \"a\"\nformula = \"G p\"\n\
    [[require]]\nname = \"b\"\nformula = \"F !p\"\n[[require]]\nname = \"c\"\nformula = \"G q\"\n\
    [[allow]]\nname = \"d\"\nformula = \"!q\"\n[[ensure]]\nname = \"e\"\nformula = \"F q\"\n";

const ROWS: &[(Scope, &str)] = &[
    (Scope::All, "(G p & F !p) true false"),
    (Scope::Item(0), "(G p & F !p) true false"),
    (Scope::Item(1), "(G p & F !p) true false"),
    (Scope::Item(2), "none"),
    (Scope::Item(3), "(G q & !q) true false"),
    (Scope::Item(4), "(G q & !F q) true false"),
    (Scope::Behaviour(0), "none"),
];

#[test]
fn certificates_of_answers(rt: HostRuntime) -> Result<(), Fail> {
    for (scope, wanted) in ROWS {
        assert_eq!(rt; told(&rt, rt.alloc(), DOCUMENT, *scope)?.as_str(), *wanted);
    }
    Ok(())
}
