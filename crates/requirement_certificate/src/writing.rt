// The text of an answer that says that there is no trace, as `black-refute --check` takes it.
ghost use Rattle.std.specs.Prelude.{◌≡◌, IfOk, MatchOption};
ghost use Rattle.requirement_questions.specs.declared.leaving.Because.{Because as ABecause};
ghost use Rattle.requirement_answers.specs.declared.asking.Asking.{Asking};
ghost use Rattle.requirement_certificate.specs.Chosen.{IsFirstBecause, HasNoBecause};
ghost use Rattle.requirement_certificate.specs.Text.{certificate_text, HasFormula, HaveFormulas};

use crate::choosing::first_because;
use claim_text::append;
use ltl_syntax::print;
use requirement_answers::{Report, Scope};
use requirement_questions::Because;
use std::alloc::{AllocError, Global};

/// The formula and the certificate of the first answer of the report that says that there is no trace, with a
/// separator line between. That is a conflict that is about what the scope names, or else the first such
/// answer to a further question.
pub fn certificate(
    alloc: Global,
    report: &Report,
    scope: Scope,
) -> Result<Option<Vec<u8>>, AllocError>
    requires { HaveFormulas report.now }
    ensures { IfOk result (λ text. MatchOption text (HasNoBecause report.now scope) (λ t. (asking : Asking)
        × (b : ABecause) × IsFirstBecause report.now scope asking b × (t.items ≡ certificate_text b))) }
{
    let Some(because) = first_because(report, scope) else {
        return Ok(None);
    };
    let text = text_of(alloc, because)?;
    Ok(Some(text))
}

/// The formula, a separator line, and the certificate.
fn text_of(alloc: Global, because: &Because) -> Result<Vec<u8>, AllocError>
    requires { HasFormula because.now }
    ensures { IfOk result (λ text. text.items ≡ certificate_text because.now) }
{
    let mut text = print(alloc, &because.table, because.root)?;
    text.extend_from_slice(b"\n---\n")?;
    append(&because.certificate, &mut text)?;
    Ok(text)
}
