// Cores: what of the members of each conflict matters for it. The formula beside a conflict says that its
// members hold, so what is told of this formula is told of the items' own.
ghost use Rattle.std.specs.Prelude.{All, IfOk};
ghost use Rattle.requirement_document.specs.Values.{document_in};
ghost use Rattle.requirement_answers.specs.Answers.{AreCores};
ghost use Rattle.requirement_answers.specs.Inner.{SaysMembers};

use requirement_document::Document;
use requirement_questions::{Because, Core, Limits, core_of};
use std::alloc::{AllocError, Global};

/// The core of each conflict, in their order, each within the limits.
pub fn cores(
    alloc: Global,
    document: &Document,
    conflicts: &[Box<Because>],
    limits: Limits,
) -> Result<Vec<Option<Box<Core>>>, AllocError>
    requires { All (SaysMembers (document_in document.now)) conflicts.now }
    ensures { IfOk result (λ found. AreCores (document_in document.now) conflicts.now found.items) }
{
    let mut found = Vec::with_capacity(alloc, conflicts.len())?;
    'conflicts: for k in 0..conflicts.len() {
        let because = &conflicts[k];
        let core = core_of(alloc, document.kind, because, limits)?;
        found.push(core)?;
    }
    Ok(found)
}
