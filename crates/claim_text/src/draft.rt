// What is read so far of a certificate, and how it grows.
ghost use Rattle.std.specs.Prelude.{◌≡◌, ◌+◌, ◌<◌, ◌∷◌, ◌++◌, [], ◌^◌, length, OnOk, IfOk};
ghost use Rattle.claim_check.specs.Data.{layer_in, lines_in};
ghost use Rattle.claim_text.specs.Scan.{acted, blank, opened, closed, wanted};
ghost use Rattle.claim_text.specs.Stored.{draft_in, ArePaired, IsDraftOf};

use crate::place::{Act, Section};
use claim_check::{HintedLines, Layer};
use cnf_base::{ClauseList, Clauses, Hint, Literal, Rows};
use ltl_syntax::Kind;
use std::alloc::{AllocError, Global};
use std::mem::replace;

/// Whole layers, the layer that is open, and the lines, literals, hints and targets of what is open there.
#[derive(Drop)]
pub struct Draft {
    pub kind: Kind,
    pub layers: Vec<Layer>,
    pub section: Section,
    pub layer: Layer,
    pub lines: HintedLines,
    pub literals: Vec<Literal>,
    pub hints: Vec<Hint>,
    pub targets: Vec<u64>,
    pub target: u64,
}

fn no_lines(alloc: Global) -> HintedLines
    ensures is { lines_in result ≡ [] }
    ensures paired { ArePaired result }
{
    HintedLines {
        literals: ClauseList::new(alloc),
        hints: Rows::new(alloc),
    }
}

fn opened(alloc: Global, eventuality: Option<u32>) -> Layer
    ensures { layer_in result ≡ opened eventuality }
{
    Layer {
        eventuality,
        claims: ClauseList::new(alloc),
        base_lines: no_lines(alloc),
        base_targets: Vec::new(alloc),
        step_lines: no_lines(alloc),
        step_targets: Vec::new(alloc),
    }
}

/// Nothing is read.
pub fn blank(alloc: Global) -> Draft
    ensures { IsDraftOf result blank }
{
    Draft {
        kind: Kind::Infinite,
        layers: Vec::new(alloc),
        section: Section::Outside,
        layer: opened(alloc, None),
        lines: no_lines(alloc),
        literals: Vec::new(alloc),
        hints: Vec::new(alloc),
        targets: Vec::new(alloc),
        target: 0,
    }
}

/// Want of room is told as want of memory.
fn push_clause(clauses: &mut ClauseList, literals: &[Literal]) -> Result<(), AllocError>
    ensures { OnOk result (clauses.new ≡ clauses.old ++ literals.now ∷ []) }
{
    if literals.len() > 4_294_967_295 {
        return Err(AllocError);
    }
    clauses.push(literals)
}

fn push_line(
    lines: &mut HintedLines,
    literals: &[Literal],
    hints: &[Hint],
) -> Result<(), AllocError>
    requires { ArePaired lines.old }
    ensures { OnOk result (ArePaired lines.new × (lines_in lines.new
        ≡ lines_in lines.old ++ record { literals = literals.now; hints = hints.now } ∷ [])) }
{
    push_clause(&mut lines.literals, literals)?;
    lines.hints.push(hints)?;
    Ok(())
}

/// The lines and targets that are read, with the last target, belong to the section, and the next one begins.
fn close(draft: &mut Draft, alloc: Global, target: u64) -> Result<(), AllocError>
    requires { ArePaired draft.old.lines }
    ensures { OnOk result (IsDraftOf draft.new (closed draft.old.section (draft_in draft.old) target)) }
{
    match draft.section {
        Section::Outside => {
            draft.target = target;
        }
        Section::Base => {
            draft.targets.push(target)?;
            draft.layer.base_lines = replace(&mut draft.lines, no_lines(alloc));
            draft.layer.base_targets = replace(&mut draft.targets, Vec::new(alloc));
            draft.section = Section::Step;
        }
        Section::Step => {
            draft.targets.push(target)?;
            draft.layer.step_lines = replace(&mut draft.lines, no_lines(alloc));
            draft.layer.step_targets = replace(&mut draft.targets, Vec::new(alloc));
            draft.section = Section::Outside;
            let layer = replace(&mut draft.layer, opened(alloc, None));
            draft.layers.push(layer)?;
        }
    }
    Ok(())
}

/// Reads what comes with a byte.
pub(crate) fn act(draft: &mut Draft, alloc: Global, act: Act) -> Result<(), AllocError>
    requires { ArePaired draft.old.lines }
    ensures { OnOk result (IsDraftOf draft.new (acted act (draft_in draft.old))) }
{
    match act {
        Act::Nothing => {}
        Act::Kind(kind) => {
            *draft = blank(alloc);
            draft.kind = kind;
        }
        Act::Layer(eventuality) => {
            draft.section = Section::Base;
            draft.layer = opened(alloc, eventuality);
        }
        Act::Claim => {
            push_clause(&mut draft.layer.claims, &draft.literals)?;
            draft.literals.clear();
        }
        Act::Line => {
            push_line(&mut draft.lines, &draft.literals, &draft.hints)?;
            draft.literals.clear();
            draft.hints.clear();
        }
        Act::Literal(literal) => draft.literals.push(literal)?,
        Act::Hint(hint) => draft.hints.push(hint)?,
        Act::Target(target) => draft.targets.push(target)?,
        Act::Last(target) => close(draft, alloc, target)?,
    }
    Ok(())
}
