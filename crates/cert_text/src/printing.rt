// The text of a certificate: its numbers, its lines with what is deleted behind each, and the close.
ghost use Rattle.std.specs.Prelude.{◌≡◌, ◌++◌, OnOk, decimal, codes};
ghost use Rattle.std.specs.List.{flat_map};
ghost use Rattle.cert_text.specs.Text.{literal_text, hint_text, target_text, part_text, kind_text};
ghost use Rattle.cert_text.specs.Text.{close_text};
ghost use Rattle.cert_text.specs.Text as text;
ghost use Rattle.cert_text.specs.Writing.{delete_of};

use cnf_base::{Hint, Literal};
use itoa::Buffer;
use ltl_syntax::Kind;
use std::alloc::AllocError;

pub fn push_number(number: u64, out: &mut Vec<u8>) -> Result<(), AllocError>
    ensures { OnOk result (out.new.items ≡ out.old.items ++ decimal number) }
{
    let mut buffer = Buffer::new();
    out.extend_from_slice(buffer.format(number).as_bytes())
}

fn push_literal(literal: Literal, out: &mut Vec<u8>) -> Result<(), AllocError>
    ensures { OnOk result (out.new.items ≡ out.old.items ++ literal_text literal) }
{
    if literal.negated {
        out.push(b'-')?;
    }
    push_number(literal.letter.0 as u64, out)?;
    out.push(b' ')?;
    Ok(())
}

fn push_hint(hint: Hint, out: &mut Vec<u8>) -> Result<(), AllocError>
    ensures { OnOk result (out.new.items ≡ out.old.items ++ hint_text hint) }
{
    match hint {
        Hint::Clause(number) => push_number(number, out)?,
        Hint::Line(number) => {
            out.push(b'-')?;
            push_number(number, out)?;
        }
    }
    out.push(b' ')?;
    Ok(())
}

pub fn push_literals(literals: &[Literal], out: &mut Vec<u8>) -> Result<(), AllocError>
    ensures { OnOk result (out.new.items ≡ out.old.items ++ flat_map literal_text literals.now) }
{
    for literal in literals {
        push_literal(*literal, out)?;
    }
    Ok(())
}

pub fn push_hints(hints: &[Hint], out: &mut Vec<u8>) -> Result<(), AllocError>
    ensures { OnOk result (out.new.items ≡ out.old.items ++ flat_map hint_text hints.now) }
{
    for hint in hints {
        push_hint(*hint, out)?;
    }
    Ok(())
}

fn push_target(target: u64, out: &mut Vec<u8>) -> Result<(), AllocError>
    ensures { OnOk result (out.new.items ≡ out.old.items ++ target_text target) }
{
    out.push(b' ')?;
    push_number(target, out)
}

pub fn push_targets(targets: &[u64], out: &mut Vec<u8>) -> Result<(), AllocError>
    ensures { OnOk result (out.new.items ≡ out.old.items ++ flat_map target_text targets.now) }
{
    for target in targets {
        push_target(*target, out)?;
    }
    Ok(())
}

pub fn push_line(literals: &[Literal], hints: &[Hint], out: &mut Vec<u8>) -> Result<(), AllocError>
    ensures { OnOk result (out.new.items ≡ out.old.items ++ part_text (text.Line literals.now hints.now)) }
{
    push_literals(literals, out)?;
    out.extend_from_slice(b"0 ")?;
    push_hints(hints, out)?;
    out.extend_from_slice(b"0\n")?;
    Ok(())
}

/// A delete that names these lines, where there are any.
pub fn push_delete(lines: &[u64], out: &mut Vec<u8>) -> Result<(), AllocError>
    ensures { OnOk result (out.new.items ≡ out.old.items ++ flat_map part_text (delete_of lines.now)) }
{
    if lines.is_empty() {
        return Ok(());
    }
    out.push(b'd')?;
    push_targets(lines, out)?;
    out.push(b'\n')?;
    Ok(())
}

pub fn push_close(targets: &[u64], out: &mut Vec<u8>) -> Result<(), AllocError>
    ensures { OnOk result (out.new.items ≡ out.old.items ++ close_text targets.now) }
{
    out.extend_from_slice(b"close")?;
    push_targets(targets, out)?;
    out.push(b'\n')?;
    Ok(())
}

pub fn kind_bytes(kind: Kind) -> &'static [u8]
    ensures { result.now ≡ kind_text kind }
{
    match kind {
        Kind::Infinite => b"infinite",
        Kind::Finite => b"finite",
    }
}

pub fn push_header(kind: Kind, depth: u32, out: &mut Vec<u8>) -> Result<(), AllocError>
    ensures { OnOk result (out.new.items ≡ out.old.items
        ++ (codes "ltlcert 2 " ++ (kind_text kind ++ (codes " " ++ (decimal depth ++ codes "\n"))))) }
{
    out.extend_from_slice(b"ltlcert 2 ")?;
    out.extend_from_slice(kind_bytes(kind))?;
    out.push(b' ')?;
    push_number(depth as u64, out)?;
    out.push(b'\n')?;
    Ok(())
}
