// A conflict: its members, and why they cannot be met together. Its members are assumed and required items
// that no trace satisfies, as few as could be shown. The page says the same in
// `requirement_page/src/reasons.rt`, the JSON in `requirement_json/src/because.rt`.
ghost use Rattle.std.specs.Prelude.{◌≡◌, ◌++◌, IfOk, OnOk};
ghost use Rattle.std.specs.Option.{option_copied};
ghost use Rattle.requirement_document.specs.Values.{document_in};
ghost use Rattle.requirement_report.specs.Flat.{flat};
ghost use Rattle.requirement_report.specs.Lines.{inner, deeper_if};
ghost use Rattle.requirement_report.specs.Shown.{CanBeShown};
ghost use Rattle.requirement_report.specs.Parts.{part_of};
ghost use Rattle.requirement_report.specs.Text.{matters_line, subject_lines, member_lines, members_lines};
ghost use Rattle.requirement_report.specs.Text.{more_lines, claim_lines, nevers_of, conflict_block};

use crate::flat::put_flat;
use crate::lines::{
    first_lines, lines_in, put_deeper, put_deeper_if, put_head, put_indented, put_inner, put_worded,
};
use crate::members::put_members;
use crate::parts::part_of;
use crate::subjects::{name_of, sentence_of, written_of};
use claim_reading::never_lines;
use ltl_closure::Closure;
use ltl_syntax::Kind;
use requirement_document::Document;
use requirement_questions::{Because, Core, Member};
use std::alloc::{AllocError, Global};

/// The most claims that are printed. Those behind them are only counted.
const MOST_CLAIMS: usize = 12;

/// Adds the block of a conflict: the names of its members, what is said of each, and the claims of its
/// certificate.
pub fn put_conflict(
    alloc: Global,
    document: &Document,
    because: &Because,
    core: Option<&Core>,
    out: &mut Vec<u8>,
) -> Result<(), AllocError>
    requires { CanBeShown because.now }
    ensures { OnOk result (out.new.items ≡ out.old.items
        ++ conflict_block (document_in document.now) (option_copied core.entry) because.now) }
{
    let mut names = Vec::new(alloc);
    put_members(alloc, document, &because.members, &mut names)?;
    put_head(b"conflict", &names, out)?;
    put_each(alloc, document, &because.members, core, out)?;
    let nevers = nevers(alloc, document.kind, because)?;
    put_claims(alloc, &nevers, out)
}

/// Adds what is said of each member, in the order of the items.
fn put_each(
    alloc: Global,
    document: &Document,
    members: &[Member],
    core: Option<&Core>,
    out: &mut Vec<u8>,
) -> Result<(), AllocError>
    ensures { OnOk result (out.new.items ≡ out.old.items
        ++ members_lines (document_in document.now) (option_copied core.entry) 0 members.now) }
{
    'members: for place in 0..members.len() {
        put_member(alloc, document, members[place], core, place, out)?;
    }
    Ok(())
}

/// Adds what is said of the member at this place of the conflict, from 0. The core is found by the place, the
/// item by the member's own number.
fn put_member(
    alloc: Global,
    document: &Document,
    member: Member,
    core: Option<&Core>,
    place: usize,
    out: &mut Vec<u8>,
) -> Result<(), AllocError>
    ensures { OnOk result (out.new.items ≡ out.old.items ++ member_lines
        (document_in document.now) (part_of (option_copied core.entry) place) member) }
{
    put_subject(alloc, document, member, out)?;
    put_matters(alloc, core, place, out)
}

/// Adds the name of a member and, deeper, its sentence, where it has one, and its formula as it is written.
fn put_subject(
    alloc: Global,
    document: &Document,
    member: Member,
    out: &mut Vec<u8>,
) -> Result<(), AllocError>
    ensures { OnOk result (out.new.items
        ≡ out.old.items ++ subject_lines (document_in document.now) member) }
{
    put_flat_inner(alloc, name_of(document, member.given), out)?;
    put_flat_deeper(alloc, sentence_of(document, member.given), out)?;
    put_flat_deeper(alloc, written_of(document, member.given), out)
}

/// Adds the part of the member's formula that matters for the conflict, where that is known.
fn put_matters(
    alloc: Global,
    core: Option<&Core>,
    place: usize,
    out: &mut Vec<u8>,
) -> Result<(), AllocError>
    ensures { OnOk result (out.new.items
        ≡ out.old.items ++ matters_line (part_of (option_copied core.entry) place)) }
{
    let Some(part) = part_of(alloc, core, place)? else {
        return Ok(());
    };
    let mut line = Vec::from_slice(alloc, b"matters: ")?;
    line.extend_from_slice(&part)?;
    put_deeper(&line, out)
}

/// Adds a text that somebody wrote, flat, behind four blanks.
fn put_flat_inner(alloc: Global, text: &str, out: &mut Vec<u8>) -> Result<(), AllocError>
    ensures { OnOk result (out.new.items ≡ out.old.items ++ inner (flat text.now)) }
{
    let mut line = Vec::new(alloc);
    put_flat(alloc, text, &mut line)?;
    put_inner(&line, out)
}

/// Adds a text that somebody wrote, flat, behind eight blanks. Where nothing is left of it there is no line.
fn put_flat_deeper(alloc: Global, text: &str, out: &mut Vec<u8>) -> Result<(), AllocError>
    ensures { OnOk result (out.new.items ≡ out.old.items ++ deeper_if (flat text.now)) }
{
    let mut line = Vec::new(alloc);
    put_flat(alloc, text, &mut line)?;
    put_deeper_if(&line, out)
}

/// The claims of a certificate, each as a line `never F`: F is true at no position of any trace of the kind.
/// There are none where the members fail in each first state already.
pub fn nevers(alloc: Global, kind: Kind, because: &Because) -> Result<Vec<u8>, AllocError>
    requires { CanBeShown because.now }
    ensures { IfOk result (λ lines. lines.items ≡ nevers_of because.now) }
{
    let closure = Closure::of(alloc, &because.table, because.root, kind)?;
    never_lines(alloc, &closure, &because.certificate)
}

/// Adds the first lines of claims, and how many more there are.
fn put_claims(alloc: Global, nevers: &[u8], out: &mut Vec<u8>) -> Result<(), AllocError>
    ensures { OnOk result (out.new.items ≡ out.old.items ++ claim_lines nevers.now) }
{
    if nevers.is_empty() {
        return put_inner(b"no first state meets them", out);
    }
    let first = first_lines(alloc, MOST_CLAIMS, nevers)?;
    put_indented(&first, out)?;
    put_more(alloc, lines_in(nevers), out)
}

/// Adds how many claims are not printed, where there are any such.
fn put_more(alloc: Global, count: usize, out: &mut Vec<u8>) -> Result<(), AllocError>
    ensures { OnOk result (out.new.items ≡ out.old.items ++ more_lines count) }
{
    if count <= MOST_CLAIMS {
        return Ok(());
    }
    let mut line = Vec::new(alloc);
    put_worded(b"and ", (count - MOST_CLAIMS) as u128, &mut line)?;
    line.extend_from_slice(b" more")?;
    put_inner(&line, out)
}
