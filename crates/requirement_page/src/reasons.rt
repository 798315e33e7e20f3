// Reasons: what is said of an item, and of items that cannot be met together. The text says the same in
// `requirement_report/src/conflicts.rt`, the JSON in `requirement_json/src/because.rt`.
ghost use Rattle.std.specs.Prelude.{◌≡◌, ◌++◌, codes, OnOk};
ghost use Rattle.std.specs.List.{flat_map};
ghost use Rattle.std.specs.Option.{option_copied};
ghost use Rattle.requirement_document.specs.Values.{document_in};
ghost use Rattle.requirement_report.specs.Shown.{CanBeShown};
ghost use Rattle.requirement_report.specs.Parts.{part_of};
ghost use Rattle.requirement_report.specs.Subjects.{perhaps};
ghost use Rattle.requirement_report.specs.Text.{nevers_of};
ghost use Rattle.requirement_page.specs.Marks.{begun};
ghost use Rattle.requirement_page.specs.Reasons.{described, member_link, behind_comma, member_links};
ghost use Rattle.requirement_page.specs.Reasons.{because_of, without, claim_byte, claim_begins, left_behind};
ghost use Rattle.requirement_page.specs.Reasons.{claims_from, more, claims, matters, member_described};
ghost use Rattle.requirement_page.specs.Reasons.{members_described, conflict_article};

use crate::marks::{
    ENDED, put_begun, put_code, put_escaped_byte, put_item_link, put_paragraph, put_said_code,
    put_sentence,
};
use ltl_syntax::Kind;
use requirement_document::Document;
use requirement_questions::{Because, Core, Member};
use requirement_report::{
    first_lines, lines_in, nevers, part_of, put_worded, sentence_of, written_of,
};
use std::alloc::{AllocError, Global};

/// The most claims that are printed, as many as in the text. Those behind them are only counted.
const MOST_CLAIMS: usize = 12;

/// How many bytes of the line of a claim stand before its formula: those of `never` and a blank.
const BEFORE_FORMULA: usize = 6;

/// Adds the sentence of an item, and its formula as it is written. Items count from 0.
pub fn put_described(
    alloc: Global,
    document: &Document,
    item: u32,
    out: &mut Vec<u8>,
) -> Result<(), AllocError>
    ensures { OnOk result (out.new.items
        ≡ out.old.items ++ described (document_in document.now) item) }
{
    put_sentence(alloc, sentence_of(document, item), out)?;
    out.extend_from_slice(b"<p>")?;
    put_said_code(alloc, written_of(document, item), out)?;
    out.extend_from_slice(b"</p>\n")
}

/// Adds the names of members as links, joined by commas. One that is not known to be needed has `(perhaps)`
/// behind it.
fn put_member_links(
    alloc: Global,
    document: &Document,
    members: &[Member],
    out: &mut Vec<u8>,
) -> Result<(), AllocError>
    ensures { OnOk result (out.new.items
        ≡ out.old.items ++ member_links (document_in document.now) members.now) }
{
    if members.is_empty() {
        return Ok(());
    }
    put_member_link(alloc, document, members[0], out)?;
    put_other_links(alloc, document, &members[1..], out)
}

/// Adds the members behind the first, each behind a comma.
fn put_other_links(
    alloc: Global,
    document: &Document,
    members: &[Member],
    out: &mut Vec<u8>,
) -> Result<(), AllocError>
    ensures { OnOk result (out.new.items
        ≡ out.old.items ++ flat_map (behind_comma (document_in document.now)) members.now) }
{
    for member in members {
        out.extend_from_slice(b", ")?;
        put_member_link(alloc, document, *member, out)?;
    }
    Ok(())
}

/// Adds the name of one member as a link, and whether it is needed.
fn put_member_link(
    alloc: Global,
    document: &Document,
    member: Member,
    out: &mut Vec<u8>,
) -> Result<(), AllocError>
    ensures { OnOk result (out.new.items
        ≡ out.old.items ++ member_link (document_in document.now) member) }
{
    put_item_link(alloc, document, member.given, out)?;
    out.extend_from_slice(perhaps(member.needed))
}

/// What stands behind a name. Nothing does where a trace shows that the others can be met without it.
fn perhaps(needed: bool) -> &'static [u8]
    ensures { result.now ≡ perhaps needed }
{
    if needed { b"" } else { b" (perhaps)" }
}

/// Adds the items because of which there is no trace, or `by itself` where there are none: what is asked
/// cannot be, whatever else holds.
pub fn put_because(
    alloc: Global,
    document: &Document,
    members: &[Member],
    out: &mut Vec<u8>,
) -> Result<(), AllocError>
    ensures { OnOk result (out.new.items
        ≡ out.old.items ++ because_of (document_in document.now) members.now) }
{
    if members.is_empty() {
        return put_paragraph(b"by itself", out);
    }
    let mut line = Vec::from_slice(alloc, b"because of: ")?;
    put_member_links(alloc, document, members, &mut line)?;
    put_paragraph(&line, out)
}

/// Adds the items that are set aside, where there are any.
pub fn put_without(
    alloc: Global,
    document: &Document,
    members: &[Member],
    out: &mut Vec<u8>,
) -> Result<(), AllocError>
    ensures { OnOk result (out.new.items
        ≡ out.old.items ++ without (document_in document.now) members.now) }
{
    if members.is_empty() {
        return Ok(());
    }
    let mut line = Vec::from_slice(alloc, b"without: ")?;
    put_member_links(alloc, document, members, &mut line)?;
    put_paragraph(&line, out)
}

/// Adds the article of a conflict. `number` is its place among the answers on the page, from 1.
pub fn put_conflict(
    alloc: Global,
    document: &Document,
    number: u128,
    because: &Because,
    core: Option<&Core>,
    out: &mut Vec<u8>,
) -> Result<(), AllocError>
    requires { CanBeShown because.now }
    ensures { OnOk result (out.new.items ≡ out.old.items
        ++ conflict_article (document_in document.now) number (option_copied core.entry) because.now) }
{
    put_conflict_begun(alloc, document, number, &because.members, out)?;
    put_each(alloc, document, &because.members, core, out)?;
    put_nevers(alloc, document.kind, because, out)?;
    out.extend_from_slice(ENDED)
}

/// Adds how that article begins: the names of the members as links.
fn put_conflict_begun(
    alloc: Global,
    document: &Document,
    number: u128,
    members: &[Member],
    out: &mut Vec<u8>,
) -> Result<(), AllocError>
    ensures { OnOk result (out.new.items ≡ out.old.items ++ begun (codes "bad") number
        (codes "conflict") (member_links (document_in document.now) members.now)) }
{
    let mut names = Vec::new(alloc);
    put_member_links(alloc, document, members, &mut names)?;
    put_begun(b"bad", number, b"conflict", &names, out)
}

/// Adds what is said of each member, in the order of the items.
fn put_each(
    alloc: Global,
    document: &Document,
    members: &[Member],
    core: Option<&Core>,
    out: &mut Vec<u8>,
) -> Result<(), AllocError>
    ensures { OnOk result (out.new.items ≡ out.old.items
        ++ members_described (document_in document.now) (option_copied core.entry) 0 members.now) }
{
    'members: for place in 0..members.len() {
        put_member(alloc, document, members[place], core, place, out)?;
    }
    Ok(())
}

/// Adds what is said of the member at this place of the conflict, from 0. The core is found by the place, the
/// item by the member's own number.
fn put_member(
    alloc: Global,
    document: &Document,
    member: Member,
    core: Option<&Core>,
    place: usize,
    out: &mut Vec<u8>,
) -> Result<(), AllocError>
    ensures { OnOk result (out.new.items ≡ out.old.items ++ member_described
        (document_in document.now) (part_of (option_copied core.entry) place) member) }
{
    out.extend_from_slice(b"<p><strong>")?;
    put_item_link(alloc, document, member.given, out)?;
    out.extend_from_slice(b"</strong></p>\n")?;
    put_described(alloc, document, member.given, out)?;
    put_matters(alloc, core, place, out)
}

/// Adds the part of the member's formula that matters for the conflict, where that is known.
fn put_matters(
    alloc: Global,
    core: Option<&Core>,
    place: usize,
    out: &mut Vec<u8>,
) -> Result<(), AllocError>
    ensures { OnOk result (out.new.items
        ≡ out.old.items ++ matters (part_of (option_copied core.entry) place)) }
{
    let Some(part) = part_of(alloc, core, place)? else {
        return Ok(());
    };
    let mut line = Vec::from_slice(alloc, b"matters: ")?;
    put_code(&part, &mut line)?;
    put_paragraph(&line, out)
}

/// Adds the claims of the conflict's certificate.
fn put_nevers(
    alloc: Global,
    kind: Kind,
    because: &Because,
    out: &mut Vec<u8>,
) -> Result<(), AllocError>
    requires { CanBeShown because.now }
    ensures { OnOk result (out.new.items ≡ out.old.items ++ claims (nevers_of because.now)) }
{
    let nevers = nevers(alloc, kind, because)?;
    put_claims(alloc, &nevers, out)
}

/// Adds the first claims, and how many more there are. Where there are none, no state can be the first.
fn put_claims(alloc: Global, nevers: &[u8], out: &mut Vec<u8>) -> Result<(), AllocError>
    ensures { OnOk result (out.new.items ≡ out.old.items ++ claims nevers.now) }
{
    if nevers.is_empty() {
        return put_paragraph(b"no first state meets them", out);
    }
    let first = first_lines(alloc, MOST_CLAIMS, nevers)?;
    put_lines(&first, out)?;
    put_more(alloc, lines_in(nevers), out)
}

/// Adds each line of claims, which is `never F`, as a paragraph, with F as code.
fn put_lines(lines: &[u8], out: &mut Vec<u8>) -> Result<(), AllocError>
    ensures { OnOk result (out.new.items ≡ out.old.items ++ claims_from 6 lines.now) }
{
    let mut left = BEFORE_FORMULA;
    for byte in lines {
        put_claim_byte(left, *byte, out)?;
        left = left_behind(left, *byte);
    }
    Ok(())
}

/// Adds a byte of such a line. `left` tells how many bytes from this one on stand before the formula; they
/// are not copied, and the last of them stands for the marks that begin the paragraph.
fn put_claim_byte(left: usize, byte: u8, out: &mut Vec<u8>) -> Result<(), AllocError>
    ensures { OnOk result (out.new.items ≡ out.old.items ++ claim_byte left byte) }
{
    if byte == b'\n' {
        return out.extend_from_slice(b"</bdi></code></p>\n");
    }
    if left == 0 {
        return put_escaped_byte(byte, out);
    }
    out.extend_from_slice(claim_begins(left))
}

/// How the paragraph of a claim begins. It is put at the last byte before the formula, and nothing at those
/// before it.
fn claim_begins(left: usize) -> &'static [u8]
    ensures { result.now ≡ claim_begins left }
{
    if left == 1 {
        b"<p>never <code><bdi>"
    } else {
        b""
    }
}

/// How many bytes behind this one stand before the formula. A newline begins the next line.
fn left_behind(left: usize, byte: u8) -> usize
    ensures { result ≡ left_behind left byte }
{
    if byte == b'\n' {
        BEFORE_FORMULA
    } else {
        left.saturating_sub(1)
    }
}

/// Adds how many claims are not printed, where there are any such.
fn put_more(alloc: Global, count: usize, out: &mut Vec<u8>) -> Result<(), AllocError>
    ensures { OnOk result (out.new.items ≡ out.old.items ++ more count) }
{
    if count <= MOST_CLAIMS {
        return Ok(());
    }
    let mut line = Vec::new(alloc);
    put_worded(b"and ", (count - MOST_CLAIMS) as u128, &mut line)?;
    line.extend_from_slice(b" more")?;
    put_paragraph(&line, out)
}
