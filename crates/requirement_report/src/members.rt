// Members by name, on one line. A member is an item of those that together have no trace. On the page each
// name is a link: `requirement_page/src/reasons.rt`.
ghost use Rattle.std.specs.Prelude.{◌≡◌, ◌++◌, OnOk};
ghost use Rattle.std.specs.List.{flat_map};
ghost use Rattle.requirement_document.specs.Values.{document_in};
ghost use Rattle.requirement_report.specs.Subjects.{perhaps, member_text, behind_comma, members_text};

use crate::flat::put_flat;
use crate::subjects::name_of;
use requirement_document::Document;
use requirement_questions::Member;
use std::alloc::{AllocError, Global};

/// Adds the names, joined by commas. One that is not known to be needed has `(perhaps)` behind it.
pub fn put_members(
    alloc: Global,
    document: &Document,
    members: &[Member],
    out: &mut Vec<u8>,
) -> Result<(), AllocError>
    ensures { OnOk result (out.new.items
        ≡ out.old.items ++ members_text (document_in document.now) members.now) }
{
    if members.is_empty() {
        return Ok(());
    }
    put_member(alloc, document, members[0], out)?;
    put_others(alloc, document, &members[1..], out)
}

/// Adds the members behind the first, each behind a comma.
fn put_others(
    alloc: Global,
    document: &Document,
    members: &[Member],
    out: &mut Vec<u8>,
) -> Result<(), AllocError>
    ensures { OnOk result (out.new.items
        ≡ out.old.items ++ flat_map (behind_comma (document_in document.now)) members.now) }
{
    for member in members {
        out.extend_from_slice(b", ")?;
        put_member(alloc, document, *member, out)?;
    }
    Ok(())
}

/// Adds the name of one member, and whether it is needed.
fn put_member(
    alloc: Global,
    document: &Document,
    member: Member,
    out: &mut Vec<u8>,
) -> Result<(), AllocError>
    ensures { OnOk result (out.new.items
        ≡ out.old.items ++ member_text (document_in document.now) member) }
{
    put_flat(alloc, name_of(document, member.given), out)?;
    out.extend_from_slice(perhaps(member.needed))
}

/// What stands behind a name. Nothing does where a trace shows that the others can be met without it.
fn perhaps(needed: bool) -> &'static [u8]
    ensures { result.now ≡ perhaps needed }
{
    if needed { b"" } else { b" (perhaps)" }
}
