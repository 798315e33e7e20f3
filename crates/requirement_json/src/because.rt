// Why there is no trace, as JSON: members, and claims. The text tells them in
// `requirement_report/src/conflicts.rt`.
ghost use Rattle.std.specs.Prelude.{◌≡◌, ◌∷◌, ◌++◌, ℕ, List, map, drop, IfOk, OnOk};
ghost use Rattle.std.specs.Option.{option_copied};
ghost use Rattle.serde_json.specs.View.{view, members_view};
ghost use Rattle.requirement_document.specs.Values.{document_in};
ghost use Rattle.requirement_report.specs.Parts.{part_of};
ghost use Rattle.requirement_json.specs.Because.{member_members, with_part, member_data, members_data};
ghost use Rattle.requirement_json.specs.Because.{lines_behind, claim_data, claims_data, with_because};

use crate::texts::{put_text, text_value};
use requirement_document::Document;
use requirement_questions::{Core, Member};
use requirement_report::{name_of, part_of};
use serde_json::{Map, Value, put};
use std::alloc::{AllocError, Global};

/// How many bytes `never ` has, with which each line of claims begins.
const NEVER: usize = 6;

/// Puts in the members of a set that no trace satisfies, each with its part where there is a core, and the
/// lines of claims.
pub fn put_because(
    alloc: Global,
    document: &Document,
    core: Option<&Core>,
    because: &[Member],
    nevers: &[u8],
    members: &mut Map<String, Value>,
) -> Result<(), AllocError>
    ensures { OnOk result (members_view members.new.entries ≡ with_because (document_in document.now)
        (part_of (option_copied core.entry)) because.now nevers.now (members_view members.old.entries)) }
{
    let claims = claims_value(alloc, nevers)?;
    let because = members_value(alloc, document, core, because)?;
    put(members, alloc, "claims", claims)?;
    put(members, alloc, "because", because)
}

/// An array of the members, in the order of the items.
fn members_value(
    alloc: Global,
    document: &Document,
    core: Option<&Core>,
    members: &[Member],
) -> Result<Value, AllocError>
    ensures { IfOk result (λ value. view value
        ≡ members_data (document_in document.now) (part_of (option_copied core.entry)) members.now) }
{
    let mut values = Vec::with_capacity(alloc, members.len())?;
    'members: for place in 0..members.len() {
        let value = member_value(alloc, document, core, place, members[place])?;
        values.push(value)?;
    }
    Ok(Value::Array(values))
}

/// The member at this place of the set, from 0. The core is found by the place, the item by the member's own
/// number.
fn member_value(
    alloc: Global,
    document: &Document,
    core: Option<&Core>,
    place: usize,
    member: Member,
) -> Result<Value, AllocError>
    ensures { IfOk result (λ value. view value ≡ member_data (document_in document.now)
        (part_of (option_copied core.entry) place) member) }
{
    let mut members = member_members(alloc, document, member)?;
    put_part(alloc, core, place, &mut members)?;
    Ok(Value::Object(members))
}

/// The name of a member, and whether it is needed. False says that it was not found out.
fn member_members(
    alloc: Global,
    document: &Document,
    member: Member,
) -> Result<Map<String, Value>, AllocError>
    ensures { IfOk result (λ members.
        members_view members.entries ≡ member_members (document_in document.now) member) }
{
    let name = Value::try_from_str(alloc, name_of(document, member.given))?;
    let mut members = Map::new(alloc);
    put(&mut members, alloc, "name", name)?;
    put(&mut members, alloc, "needed", Value::Bool(member.needed))?;
    Ok(members)
}

/// Puts in what matters of the member at this place, where that is known.
fn put_part(
    alloc: Global,
    core: Option<&Core>,
    place: usize,
    members: &mut Map<String, Value>,
) -> Result<(), AllocError>
    ensures { OnOk result (members_view members.new.entries
        ≡ with_part (part_of (option_copied core.entry) place) (members_view members.old.entries)) }
{
    match part_of(alloc, core, place)? {
        Some(part) => put_text(alloc, "matters", &part, members),
        None => Ok(()),
    }
}

/// An array of the claims: what each line says behind `never `.
fn claims_value(alloc: Global, nevers: &[u8]) -> Result<Value, AllocError>
    ensures { IfOk result (λ value. view value ≡ claims_data nevers.now) }
{
    let mut claims = Vec::new(alloc);
    let mut line = Vec::new(alloc);
    for byte in nevers {
        put_byte(alloc, *byte, &mut line, &mut claims)?;
    }
    Ok(Value::Array(claims))
}

/// Adds a byte to the line that has begun. A newline ends it, and the claim is added.
fn put_byte(
    alloc: Global,
    byte: u8,
    line: &mut Vec<u8>,
    claims: &mut Vec<Value>,
) -> Result<(), AllocError>
    ensures { OnOk result ((rest : List ℕ)
        → map view claims.new.items ++ map claim_data (lines_behind line.new.items rest)
        ≡ map view claims.old.items ++ map claim_data (lines_behind line.old.items (byte ∷ rest))) }
{
    if byte != b'\n' {
        line.push(byte)?;
        return Ok(());
    }
    let claim = text_value(alloc, behind_never(line))?;
    claims.push(claim)?;
    line.clear();
    Ok(())
}

/// What a line says behind `never `. It would be empty for a shorter line, but no line of claims is.
fn behind_never(line: &Vec<u8>) -> &[u8]
    ensures { result.now ≡ drop 6 line.now.items }
{
    if line.len() < NEVER {
        return b"";
    }
    &line[NEVER..]
}
