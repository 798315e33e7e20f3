// Members that count among the given formulas of a question, numbered as the items of the document are.
ghost use Rattle.std.specs.Prelude.{◌≡◌, ◌<◌, length, map, All, IfOk};
ghost use Rattle.requirement_answers.specs.Inner.{renumbered, IsRenumbered};

use requirement_questions::{Because, Member};
use std::alloc::{AllocError, Global};

/// The same with members by the numbers of the items at their places.
pub fn renumber(
    alloc: Global,
    numbers: &[u32],
    because: Box<Because>,
) -> Result<Box<Because>, AllocError>
    requires { All (λ m. m.given < length numbers.now) because.value.members.items }
    ensures { IfOk result (λ b. IsRenumbered numbers.now because.value b.value) }
{
    let mut because = because;
    let members = item_members(alloc, numbers, &because.members)?;
    because.members = members;
    Ok(because)
}

/// The members by the numbers of the items at their places.
fn item_members(
    alloc: Global,
    numbers: &[u32],
    members: &[Member],
) -> Result<Vec<Member>, AllocError>
    requires { All (λ m. m.given < length numbers.now) members.now }
    ensures { IfOk result (λ found. found.items ≡ map (renumbered numbers.now) members.now) }
{
    let mut found = Vec::with_capacity(alloc, members.len())?;
    'members: for k in 0..members.len() {
        let member = members[k];
        found.push(Member {
            given: numbers[member.given as usize],
            needed: member.needed,
        })?;
    }
    Ok(found)
}
