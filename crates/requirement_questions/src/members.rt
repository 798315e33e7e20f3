// Members: some of the given formulas, in the order in which they are given.
ghost use Rattle.std.specs.Prelude.{◌≡◌, ◌<◌, ◌≤◌, ◌-◌, length, IfOk};
ghost use Rattle.requirement_questions.specs.Members.{counted, without_some, marked};

use std::alloc::{AllocError, Global};

/// A member: one of the given formulas that belongs to a set of them.
#[derive(Clone, Copy)]
pub struct Member {
    /// Its place among the given ones, from 0.
    pub given: u32,
    /// Whether the others can be without it, as a trace shows. Else nothing was found of that within the
    /// limits.
    pub needed: bool,
}

/// All given formulas as members, where this is their number. None is marked as needed.
pub fn first_members(alloc: Global, count: usize) -> Result<Vec<Member>, AllocError>
    requires { count ≤ 16384 }
    ensures { IfOk result (λ members. members.items ≡ counted count) }
{
    let mut members = Vec::with_capacity(alloc, count)?;
    'places: for place in 0..count {
        members.push(Member {
            given: place as u32,
            needed: false,
        })?;
    }
    Ok(members)
}

/// All members but those from the first place on to before the end.
pub fn others(
    alloc: Global,
    members: &[Member],
    first: usize,
    end: usize,
) -> Result<Vec<Member>, AllocError>
    requires order { first ≤ end }
    requires there { end ≤ length members.now }
    ensures { IfOk result (λ rest. rest.items ≡ without_some first (end - first) members.now) }
{
    let mut rest = Vec::new(alloc);
    rest.extend_from_slice(&members[..first])?;
    rest.extend_from_slice(&members[end..])?;
    Ok(rest)
}

/// Marks the member at this place as needed.
pub fn mark(members: &mut Vec<Member>, place: usize)
    requires { place < length members.old.items }
    ensures { members.new.items ≡ marked place members.old.items }
{
    let given = members[place].given;
    members[place] = Member {
        given,
        needed: true,
    };
}
