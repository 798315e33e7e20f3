// Numbers of items.
ghost use Rattle.std.specs.Prelude.{◌≡◌, ◌++◌, ◌<◌, ◌≤◌, [], ◌∷◌, length, not, IfOk, OnOk};
ghost use Rattle.requirement_document.specs.Values.{document_in};
ghost use Rattle.requirement_answers.specs.Items.{given_numbers, is_given, is_among, without};
ghost use Rattle.requirement_answers.specs.Inner.{alone_if};

use requirement_document::{Document, Role};
use std::alloc::{AllocError, Global};

/// Whether an item of this role is given.
pub fn is_given(role: Role) -> bool
    ensures { result ≡ is_given role }
{
    match role {
        Role::Assume => true,
        Role::Require => true,
        Role::Allow => false,
        Role::Ensure => false,
    }
}

/// The numbers of the items that are assumed or required, ascending. Items are counted from 0 in the
/// document's order.
pub fn given_numbers(alloc: Global, document: &Document) -> Result<Vec<u32>, AllocError>
    requires { length document.now.items.items < 4294967296 }
    ensures { IfOk result (λ numbers. numbers.items ≡ given_numbers (document_in document.now)) }
{
    let mut numbers = Vec::new(alloc);
    'items: for number in 0..document.items.len() {
        let passes = is_given(document.items[number].role);
        add_if(&mut numbers, passes, number as u32)?;
    }
    Ok(numbers)
}

/// Adds a number if it passes.
pub fn add_if(numbers: &mut Vec<u32>, passes: bool, number: u32) -> Result<(), AllocError>
    ensures { OnOk result (numbers.new.items ≡ numbers.old.items ++ alone_if passes number) }
{
    if passes {
        numbers.push(number)?;
        return Ok(());
    }
    Ok(())
}

/// Whether the number is one of these.
pub fn is_among(numbers: &[u32], number: u32) -> bool
    ensures { result ≡ is_among numbers.now number }
{
    numbers.contains(&number)
}

/// These numbers without those that are taken away, in the same order: ascending where they were. They are
/// numbers of items, which are counted from 0 in the document's order.
pub fn without(alloc: Global, away: &[u32], numbers: &[u32]) -> Result<Vec<u32>, AllocError>
    ensures { IfOk result (λ rest. rest.items ≡ without away.now numbers.now) }
{
    let mut rest = Vec::new(alloc);
    'numbers: for k in 0..numbers.len() {
        let number = numbers[k];
        let stays = !is_among(away, number);
        add_if(&mut rest, stays, number)?;
    }
    Ok(rest)
}
