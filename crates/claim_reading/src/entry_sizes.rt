// How many nodes each entry has as a tree. Entries share their parts, so the trees of a chain of `<->` are
// much larger than the closure: what is counted stops behind the greatest formula that is printed.
ghost use Rattle.std.specs.Prelude.{◌≡◌, ◌+◌, ◌≤◌, min, nat_le, length, All, IfOk};
ghost use Rattle.ltl_syntax.specs.Formula.{nodes_in};
ghost use Rattle.cnf_base.specs.Known.{IsKnown};
ghost use Rattle.claims.specs.Between.{width};
ghost use Rattle.claim_reading.specs.Shown.{shown, IsBefore};
ghost use Rattle.claim_reading.specs.Never.{never_formula};
ghost use Rattle.claim_reading.specs.Sizes.{AreSizes, literal_size, claim_size};

use crate::entry_node::node_of;
use cnf_base::Literal;
use ltl_closure::Closure;
use ltl_syntax::Node;
use std::alloc::{AllocError, Global};

const MOST: u32 = 16_385;

/// The size of each entry's tree, or 16,385 where it is more.
pub fn sizes_of(alloc: Global, closure: &Closure<'_>) -> Result<Vec<u32>, AllocError>
    ensures { IfOk result (λ sizes.
        AreSizes closure.now.formula (width closure.now.formula) sizes.items) }
{
    let mut sizes = Vec::new(alloc);
    'entries: for index in 0..closure.entries().len() {
        let size = node_size(closure, node_of(closure, index as u32 + 1), &sizes);
        sizes.push(size)?;
    }
    Ok(sizes)
}

/// The size of a node, from those of the entries before it.
fn node_size(closure: &Closure<'_>, node: Node, sizes: &Vec<u32>) -> u32
    requires sizes { AreSizes closure.now.formula (length sizes.now.items) sizes.now.items }
    requires before { IsBefore (length closure.now.names) (length sizes.now.items + 1) node }
    ensures { result ≡ min (nodes_in (shown closure.now.names closure.now.formula node)) 16385 }
{
    match node {
        Node::Const(_) | Node::Letter(_) | Node::Fresh(_) => 1,
        Node::Unary(_, a) => (sizes[a as usize - 1] + 1).min(MOST),
        Node::Binary(_, a, b) => (sizes[a as usize - 1] + sizes[b as usize - 1] + 1).min(MOST),
    }
}

/// Whether the formula of a claim has at most 16,384 nodes.
pub fn fits(closure: &Closure<'_>, sizes: &Vec<u32>, claim: &[Literal]) -> bool
    requires sizes { AreSizes closure.now.formula (width closure.now.formula) sizes.now.items }
    requires known { All (IsKnown (width closure.now.formula)) claim.now }
    ensures { result ≡ nat_le (nodes_in (never_formula closure.now.formula claim.now)) 16384 }
{
    is_small(sizes, claim)
}

fn is_small(sizes: &Vec<u32>, claim: &[Literal]) -> bool
    requires known { All (IsKnown (length sizes.now.items)) claim.now }
    requires few { All (λ size. size ≤ 16385) sizes.now.items }
    ensures { result ≡ nat_le (claim_size sizes.now.items claim.now) 16385 }
{
    let mut total = 0;
    'literals: for literal in claim {
        total += literal_size(sizes, *literal);
        if total > MOST {
            return false;
        }
    }
    true
}

/// What a literal adds to the size of its claim's formula.
fn literal_size(sizes: &Vec<u32>, literal: Literal) -> u32
    requires known { IsKnown (length sizes.now.items) literal }
    requires few { All (λ size. size ≤ 16385) sizes.now.items }
    ensures size { result ≡ literal_size sizes.now.items literal }
    ensures few { result ≤ 16387 }
{
    let signs = if literal.negated { 1 } else { 2 };
    sizes[literal.letter.0 as usize - 1] + signs
}
