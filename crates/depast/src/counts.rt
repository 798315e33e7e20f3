// How large the formula without past operators is, before anything of it is written: bottom up,
// from the sizes of residues.
//
// A residue is at most twice as large as its formula, and stands at most three times in the axioms
// of the operator over it. So the sum passes no 32 bits, though it grows with the square of the
// formula where operators from 0 steps back on are nested.
ghost use Rattle.std.specs.Prelude.{◌≡◌, ◌+◌, ◌*◌, ◌<◌, ◌≤◌, length};
ghost use Rattle.std.specs.Prelude.{IfOk, OnOk};
ghost use Rattle.ltl_syntax.specs.Size.{formula_size};
ghost use Rattle.ltl_syntax.specs.Table.{tree_at, trees_of, made, IsFine};
ghost use Rattle.depast.specs.Names.{leading};
ghost use Rattle.depast.specs.Counting.{IsCount, AreCounts, range_size, residue_size₁, residue_size₂};
ghost use Rattle.depast.specs.Counting.{step_size, chain_size, axioms_size₁, axioms_size₂};

use ltl_syntax::{BinaryOp, FormulaTable, Node, UnaryOp};
use std::alloc::{AllocError, Global};

/// What is counted of a formula: the sizes of its residue and of its axioms, each of these joined
/// to what is before it, and how many underscores one of its names begins with at most.
#[derive(Clone, Copy, Debug)]
pub struct Counts {
    pub residue: u32,
    pub axioms: u32,
    pub underscores: usize,
}

/// What is counted of the formula under a root.
pub fn counts_under(alloc: Global, table: &FormulaTable, root: u32) -> Result<Counts, AllocError>
    requires { root < length table.now.nodes }
    ensures count { IfOk result (IsCount (tree_at table.now root)) }
    ensures small { OnOk result (formula_size (tree_at table.now root) ≤ 16384) }
{
    // The table has at most 16,384 nodes, each the child of one at most, so that no tree is larger than that.
    let _nodes = table.len();
    let _size = table.size();
    let mut known = Vec::with_capacity(alloc, root as usize + 1)?;
    for number in 0..root + 1 {
        let count = count_of(table, table.node(number), &known);
        known.push(count)?;
    }
    Ok(known[root as usize])
}

/// What is counted of the formula that a node makes, from what is of its operands.
fn count_of(table: &FormulaTable, node: Node, known: &[Counts]) -> Counts
    requires known { AreCounts table.now known.now }
    requires below { IsFine (length table.now.names) (length known.now) node }
    ensures { IsCount (made table.now.names (trees_of table.now) node) result }
{
    match node {
        Node::Const(_) | Node::Fresh(_) => leaf_count(0),
        Node::Letter(letter) => leaf_count(leading(table.name_of(letter))),
        Node::Unary(op, a) => {
            let a = known[a as usize];
            Counts {
                residue: residue_size(op, a.residue),
                axioms: a.axioms + axioms_size(op, a.residue),
                underscores: a.underscores,
            }
        }
        Node::Binary(op, a, b) => {
            let a = known[a as usize];
            let b = known[b as usize];
            Counts {
                residue: joined_residue_size(op, a.residue, b.residue),
                axioms: a.axioms + b.axioms + joined_axioms_size(op, a.residue, b.residue),
                underscores: a.underscores.max(b.underscores),
            }
        }
    }
}

fn leaf_count(underscores: usize) -> Counts
    ensures { result ≡ record { residue = 1; axioms = 0; underscores = underscores } }
{
    Counts {
        residue: 1,
        axioms: 0,
        underscores,
    }
}

/// How many underscores the name begins with.
fn leading(name: &str) -> usize
    ensures { result ≡ leading name.now }
{
    let mut count = 0;
    for byte in name.as_bytes() {
        if *byte != b'_' {
            return count;
        }
        count += 1;
    }
    count
}

fn residue_size(op: UnaryOp, operand: u32) -> u32
    requires { operand ≤ 32768 }
    ensures { result ≡ residue_size₁ op operand }
{
    match op {
        UnaryOp::Yesterday | UnaryOp::WeakYesterday | UnaryOp::Once | UnaryOp::Historically => 1,
        UnaryOp::YesterdayTimes(n) => step_size(n, operand),
        UnaryOp::OnceIn(first, last) | UnaryOp::HistoricallyIn(first, last) => {
            range_size(first, last, operand)
        }
        _ => operand + op.size(),
    }
}

fn step_size(step: u8, operand: u32) -> u32
    ensures { result ≡ step_size step operand }
{
    if step == 0 { operand } else { 1 }
}

fn range_size(first: u8, last: u8, operand: u32) -> u32
    requires { operand ≤ 32768 }
    ensures { result ≡ range_size first last operand }
{
    if last < first {
        return 1;
    }
    step_size(first, operand) + 2 * (last - first) as u32
}

fn joined_residue_size(op: BinaryOp, first: u32, second: u32) -> u32
    requires { first + second ≤ 65536 }
    ensures { result ≡ residue_size₂ op first second }
{
    match op {
        BinaryOp::Since | BinaryOp::Trigger => 1,
        _ => first + second + 1,
    }
}

fn axioms_size(op: UnaryOp, operand: u32) -> u32
    requires { operand ≤ 32768 }
    ensures size { result ≡ axioms_size₁ op operand }
    ensures few { result ≤ 98323 }
{
    match op {
        UnaryOp::Yesterday => 14 + 2 * operand,
        UnaryOp::WeakYesterday => 13 + 2 * operand,
        UnaryOp::Once | UnaryOp::Historically => 19 + 3 * operand,
        UnaryOp::YesterdayTimes(n) | UnaryOp::OnceIn(_, n) => chain_size(14, n, operand),
        UnaryOp::HistoricallyIn(_, n) => chain_size(13, n, operand),
        _ => 0,
    }
}

fn chain_size(each: u32, count: u8, operand: u32) -> u32
    requires each { each ≤ 14 }
    requires operand { operand ≤ 32768 }
    ensures size { result ≡ chain_size each count operand }
    ensures few { result ≤ 98323 }
{
    if count == 0 {
        return 0;
    }
    each * count as u32 + 2 * operand + 2 * (count as u32 - 1)
}

fn joined_axioms_size(op: BinaryOp, first: u32, second: u32) -> u32
    requires { first + second ≤ 65536 }
    ensures size { result ≡ axioms_size₂ op first second }
    ensures few { result ≤ 196626 }
{
    match op {
        BinaryOp::Since | BinaryOp::Trigger => 18 + first + 3 * second,
        _ => 0,
    }
}
