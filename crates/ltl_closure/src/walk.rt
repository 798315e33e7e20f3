// The walk over nodes and signs. It keeps a stack of what is still to be done and a stack of the numbers of
// what is done, so it never builds the tree of the normal form, which grows exponentially with the depth of
// `<->`.
ghost use Rattle.std.specs.Prelude.{◌≡◌, ℕ, ◌<◌, ◌≤◌, List, ◌∷◌, length, reverse, IfOk, OnOk};
ghost use Rattle.ltl_syntax.specs.Table.{tree_at};
ghost use Rattle.ltl_closure.specs.Norm.{pos_of};
ghost use Rattle.ltl_closure.specs.Closure.{closure};
ghost use Rattle.ltl_closure.specs.Entries.{place_in, AreEntries};
ghost use Rattle.ltl_closure.specs.Plan.{weights};
ghost use Rattle.ltl_closure.specs.Walking.{IsAt, letter_work, Puts};

use crate::Entry;
use crate::key::Key;
use crate::memo::Memo;
use crate::plan::{Work, plan_binary, plan_unary};
use crate::shared::Shared;
use ltl_syntax::{FormulaTable, Node};
use std::alloc::{AllocError, Global};

#[derive(Drop)]
pub struct Walk {
    root: u32,
    shared: Shared,
    numbers: Vec<u32>,
    memo: Memo,
    work: Vec<Work>,
}

/// The entries of a closure, and the number of its root.
#[derive(Drop)]
pub struct Walked {
    pub entries: Vec<Entry>,
    pub root: u32,
}

/// Walks the normal form of a node's tree.
pub fn walk_from(alloc: Global, table: &FormulaTable, root: u32) -> Result<Walked, AllocError>
    requires { root < length table.now.nodes }
    ensures entries { IfOk result (λ walked. AreEntries table.now.names
        (tree_at table.now root) walked.entries.items) }
    ensures few { IfOk result (λ walked. length walked.entries.items ≤ 98306) }
    ensures root { IfOk result (λ walked. walked.root ≡ place_in (closure (tree_at table.now root))
        (pos_of (tree_at table.now root))) }
{
    let mut walk = Walk::start(alloc, table, root)?;
    while let Some(work) = walk.work.pop() {
        walk.step(table, work)?;
    }
    let root = pop_number(&mut walk.numbers);
    Ok(Walked {
        entries: walk.shared.entries,
        root,
    })
}

impl Walk {
    fn start(alloc: Global, table: &FormulaTable, root: u32) -> Result<Walk, AllocError>
        requires { root < length table.now.nodes }
        ensures at { IfOk result (λ walk. IsAt table.now walk (reverse walk.work.items)) }
        ensures root { IfOk result (λ walk. walk.root ≡ root) }
    {
        // No two names are the same: so a letter has one key.
        let _letters = table.letters();
        let _size = table.size();
        let mut work = Vec::new(alloc);
        work.push(Work::Visit(root, true))?;
        Ok(Walk {
            root,
            shared: Shared::new(alloc),
            numbers: Vec::new(alloc),
            memo: Memo::new(alloc, table.len() as usize)?,
            work,
        })
    }

    fn step(&mut self, table: &FormulaTable, work: Work) -> Result<(), AllocError>
        requires { IsAt table.now self.old (work ∷ reverse self.old.work.items) }
        ensures at { OnOk result (IsAt table.now self.new (reverse self.new.work.items)) }
        ensures root { OnOk result (self.new.root ≡ self.old.root) }
        ensures less { OnOk result (weights table.now (reverse self.new.work.items)
            < weights table.now (work ∷ reverse self.old.work.items)) }
    {
        match work {
            Work::Visit(node, positive) => self.visit(table, node, positive),
            Work::Const(value) => self.put(Key::Const(value)),
            Work::Ask(request) => {
                let argument = pop_number(&mut self.numbers);
                self.put(Key::Asks(request, argument))
            }
            Work::Join(connective) => {
                let right = pop_number(&mut self.numbers);
                let left = pop_number(&mut self.numbers);
                self.put(Key::Joins(connective, left, right))
            }
            Work::Negate => {
                let letter = pop_number(&mut self.numbers);
                self.put(Key::NotLetter(letter))
            }
            Work::Keep(node, positive) => {
                let number = last_number(&self.numbers);
                self.memo.set(node, positive, number);
                Ok(())
            }
        }
    }

    /// Gives the number that is known of the node and the sign, or else plans what makes it.
    fn visit(&mut self, table: &FormulaTable, node: u32, positive: bool) -> Result<(), AllocError>
        requires { IsAt table.now self.old (Work.Visit node positive ∷ reverse self.old.work.items) }
        ensures at { OnOk result (IsAt table.now self.new (reverse self.new.work.items)) }
        ensures root { OnOk result (self.new.root ≡ self.old.root) }
        ensures less { OnOk result (weights table.now (reverse self.new.work.items)
            < weights table.now (Work.Visit node positive ∷ reverse self.old.work.items)) }
    {
        let known = self.memo.get(node, positive);
        if known != 0 {
            self.numbers.push(known)?;
            return Ok(());
        }
        match table.node(node) {
            Node::Const(value) => self.put(Key::Const(value == positive)),
            Node::Letter(letter) => self.put_letter(Key::Letter(letter), positive),
            Node::Fresh(letter) => self.put_letter(Key::Fresh(letter), positive),
            Node::Unary(op, a) => {
                self.work.push(Work::Keep(node, positive))?;
                plan_unary(&mut self.work, op, a, positive)
            }
            Node::Binary(op, a, b) => {
                self.work.push(Work::Keep(node, positive))?;
                plan_binary(&mut self.work, op, a, b, positive)
            }
        }
    }

    /// Puts a letter, and plans its negation where that is what is walked.
    fn put_letter(&mut self, key: Key, positive: bool) -> Result<(), AllocError>
        requires { length self.old.shared.keys.keys ≤ 98306 }
        ensures { OnOk result (Puts self.old key (letter_work positive (reverse self.old.work.items))
            self.new) }
    {
        self.put(key)?;
        if !positive {
            self.work.push(Work::Negate)?;
        }
        Ok(())
    }

    fn put(&mut self, key: Key) -> Result<(), AllocError>
        requires { length self.old.shared.keys.keys ≤ 98306 }
        ensures { OnOk result (Puts self.old key (reverse self.old.work.items) self.new) }
    {
        let number = self.shared.enter(key)?;
        self.numbers.push(number)?;
        Ok(())
    }
}

/// Takes the last number.
fn pop_number(numbers: &mut Vec<u32>) -> u32
    requires { 0 < length (reverse numbers.old.items) }
    ensures { reverse numbers.old.items ≡ result ∷ reverse numbers.new.items }
{
    let Some(number) = numbers.pop() else {
        unreachable!()
    };
    number
}

fn last_number(numbers: &Vec<u32>) -> u32
    requires { 0 < length (reverse numbers.now.items) }
    ensures { (rest : List ℕ) × (reverse numbers.now.items ≡ result ∷ rest) }
{
    let Some(number) = numbers.last() else {
        unreachable!()
    };
    *number
}
