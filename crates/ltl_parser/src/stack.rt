// The stack of what waits for its operand. Clauses see it as a list with the top first.
ghost use Rattle.std.specs.Prelude.{◌≡◌, ◌∷◌, [], List, OnOk, MatchOption};
ghost use Rattle.ltl_parser.specs.declared.stack.Waiting.{Waiting};

use ltl_syntax::{BinaryOp, UnaryOp};
use std::alloc::{AllocFailed, Global};
use std::marker::Model;

/// An open parenthesis, an operator before its operand, or a left operand with its operator.
#[derive(Clone, Copy, Debug, PartialEq, Eq)]
pub enum Waiting {
    Paren,
    Prefix(UnaryOp),
    Infix(u32, BinaryOp),
}

#[derive(Drop)]
pub struct Stack {
    items: Vec<Waiting>,
}

impl Model for Stack {
    ghost use Rattle.std.specs.Prelude.{List, reverse};
    ghost use Rattle.ltl_parser.specs.declared.stack.Waiting.{Waiting};

    ghost Value = { List Waiting };

    ghost view = { λ s. reverse s.items.items };
}

impl Stack {
    pub fn new(alloc: Global) -> Stack
        ensures { result ≡ [] }
    {
        Stack {
            items: Vec::new(alloc),
        }
    }

    pub fn push(&mut self, waiting: Waiting) -> Result<(), AllocFailed<Waiting>>
        ensures { OnOk result (self.new ≡ waiting ∷ self.old) }
    {
        self.items.push(waiting)
    }

    pub fn pop(&mut self) -> Option<Waiting>
        ensures { MatchOption result ((self.old ≡ []) × (self.new ≡ [])) (λ w. self.old ≡ w ∷ self.new) }
    {
        self.items.pop()
    }

    pub fn top(&self) -> Option<Waiting>
        ensures { MatchOption result (self.now ≡ []) (λ w. (rest : List Waiting) × (self.now ≡ w ∷ rest)) }
    {
        self.items.last().copied()
    }
}
