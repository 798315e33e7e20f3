// A formula as a row of symbols: each node without its operands, behind those of its operands. A
// part of a formula is a piece of the row, so that it is copied as it stands.
use ltl_syntax::{BinaryOp, UnaryOp};

#[derive(Clone, Copy, Debug, PartialEq, Eq)]
pub enum Symbol {
    Const(bool),
    /// A letter of the formula, by the number of its name.
    Old(u32),
    /// A fresh letter of the formula.
    Fresh(u32),
    /// A new name, by its number.
    New(u32),
    Unary(UnaryOp),
    Binary(BinaryOp),
}
