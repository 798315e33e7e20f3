// What a formula is made of: constants, letters, and the operators over one and over two formulas.
ghost use Rattle.std.specs.Prelude.{◌≡◌, ◌≤◌, ◌↔◌, IsTrue};
ghost use Rattle.ltl_syntax.specs.Size.{operator_size, node_size, IsInOrder};

/// What the formula is asked about: infinite traces, which are a stem and a loop that repeats, or finite
/// ones.
#[derive(Clone, Copy, Debug, PartialEq, Eq, Hash)]
pub enum Kind {
    Infinite,
    Finite,
}

/// An operator over one formula. `Next` wants a next position and `WeakNext` does not, and so `Yesterday` and
/// `WeakYesterday` towards the past. `Once` and `Historically` are `Eventually` and `Always` of the past.
///
/// `NextTimes(n)` and `YesterdayTimes(n)` look n positions on and back. `EventuallyIn(a, b)` and `AlwaysIn(a,
/// b)` look at the positions that are a to b later, `OnceIn(a, b)` and `HistoricallyIn(a, b)` at those that
/// are a to b earlier.
#[derive(Clone, Copy, Debug, PartialEq, Eq, Hash)]
pub enum UnaryOp {
    Not,
    Next,
    WeakNext,
    Eventually,
    Always,
    Yesterday,
    WeakYesterday,
    Once,
    Historically,
    NextTimes(u8),
    YesterdayTimes(u8),
    EventuallyIn(u8, u8),
    AlwaysIn(u8, u8),
    OnceIn(u8, u8),
    HistoricallyIn(u8, u8),
}

/// An operator over two formulas. `Since` and `Trigger` are `Until` and `Release` of the past.
#[derive(Clone, Copy, Debug, PartialEq, Eq, Hash)]
pub enum BinaryOp {
    And,
    Or,
    Implies,
    Iff,
    Until,
    Release,
    WeakUntil,
    StrongRelease,
    Since,
    Trigger,
}

/// A node of a table. Its children are numbers of nodes, from 0, and the number of `Letter` is that of a
/// name, from 0.
///
/// `Fresh` is a letter with a number in place of a name. It is told apart from each letter that a text can
/// name.
#[derive(Clone, Copy, Debug, PartialEq, Eq, Hash)]
pub enum Node {
    Const(bool),
    Letter(u32),
    Fresh(u32),
    Unary(UnaryOp, u32),
    Binary(BinaryOp, u32, u32),
}

impl UnaryOp {
    /// Whether the operator's first number is not above its second.
    pub fn is_in_order(self) -> bool
        ensures { IsTrue result ↔ IsInOrder self }
    {
        match self {
            UnaryOp::EventuallyIn(a, b)
            | UnaryOp::AlwaysIn(a, b)
            | UnaryOp::OnceIn(a, b)
            | UnaryOp::HistoricallyIn(a, b) => a <= b,
            _ => true,
        }
    }

    /// How much of the limit on a formula's size the operator takes: the last of its numbers, and at least 1.
    pub fn size(self) -> u32
        ensures size { result ≡ operator_size self }
        ensures some { 1 ≤ result }
        ensures few { result ≤ 255 }
    {
        match self {
            UnaryOp::NextTimes(n) | UnaryOp::YesterdayTimes(n) => (n as u32).max(1),
            UnaryOp::EventuallyIn(_, b)
            | UnaryOp::AlwaysIn(_, b)
            | UnaryOp::OnceIn(_, b)
            | UnaryOp::HistoricallyIn(_, b) => (b as u32).max(1),
            _ => 1,
        }
    }
}

impl Node {
    /// How much of the limit on a formula's size the node takes.
    pub fn size(self) -> u32
        ensures size { result ≡ node_size self }
        ensures some { 1 ≤ result }
        ensures few { result ≤ 255 }
    {
        match self {
            Node::Unary(op, _) => op.size(),
            _ => 1,
        }
    }
}
