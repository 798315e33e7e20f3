// A token: what kind it is, and where it stands in its text.

/// The words that stand before one operand, and those that take numbers: `XTimes(n)` is `X[n]`, and `FIn(a,
/// b)` is `F[a,b]`.
#[derive(Clone, Copy, PartialEq, Eq, Debug, Drop)]
pub enum UnaryWord {
    X,
    WX,
    F,
    G,
    Y,
    Z,
    O,
    H,
    XTimes(u8),
    YTimes(u8),
    FIn(u8, u8),
    GIn(u8, u8),
    OIn(u8, u8),
    HIn(u8, u8),
}

/// The reserved words that stand between two operands.
#[derive(Clone, Copy, PartialEq, Eq, Debug, Drop)]
pub enum BinaryWord {
    U,
    R,
    W,
    M,
    S,
    T,
}

/// What a token is. Several spellings may be one kind, as `&` and `&&`.
#[derive(Clone, Copy, PartialEq, Eq, Debug, Drop)]
pub enum TokenKind {
    True,
    False,
    Not,
    And,
    Or,
    Implies,
    Iff,
    OpenParen,
    CloseParen,
    Unary(UnaryWord),
    Binary(BinaryWord),
    Identifier,
}

/// A part of a text: its bytes from `start`, counted from 0, up to `end`, which is not included.
#[derive(Clone, Copy, PartialEq, Eq, Debug, Drop)]
pub struct Token {
    pub kind: TokenKind,
    pub start: u32,
    pub end: u32,
}
