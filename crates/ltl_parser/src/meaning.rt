// What a token says to the grammar, apart from the bytes of a name.
ghost use Rattle.std.specs.Prelude.{◌≡◌, ℕ, List};
ghost use Rattle.ltl_lexer.specs.declared.token.TokenKind.TheVariants as kinds;
ghost use Rattle.ltl_parser.specs.Text.{symbol, unary_op, binary_op};
ghost use Rattle.ltl_parser.specs.Standing.{symbol_meant};

use ltl_lexer::{BinaryWord, TokenKind, UnaryWord};
use ltl_syntax::{BinaryOp, UnaryOp};

#[derive(Clone, Copy, Debug, PartialEq, Eq)]
pub enum Meaning {
    Constant(bool),
    Name,
    Prefix(UnaryOp),
    Infix(BinaryOp),
    Open,
    Close,
}

fn unary_op(word: UnaryWord) -> UnaryOp
    ensures { result ≡ unary_op word }
{
    match word {
        UnaryWord::X => UnaryOp::Next,
        UnaryWord::WX => UnaryOp::WeakNext,
        UnaryWord::F => UnaryOp::Eventually,
        UnaryWord::G => UnaryOp::Always,
        UnaryWord::Y => UnaryOp::Yesterday,
        UnaryWord::Z => UnaryOp::WeakYesterday,
        UnaryWord::O => UnaryOp::Once,
        UnaryWord::H => UnaryOp::Historically,
        UnaryWord::XTimes(n) => UnaryOp::NextTimes(n),
        UnaryWord::YTimes(n) => UnaryOp::YesterdayTimes(n),
        UnaryWord::FIn(a, b) => UnaryOp::EventuallyIn(a, b),
        UnaryWord::GIn(a, b) => UnaryOp::AlwaysIn(a, b),
        UnaryWord::OIn(a, b) => UnaryOp::OnceIn(a, b),
        UnaryWord::HIn(a, b) => UnaryOp::HistoricallyIn(a, b),
    }
}

fn binary_op(word: BinaryWord) -> BinaryOp
    ensures { result ≡ binary_op word }
{
    match word {
        BinaryWord::U => BinaryOp::Until,
        BinaryWord::R => BinaryOp::Release,
        BinaryWord::W => BinaryOp::WeakUntil,
        BinaryWord::M => BinaryOp::StrongRelease,
        BinaryWord::S => BinaryOp::Since,
        BinaryWord::T => BinaryOp::Trigger,
    }
}

pub fn meant(kind: TokenKind) -> Meaning
    ensures symbol { (bytes : List ℕ) → symbol kind bytes ≡ symbol_meant result bytes }
    ensures name { result ≡ Meaning.Name → kind ≡ kinds.Identifier }
{
    match kind {
        TokenKind::True => Meaning::Constant(true),
        TokenKind::False => Meaning::Constant(false),
        TokenKind::Not => Meaning::Prefix(UnaryOp::Not),
        TokenKind::And => Meaning::Infix(BinaryOp::And),
        TokenKind::Or => Meaning::Infix(BinaryOp::Or),
        TokenKind::Implies => Meaning::Infix(BinaryOp::Implies),
        TokenKind::Iff => Meaning::Infix(BinaryOp::Iff),
        TokenKind::OpenParen => Meaning::Open,
        TokenKind::CloseParen => Meaning::Close,
        TokenKind::Unary(word) => Meaning::Prefix(unary_op(word)),
        TokenKind::Binary(word) => Meaning::Infix(binary_op(word)),
        TokenKind::Identifier => Meaning::Name,
    }
}
