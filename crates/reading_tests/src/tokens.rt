ghost use Rattle.std.specs.Prelude.{length, ◌≤◌};

use ltl_lexer::{BinaryWord, Cursor, LexFault, LexRefused, Token, TokenKind, UnaryWord, tokens};
use std::alloc::Global;
use std::process::Abort;

fn spells(rt: &impl Abort, alloc: Global, text: &[u8], kinds: &[TokenKind])
    requires { length text.now ≤ 1048576 }
{
    let found = tokens(alloc, text).expect(rt, "tokens");
    assert_eq!(rt; found.len(), kinds.len());
    for (token, kind) in found.iter().zip(kinds) {
        assert_eq!(rt; token.kind, *kind);
    }
}

#[test]
fn kinds(rt: HostRuntime) {
    use TokenKind::*;
    let alloc = rt.alloc();
    spells(
        &rt,
        alloc,
        b"true True false False",
        &[True, True, False, False],
    );
    spells(&rt, alloc, b"! ~ & && | ||", &[Not, Not, And, And, Or, Or]);
    spells(
        &rt,
        alloc,
        b"-> => <-> <=> ( )",
        &[Implies, Implies, Iff, Iff, OpenParen, CloseParen],
    );
    spells(
        &rt,
        alloc,
        b"X wX F G Y Z O H",
        &[
            Unary(UnaryWord::X),
            Unary(UnaryWord::WX),
            Unary(UnaryWord::F),
            Unary(UnaryWord::G),
            Unary(UnaryWord::Y),
            Unary(UnaryWord::Z),
            Unary(UnaryWord::O),
            Unary(UnaryWord::H),
        ],
    );
    spells(
        &rt,
        alloc,
        b"U R W M S T",
        &[
            Binary(BinaryWord::U),
            Binary(BinaryWord::R),
            Binary(BinaryWord::W),
            Binary(BinaryWord::M),
            Binary(BinaryWord::S),
            Binary(BinaryWord::T),
        ],
    );
    spells(&rt, alloc, b"Xp w trues _1 U_", &[Identifier; 5]);
    spells(
        &rt,
        alloc,
        b"G(p)",
        &[Unary(UnaryWord::G), OpenParen, Identifier, CloseParen],
    );
    spells(
        &rt,
        alloc,
        b"p&&&q->~r",
        &[Identifier, And, And, Identifier, Implies, Not, Identifier],
    );
    spells(&rt, alloc, b" \t\r\n", &[]);
}

#[test]
fn bounded_operators(rt: HostRuntime) {
    use TokenKind::*;
    let alloc = rt.alloc();
    spells(
        &rt,
        alloc,
        b"X[2]p Y[0] F[0,5]G[10,99] O[100,100]H[9,255]",
        &[
            Unary(UnaryWord::XTimes(2)),
            Identifier,
            Unary(UnaryWord::YTimes(0)),
            Unary(UnaryWord::FIn(0, 5)),
            Unary(UnaryWord::GIn(10, 99)),
            Unary(UnaryWord::OIn(100, 100)),
            Unary(UnaryWord::HIn(9, 255)),
        ],
    );
}

#[test]
fn no_bounded_operators(rt: HostRuntime) {
    let texts: [(&[u8], u32); 18] = [
        (b"X[256] p", 1),
        (b"F[3,2] p", 1),
        (b"X [2] p", 2),
        (b"X[02]p", 1),
        (b"X[00]p", 1),
        (b"X[1000]p", 1),
        (b"X[]p", 1),
        (b"X[2p", 1),
        (b"X[2", 1),
        (b"X[", 1),
        (b"X[ 2]p", 1),
        (b"X[1,2]p", 1),
        (b"F[2]p", 1),
        (b"F[1, 2]p", 1),
        (b"F[1,2)p", 1),
        (b"F[0,256]p", 1),
        (b"wX[2]p", 2),
        (b"X[2][3]p", 4),
    ];
    for (text, byte) in texts {
        assert!(rt; text.len() < 100);
        match tokens(rt.alloc(), text) {
            Err(refused) => assert_eq!(rt; refused, LexRefused::Lexical(byte)),
            Ok(_) => assert_eq!(rt; None, Some(byte)),
        }
    }
}

#[test]
fn first_faults(rt: HostRuntime) {
    let texts: [(&[u8], u32); 10] = [
        (b"p $ q", 2),
        (b"p) $", 3),
        (b"p\xff", 1),
        (b"p \xc3", 2),
        (b"p - q", 2),
        (b"p = q", 2),
        (b"p <- q", 2),
        (b"1p", 0),
        (b"{0}", 0),
        (b"p\x0bq", 1),
    ];
    for (text, byte) in texts {
        assert!(rt; text.len() < 100);
        match tokens(rt.alloc(), text) {
            Err(refused) => assert_eq!(rt; refused, LexRefused::Lexical(byte)),
            Ok(_) => assert_eq!(rt; None, Some(byte)),
        }
    }
}

#[test]
fn stops_behind_a_fault(rt: HostRuntime) {
    let mut cursor = Cursor::new(b" \xc3\xa9 $ q");
    let word = Token {
        kind: TokenKind::Identifier,
        start: 1,
        end: 3,
    };
    assert_eq!(rt; cursor.next(), Some(Ok(word)));
    assert_eq!(rt; cursor.next(), Some(Err(LexFault { byte: 4 })));
    assert_eq!(rt; cursor.next(), None);
    assert_eq!(rt; cursor.next(), None);
}
