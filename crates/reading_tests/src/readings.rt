ghost use Rattle.std.specs.Prelude.{length, ◌≤◌};

use ltl_lexer::{LexRefused, tokens};
use ltl_parser::{ParseRefused, parse};
use ltl_syntax::print;
use std::alloc::Global;
use std::process::Abort;

#[derive(Clone, Copy, Debug, PartialEq, Eq)]
enum Refused {
    Lexical(u32),
    Grammar(u32),
    Nodes(u32),
    NoMemory,
}

/// The printed text of the formula that a text reads as.
fn shown(alloc: Global, text: &[u8]) -> Result<Vec<u8>, Refused>
    requires { length text.now ≤ 1048576 }
{
    let found = match tokens(alloc, text) {
        Ok(found) => found,
        Err(LexRefused::Lexical(byte)) => return Err(Refused::Lexical(byte)),
        Err(LexRefused::NoMemory) => return Err(Refused::NoMemory),
    };
    match parse(alloc, text, &found) {
        Ok((table, root)) => match print(alloc, &table, root) {
            Ok(text) => Ok(text),
            Err(_) => Err(Refused::NoMemory),
        },
        Err(ParseRefused::Grammar(byte)) => Err(Refused::Grammar(byte)),
        Err(ParseRefused::Nodes(nodes)) => Err(Refused::Nodes(nodes)),
        Err(ParseRefused::NoMemory) => Err(Refused::NoMemory),
    }
}

fn is_refused(rt: &impl Abort, found: Result<Vec<u8>, Refused>, wanted: Refused) {
    match found {
        Err(refused) => assert_eq!(rt; refused, wanted),
        Ok(_) => assert_eq!(rt; None, Some(wanted)),
    }
}

#[test]
fn groups(rt: HostRuntime) {
    let texts: [(&[u8], &[u8]); 14] = [
        (
            b"a U b U c & d | e -> f -> g <-> h",
            b"(((((a U (b U c)) & d) | e) -> (f -> g)) <-> h)",
        ),
        (b"!a S b", b"(!a S b)"),
        (b"G F(a&b)", b"G F (a & b)"),
        (b"p|q||r", b"((p | q) | r)"),
        (b"p&q&&r", b"((p & q) & r)"),
        (b"p -> q => r", b"(p -> (q -> r))"),
        (b"p <-> q<=>r", b"((p <-> q) <-> r)"),
        (b"p R q W r M s T t", b"(p R (q W (r M (s T t))))"),
        (b"X p U wX q", b"(X p U wX q)"),
        (b"Xp & wX w", b"(Xp & wX w)"),
        (b"Y Z O H((True))", b"Y Z O H true"),
        (b"\xc3\xa9 && ~\xc3\xa9", b"(\xc3\xa9 & !\xc3\xa9)"),
        (
            b"X[2]a U Y[0]b & F[0,255]G[7,7](c)",
            b"((X[2] a U Y[0] b) & F[0,255] G[7,7] c)",
        ),
        (b"O[1,30]H[0,0]!p", b"O[1,30] H[0,0] !p"),
    ];
    for (text, wanted) in texts {
        assert!(rt; text.len() < 100);
        let found = shown(rt.alloc(), text).expect(&rt, "a formula");
        assert!(rt; found.as_slice() == wanted);
    }
}

#[test]
fn first_faults(rt: HostRuntime) {
    let texts: [(&[u8], Refused); 15] = [
        (b"", Refused::Grammar(0)),
        (b"p &", Refused::Grammar(3)),
        (b"(p", Refused::Grammar(2)),
        (b"p)", Refused::Grammar(1)),
        (b"p) q", Refused::Grammar(1)),
        (b"p q", Refused::Grammar(2)),
        (b"()", Refused::Grammar(1)),
        (b"p & | q", Refused::Grammar(4)),
        (b"U p", Refused::Grammar(0)),
        (b"p $ q", Refused::Lexical(2)),
        (b"p) $", Refused::Lexical(3)),
        (b"p\xff", Refused::Lexical(1)),
        (b"p X[2] q", Refused::Grammar(2)),
        (b"X[2]", Refused::Grammar(4)),
        (b"X[256] p", Refused::Lexical(1)),
    ];
    for (text, wanted) in texts {
        assert!(rt; text.len() < 100);
        is_refused(&rt, shown(rt.alloc(), text), wanted);
    }
}

/// A number of negations of one letter.
fn negations(rt: &impl Abort, alloc: Global, count: u32) -> Vec<u8> {
    let mut text = Vec::new(alloc);
    for _ in 0..count {
        text.push(b'!').expect(rt, "memory");
    }
    text.push(b'p').expect(rt, "memory");
    text
}

#[test]
fn counts_nodes(rt: HostRuntime) {
    let most = negations(&rt, rt.alloc(), 16_383);
    assert!(rt; most.len() < 20_000);
    let found = shown(rt.alloc(), &most).expect(&rt, "a formula");
    assert!(rt; found.as_slice() == most.as_slice());
    let more = negations(&rt, rt.alloc(), 16_384);
    assert!(rt; more.len() < 20_000);
    is_refused(&rt, shown(rt.alloc(), &more), Refused::Nodes(16_385));
}

/// `count` bounded operators of size 255, and a letter behind a number of negations.
fn far_next(rt: &impl Abort, alloc: Global, count: u32, negations: u32) -> Vec<u8> {
    let mut text = Vec::new(alloc);
    for _ in 0..count {
        text.extend_from_slice(b"X[255] ").expect(rt, "memory");
    }
    for _ in 0..negations {
        text.push(b'!').expect(rt, "memory");
    }
    text.push(b'p').expect(rt, "memory");
    text
}

#[test]
fn counts_sizes(rt: HostRuntime) {
    let many = far_next(&rt, rt.alloc(), 65, 0);
    assert!(rt; many.len() < 20_000);
    is_refused(&rt, shown(rt.alloc(), &many), Refused::Nodes(16_576));
    let most = far_next(&rt, rt.alloc(), 64, 63);
    assert!(rt; most.len() < 20_000);
    let found = shown(rt.alloc(), &most).expect(&rt, "a formula");
    assert!(rt; found.as_slice() == most.as_slice());
    let more = far_next(&rt, rt.alloc(), 64, 64);
    assert!(rt; more.len() < 20_000);
    is_refused(&rt, shown(rt.alloc(), &more), Refused::Nodes(16_385));
}
