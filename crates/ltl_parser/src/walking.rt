// The walk over the tokens, which finds a grammar fault and adds up the sizes. It keeps only whether an
// operand is wanted next, and how many parentheses are open.
ghost use Rattle.std.specs.Prelude.{◌≡◌, ◌+◌, ◌<◌, ◌≤◌, ◌^◌, ◌∷◌, ℕ, List, length, MatchOption, MatchResult};
ghost use Rattle.std.specs.Prelude.{None, Some};
ghost use Rattle.ltl_parser.specs.Grammar.{Symbol, fault, walk, later, node_count, weight};
ghost use Rattle.ltl_parser.specs.Text.{symbols};
ghost use Rattle.ltl_parser.specs.Standing.{symbol_meant, want};

use crate::meaning::{Meaning, meant};
use ltl_lexer::Token;

/// Whether an operand is wanted behind the symbol, and how many parentheses are open there.
fn pass(wanted: bool, depth: u32, meaning: Meaning) -> Option<(bool, u32)>
    requires { depth + 1 < 2 ^ 32 }
    ensures { MatchOption result
        ((bytes : List ℕ) (rest : List Symbol) → walk (want wanted) depth (symbol_meant meaning bytes ∷ rest)
        ≡ Some 0)
        (λ r. ((bytes : List ℕ) (rest : List Symbol) → walk (want wanted) depth
        (symbol_meant meaning bytes ∷ rest) ≡ later (walk (want r.0) r.1 rest)) × (r.1 ≤ depth + 1)) }
{
    match meaning {
        Meaning::Constant(_) | Meaning::Name if wanted => Some((false, depth)),
        Meaning::Prefix(_) if wanted => Some((true, depth)),
        Meaning::Open if wanted => Some((true, depth + 1)),
        Meaning::Infix(_) if !wanted => Some((true, depth)),
        Meaning::Close if !wanted && depth > 0 => Some((false, depth - 1)),
        _ => None,
    }
}

fn weight(meaning: Meaning) -> u32
    ensures value { (bytes : List ℕ) → weight (symbol_meant meaning bytes) ≡ result }
    ensures small { result ≤ 255 }
{
    match meaning {
        Meaning::Open | Meaning::Close => 0,
        Meaning::Prefix(op) => op.size(),
        _ => 1,
    }
}

/// The sum of the sizes, or how many tokens stand before the faulty one.
pub fn walk(tokens: &[Token]) -> Result<u32, usize>
    requires { length tokens.now ≤ 1048576 }
    ensures { (text : List ℕ) → MatchResult result
        (λ n. (fault (symbols text tokens.now) ≡ None) × (n ≡ node_count (symbols text tokens.now)))
        (λ i. (fault (symbols text tokens.now) ≡ Some i) × (i ≤ length tokens.now)) }
{
    let mut wanted = true;
    let mut depth = 0;
    let mut nodes = 0;
    for (i, token) in tokens.iter().enumerate() {
        let meaning = meant(token.kind);
        let Some((next, still_open)) = pass(wanted, depth, meaning) else {
            return Err(i);
        };
        wanted = next;
        depth = still_open;
        nodes += weight(meaning);
    }
    if wanted || depth > 0 {
        return Err(tokens.len());
    }
    Ok(nodes)
}
