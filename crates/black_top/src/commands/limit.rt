// The depth up to which a formula is decided: that which was asked for, or the limit in force where none was.
ghost use Rattle.std.specs.Prelude.{◌≤◌, IfOk, IfErr};
ghost use Rattle.enc_layout.specs.Letters.{Fits};
ghost use Rattle.enc_layout.specs.Clauses.{layout_of};
ghost use Rattle.command_words.specs.Asked.{IsDepth};
ghost use Rattle.black_top.specs.Inner.{IsLimit, IsTooDeep};

use ltl_closure::Closure;
use unravel::limit_in_force;

/// The depth up to which a command goes where none is asked for.
pub const DEFAULT_DEPTH: u32 = 64;

/// The limit in force. Where a depth is asked for whose letters are too many, it is an error with the
/// greatest depth up to it that has few enough.
pub fn limit_for(closure: &Closure<'_>, wanted: Option<u32>) -> Result<u32, u32>
    requires { IsDepth wanted }
    ensures ok { IfOk result (IsLimit closure.now.formula closure.now.kind wanted) }
    ensures few { IfOk result (λ limit. limit ≤ 1000) }
    ensures fits { IfOk result (Fits (layout_of closure.now)) }
    ensures err { IfErr result (IsTooDeep closure.now.formula closure.now.kind wanted) }
{
    match wanted {
        None => Ok(limit_in_force(closure, DEFAULT_DEPTH)),
        Some(number) => {
            let limit = limit_in_force(closure, number);
            if limit < number {
                Err(limit)
            } else {
                Ok(limit)
            }
        }
    }
}
