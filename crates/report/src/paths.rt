// The texts of the answers on a system: about all of its paths, or one of them.
ghost use Rattle.std.specs.Prelude.{◌≡◌, ◌++◌, Ok, OnOk, None};
ghost use Rattle.ltl_word.specs.Trace.{IsTrace};
ghost use Rattle.ltl_word.specs.Json.{IsReading, trace_text};
ghost use Rattle.report.specs.Texts.{no_path_text, paths_hold_text, paths_hold_lines, path_fails_text};

use crate::lines::{line, numbered};
use ltl_word::Trace;
use std::alloc::{AllocError, Global};

/// Adds NO PATH at the depth.
pub fn no_path(depth: u32, out: &mut Vec<u8>) -> Result<(), AllocError>
    ensures { OnOk result (out.new.items ≡ out.old.items ++ no_path_text depth) }
{
    numbered(b"NO PATH ", depth.into(), out)
}

/// Adds HOLDS at the depth.
pub fn paths_hold(depth: u32, out: &mut Vec<u8>) -> Result<(), AllocError>
    ensures { OnOk result (out.new.items ≡ out.old.items ++ paths_hold_text depth None) }
{
    numbered(b"HOLDS ", depth.into(), out)
}

/// Adds HOLDS at the depth, with a printed formula, which has no newline. The text of its certificate is put
/// behind these lines as it is.
pub fn paths_hold_by(depth: u32, formula: &[u8], out: &mut Vec<u8>) -> Result<(), AllocError>
    ensures { OnOk result (out.new.items ≡ out.old.items ++ paths_hold_lines depth formula.now) }
{
    numbered(b"HOLDS ", depth.into(), out)?;
    out.extend_from_slice(b"formula ")?;
    line(formula, out)
}

/// Adds FAILS at the depth, and the path.
pub fn path_fails(
    alloc: Global,
    depth: u32,
    path: &Trace,
    out: &mut Vec<u8>,
) -> Result<(), AllocError>
    ensures text { OnOk result (out.new.items ≡ out.old.items ++ path_fails_text depth path.now) }
    // What stands behind the depth reads back as the path.
    ensures reads { OnOk result (IsTrace path.now → IsReading (trace_text path.now) (Ok path.now)) }
{
    let json = path.to_json(alloc)?;
    numbered(b"FAILS ", depth.into(), out)?;
    line(&json, out)
}
