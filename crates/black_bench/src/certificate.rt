// How a certificate is checked. The text is a formula in the first line, any second line, and the
// certificate.
ghost use Rattle.std.specs.Prelude.{◌≤◌, length};

use crate::formula::formula_of;
use cert_check::{Verdict, check};
use ltl_io::{NoGate, Source, read_whole};
use ltl_syntax::Kind;
use std::alloc::Global;
use std::thread::Threads;

/// The place of the newline that ends the line in which `at` stands, or the end.
fn line_end(bytes: &[u8], at: usize) -> usize
    requires { at ≤ length bytes.now }
    ensures { result ≤ length bytes.now }
{
    for end in at..bytes.len() {
        if bytes[end] == b'\n' {
            return end;
        }
    }
    bytes.len()
}

/// What stands behind the newline at this place, if there is one.
fn behind(bytes: &[u8], end: usize) -> &[u8]
    requires { end ≤ length bytes.now }
{
    if end == bytes.len() {
        return &bytes[end..];
    }
    &bytes[end + 1..]
}

/// Whether the certificate is verified, or the status of a refusal.
pub(crate) fn check_certificate<R: Threads + Sync, S: Source>(
    rt: &R,
    alloc: Global,
    source: &mut S,
    workers: u32,
) -> Result<bool, u8>
    requires some { 1 ≤ workers }
    requires few { workers ≤ 16 }
{
    let Ok(text) = read_whole(alloc, source, usize::MAX) else {
        return Err(5);
    };
    let end = line_end(&text, 0);
    let (table, root) = formula_of(alloc, &text[..end])?;
    let second = behind(&text, end);
    let bytes = behind(second, line_end(second, 0));
    match check(
        rt,
        alloc,
        &table,
        root,
        Kind::Infinite,
        bytes,
        workers,
        &NoGate,
    ) {
        Ok(Verdict::Verified) => Ok(true),
        Ok(Verdict::Rejected(_)) => Ok(false),
        Err(_) => Err(3),
    }
}
