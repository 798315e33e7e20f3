// The form of a long text, by several workers. Behind the header the text is cut behind newlines, and each
// worker goes over a piece. Where each piece but the last one comes to where a part may begin, and the last
// one to the end, the pieces are one text. Otherwise the pass over the whole text tells what is wrong.
ghost use Rattle.std.specs.Prelude.{◌≡◌, ℕ, ◌<◌, ◌≤◌, [], Err, IsTrue, length, take};
ghost use Rattle.std.specs.Prelude.{slice_index_or, IfOk, IfSome};
ghost use Rattle.cert_text.specs.Text.{Certificate, IsTextOf, IsFormFault};
ghost use Rattle.cert_text.specs.Shape.{form_of};
ghost use Rattle.cert_text.specs.Passes.{LeadsTo, IsPassed, with_lines};
ghost use Rattle.cert_text.specs.declared.scanning.Place.TheVariants as places;
ghost use Rattle.cert_text.specs.declared.passing.Piece.{Piece};
ghost use Rattle.cert_text.specs.declared.refused.CertRefused.TheVariants as refusals;

use crate::CertRefused;
use crate::finding::find;
use crate::glance::Form;
use crate::passing::{Piece, pass, pass_piece};
use crate::scanning::{Head, Place, form};
use std::alloc::{AllocError, Global};
use std::thread;
use std::thread::Threads;

/// The place behind the first newline from `at` on, or the end.
fn line_end(bytes: &[u8], at: usize) -> usize
    requires { at ≤ length bytes.now }
    ensures from { at ≤ result }
    ensures within { result ≤ length bytes.now }
{
    let end = find(bytes, at, b'\n');
    if end < bytes.len() { end + 1 } else { end }
}

/// What the header says, which ends before `start`.
fn header(bytes: &[u8], start: usize) -> Option<Head>
    requires { start ≤ length bytes.now }
    ensures led { IfSome result (λ head. LeadsTo (take start bytes.now) [] (places.Part head)) }
    ensures none { IfSome result (λ head. head.lines ≡ 0) }
{
    match pass(&bytes[..start], b"ltlcert ", Place::Version) {
        Some(Place::Part(head)) if head.lines == 0 => Some(head),
        _ => None,
    }
}

/// The pieces behind `start`, one for each worker, each with its share of the bytes and up to the end of a
/// line. What is made of them is right however they are cut.
fn cut(alloc: Global, bytes: &[u8], start: usize, workers: usize) -> Result<Vec<Piece>, AllocError>
    requires start { start ≤ length bytes.now }
    requires some { 1 ≤ workers }
{
    let size = bytes.len() / workers;
    let mut pieces = Vec::new(alloc);
    let mut from = start;
    'pieces: for _piece in 0..workers {
        let left = bytes.len() - from;
        let to = line_end(bytes, from + size.min(left));
        pieces.push(Piece {
            from,
            to,
            came: None,
        })?;
        from = to;
    }
    Ok(pieces)
}

/// Goes over the pieces, each in a thread of its own where one can be made.
fn pass_pieces<R: Threads + Sync>(
    rt: &R,
    bytes: &[u8],
    head: Head,
    start: usize,
    pieces: &mut Vec<Piece>,
    workers: usize,
)
    requires start { start ≤ length bytes.now }
    requires led { LeadsTo (take start bytes.now) [] (places.Part head) }
    requires some { 1 ≤ workers }
    ensures { (i : ℕ) (d : Piece) → i < length pieces.new.items →
        IsPassed bytes.now head (slice_index_or pieces.new.items i d) }
{
    thread::for_each_mut(
        rt,
        pieces.as_mut_slice(),
        workers,
        &|_index, piece| { pass_piece(bytes, head, start, piece) },
    );
}

/// Whether what stands before a place is said under this header, with no target yet.
fn is_under(found: Head, head: Head) -> bool
    ensures { IsTrue result → found ≡ with_lines head found.lines }
{
    found.version == head.version
        && found.kind == head.kind
        && found.depth == head.depth
        && found.targets == head.targets
}

/// What the text says at a glance, where the pieces follow one another from `start` to the end and are one
/// text.
fn joined(bytes: &[u8], head: Head, start: usize, pieces: &Vec<Piece>) -> Option<Form>
    requires start { start ≤ length bytes.now }
    requires led { LeadsTo (take start bytes.now) [] (places.Part head) }
    requires none { head.lines ≡ 0 }
    requires passed { (i : ℕ) (d : Piece) → i < length pieces.now.items →
        IsPassed bytes.now head (slice_index_or pieces.now.items i d) }
    ensures { IfSome result (λ f. (c : Certificate) × IsTextOf bytes.now c × (f ≡ form_of c)) }
{
    let mut at = start;
    let mut lines: u64 = 0;
    'pieces: for index in 0..pieces.len() {
        let piece = pieces[index];
        if piece.from != at || piece.to < at || piece.to > bytes.len() {
            return None;
        }
        match piece.came {
            Some(Place::Part(found)) if is_under(found, head) => {
                lines += found.lines;
                at = piece.to;
            }
            Some(Place::End(found)) if piece.to == bytes.len() => {
                return Some(Form {
                    version: found.version,
                    kind: found.kind,
                    depth: found.depth,
                    lines: lines + found.lines,
                });
            }
            _ => return None,
        }
    }
    None
}

/// The same as `form`, by this number of workers.
pub fn form_by<R: Threads + Sync>(
    rt: &R,
    alloc: Global,
    bytes: &[u8],
    workers: usize,
) -> Result<Form, CertRefused>
    requires some { 1 ≤ workers }
    ensures ok { IfOk result (λ f. (c : Certificate) × IsTextOf bytes.now c × (f ≡ form_of c)) }
    ensures form { (b : ℕ) → result ≡ Err (refusals.Form b) → IsFormFault bytes.now b }
{
    let start = line_end(bytes, 0);
    if let Some(head) = header(bytes, start) {
        let mut pieces = cut(alloc, bytes, start, workers)?;
        pass_pieces(rt, bytes, head, start, &mut pieces, workers);
        if let Some(said) = joined(bytes, head, start, &pieces) {
            return Ok(said);
        }
    }
    match form(bytes) {
        Ok(said) => Ok(said),
        Err(byte) => Err(CertRefused::Form(byte)),
    }
}
