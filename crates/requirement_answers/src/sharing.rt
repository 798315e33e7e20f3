// The further questions, shared out among workers. They are taken in rounds, a few for each worker, so that
// what is told of them before they are asked keeps up with the work. A round is cut into consecutive pieces,
// a worker answers its piece in order, and the pieces' answers are joined in order: so the answers do not
// depend on how many workers there are.
ghost use Rattle.std.specs.Prelude.{◌+◌, ◌≤◌, length, All, IfOk};
ghost use Rattle.requirement_document.specs.Values.{document_in};
ghost use Rattle.requirement_answers.specs.Inner.{AreItems, IsAbout, AreReplies, AreJoined};

use crate::asking::{Asking, Reply};
use crate::effort::{Effort, Watch};
use crate::replying::reply;
use requirement_document::Document;
use requirement_questions::Limits;
use std::alloc::{AllocError, Global};
use std::thread;
use std::thread::Threads;

/// How many questions of a round there are for each worker, where there are several.
const FOR_EACH: usize = 8;

/// The answers to these questions, where these items are left. `watch` is told of the questions of each round
/// before it.
pub fn replies<R: Threads + Sync, W: Watch>(
    rt: &R,
    alloc: Global,
    document: &Document,
    left: &[u32],
    asks: &[Asking],
    effort: Effort,
    watch: &mut W,
) -> Result<Vec<Reply>, AllocError>
    requires left { AreItems (document_in document.now) left.now }
    requires about { All (IsAbout (document_in document.now)) asks.now }
    requires some { 1 ≤ effort.workers }
    requires few { effort.workers ≤ 16 }
    ensures { IfOk result (λ found. AreReplies (document_in document.now) left.now asks.now found.items) }
{
    let most = round_size(effort.workers);
    let mut found = Vec::with_capacity(alloc, asks.len())?;
    let mut from = 0;
    'rounds: while from < asks.len() {
        let many = most.min(asks.len() - from);
        announce(document, asks, from, many, watch);
        let asked = &asks[from..from + many];
        let mut answered = round(rt, alloc, document, left, asked, effort)?;
        found.append(&mut answered)?;
        from += many;
    }
    Ok(found)
}

/// How many questions a round has at most.
fn round_size(workers: u32) -> usize
    requires some { 1 ≤ workers }
    requires few { workers ≤ 16 }
    ensures { 1 ≤ result }
{
    if workers == 1 {
        return 1;
    }
    workers as usize * FOR_EACH
}

/// Tells of a number of questions from this one on, each with how many stand behind it.
fn announce<W: Watch>(document: &Document, asks: &[Asking], from: usize, many: usize, watch: &mut W)
    requires { from + many ≤ length asks.now }
{
    'round: for k in from..from + many {
        watch.begin(document, asks[k], asks.len() - k - 1);
    }
}

/// The answers to the questions of a round.
fn round<R: Threads + Sync>(
    rt: &R,
    alloc: Global,
    document: &Document,
    left: &[u32],
    asks: &[Asking],
    effort: Effort,
) -> Result<Vec<Reply>, AllocError>
    requires left { AreItems (document_in document.now) left.now }
    requires about { All (IsAbout (document_in document.now)) asks.now }
    requires asks { 1 ≤ length asks.now }
    requires some { 1 ≤ effort.workers }
    ensures { IfOk result (λ found. AreReplies (document_in document.now) left.now asks.now found.items) }
{
    if effort.workers == 1 {
        return in_turn(alloc, document, left, asks, effort.limits);
    }
    let size = asks.len().div_ceil(effort.workers as usize);
    shared(rt, alloc, document, left, asks, size, effort.limits)
}

/// The same by pieces of this size, each in a thread of its own where one can be made.
fn shared<R: Threads + Sync>(
    rt: &R,
    alloc: Global,
    document: &Document,
    left: &[u32],
    asks: &[Asking],
    size: usize,
    limits: Limits,
) -> Result<Vec<Reply>, AllocError>
    requires left { AreItems (document_in document.now) left.now }
    requires about { All (IsAbout (document_in document.now)) asks.now }
    requires size { 1 ≤ size }
    ensures { IfOk result (λ found. AreReplies (document_in document.now) left.now asks.now found.items) }
{
    let answer = |_start: usize, piece: &[Asking]| in_turn(alloc, document, left, piece, limits);
    let pieces = thread::map_chunks(rt, alloc, asks, size, &answer)?;
    joined(alloc, pieces)
}

/// The answers of the pieces, one piece after the other.
fn joined(
    alloc: Global,
    pieces: Vec<Result<Vec<Reply>, AllocError>>,
) -> Result<Vec<Reply>, AllocError>
    ensures { IfOk result (λ found. AreJoined pieces.items found.items) }
{
    let mut found = Vec::new(alloc);
    'pieces: for piece in pieces {
        let mut whole = piece?;
        found.append(&mut whole)?;
    }
    Ok(found)
}

/// The answers to these questions, one after the other.
fn in_turn(
    alloc: Global,
    document: &Document,
    left: &[u32],
    asks: &[Asking],
    limits: Limits,
) -> Result<Vec<Reply>, AllocError>
    requires left { AreItems (document_in document.now) left.now }
    requires about { All (IsAbout (document_in document.now)) asks.now }
    ensures { IfOk result (λ found. AreReplies (document_in document.now) left.now asks.now found.items) }
{
    let mut found = Vec::with_capacity(alloc, asks.len())?;
    'asks: for k in 0..asks.len() {
        let answered = reply(alloc, document, left, asks[k], limits)?;
        found.push(answered)?;
    }
    Ok(found)
}
