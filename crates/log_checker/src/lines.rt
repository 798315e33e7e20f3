// The lines of a certificate, judged by several workers. They are cut into as many consecutive pieces as
// there are workers. Each worker judges one piece in an area of its own, and all read one view that nobody
// changes; then the first bad line of the first piece that has one is the answer.
ghost use Rattle.std.specs.Prelude.{ℕ, ◌≡◌, ◌+◌, ◌^◌, ◌<◌, ◌≤◌, List, length, All, IfOk, IfSome};
ghost use Rattle.std.specs.Prelude.{slice_index_or};
ghost use Rattle.cnf_base.specs.Known.{AreKnown};
ghost use Rattle.cert_text.specs.Live.{lines_of};
ghost use Rattle.log_checker.specs.Values.{letters_in};
ghost use Rattle.log_checker.specs.Judging.{IsLinesAnswer, first_answer};
ghost use Rattle.log_checker.specs.Pieces.{AreCuts, IsJudged, KeepSizes, pieces_of, answer_by};
ghost use Rattle.log_checker.specs.declared.worker.Area.{Area};

use crate::assignment::Assignment;
use crate::cuts::cut_lines;
use crate::judge::NamedClauses;
use crate::worker::{Area, judge_piece};
use cert_text::CertView;
use ltl_io::Gate;
use std::alloc::{AllocError, Global};
use std::marker::Model;
use std::thread;
use std::thread::Threads;

/// What is said of all lines.
#[derive(Clone, Copy, Debug, PartialEq, Eq, Drop)]
pub enum Lines {
    /// Each is a hinted step over the lines that are live at it.
    AllGood,
    /// The least number of a line that is none. Lines are numbered from 1.
    FirstBad(u64),
}

/// What the workers work in: an area for each, with a byte and four more for each letter; and the lines at
/// which the pieces begin, and the last one ends.
#[derive(Drop)]
pub struct Scratch {
    letters: u32,
    areas: Vec<Area>,
    cuts: Vec<u64>,
}

impl Model for Scratch {
    ghost use Rattle.std.specs.Prelude.{length};
    ghost use Rattle.log_checker.specs.Judging.{ScratchValue};
    ghost use Rattle.log_checker.specs.Pieces.{IsScratch};

    ghost Value = { ScratchValue };

    ghost view = { λ a. record { workers = length a.areas.items; letters = a.letters } };

    ghost invariant = { λ a. IsScratch a.letters a.areas.items a.cuts.items };
}

impl Scratch {
    /// For 1 to 16 workers, over the letters from 1 to `letters`. All memory that judging needs is taken
    /// here.
    pub fn new(alloc: Global, workers: u32, letters: u32) -> Result<Scratch, AllocError>
        requires some { 1 ≤ workers }
        requires few { workers ≤ 16 }
        ensures { IfOk result (λ scratch. scratch ≡ record { workers = workers; letters = letters }) }
    {
        let mut areas = Vec::new(alloc);
        'workers: for _worker in 0..workers {
            let assignment = Assignment::new(alloc, letters)?;
            areas.push(Area {
                assignment,
                first_bad: None,
                apart: [0; 16],
            })?;
        }
        let cuts = Vec::from_elem(alloc, 0u64, workers as usize + 1)?;
        Ok(Scratch {
            letters,
            areas,
            cuts,
        })
    }
}

/// Judges each line over the clauses and the lines that are live at it. The lines are cut into as many
/// consecutive pieces of nearly equally many bytes as the scratch has workers, which are numbered from 0 as
/// the pieces are. Each worker, one whose piece is empty too, tells the gate that it begins.
pub fn check_lines<R: Threads + Sync, C: NamedClauses + Sync, G: Gate + Sync>(
    rt: &R,
    view: &CertView<'_>,
    clauses: &C,
    scratch: &mut Scratch,
    gate: &G,
) -> Lines
    requires { AreKnown scratch.old.letters (C.clauses clauses.now) }
    ensures answer { IsLinesAnswer (C.clauses clauses.now) scratch.old.letters view.now.parts result }
    ensures same { scratch.new ≡ scratch.old }
{
    cut_lines(view, &mut scratch.cuts);
    judge_pieces(rt, view, clauses, gate, &mut scratch.areas, &scratch.cuts);
    numbered(first_bad_of(&scratch.areas))
}

/// As many workers as there are areas judge a piece each, each in a thread of its own where one can be made.
fn judge_pieces<R: Threads + Sync, C: NamedClauses + Sync, G: Gate + Sync>(
    rt: &R,
    view: &CertView<'_>,
    clauses: &C,
    gate: &G,
    areas: &mut Vec<Area>,
    cuts: &Vec<u64>,
)
    requires some { 1 ≤ length areas.old.items }
    requires few { length areas.old.items ≤ 16 }
    requires known { All (λ area. AreKnown (letters_in area.assignment)
        (C.clauses clauses.now)) areas.old.items }
    requires cuts { AreCuts cuts.now.items (length (lines_of view.now.parts)) }
    requires pieces { length cuts.now.items ≡ length areas.old.items + 1 }
    ensures judged { (i : ℕ) (d : Area) → i < length areas.old.items →
        IsJudged (C.clauses clauses.now) view.now.parts cuts.now.items i
        (slice_index_or areas.new.items i d) }
    ensures sizes { KeepSizes areas.old.items areas.new.items }
{
    let workers = areas.len();
    thread::for_each_mut(
        rt,
        areas.as_mut_slice(),
        workers,
        &|worker, area| { judge_piece(view, clauses, gate, area, worker, cuts) },
    );
}

/// The first bad line of the first piece that has one, however the pieces are cut.
fn first_bad_of(areas: &Vec<Area>) -> Option<u64>
    ensures { (cuts : List ℕ) → result ≡ first_answer (pieces_of cuts 0 areas.now.items) }
{
    'areas: for index in 0..areas.len() {
        if let Some(line) = areas[index].first_bad {
            return Some(line);
        }
    }
    None
}

/// The answer by the first bad line, which counts from 0 here.
fn numbered(first_bad: Option<u64>) -> Lines
    requires { IfSome first_bad (λ line. line + 1 < 2 ^ 64) }
    ensures { result ≡ answer_by first_bad }
{
    match first_bad {
        None => Lines::AllGood,
        Some(line) => Lines::FirstBad(line + 1),
    }
}
