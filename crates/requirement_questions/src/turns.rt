// The two searches in turns: one for claims that refute the formula, question by question, and one for a
// trace that satisfies it, depth by depth. A depth is asked once the other search has asked questions enough
// that the depth has earned its turn, so neither is far behind where the other would have answered. What a
// depth costs is told by what was learnt at those before it, as a question of the solver cannot be broken
// off.
ghost use Rattle.std.specs.Prelude.{◌≡◌, IsTrue, IfOk, IfSome};
ghost use Rattle.unravel.specs.Exploration.{CanGoOn};
ghost use Rattle.claims.specs.Lawful.{IsLawful};
ghost use Rattle.claim_check.specs.Data.{certificate_in};
ghost use Rattle.requirement_questions.specs.Outcome.{IsAttempted};

use claim_check::{Certificate, ClaimVerdict, check};
use claim_search::{Progress, Search};
use ltl_closure::Closure;
use ltl_word::Trace;
use std::alloc::{AllocError, Global};
use std::marker::Model;
use unravel::{Exploration, Explored};

/// How many questions the search for claims asks in a turn.
const QUESTIONS_IN_A_TURN: u64 = 20;

/// Both searches for one formula, where they stand.
///
/// Contracts see the closure whose formula it is.
#[derive(Drop)]
pub struct Attempt<'c> {
    alloc: Global,
    closure: &'c Closure<'c>,
    search: Box<Search<'c>>,
    /// Whether the search for claims goes on.
    searches: bool,
    exploration: Box<Exploration<'c>>,
}

impl<'c> Model for Attempt<'c> {
    ghost use Rattle.std.specs.Prelude.{◌≡◌};
    ghost use Rattle.ltl_closure.specs.Entries.{ClosureValue, coded_closure};

    ghost Value = { ClosureValue };

    ghost coded = { coded_closure };

    ghost view = { λ a. a.closure.now };

    ghost invariant = { λ a. a.exploration.value.closure ≡ a.closure.now };
}

/// What one turn more comes to.
#[derive(Drop)]
pub enum Attempted<'c> {
    /// A trace of the kind that satisfies the formula.
    Possible(Trace),
    /// A lawful certificate: no trace of the kind satisfies it.
    Impossible(Certificate),
    /// It can go on.
    Open(Attempt<'c>),
    /// Neither search can.
    Ended,
}

impl<'c> Attempt<'c> {
    /// Both searches before their first turn.
    pub fn begin(alloc: Global, closure: &'c Closure<'c>) -> Result<Attempt<'c>, AllocError>
        ensures { IfOk result (λ a. a ≡ closure.now) }
    {
        let search = Box::new(alloc, Search::new(alloc, closure, closure.kind())?)?;
        let exploration = Box::new(alloc, Exploration::begin(alloc, closure))?;
        Ok(Attempt {
            alloc,
            closure,
            search,
            searches: true,
            exploration,
        })
    }

    /// How many questions both have asked of their solvers.
    pub fn asked(&self) -> u64 {
        let depths = self.exploration.depth() as u64;
        self.search.asked().saturating_add(depths)
    }

    /// The depth that the search for a trace asks next. Nothing is promised of it, nor of the next two.
    pub fn depth(&self) -> u32 {
        self.exploration.depth()
    }

    /// How many levels the search for claims has.
    pub fn levels(&self) -> u32 {
        self.search.levels()
    }

    /// How many claims it has, each of some frame.
    pub fn claims(&self) -> u64 {
        self.search.claims()
    }

    /// One turn more: the next depth, or some questions of the search for claims, at most `most`. Nothing is
    /// left where memory runs out.
    pub fn turn(self, most: u64) -> Result<Attempted<'c>, AllocError>
        ensures { IfOk result (IsAttempted self.entry) }
    {
        let alloc = self.alloc;
        let closure = self.closure;
        let search = self.search;
        let searches = self.searches;
        let exploration = self.exploration;
        if has_turn(&search, searches, &exploration) {
            return deepened(alloc, closure, search, searches, exploration);
        }
        if searches {
            let questions = QUESTIONS_IN_A_TURN.min(most);
            return advanced(alloc, closure, search, exploration, questions);
        }
        Ok(Attempted::Ended)
    }
}

/// What the next depth comes to.
fn deepened<'c>(
    alloc: Global,
    closure: &'c Closure<'c>,
    search: Box<Search<'c>>,
    searches: bool,
    exploration: Box<Exploration<'c>>,
) -> Result<Attempted<'c>, AllocError>
    requires can { CanGoOn exploration.value }
    requires same { exploration.value.closure ≡ closure.now }
    ensures { IfOk result (IsAttempted closure.now) }
{
    match Box::into_inner(exploration).explore()? {
        Explored::Found { trace, .. } => Ok(Attempted::Possible(trace)),
        Explored::Open(next) => {
            let exploration = Box::new(alloc, next)?;
            Ok(going_on(alloc, closure, search, searches, exploration))
        }
    }
}

/// What this number of questions of the search for claims comes to. What it finds is judged before it is
/// believed.
fn advanced<'c>(
    alloc: Global,
    closure: &'c Closure<'c>,
    search: Box<Search<'c>>,
    exploration: Box<Exploration<'c>>,
    questions: u64,
) -> Result<Attempted<'c>, AllocError>
    requires { exploration.value.closure ≡ closure.now }
    ensures { IfOk result (IsAttempted closure.now) }
{
    let mut search = search;
    match search.advance(questions)? {
        Progress::Found(found) => match judged(alloc, closure, found)? {
            Some(certificate) => Ok(Attempted::Impossible(certificate)),
            None => Ok(going_on(alloc, closure, search, false, exploration)),
        },
        Progress::More => Ok(going_on(alloc, closure, search, true, exploration)),
        Progress::Ended => Ok(going_on(alloc, closure, search, false, exploration)),
    }
}

/// The same attempt, where it stands now.
fn going_on<'c>(
    alloc: Global,
    closure: &'c Closure<'c>,
    search: Box<Search<'c>>,
    searches: bool,
    exploration: Box<Exploration<'c>>,
) -> Attempted<'c>
    requires { exploration.value.closure ≡ closure.now }
    ensures { IsAttempted closure.now result }
{
    Attempted::Open(Attempt {
        alloc,
        closure,
        search,
        searches,
        exploration,
    })
}

/// The certificate, if it is lawful.
fn judged(
    alloc: Global,
    closure: &Closure<'_>,
    found: Certificate,
) -> Result<Option<Certificate>, AllocError>
    ensures { IfOk result (λ lawful. IfSome lawful (λ c. IsLawful closure.now.formula closure.now.kind
        (certificate_in c))) }
{
    match check(alloc, closure, closure.kind(), &found)? {
        ClaimVerdict::Verified => Ok(Some(found)),
        ClaimVerdict::Refused(_) => Ok(None),
    }
}

/// Whether the next depth has its turn: it can be asked, and the other search has ended or has done enough.
fn has_turn(search: &Search<'_>, searches: bool, exploration: &Exploration<'_>) -> bool
    ensures { IsTrue result → CanGoOn exploration.now }
{
    exploration.can_go_on() && (!searches || search.asked() >= price(exploration))
}

/// How many questions of the other search let the next depth have its turn: as many as its clauses and what
/// was learnt at the depths before it are worth. A question is about two states, a line about all of a depth.
fn price(exploration: &Exploration<'_>) -> u64 {
    let states = (exploration.depth() as u64).saturating_add(1);
    let clauses = states.saturating_mul(states).saturating_mul(20);
    clauses.max(exploration.lines().saturating_mul(states) / 2)
}
