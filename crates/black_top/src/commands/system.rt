// `system`: whether each path of a system satisfies a formula. The input is a start, a step and a goal, with
// separator lines between. All three are read before any is judged, so the faults of their texts come first.
ghost use Rattle.std.specs.Prelude.{◌≡◌, ◌+◌, ◌<◌, ◌≤◌, true, ℕ, List, length, Option, IfOk};
ghost use Rattle.ltl_syntax.specs.declared.node.Kind.TheVariants as kinds;
ghost use Rattle.ltl_syntax.specs.Formula.{Formula};
ghost use Rattle.ltl_syntax.specs.Table.{tree_at};
ghost use Rattle.enc_layout.specs.Letters.{Fits};
ghost use Rattle.enc_layout.specs.Clauses.{layout_of};
ghost use Rattle.unravel.specs.Decision.{IsRefutation};
ghost use Rattle.system_check.specs.Joining.{IsJoined, whole_size};
ghost use Rattle.command_words.specs.Asked.{IsDepth};
ghost use Rattle.black_top.specs.Answer.{Answer, paths_hold};
ghost use Rattle.black_top.specs.System.{part_bytes, IsDecided, IsSettled, IsSystemAnswer, ProvesWhole};
ghost use Rattle.black_top.specs.SystemInner.{AreCut, HasSmallPlaces, HasSmallByte};
ghost use Rattle.black_top.specs.SystemInner.{refused_part, IsRead, IsPartRead, IsOfFormula};
ghost use Rattle.black_top.specs.Inner.{Shows};
ghost use Rattle.report.specs.Texts.{Proof};

use crate::commands::limit::limit_for;
use crate::commands::solve::certificate;
use crate::output::{Output, no_path, path_fails, paths_hold, paths_hold_by, refusal, undecided};
use crate::parts::{ThreeParts, cut_twice};
use command_words::Options;
use derivation::NamedLog;
use ltl_closure::Closure;
use ltl_syntax::{FormulaTable, Kind, print};
use program_input::{MAX_TEXT, PartReading, read_formula};
use report::Fault;
use std::alloc::{AllocError, Global};
use system_check::{JoinRefused, Joined, SystemAnswer, decide_system, join_parts};

/// A formula under a root of a table.
#[derive(Drop)]
struct TableRoot {
    table: FormulaTable,
    root: u32,
}

/// The formula of a part: its size, and where it is held, unless it is above the limit of nodes.
#[derive(Drop)]
struct ReadPart {
    size: u32,
    held: Option<TableRoot>,
}

/// What a part is read as. A fault names a byte of the whole input.
#[derive(Drop)]
enum PartRead {
    Read(ReadPart),
    Faulty(Fault),
}

/// The answer to an input of three parts.
pub fn system(alloc: Global, options: Options, input: &[u8]) -> Result<Output, AllocError>
    requires depth { IsDepth options.depth }
    ensures { IfOk result (λ out. (a : Answer)
        × IsSystemAnswer options.depth options.cert input.now a × Shows out a) }
{
    let Some(parts) = cut_twice(input) else {
        return refusal(alloc, Fault::NoSeparator);
    };
    if parts.start.len() + parts.step.len() + parts.goal.len() > MAX_TEXT {
        return refusal(alloc, Fault::Text);
    }
    read_start(alloc, &parts, options)
}

/// Reads the start, and then the others.
fn read_start(alloc: Global, parts: &ThreeParts<'_>, options: Options) -> Result<Output, AllocError>
    requires short { part_bytes parts.now.start.now parts.now.step.now parts.now.goal.now ≤ 1048576 }
    requires places { HasSmallPlaces parts.now }
    requires depth { IsDepth options.depth }
    ensures { IfOk result (λ out. (bytes : List ℕ) → AreCut bytes parts.now
        → (a : Answer) × IsSystemAnswer options.depth options.cert bytes a × Shows out a) }
{
    match read_part(alloc, parts.start, 0)? {
        PartRead::Read(start) => read_step(alloc, parts, &start, options),
        PartRead::Faulty(fault) => refusal(alloc, fault),
    }
}

/// Reads the step, and then the goal.
fn read_step(
    alloc: Global,
    parts: &ThreeParts<'_>,
    start: &ReadPart,
    options: Options,
) -> Result<Output, AllocError>
    requires short { part_bytes parts.now.start.now parts.now.step.now parts.now.goal.now ≤ 1048576 }
    requires places { HasSmallPlaces parts.now }
    requires start { IsRead parts.now.start.now start.now }
    requires depth { IsDepth options.depth }
    ensures { IfOk result (λ out. (bytes : List ℕ) → AreCut bytes parts.now
        → (a : Answer) × IsSystemAnswer options.depth options.cert bytes a × Shows out a) }
{
    match read_part(alloc, parts.step, parts.step_place as u32)? {
        PartRead::Read(step) => read_goal(alloc, parts, start, &step, options),
        PartRead::Faulty(fault) => refusal(alloc, fault),
    }
}

/// Reads the goal, and judges the three.
fn read_goal(
    alloc: Global,
    parts: &ThreeParts<'_>,
    start: &ReadPart,
    step: &ReadPart,
    options: Options,
) -> Result<Output, AllocError>
    requires short { part_bytes parts.now.start.now parts.now.step.now parts.now.goal.now ≤ 1048576 }
    requires places { HasSmallPlaces parts.now }
    requires start { IsRead parts.now.start.now start.now }
    requires step { IsRead parts.now.step.now step.now }
    requires depth { IsDepth options.depth }
    ensures { IfOk result (λ out. (bytes : List ℕ) → AreCut bytes parts.now
        → (a : Answer) × IsSystemAnswer options.depth options.cert bytes a × Shows out a) }
{
    match read_part(alloc, parts.goal, parts.goal_place as u32)? {
        PartRead::Read(goal) => join(alloc, start, step, &goal, options),
        PartRead::Faulty(fault) => refusal(alloc, fault),
    }
}

/// Reads a part that begins at the place of the input.
fn read_part(alloc: Global, text: &[u8], place: u32) -> Result<PartRead, AllocError>
    requires short { length text.now ≤ 1048576 }
    requires place { place ≤ 1048590 }
    ensures { IfOk result (IsPartRead text.now place) }
{
    match read_formula(alloc, text)? {
        PartReading::Formula { table, root } => Ok(PartRead::Read(ReadPart {
            size: table.size(),
            held: Some(TableRoot { table, root }),
        })),
        PartReading::Refused(fault) => Ok(refused_part(fault, place)),
    }
}

/// What a refused part is read as: a formula that is too large, or a fault, with its byte counted from the
/// start of the input.
fn refused_part(fault: Fault, place: u32) -> PartRead
    requires place { place ≤ 1048590 }
    requires byte { HasSmallByte fault }
    ensures { result ≡ refused_part fault place }
{
    match fault {
        Fault::Nodes(size) => PartRead::Read(ReadPart { size, held: None }),
        Fault::Lexical(byte) => PartRead::Faulty(Fault::Lexical(place + byte)),
        Fault::Grammar(byte) => PartRead::Faulty(Fault::Grammar(place + byte)),
        _ => PartRead::Faulty(fault),
    }
}

/// The answer to three formulas, of which each may be too large.
fn join(
    alloc: Global,
    start: &ReadPart,
    step: &ReadPart,
    goal: &ReadPart,
    options: Options,
) -> Result<Output, AllocError>
    requires start { (f : Formula) × IsOfFormula f start.now }
    requires step { (f : Formula) × IsOfFormula f step.now }
    requires goal { (f : Formula) × IsOfFormula f goal.now }
    requires depth { IsDepth options.depth }
    ensures { IfOk result (λ out. (f g h : Formula)
        → IsOfFormula f start.now → IsOfFormula g step.now → IsOfFormula h goal.now
        → (a : Answer) × IsSettled options.depth options.cert f g h a × Shows out a) }
{
    let size = start.size + step.size + goal.size + 4;
    let Some(first) = &start.held else {
        return refusal(alloc, Fault::Nodes(size));
    };
    let Some(second) = &step.held else {
        return refusal(alloc, Fault::Nodes(size));
    };
    let Some(third) = &goal.held else {
        return refusal(alloc, Fault::Nodes(size));
    };
    settle(alloc, first, second, third, options)
}

/// The answer to three formulas that are held in tables.
fn settle(
    alloc: Global,
    start: &TableRoot,
    step: &TableRoot,
    goal: &TableRoot,
    options: Options,
) -> Result<Output, AllocError>
    requires start { start.now.root < length start.now.table.nodes }
    requires step { step.now.root < length step.now.table.nodes }
    requires goal { goal.now.root < length goal.now.table.nodes }
    requires depth { IsDepth options.depth }
    ensures { IfOk result (λ out. (a : Answer) × IsSettled options.depth options.cert
        (tree_at start.now.table start.now.root)
        (tree_at step.now.table step.now.root)
        (tree_at goal.now.table goal.now.root) a × Shows out a) }
{
    match join_parts(
        alloc,
        &start.table,
        start.root,
        &step.table,
        step.root,
        &goal.table,
        goal.root,
    ) {
        Ok(joined) => judge(alloc, &joined, options),
        Err(JoinRefused::Nodes(size)) => refusal(alloc, Fault::Nodes(size)),
        Err(JoinRefused::Start) => refusal(alloc, Fault::SystemStart),
        Err(JoinRefused::Step) => refusal(alloc, Fault::SystemStep),
        Err(JoinRefused::NoMemory) => Err(AllocError),
    }
}

/// The answer at the limit in force of the whole formula, or that the depth that was asked for has too many
/// letters.
fn judge(alloc: Global, joined: &Joined, options: Options) -> Result<Output, AllocError>
    requires joined { (f g h : Formula) × IsJoined f g h joined.now }
    requires depth { IsDepth options.depth }
    ensures { IfOk result (λ out. (f g h : Formula) → IsJoined f g h joined.now → whole_size f g h ≤ 16384
        → (a : Answer) × IsSettled options.depth options.cert f g h a × Shows out a) }
{
    let closure = Closure::of(alloc, &joined.table, joined.whole, Kind::Infinite)?;
    match limit_for(&closure, options.depth) {
        Ok(limit) => decide(alloc, joined, &closure, limit, options.cert),
        Err(limit) => refusal(alloc, Fault::Letters(limit)),
    }
}

/// The answer at the limit, with a certificate where one is asked for and each path satisfies the goal.
fn decide(
    alloc: Global,
    joined: &Joined,
    closure: &Closure<'_>,
    limit: u32,
    cert: bool,
) -> Result<Output, AllocError>
    requires joined { (f g h : Formula) × IsJoined f g h joined.now }
    requires formula { closure.now.formula ≡ tree_at joined.now.table joined.now.whole }
    requires kind { closure.now.kind ≡ kinds.Infinite }
    requires few { limit ≤ 1000 }
    requires fits { Fits (layout_of closure.now) limit }
    ensures { IfOk result (λ out. (f g h : Formula) → IsJoined f g h joined.now
        → (a : Answer) × IsDecided f g h limit cert a × Shows out a) }
{
    enc_layout::laws::numbering();
    match decide_system(alloc, joined, limit)? {
        SystemAnswer::NoPath { depth } => no_path(alloc, depth),
        SystemAnswer::Fails { depth, trace } => path_fails(alloc, depth, &trace),
        SystemAnswer::Undecided { depth } => undecided(alloc, depth),
        SystemAnswer::Holds {
            depth,
            log,
            targets,
        } => {
            if !cert {
                return paths_hold(alloc, depth);
            }
            proved(alloc, joined, closure, depth, log, &targets)
        }
    }
}

/// HOLDS, with the printed whole formula and its certificate.
fn proved(
    alloc: Global,
    joined: &Joined,
    closure: &Closure<'_>,
    depth: u32,
    log: NamedLog,
    targets: &[u64],
) -> Result<Output, AllocError>
    requires there { joined.now.whole < length joined.now.table.nodes }
    requires formula { closure.now.formula ≡ tree_at joined.now.table joined.now.whole }
    requires kind { closure.now.kind ≡ kinds.Infinite }
    requires few { depth ≤ 1000 }
    requires fits { Fits (layout_of closure.now) depth }
    requires refutes { IsRefutation closure.now.formula closure.now.kind depth log targets.now }
    ensures { IfOk result (λ out. (shown : Option Proof)
        × ProvesWhole true (tree_at joined.now.table joined.now.whole) depth shown
        × Shows out (paths_hold depth shown)) }
{
    let formula = print(alloc, &joined.table, joined.whole)?;
    let mut out = paths_hold_by(alloc, depth, &formula)?;
    certificate(alloc, closure, depth, log, targets, &mut out.text)?;
    Ok(out)
}
