// What there is to do for a node: its operands from left to right, and then the entry of its own operator.
ghost use Rattle.std.specs.Prelude.{◌≡◌, ◌++◌, reverse, OnOk};
ghost use Rattle.ltl_syntax.specs.Shape.{Future, Past};
ghost use Rattle.ltl_closure.specs.Plan.{request_key, until_key, request_plan, span_plan, times_plan};
ghost use Rattle.ltl_closure.specs.Plan.{window_plan, range_plan, unary_plan, connective_of, binary_plan};

use crate::key::{Connective, Request};
use ltl_syntax::{BinaryOp, UnaryOp};
use std::alloc::AllocError;

/// A piece of work. Each but `Keep` leaves an entry's number in place of those of its operands.
#[derive(Clone, Copy, Debug)]
pub enum Work {
    /// The normal form of a node, or with `false` that of its negation.
    Visit(u32, bool),
    /// A constant.
    Const(bool),
    /// The request for the last number.
    Ask(Request),
    /// The connective of the last two numbers.
    Join(Connective),
    /// The negation of the letter with the last number.
    Negate,
    /// The last number is the node's: it isn't walked again.
    Keep(u32, bool),
}

/// Puts the plan on the stack, so that its front is done first.
fn put_plan(work: &mut Vec<Work>, plan: &[Work]) -> Result<(), AllocError>
    ensures { OnOk result (reverse work.new.items ≡ plan.now ++ reverse work.old.items) }
{
    for piece in plan.iter().rev().copied() {
        work.push(piece)?;
    }
    Ok(())
}

/// Puts the plan of a request several times over.
fn plan_times(
    work: &mut Vec<Work>,
    request: Request,
    a: u32,
    positive: bool,
    n: u8,
) -> Result<(), AllocError>
    ensures { OnOk result (reverse work.new.items ≡ times_plan request positive a n
        ++ reverse work.old.items) }
{
    if n == 0 {
        work.push(Work::Visit(a, positive))?;
        return Ok(());
    }
    work.push(Work::Ask(request))?;
    plan_times(work, request, a, positive, n - 1)
}

/// Puts the plan of a range.
fn plan_window(
    work: &mut Vec<Work>,
    connective: Connective,
    none: bool,
    request: Request,
    a: u32,
    positive: bool,
    from: u8,
    to: u8,
) -> Result<(), AllocError>
    ensures { OnOk result (reverse work.new.items ≡ window_plan connective none request positive a from to
        ++ reverse work.old.items) }
{
    if from == 0 && to == 0 {
        work.push(Work::Visit(a, positive))?;
        return Ok(());
    }
    if to == 0 {
        work.push(Work::Const(none))?;
        return Ok(());
    }
    if from == 0 {
        work.push(Work::Join(connective))?;
        work.push(Work::Ask(request))?;
        plan_window(work, connective, none, request, a, positive, 0, to - 1)?;
        work.push(Work::Visit(a, positive))?;
        return Ok(());
    }
    work.push(Work::Ask(request))?;
    plan_window(
        work,
        connective,
        none,
        request,
        a,
        positive,
        from - 1,
        to - 1,
    )
}

/// Puts the plan of a request.
fn plan_request(
    work: &mut Vec<Work>,
    request: Request,
    a: u32,
    positive: bool,
) -> Result<(), AllocError>
    ensures { OnOk result (reverse work.new.items ≡ request_plan request positive a
        ++ reverse work.old.items) }
{
    put_plan(work, &[Work::Visit(a, positive), Work::Ask(request)])
}

/// Puts the plan of an operator that looks at all positions on one side, for some of them or for all.
fn plan_span(
    work: &mut Vec<Work>,
    some: bool,
    connective: Connective,
    a: u32,
    positive: bool,
) -> Result<(), AllocError>
    ensures { OnOk result (reverse work.new.items ≡ span_plan some connective positive a
        ++ reverse work.old.items) }
{
    put_plan(
        work,
        &[
            Work::Const(some),
            Work::Visit(a, positive),
            Work::Join(connective),
        ],
    )
}

/// Puts the plan of an operator that looks at a range of positions, for some of them or for all.
fn plan_range(
    work: &mut Vec<Work>,
    some: bool,
    request: Request,
    a: u32,
    positive: bool,
    from: u8,
    to: u8,
) -> Result<(), AllocError>
    ensures { OnOk result (reverse work.new.items ≡ range_plan some request positive a from to
        ++ reverse work.old.items) }
{
    if some {
        plan_window(work, Connective::Or, false, request, a, positive, from, to)
    } else {
        plan_window(work, Connective::And, true, request, a, positive, from, to)
    }
}

/// The request of the next position, or the weak one.
fn next(strong: bool) -> Request
    ensures { result ≡ request_key strong Future }
{
    if strong {
        Request::Next
    } else {
        Request::WeakNext
    }
}

/// The request of the position before, or the weak one.
fn yesterday(strong: bool) -> Request
    ensures { result ≡ request_key strong Past }
{
    if strong {
        Request::Yesterday
    } else {
        Request::WeakYesterday
    }
}

/// The connective that looks for some position from one on, or at all of them.
fn future(some: bool) -> Connective
    ensures { result ≡ until_key some Future }
{
    if some {
        Connective::Until
    } else {
        Connective::Release
    }
}

/// The connective that looks for some position up to one, or at all of them.
fn past(some: bool) -> Connective
    ensures { result ≡ until_key some Past }
{
    if some {
        Connective::Since
    } else {
        Connective::Trigger
    }
}

/// Puts the plan of an operator of one operand, or with `false` that of its negation: the dual operator, over
/// the operand's negation.
pub fn plan_unary(work: &mut Vec<Work>, op: UnaryOp, a: u32, sign: bool) -> Result<(), AllocError>
    ensures { OnOk result (reverse work.new.items ≡ unary_plan sign op a ++ reverse work.old.items) }
{
    match op {
        UnaryOp::Not => put_plan(work, &[Work::Visit(a, !sign)]),
        UnaryOp::Next => plan_request(work, next(sign), a, sign),
        UnaryOp::WeakNext => plan_request(work, next(!sign), a, sign),
        UnaryOp::Yesterday => plan_request(work, yesterday(sign), a, sign),
        UnaryOp::WeakYesterday => plan_request(work, yesterday(!sign), a, sign),
        UnaryOp::Eventually => plan_span(work, sign, future(sign), a, sign),
        UnaryOp::Always => plan_span(work, !sign, future(!sign), a, sign),
        UnaryOp::Once => plan_span(work, sign, past(sign), a, sign),
        UnaryOp::Historically => plan_span(work, !sign, past(!sign), a, sign),
        UnaryOp::NextTimes(n) => plan_times(work, next(sign), a, sign, n),
        UnaryOp::YesterdayTimes(n) => plan_times(work, yesterday(sign), a, sign, n),
        UnaryOp::EventuallyIn(m, n) => plan_range(work, sign, next(sign), a, sign, m, n),
        UnaryOp::AlwaysIn(m, n) => plan_range(work, !sign, next(!sign), a, sign, m, n),
        UnaryOp::OnceIn(m, n) => plan_range(work, sign, yesterday(sign), a, sign, m, n),
        UnaryOp::HistoricallyIn(m, n) => plan_range(work, !sign, yesterday(!sign), a, sign, m, n),
    }
}

/// The connective of the operator, and with `false` its dual.
fn connective(op: BinaryOp, positive: bool) -> Connective
    ensures { result ≡ connective_of positive op }
{
    match (op, positive) {
        (BinaryOp::And, true) | (BinaryOp::Or, false) | (BinaryOp::Implies, false) =>
            Connective::And,
        (BinaryOp::And, false) | (BinaryOp::Or, true) | (BinaryOp::Implies, true) => Connective::Or,
        (BinaryOp::Iff, _) => Connective::Or,
        (BinaryOp::Until, true) | (BinaryOp::Release, false) => Connective::Until,
        (BinaryOp::WeakUntil, false) | (BinaryOp::StrongRelease, true) => Connective::Until,
        (BinaryOp::Until, false) | (BinaryOp::Release, true) => Connective::Release,
        (BinaryOp::WeakUntil, true) | (BinaryOp::StrongRelease, false) => Connective::Release,
        (BinaryOp::Since, true) | (BinaryOp::Trigger, false) => Connective::Since,
        (BinaryOp::Since, false) | (BinaryOp::Trigger, true) => Connective::Trigger,
    }
}

pub fn plan_binary(
    work: &mut Vec<Work>,
    op: BinaryOp,
    a: u32,
    b: u32,
    positive: bool,
) -> Result<(), AllocError>
    ensures { OnOk result (reverse work.new.items ≡ binary_plan positive op a b ++ reverse work.old.items) }
{
    let left = Work::Visit(a, positive);
    let right = Work::Visit(b, positive);
    let join = Work::Join(connective(op, positive));
    let both = Work::Join(Connective::And);
    let any = Work::Join(Connective::Or);
    match op {
        BinaryOp::Implies => put_plan(work, &[Work::Visit(a, !positive), right, join]),
        BinaryOp::Iff => put_plan(
            work,
            &[
                Work::Visit(a, true),
                right,
                both,
                Work::Visit(a, false),
                Work::Visit(b, !positive),
                both,
                join,
            ],
        ),
        BinaryOp::WeakUntil | BinaryOp::StrongRelease => {
            let inner = if (op == BinaryOp::WeakUntil) == positive {
                any
            } else {
                both
            };
            put_plan(work, &[right, left, right, inner, join])
        }
        _ => put_plan(work, &[left, right, join]),
    }
}
