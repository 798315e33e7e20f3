// What is printed, and the status with it.
ghost use Rattle.std.specs.Prelude.{◌≡◌, ◌++◌, Err, IfOk};
ghost use Rattle.trace_view.specs.declared.grid.GridRefused.TheVariants as refusals;
ghost use Rattle.black_view.specs.declared.status.Status.TheVariants as statuses;
ghost use Rattle.black_view.specs.Output.{IsViewed, IsDrawn, IsAskedGrid, IsTooLarge, picture_of};

use crate::input::trace_at;
use crate::status::Status;
use crate::words::Request;
use ltl_word::{Trace, TraceFault};
use std::alloc::{AllocError, Global};
use trace_view::{Grid, GridRefused, letters_of, svg, text};

/// What is printed of an input.
#[derive(Drop)]
pub struct Output {
    pub status: Status,
    pub text: Vec<u8>,
}

/// The most bytes that an input has.
pub const INPUT_LIMIT: usize = 16_777_216;

/// What is printed of the bytes.
pub fn answer(alloc: Global, request: &Request, bytes: &[u8]) -> Result<Output, AllocError>
    ensures { IfOk result (λ out. IsViewed request.now bytes.now out.status out.text.items) }
{
    if bytes.len() > INPUT_LIMIT {
        return shown(alloc, Status::Limit, b"limit text 16777216\n", b"");
    }
    let Some(at) = trace_at(bytes) else {
        return shown(alloc, Status::NoTrace, bytes, b"");
    };
    let (lines, json) = bytes.split_at(at);
    match Trace::from_json(alloc, json) {
        Ok(trace) => drawn(alloc, request, lines, &trace),
        Err(TraceFault::NotJson) => shown(alloc, Status::Text, lines, b"trace fault: not JSON\n"),
        Err(TraceFault::NotTrace) => shown(
            alloc,
            Status::Text,
            lines,
            b"trace fault: not a trace\n",
        ),
        Err(TraceFault::EmptyLoop) => shown(
            alloc,
            Status::Text,
            lines,
            b"trace fault: loop is empty\n",
        ),
        Err(TraceFault::EmptyStates) => shown(
            alloc,
            Status::Text,
            lines,
            b"trace fault: states is empty\n",
        ),
        Err(TraceFault::NoMemory) => Err(AllocError),
    }
}

fn shown(alloc: Global, status: Status, lines: &[u8], more: &[u8]) -> Result<Output, AllocError>
    ensures { IfOk result (λ out. (out.status ≡ status) × (out.text.items ≡ lines.now ++ more.now)) }
{
    let mut text = Vec::from_slice(alloc, lines)?;
    text.extend_from_slice(more)?;
    Ok(Output { status, text })
}

/// The picture of a trace with the letters that are asked for. A text stands behind the lines before the
/// trace, and a picture in SVG stands alone.
fn drawn(
    alloc: Global,
    request: &Request,
    lines: &[u8],
    trace: &Trace,
) -> Result<Output, AllocError>
    ensures { IfOk result (λ out. IsDrawn request.now lines.now trace.now out.status out.text.items) }
{
    match grid_of(alloc, request, trace) {
        Ok(grid) => picture(alloc, request, lines, &grid),
        Err(GridRefused::TooLarge) => shown(alloc, Status::Limit, lines, b"limit cells 16777216\n"),
        Err(GridRefused::NoMemory) => Err(AllocError),
    }
}

/// The grid of the letters that are asked for.
fn grid_of(alloc: Global, request: &Request, trace: &Trace) -> Result<Grid, GridRefused>
    ensures grid { IfOk result (IsAskedGrid request.now trace.now) }
    ensures too_large { result ≡ Err refusals.TooLarge → IsTooLarge request.now trace.now }
{
    match &request.only {
        Some(only) => Grid::of(alloc, trace, only),
        None => {
            let letters = letters_of(alloc, trace)?;
            Grid::of(alloc, trace, letters.names())
        }
    }
}

fn picture(
    alloc: Global,
    request: &Request,
    lines: &[u8],
    grid: &Grid,
) -> Result<Output, AllocError>
    ensures { IfOk result (λ out. (out.status ≡ statuses.Good)
        × (out.text.items ≡ picture_of request.now lines.now grid.now)) }
{
    if request.svg {
        let text = svg(alloc, grid)?;
        return Ok(Output {
            status: Status::Good,
            text,
        });
    }
    let picture = text(alloc, grid, request.width)?;
    shown(alloc, Status::Good, lines, &picture)
}
