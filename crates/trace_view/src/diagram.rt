// The grid as a timing diagram. Coordinates are 128 bits wide, so that no width of a name and no number of
// states is too great for them.
ghost use Rattle.std.specs.Prelude.{◌≡◌, ◌+◌, ◌*◌, ◌++◌, IfOk, OnOk};
ghost use Rattle.trace_view.specs.Text.{below};
ghost use Rattle.trace_view.specs.Diagram.{x_of, level, bottom, worded, escaped_byte, escaped, style};
ghost use Rattle.trace_view.specs.Diagram.{opening};
ghost use Rattle.trace_view.specs.Diagram.{sheet, band, edge, edges, numeral, stroke, wave, title};
ghost use Rattle.trace_view.specs.Diagram.{lanes_from};
ghost use Rattle.trace_view.specs.Diagram.{arrow, head, band_of, arrow_of, picture, svg};

use crate::Grid;
use crate::grid::Row;
use crate::names::{shown, widest};
use itoa::Buffer;
use std::alloc::{AllocError, Global};

const STYLE: [&[u8]; 4] = [
    b"<style type='text/css'>\n\
      .paper{fill:#ffffff}\n\
      .loop{fill:#0969da;fill-opacity:0.12}\n\
      .edge{fill:none;stroke:#8c959f;stroke-opacity:0.4}\n",
    b".lane{fill:#0969da;fill-opacity:0.2;stroke:#0969da;stroke-width:2}\n\
      .back{fill:none;stroke:#bc4c00;stroke-width:2}\n\
      .head{fill:#bc4c00}\n",
    b"text{fill:#1f2328;font-family:'DejaVu Sans Mono',Consolas,monospace}\n\
      .name{font-size:15px}\n\
      .number{font-size:12px;text-anchor:middle}\n",
    b"@media (prefers-color-scheme:dark){\n\
      .paper{fill:#0d1117}\n\
      .loop{fill:#58a6ff}\n\
      .lane{fill:#58a6ff;stroke:#58a6ff}\n\
      .back{stroke:#f0883e}\n\
      .head{fill:#f0883e}\n\
      text{fill:#e6edf3}\n\
      }\n\
      </style>\n",
];

/// The grid as a picture in SVG 1.1, without scripts, with colours for light and for dark screens. A lane is
/// high where its letter is true; a loop is a band with an arrow back to its first state.
pub fn svg(alloc: Global, grid: &Grid) -> Result<Vec<u8>, AllocError>
    ensures { IfOk result (λ picture. picture.items ≡ svg grid.now) }
{
    let names = widest(alloc, grid.rows())?;
    let lanes = grid.rows().len();
    let mut svg = Vec::new(alloc);
    let width = x_of(names, grid.states()) + 16;
    add_opening(width, bottom(lanes) + 36, &mut svg)?;
    add_sheet(width, bottom(lanes) + 36, &mut svg)?;
    add_band_of(names, lanes, grid, &mut svg)?;
    add_edges(names, lanes, grid.states(), &mut svg)?;
    add_numerals(names, grid.states(), &mut svg)?;
    add_lanes(alloc, names, grid, &mut svg)?;
    add_arrow_of(names, lanes, grid, &mut svg)?;
    svg.extend_from_slice(b"</svg>\n")?;
    Ok(svg)
}

/// The left edge of a state.
fn x_of(names: usize, state: usize) -> u128
    ensures { result ≡ x_of names state }
{
    24 + 9 * names as u128 + 40 * state as u128
}

/// The level of a lane where its letter is true, or false.
fn level(lane: usize, holds: bool) -> u128
    ensures { result ≡ level lane holds }
{
    if holds {
        48 + 36 * lane as u128
    } else {
        68 + 36 * lane as u128
    }
}

/// Below the lanes.
fn bottom(lanes: usize) -> u128
    ensures { result ≡ bottom lanes }
{
    44 + 36 * lanes as u128
}

fn add_worded(words: &[u8], number: u128, svg: &mut Vec<u8>) -> Result<(), AllocError>
    ensures { OnOk result (svg.new.items ≡ svg.old.items ++ worded words.now number) }
{
    let mut buffer = Buffer::new();
    svg.extend_from_slice(words)?;
    svg.extend_from_slice(buffer.format(number).as_bytes())
}

fn add_opening(width: u128, height: u128, svg: &mut Vec<u8>) -> Result<(), AllocError>
    ensures { OnOk result (svg.new.items ≡ svg.old.items ++ opening width height) }
{
    add_worded(
        b"<?xml version='1.0' encoding='UTF-8'?>\n<svg xmlns='http://www.w3.org/2000/svg' version='1.1' width='",
        width,
        svg,
    )?;
    add_worded(b"' height='", height, svg)?;
    add_worded(b"' viewBox='0 0 ", width, svg)?;
    add_worded(b" ", height, svg)?;
    svg.extend_from_slice(b"'>\n<title>A trace</title>\n")?;
    add_style(svg)?;
    Ok(())
}

fn add_style(svg: &mut Vec<u8>) -> Result<(), AllocError>
    ensures { OnOk result (svg.new.items ≡ svg.old.items ++ style) }
{
    svg.extend_from_slice(STYLE[0])?;
    svg.extend_from_slice(STYLE[1])?;
    svg.extend_from_slice(STYLE[2])?;
    svg.extend_from_slice(STYLE[3])?;
    Ok(())
}

fn add_sheet(width: u128, height: u128, svg: &mut Vec<u8>) -> Result<(), AllocError>
    ensures { OnOk result (svg.new.items ≡ svg.old.items ++ sheet width height) }
{
    add_worded(b"<rect class='paper' width='", width, svg)?;
    add_worded(b"' height='", height, svg)?;
    svg.extend_from_slice(b"'/>\n")?;
    Ok(())
}

fn add_band_of(names: usize, lanes: usize, grid: &Grid, svg: &mut Vec<u8>) -> Result<(), AllocError>
    ensures { OnOk result (svg.new.items
        ≡ svg.old.items ++ band_of names lanes grid.now.states grid.now.loop_at) }
{
    match grid.loop_at() {
        Some(start) => add_band(names, lanes, grid.states(), start, svg),
        None => Ok(()),
    }
}

fn add_band(
    names: usize,
    lanes: usize,
    states: usize,
    start: usize,
    svg: &mut Vec<u8>,
) -> Result<(), AllocError>
    ensures { OnOk result (svg.new.items ≡ svg.old.items ++ band names lanes states start) }
{
    let width = 40 * states.saturating_sub(start) as u128;
    add_worded(b"<rect class='loop' x='", x_of(names, start), svg)?;
    add_worded(b"' y='36' width='", width, svg)?;
    add_worded(b"' height='", 8 + 36 * lanes as u128, svg)?;
    svg.extend_from_slice(b"'/>\n")?;
    Ok(())
}

#[tactic(auto, using(crate::proofs::Pieces::piece_behind))]
fn add_edges(names: usize, lanes: usize, states: usize, svg: &mut Vec<u8>) -> Result<(), AllocError>
    ensures { OnOk result (svg.new.items ≡ svg.old.items ++ edges names lanes states) }
{
    svg.extend_from_slice(b"<path class='edge' d='")?;
    'states: for state in 0..states {
        add_edge(names, lanes, state, svg)?;
    }
    add_edge(names, lanes, states, svg)?;
    svg.extend_from_slice(b"'/>\n")?;
    Ok(())
}

fn add_edge(names: usize, lanes: usize, state: usize, svg: &mut Vec<u8>) -> Result<(), AllocError>
    ensures { OnOk result (svg.new.items ≡ svg.old.items ++ edge names lanes state) }
{
    add_worded(b"M", x_of(names, state), svg)?;
    add_worded(b" 36V", bottom(lanes), svg)
}

#[tactic(auto, using(crate::proofs::Pieces::piece_behind))]
fn add_numerals(names: usize, states: usize, svg: &mut Vec<u8>) -> Result<(), AllocError>
    ensures { OnOk result (svg.new.items ≡ svg.old.items ++ below states (numeral names)) }
{
    'states: for state in 0..states {
        add_numeral(names, state, svg)?;
    }
    Ok(())
}

fn add_numeral(names: usize, state: usize, svg: &mut Vec<u8>) -> Result<(), AllocError>
    ensures { OnOk result (svg.new.items ≡ svg.old.items ++ numeral names state) }
{
    add_worded(b"<text class='number' x='", x_of(names, state) + 20, svg)?;
    add_worded(b"' y='30'>", state as u128, svg)?;
    svg.extend_from_slice(b"</text>\n")?;
    Ok(())
}

fn add_lanes(alloc: Global, names: usize, grid: &Grid, svg: &mut Vec<u8>) -> Result<(), AllocError>
    ensures { OnOk result (svg.new.items
        ≡ svg.old.items ++ lanes_from names grid.now.states 0 grid.now.rows) }
{
    let mut lane = 0;
    for row in grid.rows() {
        add_title(alloc, lane, row, svg)?;
        add_wave(names, grid.states(), lane, row, svg)?;
        lane += 1;
    }
    Ok(())
}

fn add_title(alloc: Global, lane: usize, row: &Row, svg: &mut Vec<u8>) -> Result<(), AllocError>
    ensures { OnOk result (svg.new.items ≡ svg.old.items ++ title lane row.now) }
{
    let name = shown(alloc, row.name())?;
    add_worded(
        b"<text class='name' x='12' y='",
        63 + 36 * lane as u128,
        svg,
    )?;
    svg.extend_from_slice(b"'>")?;
    add_escaped(name.as_bytes(), svg)?;
    svg.extend_from_slice(b"</text>\n")?;
    Ok(())
}

/// Adds a text, with an entity in place of each byte that XML would read as markup.
fn add_escaped(text: &[u8], svg: &mut Vec<u8>) -> Result<(), AllocError>
    ensures { OnOk result (svg.new.items ≡ svg.old.items ++ escaped text.now) }
{
    for byte in text {
        add_escaped_byte(*byte, svg)?;
    }
    Ok(())
}

fn add_escaped_byte(byte: u8, svg: &mut Vec<u8>) -> Result<(), AllocError>
    ensures { OnOk result (svg.new.items ≡ svg.old.items ++ escaped_byte byte) }
{
    match byte {
        b'&' => svg.extend_from_slice(b"&amp;"),
        b'<' => svg.extend_from_slice(b"&lt;"),
        b'>' => svg.extend_from_slice(b"&gt;"),
        _ => {
            svg.push(byte)?;
            Ok(())
        }
    }
}

#[tactic(auto, using(crate::proofs::Pieces::piece_behind))]
fn add_wave(
    names: usize,
    states: usize,
    lane: usize,
    row: &Row,
    svg: &mut Vec<u8>,
) -> Result<(), AllocError>
    ensures { OnOk result (svg.new.items ≡ svg.old.items ++ wave names states lane row.now) }
{
    add_worded(b"<path class='lane' d='M", x_of(names, 0), svg)?;
    add_worded(b" ", level(lane, false), svg)?;
    'states: for state in 0..states {
        add_stroke(names, lane, row, state, svg)?;
    }
    add_worded(b"V", level(lane, false), svg)?;
    svg.extend_from_slice(b"'/>\n")?;
    Ok(())
}

fn add_stroke(
    names: usize,
    lane: usize,
    row: &Row,
    state: usize,
    svg: &mut Vec<u8>,
) -> Result<(), AllocError>
    ensures { OnOk result (svg.new.items ≡ svg.old.items ++ stroke names lane row.now state) }
{
    add_worded(b"V", level(lane, row.is_filled(state)), svg)?;
    add_worded(b"H", x_of(names, state) + 40, svg)
}

fn add_arrow_of(
    names: usize,
    lanes: usize,
    grid: &Grid,
    svg: &mut Vec<u8>,
) -> Result<(), AllocError>
    ensures { OnOk result (svg.new.items
        ≡ svg.old.items ++ arrow_of names lanes grid.now.states grid.now.loop_at) }
{
    let Some(start) = grid.loop_at() else {
        return Ok(());
    };
    add_arrow(names, lanes, grid.states(), start, svg)?;
    add_head(names, lanes, start, svg)?;
    Ok(())
}

fn add_arrow(
    names: usize,
    lanes: usize,
    states: usize,
    start: usize,
    svg: &mut Vec<u8>,
) -> Result<(), AllocError>
    ensures { OnOk result (svg.new.items ≡ svg.old.items ++ arrow names lanes states start) }
{
    let last = states.saturating_sub(1);
    add_worded(b"<path class='back' d='M", x_of(names, last) + 28, svg)?;
    add_worded(b" ", bottom(lanes), svg)?;
    add_worded(b"V", bottom(lanes) + 20, svg)?;
    add_worded(b"H", x_of(names, start) + 12, svg)?;
    add_worded(b"V", bottom(lanes) + 4, svg)?;
    svg.extend_from_slice(b"'/>\n")?;
    Ok(())
}

fn add_head(names: usize, lanes: usize, start: usize, svg: &mut Vec<u8>) -> Result<(), AllocError>
    ensures { OnOk result (svg.new.items ≡ svg.old.items ++ head names lanes start) }
{
    add_worded(b"<path class='head' d='M", x_of(names, start) + 12, svg)?;
    add_worded(b" ", bottom(lanes), svg)?;
    svg.extend_from_slice(b"l5 9h-10Z'/>\n")?;
    Ok(())
}
