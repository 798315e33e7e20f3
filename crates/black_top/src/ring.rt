// The formula of a token ring, as its printed text. Its parts are joined to the left, so that the parentheses
// of all conjunctions open at the front.
ghost use Rattle.std.specs.Prelude.{◌≡◌, ◌+◌, ◌-◌, ◌≤◌, ◌<◌, ◌++◌, replicate, IfOk, OnOk};
ghost use Rattle.ltl_syntax.specs.Print.{text_of};
ghost use Rattle.enc_layout.specs.Letters.{below};
ghost use Rattle.black_top.specs.Demo.{ring, place, apart};
ghost use Rattle.black_top.specs.Ring.{part_text, move_text, return_text, later_text};

use itoa::Buffer;
use std::alloc::{AllocError, Global};

/// The text of the ring with this number of places. A token stands at one of them, moves on to the next in
/// each step, and from the last one to the first.
pub fn demo_text(alloc: Global, number: u32) -> Result<Vec<u8>, AllocError>
    requires low { 2 ≤ number }
    requires high { number ≤ 64 }
    ensures { IfOk result (λ text. text.items ≡ text_of (ring number)) }
{
    let mut text = Vec::new(alloc);
    push_opening(2 * number + number * (number - 1) / 2, &mut text)?;
    push_place(0, &mut text)?;
    push_moves(number, &mut text)?;
    push_returns(number, &mut text)?;
    push_all_apart(number, &mut text)?;
    Ok(text)
}

fn push_opening(count: u32, text: &mut Vec<u8>) -> Result<(), AllocError>
    ensures { OnOk result (text.new.items ≡ text.old.items ++ replicate count 40) }
{
    'parts: for _part in 0..count {
        text.push(b'(')?;
    }
    Ok(())
}

fn push_place(index: u32, text: &mut Vec<u8>) -> Result<(), AllocError>
    ensures { OnOk result (text.new.items ≡ text.old.items ++ text_of (place index)) }
{
    let mut buffer = Buffer::new();
    text.push(b'p')?;
    text.extend_from_slice(buffer.format(index).as_bytes())
}

#[tactic(auto, using(crate::proofs::Joining::piece_behind))]
fn push_moves(number: u32, text: &mut Vec<u8>) -> Result<(), AllocError>
    requires few { number ≤ 64 }
    ensures { OnOk result (text.new.items ≡ text.old.items ++ below number (move_text number)) }
{
    'places: for index in 0..number {
        push_move(number, index, text)?;
    }
    Ok(())
}

fn push_move(number: u32, index: u32, text: &mut Vec<u8>) -> Result<(), AllocError>
    requires few { index < 64 }
    ensures { OnOk result (text.new.items ≡ text.old.items ++ move_text number index) }
{
    let behind = if index + 1 < number { index + 1 } else { 0 };
    text.extend_from_slice(b" & G (")?;
    push_place(index, text)?;
    text.extend_from_slice(b" -> X ")?;
    push_place(behind, text)?;
    text.extend_from_slice(b"))")?;
    Ok(())
}

#[tactic(auto, using(crate::proofs::Joining::piece_behind))]
fn push_returns(number: u32, text: &mut Vec<u8>) -> Result<(), AllocError>
    ensures { OnOk result (text.new.items ≡ text.old.items ++ below number return_text) }
{
    'places: for index in 0..number {
        push_return(index, text)?;
    }
    Ok(())
}

fn push_return(index: u32, text: &mut Vec<u8>) -> Result<(), AllocError>
    ensures { OnOk result (text.new.items ≡ text.old.items ++ return_text index) }
{
    text.extend_from_slice(b" & G F ")?;
    push_place(index, text)?;
    text.extend_from_slice(b")")?;
    Ok(())
}

#[tactic(auto, using(crate::proofs::Joining::piece_behind))]
fn push_all_apart(number: u32, text: &mut Vec<u8>) -> Result<(), AllocError>
    requires few { number ≤ 64 }
    ensures { OnOk result (text.new.items ≡ text.old.items ++ below number (later_text number)) }
{
    'places: for index in 0..number {
        push_later_apart(number, index, text)?;
    }
    Ok(())
}

#[tactic(auto, using(crate::proofs::Joining::piece_behind))]
fn push_later_apart(number: u32, index: u32, text: &mut Vec<u8>) -> Result<(), AllocError>
    requires few { number ≤ 64 }
    requires inside { index < number }
    ensures { OnOk result (text.new.items ≡ text.old.items ++ later_text number index) }
{
    'later: for count in 0..number - (index + 1) {
        push_apart(index, index + 1 + count, text)?;
    }
    Ok(())
}

fn push_apart(index: u32, later: u32, text: &mut Vec<u8>) -> Result<(), AllocError>
    ensures { OnOk result (text.new.items ≡ text.old.items ++ part_text (apart index later)) }
{
    text.extend_from_slice(b" & G !(")?;
    push_place(index, text)?;
    text.extend_from_slice(b" & ")?;
    push_place(later, text)?;
    text.extend_from_slice(b"))")?;
    Ok(())
}
