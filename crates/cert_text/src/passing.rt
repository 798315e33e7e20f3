// The pass over a piece of a text. Behind the header each line of the text begins at the same place of the
// pass but for the count of the lines before it. So a piece may be gone over before the pieces in front of
// it are.
ghost use Rattle.std.specs.Prelude.{◌≡◌, ℕ, ◌+◌, ◌<◌, ◌≤◌, ◌^◌, List, [], Some, None, length, take, IfSome};
ghost use Rattle.cert_text.specs.Passes.{small_run, LeadsTo, IsPassed};
ghost use Rattle.cert_text.specs.declared.scanning.Place.TheVariants as places;

use crate::scanning::{Head, Place, advance};
use crate::skipping::skip;

/// A piece of the text, and the place to which the pass over it comes where nothing must come behind it.
#[derive(Clone, Copy, Drop)]
pub struct Piece {
    pub from: usize,
    pub to: usize,
    pub came: Option<Place>,
}

/// To where the pass goes on over these bytes from some place, where nothing must come behind them.
pub fn pass(bytes: &[u8], first: &'static [u8], from: Place) -> Option<Place>
    requires { (before : List ℕ) × LeadsTo before first.now from
        × (length before + length bytes.now < 2 ^ 64) }
    ensures { IfSome result (λ place. small_run first.now from bytes.now ≡ Some ([], place)) }
{
    let mut left = first;
    let mut place = from;
    let mut index = 0;
    'bytes: while index < bytes.len() {
        let Some(found) = advance(left, place, bytes[index]) else {
            return None;
        };
        left = found.0;
        place = found.1;
        index = skip(bytes, index + 1, left, place);
    }
    if !left.is_empty() {
        return None;
    }
    Some(place)
}

/// Goes over a piece that stands behind the header, as if it followed the header.
pub fn pass_piece(bytes: &[u8], head: Head, start: usize, piece: &mut Piece)
    requires start { start ≤ length bytes.now }
    requires led { LeadsTo (take start bytes.now) [] (places.Part head) }
    ensures { IsPassed bytes.now head piece.new }
{
    piece.came = None;
    if piece.from < start || piece.to < piece.from || piece.to > bytes.len() {
        return;
    }
    piece.came = pass(&bytes[piece.from..piece.to], b"", Place::Part(head));
}
