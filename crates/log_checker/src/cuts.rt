// How lines are cut: into consecutive pieces of nearly equally many bytes. Later lines are longer, so of
// equally many lines the last piece would have the most to do. The answer is right however they are cut, so
// a caller is told only that the pieces follow one another from the first line to the last.
ghost use Rattle.std.specs.Prelude.{◌≡◌, ◌-◌, ◌^◌, ◌<◌, ◌≤◌, length};
ghost use Rattle.cert_text.specs.Live.{lines_of};
ghost use Rattle.cert_text.specs.Reading.{line_start};
ghost use Rattle.log_checker.specs.Pieces.{AreCuts};

use cert_text::CertView;

/// The first line that begins at this byte or behind it, or the number of lines. Lines are counted from 0
/// here.
fn line_from(view: &CertView<'_>, byte: usize) -> u64
    ensures within { result ≤ length (lines_of view.now.parts) }
    ensures before { 0 < result → line_start view.now (result - 1) < byte }
    ensures behind { result < length (lines_of view.now.parts) → byte ≤ line_start view.now result }
{
    let mut low = 0;
    let mut high = view.lines();
    'halves: while low < high {
        let middle = low + (high - low) / 2;
        if view.place(middle + 1) < byte {
            low = middle + 1;
        } else {
            high = middle;
        }
    }
    low
}

/// Where a piece ends that begins at line `begin`, where `ended` pieces end with it. Lines are counted from 0
/// here.
fn piece_end(view: &CertView<'_>, begin: u64, ended: usize, pieces: usize) -> u64
    requires begins { begin ≤ length (lines_of view.now.parts) }
    requires some { 1 ≤ pieces }
    requires ended { ended ≤ pieces }
    ensures order { begin ≤ result }
    ensures within { result ≤ length (lines_of view.now.parts) }
{
    let lines = view.lines();
    if lines == 0 {
        return begin;
    }
    let first = view.place(1);
    let bytes = view.place(lines).saturating_sub(first) / pieces;
    let end = line_from(view, first + bytes * ended);
    // Pieces end one behind another; to test it costs less than to prove it.
    if end < begin {
        return begin;
    }
    end
}

/// Cuts all lines, which are counted from 0, into one piece less than there are cuts, and leaves in `cuts`
/// where each begins and the last one ends.
pub fn cut_lines(view: &CertView<'_>, cuts: &mut Vec<u64>)
    requires some { 2 ≤ length cuts.old.items }
    ensures cuts { AreCuts cuts.new.items (length (lines_of view.now.parts)) }
    ensures size { length cuts.new.items ≡ length cuts.old.items }
    ensures few { length (lines_of view.now.parts) < 2 ^ 64 }
{
    let pieces = cuts.len() - 1;
    cuts[0] = 0;
    'cuts: for piece in 1..pieces {
        cuts[piece] = piece_end(view, cuts[piece - 1], piece, pieces);
    }
    cuts[pieces] = view.lines();
}
