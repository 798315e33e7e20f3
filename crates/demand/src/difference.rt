// Where two lists of values differ.
ghost use Rattle.std.specs.Prelude.{◌≡◌};
ghost use Rattle.demand.specs.Values.{difference};

/// The first place at which the two lists differ: that of the first two values that do, or that behind the
/// shorter list.
pub fn first_difference(left: &[bool], right: &[bool]) -> Option<usize>
    ensures { result ≡ difference left.now right.now }
{
    let shorter = left.len().min(right.len());
    for place in 0..shorter {
        if left[place] != right[place] {
            return Some(place);
        }
    }
    if left.len() != right.len() {
        return Some(shorter);
    }
    None
}
