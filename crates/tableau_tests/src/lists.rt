// Whole clause lists, worked by hand.
use ltl_syntax::Kind;

/// A formula, its kind, the last depth, and the clauses through it: the numbers of letters, a negated one
/// with a minus sign.
pub type List = (&'static str, Kind, u32, &'static [&'static [i64]]);

pub const LISTS: &[List] = &[
    ("false", Kind::Infinite, 0, OF_FALSEHOOD),
    ("wX false", Kind::Infinite, 1, OF_WEAK),
    ("X false", Kind::Finite, 1, OF_STRONG),
    ("p S q", Kind::Finite, 1, OF_SINCE),
    ("F p", Kind::Infinite, 1, OF_EVENTUALLY),
];

const OF_FALSEHOOD: &[&[i64]] = &[&[-6], &[-2, 6], &[-3, 4]];

const OF_WEAK: &[&[i64]] = &[
    &[-6],
    &[-2, 7],
    &[-3, 4],
    &[-4, -7],
    &[-8, 2],
    &[-12],
    &[-8, -7, 12],
    &[-8, 7, -12],
    &[-16, 7, 13],
    &[-16, -7, -13],
    &[-14, -7, 13],
    &[-14, 7, -13],
    &[14, 16],
    &[-15, 14],
    &[-9, 10, 15],
    &[-10, -13],
    &[-14, 11],
    &[-1, -14, -5],
];

const OF_STRONG: &[&[i64]] = &[
    &[-4],
    &[-2, 5],
    &[-3, -5],
    &[-6, 2],
    &[-8],
    &[-6, -5, 8],
    &[-6, 5, -8],
    &[-11, 5, 9],
    &[-11, -5, -9],
    &[-10, -5, 9],
    &[-10, 5, -9],
    &[10, 11],
    &[-7, -9],
    &[-1, -10],
];

/// `p S q` has the entries p 1, q 2, `p S q` 3 and `Y (p S q)` 4. Finite traces give state 0 the letters 2 to
/// 7 and state 1 those from 8 to 13; their pair has 14 where the carries are equal and 15 where they differ.
const OF_SINCE: &[&[i64]] = &[
    &[6, -5],
    &[6, -4, -7],
    &[-6, 5, 4],
    &[-6, 5, 7],
    &[-2, 6],
    &[-2, -7],
    &[-8, 2],
    &[12, -11],
    &[12, -10, -13],
    &[-12, 11, 10],
    &[-12, 11, 13],
    &[-8, -13, 6],
    &[-8, 13, -6],
    &[-15, 6, 12],
    &[-15, -6, -12],
    &[-14, -6, 12],
    &[-14, 6, -12],
    &[14, 15],
    &[-1, -14],
];

/// `F p` has the entries true 1, p 2, `true U p` 3 and `X (true U p)` 4, of which 3 is an eventuality. State
/// 0 has the letters 2 to 10, with 5 that it repeats and 10 that the eventuality was seen; state 1 has those
/// from 11 to 19; their pair has 20 where the carries are equal, 21 where the run closes, 22 where they
/// differ, 23 where the eventuality is fulfilled and 24 where that is new.
const OF_EVENTUALLY: &[&[i64]] = &[
    &[6],
    &[8, -7],
    &[8, -6, -9],
    &[-8, 7, 6],
    &[-8, 7, 9],
    &[-2, 8],
    &[-3, 4],
    &[-4, -9],
    &[-11, 2],
    &[15],
    &[17, -16],
    &[17, -15, -18],
    &[-17, 16, 15],
    &[-17, 16, 18],
    &[-11, -9, 17],
    &[-11, 9, -17],
    &[-22, 9, 18],
    &[-22, -9, -18],
    &[-20, -9, 18],
    &[-20, 9, -18],
    &[20, 22],
    &[-23, 16],
    &[23, -16],
    &[-21, 20],
    &[-21, -18, 23],
    &[-12, 13, 21],
    &[-13, -18],
    &[-20, 14],
    &[-20, -23, 19],
    &[-24, 18],
    &[-24, 23],
    &[-24, -10],
    &[-1, -20, -5, 24],
];
