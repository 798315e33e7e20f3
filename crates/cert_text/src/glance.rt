// What a text says, without its lines.

use ltl_syntax::Kind;

/// What the text of a certificate says at a glance.
#[derive(Clone, Copy, Drop)]
pub struct Form {
    /// 1 or 2; only version 2 has deletes.
    pub version: u32,
    /// The kind of traces that the formula is said to have none of.
    pub kind: Kind,
    /// The depth of the encoding, at most 1,000.
    pub depth: u32,
    /// The number of lines; deletes and the close are none.
    pub lines: u64,
}
