// The entries of a closure.

/// An entry of a closure. A number in it is an entry's, from 1; that of `Letter` and of `Fresh` is the
/// table's.
#[derive(Clone, Copy, Debug, PartialEq, Eq)]
pub enum Entry {
    True,
    False,
    Letter(u32),
    Fresh(u32),
    NotLetter(u32),
    And(u32, u32),
    Or(u32, u32),
    Until { left: u32, right: u32, request: u32 },
    Release { left: u32, right: u32, request: u32 },
    Since { left: u32, right: u32, request: u32 },
    Trigger { left: u32, right: u32, request: u32 },
    Next { argument: u32, weak: bool },
    Yesterday { argument: u32, weak: bool },
}
