// Where a list of watchers stands in the pool.
ghost use Rattle.std.specs.Prelude.{◌≡◌, ◌<◌};
ghost use Rattle.cdcl_watches.specs.Pool.{room_of};

/// A list begins at `from` in the pool and has `len` watchers. Its block has room for 2, 3, 4, 6, 8, 12 and
/// so on by its class, from 1 on; a list of class 0 has no block.
#[derive(Clone, Copy, Drop)]
pub struct Span {
    pub from: u32,
    pub len: u32,
    pub class: u32,
}

/// A list without a block.
pub const NOWHERE: Span = Span {
    from: 0,
    len: 0,
    class: 0,
};

/// The number of watchers that have room in a block of the class.
pub fn room(class: u32) -> u32
    requires { class < 63 }
    ensures { result ≡ room_of class }
{
    if class == 0 {
        return 0;
    }
    let doubled = (class - 1) / 2;
    let first = 2 + (class - 1) % 2;
    first << doubled
}
