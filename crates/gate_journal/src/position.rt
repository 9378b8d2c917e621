// Where a journal stands.

/// Where a journal stands: how many bytes a half has, whether the second half is the current one, its
/// generation, and the place in it of the end gate, counted from the half's first byte.
#[derive(Clone, Copy, Debug, PartialEq, Eq)]
pub struct Position {
    pub half: u64,
    pub second: bool,
    pub generation: u64,
    pub gate: u64,
}
