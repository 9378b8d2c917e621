// Which gate is in doubt.

/// Which gate may be open or closed after a crash, since its write or the sync after that failed.
#[derive(Clone, Copy, Debug, PartialEq, Eq)]
pub enum Doubt {
    Nothing,
    Piece,
    Half,
}
