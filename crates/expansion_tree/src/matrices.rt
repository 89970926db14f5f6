//! The matrix of a fitted tree: how its leaves stand beside and above each other.

/// What the vertical paths of a tree run through (Andrews 1981). Of two parts that stand beside each other a path runs through
/// one, of two parts that stand above each other through both.
pub enum Matrix {
    /// The one path that holds the leaf of this number, from 1.
    Leaf(u64),
    /// No path.
    Closed,
    /// The one empty path.
    Empty,
    /// The paths of the first part, then those of the second.
    Beside(Box<Matrix>, Box<Matrix>),
    /// Each path of the first part joined with each of the second.
    Above(Box<Matrix>, Box<Matrix>),
}

impl Drop for Matrix {
    fn drop(mut self) {
        loop {
            match self {
                Matrix::Leaf(_) | Matrix::Closed | Matrix::Empty => return,
                Matrix::Beside(_, second) => self = Box::into_inner(second),
                Matrix::Above(_, second) => self = Box::into_inner(second),
            }
        }
    }
}
