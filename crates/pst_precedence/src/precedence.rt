//! Calls of the branches, and precedences between them.

/// A call of the branches.
#[derive(Clone, Copy, Debug, PartialEq, Eq, Drop)]
pub struct Call {
    /// The branch, from 0.
    pub branch: usize,
    /// The place in the branch, from 0.
    pub index: usize,
}

/// Two calls of the branches: the first was answered before the second began.
#[derive(Clone, Copy, Debug, PartialEq, Eq, Drop)]
pub struct Precedence {
    pub earlier: Call,
    pub later: Call,
}
