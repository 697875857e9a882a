//! Which interleavings count: an order closes a branch until commands of other branches are done.
ghost use Rattle.std.specs.Prelude.{◌≡◌, ℕ, List, Bool};
ghost use Rattle.pst_grid.specs.Orders.{any_order};

/// Says which branches are open at each position. An interleaving is in order if each of its commands comes where its
/// branch is open.
pub trait Order {
    // Whether a branch is open, where so many commands of each branch are done.
    ghost order: { Self → List ℕ → ℕ → Bool };

    /// Whether the next command of `branch` (from 0) may come next, when `done[b]` commands of each branch `b` are done.
    fn is_open(&self, done: &[usize], branch: usize) -> bool
        ensures { result ≡ order self.now done.now branch };
}

/// The order in which every branch is always open: all interleavings are in it.
#[derive(Clone, Copy, Drop)]
pub struct AnyOrder;

impl Order for AnyOrder {
    ghost order = { λ _. any_order };

    fn is_open(&self, _done: &[usize], _branch: usize) -> bool {
        true
    }
}
