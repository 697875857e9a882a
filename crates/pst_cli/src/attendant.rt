//! Watchers of the progress of a command.

use crate::answer::InputRefusal;
use pst_rejudge::ProgressCounter;

/// A watcher of the progress of a command. It changes nothing of what is written.
pub trait Attendant {
    /// The counter of the steps that the command has done. The command counts in it, and never reads it.
    fn steps(&self) -> &ProgressCounter;

    /// Called once, when the answer is known and before its first byte is written. `refusal` is what the answer
    /// refuses the whole input for, if it does.
    fn before_output(&mut self, refusal: Option<InputRefusal>);
}

/// One who counts the steps, and does nothing else.
#[derive(Drop)]
pub struct Unattended(ProgressCounter);

impl Unattended {
    /// No steps are done.
    pub fn new() -> Unattended {
        Unattended(ProgressCounter::new())
    }
}

impl Attendant for Unattended {
    fn steps(&self) -> &ProgressCounter {
        &self.0
    }

    fn before_output(&mut self, _refusal: Option<InputRefusal>) {}
}
