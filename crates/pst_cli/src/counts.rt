//! How many items had each result.

use crate::answer::InputRefusal;
use crate::driven_item::{DrivenItem, ItemReport};
use pst_case::Run;
use pst_judge::{Judged, Verdict, Why};
use pst_rejudge::ItemResult;

/// How many items had each result. The fields are named after the lines that the program writes.
#[derive(Drop)]
pub struct ItemResultCounts {
    /// Runs that some interleaving explains.
    pub explained: usize,
    /// Runs that no interleaving explains.
    pub unexplained: usize,
    /// Runs that no interleaving explains and in which a callback faults in some interleaving.
    pub fault: usize,
    /// Runs with a reply that is no value.
    pub broken: usize,
    /// Cases that are valid.
    pub valid: usize,
    /// Cases with a precondition that is not true.
    pub prefalse: usize,
    /// Cases in which a callback faults.
    pub casefault: usize,
    /// Items that are refused.
    pub refused: usize,
    /// Items that could not be driven.
    pub lost: usize,
    /// The first driven run with a reply that is no value, and the number of its item, from 1.
    pub first_broken: Option<(usize, Run)>,
    /// What the whole input is refused for, if it is.
    pub refusal: Option<InputRefusal>,
}

/// Adds one.
fn increment_count(count: &mut usize) {
    *count = count.saturating_add(1);
}

impl ItemResultCounts {
    /// No items.
    pub fn new() -> ItemResultCounts {
        ItemResultCounts {
            explained: 0,
            unexplained: 0,
            fault: 0,
            broken: 0,
            valid: 0,
            prefalse: 0,
            casefault: 0,
            refused: 0,
            lost: 0,
            first_broken: None,
            refusal: None,
        }
    }

    /// Counts a judged item.
    pub fn add(&mut self, judged: &Judged) {
        match judged {
            Judged::Verdict(Verdict::Explained(_)) => increment_count(&mut self.explained),
            Judged::Verdict(Verdict::Unexplained(_)) => increment_count(&mut self.unexplained),
            Judged::Verdict(Verdict::Faulted(_)) => increment_count(&mut self.fault),
            Judged::Verdict(Verdict::Broken(_)) => increment_count(&mut self.broken),
            Judged::Valid => increment_count(&mut self.valid),
            Judged::Invalid(why) => self.add_invalid_or_lost(why),
        }
    }

    /// Counts a case that is not valid, by the reason `why`. If that is `Why::NoMemory`, counts the case as lost.
    fn add_invalid_or_lost(&mut self, why: &Why) {
        match why {
            Why::PreFalse { .. } => increment_count(&mut self.prefalse),
            Why::CallbackFault { .. } => increment_count(&mut self.casefault),
            Why::NoMemory => increment_count(&mut self.lost),
        }
    }

    /// Keeps a driven run if it is the first with a reply that is no value.
    fn keep_run_if_first_broken(&mut self, number: usize, run: Run, judged: &Judged) {
        if let Judged::Verdict(Verdict::Broken(_)) = judged {
            if self.first_broken.is_none() {
                self.first_broken = Some((number, run));
            }
        }
    }

    /// Counts driven items by what became of them, and keeps the first run with a reply that is no value.
    pub(crate) fn add_driven_items(&mut self, items: Vec<DrivenItem>) {
        let mut number: usize = 0;
        for item in items {
            increment_count(&mut number);
            match item.report {
                ItemReport::Judged { run, judged } => {
                    self.add(&judged);
                    if let Some(run) = run {
                        self.keep_run_if_first_broken(number, run, &judged);
                    }
                }
                ItemReport::Lost(_) => increment_count(&mut self.lost),
            }
        }
    }

    /// Counts judged items.
    pub fn add_judged_items(&mut self, all: &[Judged]) {
        for judged in all {
            self.add(judged);
        }
    }

    /// Counts the items by their answers.
    pub fn add_item_results(&mut self, answers: &[ItemResult]) {
        for answer in answers {
            match answer {
                ItemResult::Judged(judged) => self.add(judged),
                ItemResult::Refused { .. } => increment_count(&mut self.refused),
            }
        }
    }
}
