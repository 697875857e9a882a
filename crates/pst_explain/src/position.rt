//! Positions of a search, and the commands that may come next there.

use pst_judge::{CallOrder, RecordedOrder};
use pst_reasons::Order;
use pst_scene::{Call, Calls, CasePart, Scene};
use pst_value::Value;
use std::alloc::{AllocError, Global};

/// A position of a search: how many commands of each part come before it, and the state there.
#[derive(Drop)]
pub struct GraphPosition {
    /// How many commands of the prefix, of each branch and of the suffix come before it.
    counts: Vec<usize>,
    /// The state there.
    pub state: Value,
}

/// The index of a part in the counts of a position.
fn index_of_case_part(scene: &Scene<'_>, part: CasePart) -> usize {
    match part {
        CasePart::Prefix => 0,
        CasePart::Branch(branch) => branch.saturating_add(1),
        CasePart::Suffix => scene.calls.branches.len().saturating_add(1),
    }
}

/// The order in which the calls of an item count; `None` if the item was not run. Calls of unknown outcome have no end.
pub fn recorded_order_of_item<'s>(
    alloc: Global,
    order: CallOrder,
    scene: &'s Scene<'_>,
) -> Result<Option<RecordedOrder<'s>>, AllocError> {
    match &scene.run.history {
        Some(history) if scene.has_unknown => {
            let recorded = RecordedOrder::of_calls(alloc, order, history)?;
            Ok(Some(recorded))
        }
        Some(history) => {
            let recorded = RecordedOrder::new(alloc, order, &scene.run.shaped, history)?;
            Ok(Some(recorded))
        }
        None => Ok(None),
    }
}

/// Whether the order lets a branch come next, when `done[b]` commands of each branch `b` are done.
fn is_branch_open(order: &Option<RecordedOrder<'_>>, done: &[usize], branch: usize) -> bool {
    match order {
        Some(order) => order.is_open(done, branch),
        None => true,
    }
}

/// How many of `calls` have a known outcome. Those of unknown outcome come after them.
fn count_calls_of_known_outcome(calls: &[Call<'_>]) -> usize {
    let mut count = 0usize;
    for call in calls {
        if !call.has_unknown_outcome() {
            count = count.saturating_add(1);
        }
    }
    count
}

/// The counts of the position before all commands.
fn zero_count_for_each_part(alloc: Global, scene: &Scene<'_>) -> Result<Vec<usize>, AllocError> {
    let mut counts = Vec::new(alloc);
    counts.push(0)?;
    for _branch in &scene.calls.branches {
        counts.push(0)?;
    }
    counts.push(0)?;
    Ok(counts)
}

impl GraphPosition {
    /// The position before all commands.
    pub fn initial(
        alloc: Global,
        scene: &Scene<'_>,
        state: Value,
    ) -> Result<GraphPosition, AllocError> {
        let counts = zero_count_for_each_part(alloc, scene)?;
        Ok(GraphPosition { counts, state })
    }

    /// The position after `calls`, which lead to `state`.
    pub fn after_calls(
        alloc: Global,
        scene: &Scene<'_>,
        calls: &[Call<'_>],
        state: &Value,
    ) -> Result<GraphPosition, AllocError> {
        let mut counts = zero_count_for_each_part(alloc, scene)?;
        for call in calls {
            if let Some(count) = counts.get_mut(index_of_case_part(scene, call.part)) {
                *count = count.saturating_add(1);
            }
        }
        let state = state.copy(alloc)?;
        Ok(GraphPosition { counts, state })
    }

    /// A position that is equal to this one.
    pub fn copy(&self, alloc: Global) -> Result<GraphPosition, AllocError> {
        Ok(GraphPosition {
            counts: Vec::from_slice(alloc, self.counts.as_slice())?,
            state: self.state.copy(alloc)?,
        })
    }

    /// Whether the two positions are equal.
    pub fn equals(&self, other: &GraphPosition) -> bool {
        self.counts.as_slice() == other.counts.as_slice() && self.state == other.state
    }

    /// How many commands of the prefix, of each branch and of the suffix are before the position.
    pub fn call_counts_by_part(&self) -> &[usize] {
        self.counts.as_slice()
    }

    /// How many commands come before the position.
    pub fn number_of_calls_before(&self) -> usize {
        let mut level = 0usize;
        for count in &self.counts {
            level = level.saturating_add(*count);
        }
        level
    }

    /// The position after the next command of `part`, which leads to `state`.
    pub fn after_call(
        &self,
        alloc: Global,
        scene: &Scene<'_>,
        part: CasePart,
        state: Value,
    ) -> Result<GraphPosition, AllocError> {
        let wanted = index_of_case_part(scene, part);
        let mut counts = Vec::new(alloc);
        for (number, count) in self.counts.iter().enumerate() {
            let more = usize::from(number == wanted);
            counts.push(count.saturating_add(more))?;
        }
        Ok(GraphPosition { counts, state })
    }

    /// The next command of a part.
    fn next_call_of_part<'a>(
        &self,
        scene: &Scene<'_>,
        part: CasePart,
        calls: &[Call<'a>],
    ) -> Option<Call<'a>> {
        let count = self.counts.get(index_of_case_part(scene, part))?;
        calls.get(*count).copied()
    }

    /// How many commands of each branch are before the position.
    fn call_counts_by_branch(&self, scene: &Scene<'_>) -> &[usize] {
        let end = scene.calls.branches.len().saturating_add(1);
        self.counts.as_slice().get(1..end).unwrap_or(&[])
    }

    /// The next command of each branch that the order lets come next.
    fn next_calls_of_open_branches<'a>(
        &self,
        alloc: Global,
        scene: &Scene<'a>,
        order: &Option<RecordedOrder<'_>>,
    ) -> Result<Vec<Call<'a>>, AllocError> {
        let done = self.call_counts_by_branch(scene);
        let mut next = Vec::new(alloc);
        for (number, branch) in scene.counted.branches.iter().enumerate() {
            let part = CasePart::Branch(number);
            if let Some(call) = self.next_call_of_part(scene, part, branch.as_slice()) {
                if is_branch_open(order, done, number) {
                    next.push(call)?;
                }
            }
        }
        Ok(next)
    }

    /// Whether the calls of a part that have a known outcome are before the position.
    fn is_behind_known_calls_of_part(
        &self,
        scene: &Scene<'_>,
        part: CasePart,
        calls: &[Call<'_>],
    ) -> bool {
        match self.counts.get(index_of_case_part(scene, part)) {
            Some(count) => *count >= count_calls_of_known_outcome(calls),
            None => true,
        }
    }

    /// Whether the calls of the branches that have a known outcome are before the position.
    fn is_behind_known_calls_of_branches(&self, scene: &Scene<'_>) -> bool {
        for (number, branch) in scene.counted.branches.iter().enumerate() {
            let part = CasePart::Branch(number);
            if !self.is_behind_known_calls_of_part(scene, part, branch.as_slice()) {
                return false;
            }
        }
        true
    }

    /// Whether all calls that have a known outcome are before the position.
    pub fn is_at_end(&self, scene: &Scene<'_>) -> bool {
        let Calls { prefix, suffix, .. } = &scene.counted;
        self.is_behind_known_calls_of_part(scene, CasePart::Prefix, prefix.as_slice())
            && self.is_behind_known_calls_of_branches(scene)
            && self.is_behind_known_calls_of_part(scene, CasePart::Suffix, suffix.as_slice())
    }

    /// The calls that may come next after the calls of the prefix that answered, in a run in which calls have unknown
    /// outcomes: one of each branch that the order lets come next, that of unknown outcome in the prefix, and that of the
    /// suffix if the calls of the branches that answered are done.
    fn next_calls_with_unknown_outcomes<'a>(
        &self,
        alloc: Global,
        scene: &Scene<'a>,
        order: &Option<RecordedOrder<'_>>,
    ) -> Result<Vec<Call<'a>>, AllocError> {
        let Calls { prefix, suffix, .. } = &scene.counted;
        if self.is_at_end(scene) {
            return Ok(Vec::new(alloc));
        }
        let mut next = self.next_calls_of_open_branches(alloc, scene, order)?;
        if let Some(call) = self.next_call_of_part(scene, CasePart::Prefix, prefix.as_slice()) {
            next.push(call)?;
        }
        if self.is_behind_known_calls_of_branches(scene) {
            if let Some(call) = self.next_call_of_part(scene, CasePart::Suffix, suffix.as_slice()) {
                next.push(call)?;
            }
        }
        Ok(next)
    }

    /// The commands that may come next: that of the prefix, or one of each branch that the order lets come next, or that
    /// of the suffix. A call of unknown outcome may come later than that.
    pub fn next_calls<'a>(
        &self,
        alloc: Global,
        scene: &Scene<'a>,
        order: &Option<RecordedOrder<'_>>,
    ) -> Result<Vec<Call<'a>>, AllocError> {
        let Calls { prefix, suffix, .. } = &scene.counted;
        let mut one = Vec::new(alloc);
        if let Some(call) = self.next_call_of_part(scene, CasePart::Prefix, prefix.as_slice()) {
            if !call.has_unknown_outcome() {
                one.push(call)?;
                return Ok(one);
            }
        }
        if scene.has_unknown {
            return self.next_calls_with_unknown_outcomes(alloc, scene, order);
        }
        let next = self.next_calls_of_open_branches(alloc, scene, order)?;
        if !next.is_empty() {
            return Ok(next);
        }
        if let Some(call) = self.next_call_of_part(scene, CasePart::Suffix, suffix.as_slice()) {
            one.push(call)?;
        }
        Ok(one)
    }
}
