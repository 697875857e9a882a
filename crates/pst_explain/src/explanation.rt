//! The explanation of an item.
ghost use Rattle.std.specs.Prelude.{◌≡◌, true};
ghost use Rattle.pst_case.specs.Matches.{matches};
ghost use Rattle.pst_judge.specs.ByOrder.{IsVerdictBy};
ghost use Rattle.pst_judge.specs.Judgement.{HistoryMatches, IsJudgementBy};
ghost use Rattle.pst_reasons.specs.Answered.{IsAnsweredRun};
ghost use Rattle.pst_reasons.specs.Reasons.{IsUnexplained};

use crate::bounded::StepLimitedCallbacks;
use crate::breaking::{BreakingCall, breaking_call_numbered};
use crate::cores::{Core, find_core_for_explanation};
use crate::failures::{
    Failure, failure_at_fault_place, failure_in_unknown_interleaving,
    failure_of_call_in_interleaving,
};
use crate::obstacles::{RuledOut, obstacles_within_limit};
use crate::places::TreePlace;
use crate::unknown::{
    failure_in_first_fault_with_unknown_outcomes, furthest_states_with_unknown_outcomes,
    states_of_explaining_letters,
};
use crate::unknown_cores::find_core_with_unknown_outcomes;
use crate::walks::{
    InterleavingStates, furthest_interleaving_with_blocked_calls, states_of_explaining_interleaving,
};
use pst_case::{History, Run};
use pst_eval::{Callback, Callbacks, FaultPlace};
use pst_judge::{
    CallOrder, Judged, RecordedOrder, Verdict, Why, verdict_with_interleaving_in_order,
};
use pst_model::Typed;
use pst_reasons::{AnyOrder, Order, RecordedRun};
use pst_scene::{CasePart, Scene, call_numbered, scene_of_run};
use std::alloc::{AllocError, Global};

/// The steps that the searches for the explanation of an item may take, as `StepLimitedCallbacks` counts them.
pub const MOST_STEPS: u64 = 2_000_000;

/// The reason of the judgement of an item.
#[derive(Drop)]
pub enum JudgementReason<'a> {
    /// The interleaving explains it.
    Explained(InterleavingStates<'a>),
    /// No interleaving explains it, and none faults.
    Unexplained {
        /// How many commands are right before a wrong one, in the interleaving that gets furthest.
        far: usize,
        /// `None` if its search takes too many steps.
        core: Option<Core<'a>>,
        /// The interleaving that gets furthest; `None` if its search takes too many steps.
        furthest: Option<InterleavingStates<'a>>,
    },
    /// No interleaving explains it, and a callback faults in one.
    Faulted {
        failure: Failure<'a>,
        /// `None` if its search takes too many steps.
        core: Option<Core<'a>>,
    },
    /// A reply is not a value.
    Broken(BreakingCall<'a>),
    /// A case is not valid.
    Invalid(Failure<'a>),
    /// There is nothing to explain, as for a valid case.
    Nothing,
}

impl<'a> JudgementReason<'a> {
    /// The answers that cannot all be right, if no interleaving explains the item and they are known.
    pub fn core(&self) -> Option<&Core<'a>> {
        match self {
            JudgementReason::Unexplained { core, .. } | JudgementReason::Faulted { core, .. } =>
                core.as_ref(),
            _ => None,
        }
    }

    /// Whether a part of the explanation is left out, because its search takes too many steps.
    pub fn has_part_left_out(&self) -> bool {
        match self {
            JudgementReason::Unexplained { core, .. } | JudgementReason::Faulted { core, .. } =>
                match core {
                    Some(core) => core.is_cut || self.interleaving().is_none(),
                    None => true,
                },
            _ => false,
        }
    }

    /// The callback that fails, if one does.
    pub fn failure(&self) -> Option<&Failure<'a>> {
        match self {
            JudgementReason::Faulted { failure, .. } | JudgementReason::Invalid(failure) => Some(
                failure,
            ),
            _ => None,
        }
    }

    /// The interleaving of the verdict, if there is one and it is known.
    pub fn interleaving(&self) -> Option<&InterleavingStates<'a>> {
        match self {
            JudgementReason::Explained(walk) => Some(walk),
            JudgementReason::Unexplained { furthest, .. } => furthest.as_ref(),
            JudgementReason::Faulted { failure, .. } | JudgementReason::Invalid(failure) => failure
                .walk
                .as_ref(),
            _ => None,
        }
    }
}

/// The explanation of an item: its judgement and why it is so.
#[derive(Drop)]
pub struct Explanation<'a> {
    /// The number of the item, from 1.
    pub number: usize,
    /// The place in the input at which the item begins, if it is known.
    pub place: Option<TreePlace<'a>>,
    pub judged: &'a Judged,
    /// The item and its model.
    pub scene: Scene<'a>,
    pub reason: JudgementReason<'a>,
    /// Whether only the interleavings in the order of the recorded times count.
    pub is_timed: bool,
    /// What the order in time rules out.
    pub ruled_out: RuledOut,
}

impl<'a> Explanation<'a> {
    /// Which interleavings count.
    pub fn call_order(&self) -> CallOrder {
        if self.is_timed {
            CallOrder::Time
        } else {
            CallOrder::Any
        }
    }
}

/// Returns a core, unless the steps of the callbacks do not last for it.
fn core_within_step_limit<'a, C: Callbacks, O: Order>(
    run: &RecordedRun<'_, StepLimitedCallbacks<'_, C>, O>,
    scene: &Scene<'a>,
) -> Result<Option<Core<'a>>, AllocError>
    requires model { scene.now.model.now ≡ C.model run.now.callbacks.now.callbacks.now }
    requires answered { let r = run.now in
        IsAnsweredRun (C.model r.callbacks.now.callbacks.now) (O.order r.order.now) r.shaped.now r.history.now }
    requires unexplained { let r = run.now in IsUnexplained (C.model r.callbacks.now.callbacks.now)
        (O.order r.order.now) r.shaped.now.case r.history.now }
{
    if run.callbacks.has_failed_for_lack_of_steps() {
        return Ok(None);
    }
    run.callbacks
        .none_if_out_of_steps(find_core_for_explanation(run, scene))
}

/// Returns the fault at `place` in the lexicographically first interleaving in order that has it. `AllocError` too if
/// the callbacks have no steps left.
fn failure_in_first_faulting_interleaving<'a, C: Callbacks, O: Order>(
    run: &RecordedRun<'_, StepLimitedCallbacks<'_, C>, O>,
    scene: &Scene<'a>,
    place: FaultPlace,
) -> Result<Failure<'a>, AllocError>
    requires answered { let r = run.now in
        IsAnsweredRun (C.model r.callbacks.now.callbacks.now) (O.order r.order.now) r.shaped.now r.history.now }
{
    let alloc = run.alloc;
    let (_, mut interleaving) = verdict_with_interleaving_in_order(
        run.callbacks,
        run.order,
        alloc,
        run.shaped,
        run.history,
    )?;
    if let Some(call) = call_numbered(scene.all.as_slice(), place.command) {
        if let CasePart::Branch(branch) = call.part {
            interleaving.push(branch)?;
        }
    }
    failure_at_fault_place(alloc, run.order, scene, interleaving.as_slice(), place)
}

/// Returns the first fault of a run that no interleaving in order explains, and a core.
fn explain_fault_verdict<'a, C: Callbacks, O: Order>(
    run: &RecordedRun<'_, StepLimitedCallbacks<'_, C>, O>,
    scene: &Scene<'a>,
    place: FaultPlace,
) -> Result<JudgementReason<'a>, AllocError>
    requires model { scene.now.model.now ≡ C.model run.now.callbacks.now.callbacks.now }
    requires answered { let r = run.now in
        IsAnsweredRun (C.model r.callbacks.now.callbacks.now) (O.order r.order.now) r.shaped.now r.history.now }
    requires unexplained { let r = run.now in IsUnexplained (C.model r.callbacks.now.callbacks.now)
        (O.order r.order.now) r.shaped.now.case r.history.now }
{
    let found = failure_in_first_faulting_interleaving(run, scene, place);
    let failure = match run.callbacks.none_if_out_of_steps(found)? {
        Some(failure) => failure,
        None => failure_in_unknown_interleaving(run.alloc, scene, place)?,
    };
    let core = core_within_step_limit(run, scene)?;
    Ok(JudgementReason::Faulted { failure, core })
}

/// Returns a core of a run that no interleaving in order explains, and the interleaving that gets furthest.
fn explain_unexplained_verdict<'a, C: Callbacks, O: Order>(
    run: &RecordedRun<'_, StepLimitedCallbacks<'_, C>, O>,
    scene: &Scene<'a>,
    far: usize,
) -> Result<JudgementReason<'a>, AllocError>
    requires model { scene.now.model.now ≡ C.model run.now.callbacks.now.callbacks.now }
    requires answered { let r = run.now in
        IsAnsweredRun (C.model r.callbacks.now.callbacks.now) (O.order r.order.now) r.shaped.now r.history.now }
    requires unexplained { let r = run.now in IsUnexplained (C.model r.callbacks.now.callbacks.now)
        (O.order r.order.now) r.shaped.now.case r.history.now }
{
    let furthest = run
        .callbacks
        .none_if_out_of_steps(furthest_interleaving_with_blocked_calls(run, scene, far))?;
    let core = core_within_step_limit(run, scene)?;
    Ok(JudgementReason::Unexplained {
        far,
        core,
        furthest,
    })
}

/// Returns a core of a run in which calls have unknown outcomes, unless its search takes too many steps.
fn core_with_unknown_outcomes<'a, C: Callbacks>(
    callbacks: &C,
    order: CallOrder,
    alloc: Global,
    scene: &Scene<'a>,
    history: &History,
) -> Result<Option<Core<'a>>, AllocError>
    requires shaped { scene.now.run.now.shaped.model ≡ C.model callbacks.now }
    requires matches { matches (C.model callbacks.now) scene.now.run.now.shaped.case history.now ≡ true }
{
    let shaped = &scene.run.shaped;
    let _case = shaped.case();
    let recorded = RecordedOrder::of_calls(alloc, order, history)?;
    let bounded = StepLimitedCallbacks::new(callbacks, MOST_STEPS);
    let run = RecordedRun {
        callbacks: &bounded,
        order: &recorded,
        alloc,
        shaped,
        history,
    };
    bounded.none_if_out_of_steps(find_core_with_unknown_outcomes(&run, scene))
}

/// Returns the first fault of a run in which calls have unknown outcomes.
fn first_fault_with_unknown_outcomes<'a>(
    alloc: Global,
    order: CallOrder,
    scene: &Scene<'a>,
    place: FaultPlace,
) -> Result<Failure<'a>, AllocError> {
    match failure_in_first_fault_with_unknown_outcomes(alloc, scene, order, place)? {
        Some(failure) => Ok(failure),
        None => failure_in_unknown_interleaving(alloc, scene, place),
    }
}

/// Returns the reason of the verdict on a history in which calls have unknown outcomes.
fn reason_with_unknown_outcomes<'a, C: Callbacks>(
    callbacks: &C,
    order: CallOrder,
    alloc: Global,
    scene: &Scene<'a>,
    history: &History,
    verdict: &Verdict,
) -> Result<JudgementReason<'a>, AllocError>
    requires shaped { scene.now.run.now.shaped.model ≡ C.model callbacks.now }
    requires matches { matches (C.model callbacks.now) scene.now.run.now.shaped.case history.now ≡ true }
{
    match verdict {
        Verdict::Explained(interleaving) => {
            let walk = states_of_explaining_letters(alloc, scene, interleaving.as_slice())?;
            Ok(JudgementReason::Explained(walk))
        }
        Verdict::Faulted(place) => Ok(JudgementReason::Faulted {
            failure: first_fault_with_unknown_outcomes(alloc, order, scene, *place)?,
            core: core_with_unknown_outcomes(callbacks, order, alloc, scene, history)?,
        }),
        Verdict::Unexplained(far) => Ok(JudgementReason::Unexplained {
            far: *far,
            core: core_with_unknown_outcomes(callbacks, order, alloc, scene, history)?,
            furthest: furthest_states_with_unknown_outcomes(alloc, scene, order, *far)?,
        }),
        Verdict::Broken(number) => Ok(JudgementReason::Broken(breaking_call_numbered(
            scene, *number,
        ))),
    }
}

/// Returns the reason of the verdict on a history, over the interleavings that count.
fn explain_verdict<'a, C: Callbacks>(
    callbacks: &C,
    order: CallOrder,
    alloc: Global,
    scene: &Scene<'a>,
    history: &History,
    verdict: &Verdict,
) -> Result<JudgementReason<'a>, AllocError>
    requires model { scene.now.model.now ≡ C.model callbacks.now }
    requires shaped { scene.now.run.now.shaped.model ≡ C.model callbacks.now }
    requires matches { matches (C.model callbacks.now) scene.now.run.now.shaped.case history.now ≡ true }
    requires verdict { IsVerdictBy order (C.model callbacks.now) scene.now.run.now.shaped.case history.now
        verdict.now }
{
    if history.has_unknown() {
        return reason_with_unknown_outcomes(callbacks, order, alloc, scene, history, verdict);
    }
    let shaped = &scene.run.shaped;
    let recorded = RecordedOrder::new(alloc, order, shaped, history)?;
    let bounded = StepLimitedCallbacks::new(callbacks, MOST_STEPS);
    let run = RecordedRun {
        callbacks: &bounded,
        order: &recorded,
        alloc,
        shaped,
        history,
    };
    match verdict {
        Verdict::Explained(interleaving) => {
            let run = RecordedRun {
                callbacks,
                order: &recorded,
                alloc,
                shaped,
                history,
            };
            let walk = states_of_explaining_interleaving(&run, scene, interleaving.as_slice())?;
            Ok(JudgementReason::Explained(walk))
        }
        Verdict::Faulted(place) => explain_fault_verdict(&run, scene, *place),
        Verdict::Unexplained(far) => explain_unexplained_verdict(&run, scene, *far),
        Verdict::Broken(number) => Ok(JudgementReason::Broken(breaking_call_numbered(
            scene, *number,
        ))),
    }
}

/// Returns the reason why a case is not valid.
fn explain_invalid_case<'a>(
    alloc: Global,
    scene: &Scene<'a>,
    why: &Why,
) -> Result<JudgementReason<'a>, AllocError> {
    match why {
        Why::PreFalse { command, merge } => {
            let Some(call) = call_numbered(scene.all.as_slice(), *command) else {
                return Ok(JudgementReason::Nothing);
            };
            let interleaving = merge.as_slice();
            let failure = failure_of_call_in_interleaving(
                alloc,
                &AnyOrder,
                scene,
                interleaving,
                Callback::Pre,
                call,
                None,
            )?;
            Ok(JudgementReason::Invalid(failure))
        }
        Why::CallbackFault { place, merge } => {
            let failure = failure_at_fault_place(
                alloc,
                &AnyOrder,
                scene,
                merge.as_slice(),
                *place,
            )?;
            Ok(JudgementReason::Invalid(failure))
        }
        Why::NoMemory => Ok(JudgementReason::Nothing),
    }
}

/// What the order in time rules out of an item that no interleaving explains.
fn ruled_out_if_unexplained<C: Callbacks>(
    callbacks: &C,
    order: CallOrder,
    alloc: Global,
    run: &Run,
    judged: &Judged,
) -> Result<RuledOut, AllocError>
    requires shaped { run.now.shaped.model ≡ C.model callbacks.now }
    requires matches { HistoryMatches (C.model callbacks.now) run.now }
{
    match (judged, &run.history) {
        (Judged::Verdict(Verdict::Unexplained(_) | Verdict::Faulted(_)), Some(history)) => {
            if history.has_unknown() {
                return Ok(RuledOut::Nothing);
            }
            obstacles_within_limit(callbacks, order, alloc, &run.shaped, history)
        }
        _ => Ok(RuledOut::Nothing),
    }
}

/// Whether only the interleavings in the order of the recorded times of an item count.
fn has_order_in_time(order: CallOrder, run: &Run) -> bool {
    match &run.history {
        Some(history) => order == CallOrder::Time && history.times.is_some(),
        None => false,
    }
}

/// Explains an item of a model: `judged` is its judgement by `order`, `number` its number, and `place` where it begins in
/// the input. Only the interleavings that count by `order` may explain it. The searches take at most 2,000,000 steps of
/// callbacks together. What they do not find in these is left out.
pub fn explain_item<'a, C: Callbacks>(
    callbacks: &C,
    order: CallOrder,
    alloc: Global,
    typed: &'a Typed,
    run: &'a Run,
    judged: &'a Judged,
    number: usize,
    place: Option<TreePlace<'a>>,
) -> Result<Explanation<'a>, AllocError>
    requires model { typed.now ≡ C.model callbacks.now }
    requires shaped { run.now.shaped.model ≡ C.model callbacks.now }
    requires matches { HistoryMatches (C.model callbacks.now) run.now }
    requires judged { IsJudgementBy order (C.model callbacks.now) run.now judged.now }
{
    let scene = scene_of_run(alloc, typed, run)?;
    let ruled_out = ruled_out_if_unexplained(callbacks, order, alloc, run, judged)?;
    let reason = match judged {
        Judged::Verdict(verdict) => match &run.history {
            Some(history) => explain_verdict(callbacks, order, alloc, &scene, history, verdict)?,
            None => JudgementReason::Nothing,
        },
        Judged::Valid => JudgementReason::Nothing,
        Judged::Invalid(why) => explain_invalid_case(alloc, &scene, why)?,
    };
    Ok(Explanation {
        number,
        place,
        judged,
        scene,
        reason,
        is_timed: has_order_in_time(order, run),
        ruled_out,
    })
}
