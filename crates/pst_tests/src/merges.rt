//! The search over interleavings, on a lamp.
ghost use Rattle.std.specs.Prelude.{◌<◌, ◌+◌, ◌^◌, sum};

use pst_grid::{
    AnyOrder, Ending, EveryAnswer, SomeAnswer, StepOutcome, Steps, StopReason, every,
    find_first_true_interleaving_plainly, some,
};
use std::alloc::{AllocError, Global};
use std::cell::Cell;
use std::test::Fail;

/// A command of a branch.
#[derive(Clone, Copy)]
struct LampCommand {
    branch: usize,
    index: usize,
}

impl LampCommand {
    /// The command of a branch's number and its place there.
    fn of_branch_and_index(place: (usize, usize)) -> LampCommand {
        let (branch, index) = place;
        LampCommand { branch, index }
    }
}

/// The place of no command.
const NONE: (usize, usize) = (usize::MAX, usize::MAX);

/// A lamp, which is off at first. One command turns it on and one turns it off, one is true only if it is on,
/// and one faults if it is off. All other commands are true, and leave it. With `ends_true_if_on` the end of all
/// branches is true only if it is on.
#[derive(Drop)]
struct Lamp {
    on: LampCommand,
    off: LampCommand,
    true_if_on: LampCommand,
    needs: LampCommand,
    ends_true_if_on: bool,
    steps_made: Cell<usize>,
}

impl Steps for Lamp {
    ghost use Rattle.std.specs.Prelude.{◌==◌, ◌&&◌, not, if◌then◌else◌, true, false};
    ghost use Rattle.std.proofs.Common.{refl, rules};
    ghost use Rattle.std.specs.Hash.{bool};
    ghost use Rattle.pst_grid.specs.declared.steps.Ending.TheVariants.{AllTrue, StopsAt};
    ghost use Rattle.pst_grid.specs.declared.steps.StepOutcome.TheVariants.{Next, Stop};
    ghost use Rattle.pst_grid.specs.declared.steps.StopReason.TheVariants.{False, Fault};

    type State = bool;

    type Kept = bool;

    type Fault = usize;

    ghost is_state = { λ _ _. Unit {0} };

    ghost is_command = { λ _ _ _. Unit {0} };

    ghost outcome = { λ lamp is_on b i.
        if (b == lamp.on.branch) && (i == lamp.on.index) then Next true else
        if (b == lamp.off.branch) && (i == lamp.off.index) then Next false else
        if is_on then Next true else
        if (b == lamp.true_if_on.branch) && (i == lamp.true_if_on.index) then Stop False else
        if (b == lamp.needs.branch) && (i == lamp.needs.index) then Stop (Fault i) else
        Next false };

    ghost rest = { λ lamp is_on. if lamp.ends_true_if_on && not is_on then StopsAt 0 False else AllTrue };

    ghost most_rest = { λ _. 1 };

    ghost state_of = { λ kept. kept };

    ghost fed = { bool };

    ghost exact = { Prim.search rules };

    ghost same = { λ a b. refl };

    ghost feeds = { λ kept. refl };

    fn step(
        &self,
        _alloc: Global,
        state: &bool,
        branch: usize,
        index: usize,
    ) -> Result<StepOutcome<bool, usize>, AllocError> {
        self.steps_made.set(self.steps_made.get().saturating_add(1));
        if branch == self.on.branch && index == self.on.index {
            return Ok(StepOutcome::Next(true));
        }
        if branch == self.off.branch && index == self.off.index {
            return Ok(StepOutcome::Next(false));
        }
        if *state {
            return Ok(StepOutcome::Next(true));
        }
        if branch == self.true_if_on.branch && index == self.true_if_on.index {
            return Ok(StepOutcome::Stop(StopReason::False));
        }
        if branch == self.needs.branch && index == self.needs.index {
            return Ok(StepOutcome::Stop(StopReason::Fault(index)));
        }
        Ok(StepOutcome::Next(false))
    }

    fn run_rest(&self, _alloc: Global, state: &bool) -> Result<(Ending<usize>, usize), AllocError> {
        if !self.ends_true_if_on {
            return Ok((Ending::AllTrue, 0));
        }
        self.steps_made.set(self.steps_made.get().saturating_add(1));
        if *state {
            Ok((Ending::AllTrue, 1))
        } else {
            Ok((Ending::StopsAt(0, StopReason::False), 1))
        }
    }

    fn has_rest(&self) -> bool {
        self.ends_true_if_on
    }

    fn keep(&self, _alloc: Global, state: &bool) -> Result<bool, AllocError> {
        Ok(*state)
    }
}

impl Lamp {
    /// The lamp of commands at these places, in the order of its fields.
    fn new(commands: [(usize, usize); 4], ends_true_if_on: bool) -> Lamp {
        let [on, off, true_if_on, needs] = commands;
        Lamp {
            on: LampCommand::of_branch_and_index(on),
            off: LampCommand::of_branch_and_index(off),
            true_if_on: LampCommand::of_branch_and_index(true_if_on),
            needs: LampCommand::of_branch_and_index(needs),
            ends_true_if_on,
            steps_made: Cell::new(0),
        }
    }
}

/// What `some` and `every` return for branches of these lengths.
#[derive(Clone, Copy, Drop)]
struct LampSearchCase {
    lengths: &'static [usize],
    // In the order of the lamp's fields.
    commands: [(usize, usize); 4],
    ends_true_if_on: bool,
    some: &'static str,
    every: &'static str,
}

const CASES: [LampSearchCase; 11] = [
    LampSearchCase {
        lengths: &[],
        commands: [NONE, NONE, NONE, NONE],
        ends_true_if_on: false,
        some: "Found { word: [] }",
        every: "All",
    },
    LampSearchCase {
        lengths: &[1, 2],
        commands: [NONE, NONE, NONE, NONE],
        ends_true_if_on: false,
        some: "Found { word: [0, 1, 1] }",
        every: "All",
    },
    LampSearchCase {
        lengths: &[2, 1],
        commands: [NONE, NONE, (0, 1), NONE],
        ends_true_if_on: false,
        some: "Nothing { far: 2, word: [0, 1, 0] }",
        every: "Not { word: [0, 0, 1], at: 1, why: False }",
    },
    // The place after one command of each branch is met with the lamp off, which fails, and then with it on.
    LampSearchCase {
        lengths: &[1, 2],
        commands: [(0, 0), (1, 0), (1, 1), NONE],
        ends_true_if_on: false,
        some: "Found { word: [1, 0, 1] }",
        every: "Not { word: [0, 1, 1], at: 2, why: False }",
    },
    // The same place is met with the lamp on, when all is true, and then with it off.
    LampSearchCase {
        lengths: &[1, 2],
        commands: [(1, 0), (0, 0), (1, 1), NONE],
        ends_true_if_on: false,
        some: "Found { word: [0, 1, 1] }",
        every: "Not { word: [1, 0, 1], at: 2, why: False }",
    },
    // A true merge counts more than a lesser one that faults.
    LampSearchCase {
        lengths: &[1, 1],
        commands: [(1, 0), NONE, NONE, (0, 0)],
        ends_true_if_on: false,
        some: "Found { word: [1, 0] }",
        every: "Not { word: [0, 1], at: 0, why: Fault(0) }",
    },
    // The first interleaving is false, and the last faults sooner than the first that faults.
    LampSearchCase {
        lengths: &[1, 3],
        commands: [(1, 0), (1, 1), (0, 0), (1, 2)],
        ends_true_if_on: false,
        some: "Faulted { word: [1, 0, 1, 1], at: 3, fault: 2 }",
        every: "Not { word: [0, 1, 1, 1], at: 0, why: False }",
    },
    LampSearchCase {
        lengths: &[1, 1, 1],
        commands: [(2, 0), NONE, (1, 0), NONE],
        ends_true_if_on: false,
        some: "Found { word: [0, 2, 1] }",
        every: "Not { word: [0, 1, 2], at: 1, why: False }",
    },
    // With `ends_true_if_on`, only the interleaving that turns the lamp on last is true to its end, and the other one
    // comes to its end before it is false.
    LampSearchCase {
        lengths: &[1, 1],
        commands: [(0, 0), (1, 0), NONE, NONE],
        ends_true_if_on: true,
        some: "Found { word: [1, 0] }",
        every: "Not { word: [0, 1], at: 2, why: False }",
    },
    LampSearchCase {
        lengths: &[2, 1],
        commands: [NONE, NONE, NONE, NONE],
        ends_true_if_on: true,
        some: "Nothing { far: 3, word: [0, 0, 1] }",
        every: "Not { word: [0, 0, 1], at: 3, why: False }",
    },
    LampSearchCase {
        lengths: &[0, 0],
        commands: [NONE, NONE, NONE, NONE],
        ends_true_if_on: true,
        some: "Nothing { far: 0, word: [] }",
        every: "Not { word: [], at: 0, why: False }",
    },
];

/// What `some` returns for the lamp, which is off, as text.
fn answer_of_some(alloc: Global, lamp: &Lamp, lengths: &[usize]) -> Result<String, AllocError>
    requires { sum lengths.now + 1 < 2 ^ 32 }
{
    let (answer, _) = some(alloc, lamp, lengths, &false)?;
    format!(in alloc; "{answer:?}")
}

/// What the plain search returns for the lamp, which is off, as text.
fn answer_of_plain(alloc: Global, lamp: &Lamp, lengths: &[usize]) -> Result<String, AllocError>
    requires { sum lengths.now + 1 < 2 ^ 32 }
{
    let (answer, _) = find_first_true_interleaving_plainly(
        alloc, lamp, &AnyOrder, lengths, &false,
    )?;
    format!(in alloc; "{answer:?}")
}

/// What `every` returns for the lamp, which is off, as text.
fn answer_of_every(alloc: Global, lamp: &Lamp, lengths: &[usize]) -> Result<String, AllocError>
    requires { sum lengths.now + 1 < 2 ^ 32 }
{
    let (answer, _) = every(alloc, lamp, lengths, &false)?;
    format!(in alloc; "{answer:?}")
}

/// Whether the searches return what `case` expects over branches of these lengths.
fn do_searches_return_expected_answers(
    alloc: Global,
    case: &LampSearchCase,
    lengths: &[usize],
) -> Result<bool, AllocError>
    requires { sum lengths.now + 1 < 2 ^ 32 }
{
    let lamp = Lamp::new(case.commands, case.ends_true_if_on);
    let some_answer = answer_of_some(alloc, &lamp, lengths)?;
    let plain = answer_of_plain(alloc, &lamp, lengths)?;
    let every_answer = answer_of_every(alloc, &lamp, lengths)?;
    let are_found = some_answer.as_str() == case.some && plain.as_str() == case.some;
    Ok(are_found && every_answer.as_str() == case.every)
}

/// Whether the searches return what `case` expects, for at most three branches of at most eight commands each.
fn is_small_and_has_expected_answers(
    alloc: Global,
    case: &LampSearchCase,
) -> Result<bool, AllocError> {
    match case.lengths {
        [] => do_searches_return_expected_answers(alloc, case, &[]),
        [one, two] if *one <= 8 && *two <= 8 => do_searches_return_expected_answers(
            alloc,
            case,
            &[*one, *two],
        ),
        [one, two, three] if *one <= 8 && *two <= 8 && *three <= 8 => {
            do_searches_return_expected_answers(alloc, case, &[*one, *two, *three])
        }
        _ => Ok(false),
    }
}

#[test]
fn lamp_searches_return_expected_answers(rt: HostRuntime) -> Result<(), Fail> {
    for case in CASES {
        assert!(rt;
            is_small_and_has_expected_answers(rt.alloc(), &case)?,
            "{}",
            case.some
        );
    }
    Ok(())
}

/// Whether `some` finds nothing after `far` commands, in at most `most` steps, which the lamp, new and off, counts too.
fn does_some_count_steps_within_limit(
    alloc: Global,
    lamp: &Lamp,
    lengths: &[usize],
    far: usize,
    most: usize,
) -> Result<bool, AllocError>
    requires { sum lengths.now + 1 < 2 ^ 32 }
{
    let (answer, tried) = some(alloc, lamp, lengths, &false)?;
    let reached = match answer {
        SomeAnswer::Nothing { far: reached, .. } => Some(reached),
        _ => None,
    };
    Ok(reached == Some(far) && tried <= most && tried == lamp.steps_made.get())
}

/// Whether `every` holds in at most `most` steps, which the lamp counts too. The lamp is new, and on if `is_on`.
fn does_every_count_steps_within_limit(
    alloc: Global,
    lamp: &Lamp,
    lengths: &[usize],
    is_on: bool,
    most: usize,
) -> Result<bool, AllocError>
    requires { sum lengths.now + 1 < 2 ^ 32 }
{
    let (answer, seen) = every(alloc, lamp, lengths, &is_on)?;
    Ok(matches!(answer, EveryAnswer::All) && seen <= most && seen == lamp.steps_made.get())
}

/// Whether `some` finds nothing after `far` commands, in at most `most` steps, if the event of the command `last` is
/// false or, with `ends_true_if_on`, what runs after the branches is; and `every` holds in as few if all of it is true. The
/// lamp counts its steps as the searches do.
fn do_searches_count_steps_within_limit(
    alloc: Global,
    lengths: &[usize],
    last: (usize, usize),
    ends_true_if_on: bool,
    far: usize,
    most: usize,
) -> Result<bool, AllocError>
    requires { sum lengths.now + 1 < 2 ^ 32 }
{
    let dark = Lamp::new([NONE, NONE, last, NONE], ends_true_if_on);
    let lit = Lamp::new([NONE, NONE, NONE, NONE], ends_true_if_on);
    let do_some = does_some_count_steps_within_limit(alloc, &dark, lengths, far, most)?;
    let do_every = does_every_count_steps_within_limit(
        alloc,
        &lit,
        lengths,
        ends_true_if_on,
        most,
    )?;
    Ok(do_some && do_every)
}

// Two branches of eight and four of four. All events are true, or all but the last of the last branch.
#[test]
fn searches_count_their_steps(rt: HostRuntime) -> Result<(), Fail> {
    let alloc = rt.alloc();
    assert!(rt; do_searches_count_steps_within_limit(alloc, &[8, 8], (1, 7), false, 15, 162)?);
    assert!(rt;
        do_searches_count_steps_within_limit(alloc, &[4, 4, 4, 4], (3, 3), false, 15, 2500)?
    );
    Ok(())
}

// Two branches of eight and four of four, and one more event after them. All their events are true.
#[test]
fn steps_after_the_branches_are_counted(rt: HostRuntime) -> Result<(), Fail> {
    let alloc = rt.alloc();
    assert!(rt; do_searches_count_steps_within_limit(alloc, &[8, 8], NONE, true, 16, 163)?);
    assert!(rt; do_searches_count_steps_within_limit(alloc, &[4, 4, 4, 4], NONE, true, 16, 2501)?);
    Ok(())
}

// The two orders of two commands end in two states, and in each of them one more event runs.
#[test]
fn steps_after_each_state_are_counted(rt: HostRuntime) -> Result<(), Fail> {
    let lamp = Lamp::new([(0, 0), (1, 0), NONE, NONE], true);
    let (found, tried) = some(rt.alloc(), &lamp, &[1, 1], &false)?;
    assert!(rt; matches!(found, SomeAnswer::Found { .. }));
    assert!(rt; (tried, lamp.steps_made.get()) == (6, 6));
    Ok(())
}
