//! Shrinking: complete lists of candidates that were worked out by hand, and cases that are shrunk.

use crate::shrunk::cases::{case_of_short_text, is_case_small_enough_to_shrink};
use pst_case::{Case, Command};
use pst_shrink::{Attempt, AttemptOutcome, ShrinkEnd, ShrinkFault, Shrunk, candidates, shrink};
use pst_value::Items;
use std::alloc::{AllocError, Global};
use std::process::Abort;
use std::test::Fail;

/// The cases of texts, in their order.
fn cases_of_short_texts(alloc: Global, texts: &[&str]) -> Result<Vec<Case>, AllocError> {
    let mut cases = Vec::new(alloc);
    for text in texts {
        cases.push(case_of_short_text(alloc, text)?)?;
    }
    Ok(cases)
}

/// Asserts that the case of a text has just these candidates.
fn assert_shrink_candidates(
    rt: &impl Abort,
    alloc: Global,
    text: &str,
    expected: &[&str],
) -> Result<(), AllocError> {
    let case = case_of_short_text(alloc, text)?;
    assert!(rt; is_case_small_enough_to_shrink(&case));
    let found = candidates(alloc, &case)?;
    let expected = cases_of_short_texts(alloc, expected)?;
    assert!(rt;
        found.as_slice() == expected.as_slice(),
        "other candidates of {text}"
    );
    Ok(())
}

#[test]
fn unused_commands_are_dropped_or_moved(rt: HostRuntime) -> Result<(), Fail> {
    let expected = ["| g | i", "i | | i", "i | g |", "i g | | i", "i i | g |"];
    assert_shrink_candidates(&rt, rt.alloc(), "i | g | i", &expected)?;
    Ok(())
}

#[test]
fn a_used_command_is_not_dropped(rt: HostRuntime) -> Result<(), Fail> {
    let expected = ["| | n c1", "| n | n", "n | | n c2", "n | n | c1"];
    assert_shrink_candidates(&rt, rt.alloc(), "| n | n c2", &expected)?;
    Ok(())
}

#[test]
fn three_branches_have_expected_candidates(rt: HostRuntime) -> Result<(), Fail> {
    let expected = [
        "n | | n u2 | u1",
        "n | n | n | u1",
        "n | n | n u3 |",
        "n n | | n u3 | u1",
        "n n | n | u2 | u1",
        "n u1 | n | n u4 |",
    ];
    assert_shrink_candidates(&rt, rt.alloc(), "n | n | n u3 | u1", &expected)?;
    Ok(())
}

/// A command of the suffix is left out in its turn, and is never moved. Number 9 is of no command, and stays.
#[test]
fn suffix_commands_are_never_moved(rt: HostRuntime) -> Result<(), Fail> {
    let expected = [
        "n | n | > u2 n u4 u9",
        "n | n | u1 > n u4 u9",
        "n | n | u1 > u2 n u9",
        "n | n | u1 > u2 n u5",
        "n n | | u1 > u2 n u5 u9",
        "n u1 | n | > u3 n u5 u9",
    ];
    assert_shrink_candidates(&rt, rt.alloc(), "n | n | u1 > u2 n u5 u9", &expected)?;
    Ok(())
}

/// Each variable in a map follows its command.
#[test]
fn map_variables_follow_their_commands(rt: HostRuntime) -> Result<(), Fail> {
    let expected = [
        "| n | n > u12",
        "n | n | n",
        "n n | | n > u23",
        "n n | n | > u32",
    ];
    assert_shrink_candidates(&rt, rt.alloc(), "n | n | n > u23", &expected)?;
    Ok(())
}

/// Finds a case without commands in prefix and branches not valid, and breaks if a command has operation `a`. It fails
/// after `fails_after` driven cases.
#[derive(Drop)]
struct BrokenByOperationA {
    alloc: Global,
    driven: u64,
    fails_after: u64,
}

fn has_command_of_operation_a(commands: &Items<Command>) -> bool {
    commands
        .as_slice()
        .iter()
        .any(|command| command.op == b'a' as u32)
}

fn has_operation_a_before_suffix(case: &Case) -> bool {
    has_command_of_operation_a(&case.prefix)
        || case
            .branches
            .as_slice()
            .iter()
            .any(|branch| has_command_of_operation_a(branch))
}

fn is_case_empty_before_suffix(case: &Case) -> bool {
    case.prefix.is_empty()
        && case
            .branches
            .as_slice()
            .iter()
            .all(|branch| branch.is_empty())
}

impl Attempt for BrokenByOperationA {
    ghost use Rattle.std.specs.Prelude.{⊤};

    type History = u64;

    type Fault = u64;

    ghost answers = { λ a c o. ⊤ };

    ghost fails = { λ a f. ⊤ };

    ghost driven = { λ a. a.driven };

    ghost keeps = { λ a b. ⊤ };

    fn attempt(&mut self, case: &Case) -> Result<AttemptOutcome<u64>, u64> {
        if is_case_empty_before_suffix(case) {
            return Ok(AttemptOutcome::NotValid);
        }
        if self.driven == self.fails_after {
            return Err(self.driven);
        }
        self.driven += 1;
        if has_operation_a_before_suffix(case) {
            Ok(AttemptOutcome::Broke(Items::new(self.alloc), self.driven))
        } else {
            Ok(AttemptOutcome::Held(Items::new(self.alloc)))
        }
    }

    ghost keeps_refl = { λ a. tt };

    ghost keeps_trans = { λ a b c h k. tt };

    ghost kept = { λ a b h. record { answers = λ c o. (λ _. tt, λ _. tt); fails = λ f. (λ _. tt, λ _. tt) } };
}

/// Shrinks a case of two commands that run in parallel, the first of which breaks it.
fn shrink_case_of_two_commands(
    alloc: Global,
    limit: u32,
    fails_after: u64,
) -> Option<Result<Shrunk<u64>, ShrinkFault<u64>>> {
    let case = case_of_short_text(alloc, "| a | b").ok()?;
    if !is_case_small_enough_to_shrink(&case) {
        return None;
    }
    let mut attempt = BrokenByOperationA {
        alloc,
        driven: 0,
        fails_after,
    };
    Some(shrink(alloc, case, 0, limit, &mut attempt))
}

/// The second candidate breaks first, then the move of its command, of which no candidate is valid.
#[test]
fn a_limit_stops_shrinking_a_case(rt: HostRuntime) -> Result<(), Fail> {
    let rows = [
        (0, 0, 0, ShrinkEnd::Stopped),
        (1, 0, 0, ShrinkEnd::Stopped),
        (2, 1, 2, ShrinkEnd::Stopped),
        (3, 2, 3, ShrinkEnd::Stopped),
        (4, 2, 3, ShrinkEnd::Minimal),
    ];
    for (limit, steps, history, ending) in rows {
        let shrunk = shrink_case_of_two_commands(rt.alloc(), limit, 10).ok_or("no case")??;
        let ended = (shrunk.before.len(), shrunk.last.history, shrunk.ending);
        assert_eq!(rt; ended, (steps, history, ending), "at {limit}");
    }
    Ok(())
}

#[test]
fn a_fault_of_the_attempt_is_returned(rt: HostRuntime) -> Result<(), Fail> {
    let fault = shrink_case_of_two_commands(rt.alloc(), 10, 2).ok_or("no case")?;
    assert!(rt; matches!(fault, Err(ShrinkFault::Attempt(2))));
    Ok(())
}
