//! Systems whose misfits are recorded.

use crate::driving::has_recorded_replies_when_driven;
use crate::test_systems::CountedOddAnswers;
use pst_driver::{MOST_KEPT, MisfitRecorder, Misfits, misfit_lines_text};
use pst_system::BoxedSystem;
use pst_tests::support::{COUNTER, CounterWithoutGet, Liar, SAYING};
use pst_typing::load;
use std::alloc::{AllocError, Global};
use std::sync::{Arc, Wait};
use std::test::Fail;
use std::thread::Threads;

/// Two calls at once, to both of which a liar answers true.
const TWO_MISFITS: &str =
    "(run (prefix) (left (get)) (right (get)) (replies () (misfit) (misfit)))";

/// A place for misfits, compared with a model.
fn empty_misfits_for_model(alloc: Global, model: &str) -> Result<Arc<Misfits, Global>, AllocError> {
    let misfits = Misfits::new(alloc)?;
    if let Ok(file) = load(alloc, model.as_bytes())? {
        misfits.set_model_if_unset(file.typed);
    }
    Ok(Arc::new(alloc, misfits)?)
}

/// How many of five drives of the two calls give the recorded replies on the system.
fn count_right_drives_out_of_five<R: Threads + Wait>(
    rt: &R,
    alloc: Global,
    system: &mut BoxedSystem,
) -> u32 {
    let mut count: u32 = 0;
    for _ in 0..5u8 {
        if has_recorded_replies_when_driven(rt, alloc, COUNTER, TWO_MISFITS, system) == Some(true) {
            count = count.saturating_add(1);
        }
    }
    count
}

/// How many misfits there are, how many lines tell of `get`, and whether the last line says that there are two more.
fn misfit_count_line_count_and_has_two_more(
    alloc: Global,
    misfits: &Misfits,
) -> Result<(u64, usize, bool), AllocError> {
    let text = misfit_lines_text(alloc, misfits)?;
    let line = "misfit: (get) answered true, wanted int";
    let lines = text.as_str().lines().filter(|other| *other == line).count();
    Ok((
        misfits.count(),
        lines,
        text.as_str().ends_with("\nmisfit: 2 more\n"),
    ))
}

/// Five times a misfit in each of two branches at once: eight of the ten are kept, and the replies are those of the
/// system.
#[test]
fn eight_of_ten_misfits_are_kept(rt: HostRuntime) -> Result<(), Fail> {
    let alloc = rt.alloc();
    let misfits = empty_misfits_for_model(alloc, COUNTER)?;
    let mut liar: BoxedSystem = Box::new(alloc, MisfitRecorder::new(Liar, Some(misfits.clone()?)))?;
    let right = count_right_drives_out_of_five(&rt, alloc, &mut liar);
    assert_eq!(rt; right, 5);
    let told = misfit_count_line_count_and_has_two_more(alloc, &misfits)?;
    assert_eq!(rt; told, (10, MOST_KEPT, true));
    Ok(())
}

/// Answers that are of no type are spelled: a variable, a reference, and a text that is too long, which is cut.
#[test]
fn misfit_lines_spell_odd_answers(rt: HostRuntime) -> Result<(), Fail> {
    let alloc = rt.alloc();
    let misfits = empty_misfits_for_model(alloc, SAYING)?;
    let mut odd: BoxedSystem = Box::new(
        alloc,
        MisfitRecorder::new(CountedOddAnswers::new(alloc), Some(misfits.clone()?)),
    )?;
    let item = "(run (prefix (inc)) (left) (right) (replies (misfit) () ()))";
    for _ in 0..3u8 {
        assert!(rt;
            has_recorded_replies_when_driven(&rt, alloc, SAYING, item, &mut odd) == Some(true)
        );
    }
    let text = misfit_lines_text(alloc, &misfits)?;
    let wanted = "misfit: (inc) answered $1, wanted text\n\
        misfit: (inc) answered $1=1, wanted text\n\
        misfit: (inc) answered \"aaaaaaaaaaaaaaaaaaaaaaaaaaaaaaaaaaaaaaaaaaaaaaaaaaaaaaaaaaa.., wanted text\n";
    assert_eq!(rt; text.as_str(), wanted);
    Ok(())
}

/// A call that is refused and an answer of the operation's result type are no misfits.
#[test]
fn no_misfit_without_a_wrong_type(rt: HostRuntime) -> Result<(), Fail> {
    let alloc = rt.alloc();
    let misfits = empty_misfits_for_model(alloc, COUNTER)?;
    let mut no_get: BoxedSystem = Box::new(
        alloc,
        MisfitRecorder::new(CounterWithoutGet::new(), Some(misfits.clone()?)),
    )?;
    let item =
        "(run (prefix (inc)) (left (get) (inc)) (right (inc)) (replies (1) (failed not-run) (2)))";
    // Driven twice, since each drive resets the system.
    for _ in 0..2u8 {
        assert!(rt;
            has_recorded_replies_when_driven(&rt, alloc, COUNTER, item, &mut no_get) == Some(true)
        );
    }
    assert!(rt; misfit_lines_text(alloc, &misfits)?.is_empty());
    Ok(())
}

/// Nothing is noted without a place for misfits, or before there is a model.
#[test]
fn misfits_are_unrecorded_without_a_model(rt: HostRuntime) -> Result<(), Fail> {
    let alloc = rt.alloc();
    let misfits = Arc::new(alloc, Misfits::new(alloc)?)?;
    for place in [Some(misfits.clone()?), None] {
        let mut liar: BoxedSystem = Box::new(alloc, MisfitRecorder::new(Liar, place))?;
        assert!(rt;
            has_recorded_replies_when_driven(&rt, alloc, COUNTER, TWO_MISFITS, &mut liar)
                == Some(true)
        );
    }
    assert_eq!(rt; misfits.count(), 0);
    Ok(())
}
