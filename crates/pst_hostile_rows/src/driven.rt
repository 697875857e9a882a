//! The output for cases on systems that give wrong answers, and for campaigns on systems that cannot be reset.

use crate::commands::{CommandOutput, status_and_shortened_output_text};
use crate::models::TYPES;
use crate::odd::NamedOddAnswers;
use pst_campaign::Unwatched;
use pst_cli::{Status, campaign_text, run_text};
use pst_system::BoxedSystem;
use pst_tests::support::{COUNTER, CounterWithoutGet, Liar, LimitedResets, LimitedSink, ONE};
use pst_trial::Settings;
use std::alloc::{AllocError, Global};
use std::io;
use std::sync::Wait;
use std::thread::Threads;

/// The calls whose answers are odd, each with the operation whose result it should be.
const CALLS: [(&str, &str); 34] = [
    ("number", "a truth value"),
    ("number", "a variable"),
    ("number", "a reference"),
    ("number", "a call"),
    ("number", "100 levels"),
    ("number", "nothing that is named"),
    ("number", "an integer"),
    ("truth", "an integer"),
    ("truth", "a truth value"),
    ("word", "65537 letters"),
    ("word", "65536 letters"),
    ("word", "a line end"),
    ("word", "a letter beyond ASCII"),
    ("word", "no letter"),
    ("pair", "one item"),
    ("pair", "9 items"),
    ("pair", "a variable in a tuple"),
    ("pair", "a reference in a tuple"),
    ("pair", "65536 items"),
    ("numbers", "65537 items"),
    ("numbers", "65536 items"),
    ("numbers", "a reference in a list"),
    ("lists", "a variable in lists"),
    ("lists", "100 levels"),
    ("table", "rising keys"),
    ("table", "falling keys"),
    ("table", "equal keys"),
    ("table", "mixed keys"),
    ("table", "more keys than values"),
    ("table", "more values than keys"),
    ("table", "4097 keys"),
    ("table", "4096 keys"),
    ("table", "a variable in a map"),
    ("table", "a reference in a map"),
];

/// Prints the status and the output, which `short` has taken.
fn print_status_and_output<R: Print + AllocGlobal>(
    rt: &R,
    name: &str,
    status: Status,
    short: LimitedSink,
) -> io::Result<()> {
    let LimitedSink {
        bytes,
        room: _,
        failed,
    } = short;
    let answer = CommandOutput {
        status,
        bytes,
        failed,
    };
    let text = status_and_shortened_output_text(rt.alloc(), &answer)?;
    println!(rt; "{name}: {text}")
}

/// Drives the items on `system` and prints the status and the output.
fn drive_items_and_print_output<R: Threads + Wait + Print + AllocGlobal>(
    rt: &R,
    name: &str,
    model: &str,
    items: &str,
    system: &mut BoxedSystem,
) -> io::Result<()> {
    let input = format!(in rt.alloc(); "{model} {items}")?;
    let mut short = LimitedSink::new(rt.alloc(), usize::MAX);
    let status = run_text(rt, rt.alloc(), input.as_bytes(), system, &mut short);
    print_status_and_output(rt, name, status, short)
}

/// A case whose prefix calls `operation` with the name of an answer.
fn case_text_asking_for_answer(
    alloc: Global,
    operation: &str,
    name: &str,
) -> Result<String, AllocError> {
    format!(in alloc; "(case (prefix ({operation} \"{name}\")) (left) (right))")
}

/// Prints the result of each odd answer in the prefix of a case, and of a case with odd answers in its branches.
fn print_drives_with_odd_answers<R: Threads + Wait + Print + AllocGlobal>(
    rt: &R,
) -> io::Result<()> {
    let alloc = rt.alloc();
    let mut odd: BoxedSystem = Box::new(alloc, NamedOddAnswers::new(alloc))?;
    for (operation, name) in &CALLS {
        let items = case_text_asking_for_answer(alloc, *operation, *name)?;
        drive_items_and_print_output(rt, "odd", TYPES, items.as_str(), &mut odd)?;
    }
    let items = "(case (prefix) (left (lists \"100 levels\") (number \"an integer\"))
      (right (table \"falling keys\")) (suffix (number \"an integer\")))";
    drive_items_and_print_output(rt, "odd", TYPES, items, &mut odd)
}

/// Prints the results of cases on the other systems.
fn print_drives_on_misbehaving_systems<R: Threads + Wait + Print + AllocGlobal>(
    rt: &R,
) -> io::Result<()> {
    let alloc = rt.alloc();
    let mut liar: BoxedSystem = Box::new(alloc, Liar)?;
    let items = "(case (prefix (inc) (get)) (left (get)) (right))";
    drive_items_and_print_output(rt, "liar", COUNTER, items, &mut liar)?;
    let mut no_get: BoxedSystem = Box::new(alloc, CounterWithoutGet::new())?;
    let items = "(case (prefix (inc)) (left (get) (inc)) (right (inc)))";
    drive_items_and_print_output(rt, "no get", COUNTER, items, &mut no_get)?;
    let mut one_reset: BoxedSystem = Box::new(alloc, LimitedResets::new(1))?;
    let items = "(case (prefix) (left) (right)) (case (prefix) (left) (right))";
    drive_items_and_print_output(rt, "one reset", COUNTER, items, &mut one_reset)
}

/// Prints the report of a campaign on a system that can be reset `resets` times.
fn print_campaign_with_limited_resets<R: Threads + Wait + Sync + Print + AllocGlobal>(
    rt: &R,
    settings: Settings,
    resets: u32,
) -> io::Result<()> {
    let alloc = rt.alloc();
    if !settings.are_in_range() {
        return Ok(());
    }
    let mut systems: Vec<BoxedSystem> = Vec::new(alloc);
    systems.push(Box::new(alloc, LimitedResets::new(resets))?)?;
    let mut short = LimitedSink::new(alloc, usize::MAX);
    let input = ONE.as_bytes();
    let status = campaign_text(rt, alloc, input, settings, systems, &Unwatched, &mut short);
    let code = status.code();
    let Ok(report) = std::str::from_utf8(short.bytes.as_slice()) else {
        return Ok(());
    };
    println!(rt; "{resets} resets, status {code}\n{report}")
}

/// Prints the report of a campaign of three trials on a system that cannot be reset, and those of campaigns of one
/// trial on systems that can be reset one to four times. The trial resets the system once for its case, and three times
/// to shrink it.
fn print_campaigns_with_few_resets<R: Threads + Wait + Sync + Print + AllocGlobal>(
    rt: &R,
) -> io::Result<()> {
    let three = Settings {
        trials: 3,
        ..Settings::default()
    };
    print_campaign_with_limited_resets(rt, three, 0)?;
    let one = Settings {
        trials: 1,
        commands: 1,
        repeats: 1,
        ..Settings::default()
    };
    for resets in 1..5 {
        print_campaign_with_limited_resets(rt, one, resets)?;
    }
    Ok(())
}

/// Prints the results of all cases and campaigns of this file.
pub fn print_results_on_misbehaving_systems<R: Threads + Wait + Sync + Print + AllocGlobal>(
    rt: &R,
) -> io::Result<()> {
    print_drives_with_odd_answers(rt)?;
    print_drives_on_misbehaving_systems(rt)?;
    print_campaigns_with_few_resets(rt)
}
