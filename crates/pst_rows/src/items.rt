//! The answers about cases and runs, and about the cores of runs.
ghost use Rattle.std.specs.Prelude.{◌≡◌, true, IfSome};
ghost use Rattle.pst_case.specs.Matches.{matches};
ghost use Rattle.pst_grid.specs.Orders.{NeverBlocks};
ghost use Rattle.pst_judge.specs.InOrder.{IsVerdictInOrder};
ghost use Rattle.pst_judge.specs.Replay.{branch_lengths};
ghost use Rattle.pst_judge.specs.declared.judgement.Verdict.TheVariants as verdict;
ghost use Rattle.pst_runs.specs.Lawful.{AreLawful};

use crate::models::{lines_joined_by_commas, status_and_lines_answer, text_of_bytes_or_note};
use pst_case::{Case, History, Run, shape};
use pst_cli::judge_text;
use pst_eval::Plain;
use pst_judge::{
    CallOrder, RecordedOrder, Valid, Verdict, judge_one, valid, verdict_by, verdict_in_order,
};
use pst_model::Typed;
use pst_reasons::{Order, RecordedRun, minimal_core};
use pst_runs::{read_runs, write_runs};
use pst_sexpr::{Out, read};
use pst_tests::support::typed_model_of_text;
use pst_typing::{load, trees_after_model};
use std::alloc::{AllocError, Global};
use std::thread::Threads;

/// The output of `pst judge`: its status and its lines.
pub fn judge_output_answer<R: Threads + Sync>(
    rt: &R,
    alloc: Global,
    text: &str,
) -> Result<String, AllocError> {
    let mut sink = Out::new(Vec::new(alloc));
    let status = judge_text(rt, alloc, text.as_bytes(), &mut sink);
    status_and_lines_answer(alloc, status, sink.into_inner().as_slice())
}

/// The verdict on a run in the order of its times, `case` for a case.
fn verdict_or_problem_text_of_run(
    alloc: Global,
    typed: &Typed,
    run: Run,
) -> Result<String, AllocError> {
    let Run { shaped, history } = run;
    let Some(history) = history else {
        return String::from_str(alloc, "case");
    };
    let Ok(shaped) = shape(alloc, typed, shaped.into_case()) else {
        return String::from_str(alloc, "no shape");
    };
    if !history.matches(typed, &shaped) {
        return String::from_str(alloc, "no match");
    }
    verdict_by(
        &Plain::new(typed),
        CallOrder::Time,
        alloc,
        &shaped,
        &history,
    )?
    .text(alloc)
}

/// The verdicts, one after another.
fn verdicts_joined_by_commas(
    alloc: Global,
    typed: &Typed,
    runs: Vec<Run>,
) -> Result<String, AllocError> {
    let mut verdicts = String::new(alloc);
    for run in runs {
        if !verdicts.is_empty() {
            verdicts.push_str(", ")?;
        }
        verdicts.push_str(verdict_or_problem_text_of_run(alloc, typed, run)?.as_str())?;
    }
    Ok(verdicts)
}

/// The verdicts on the items of a file, or the refusal of an item.
pub fn verdicts_or_refusal_answer(alloc: Global, text: &str) -> Result<String, AllocError> {
    let Ok(file) = load(alloc, text.as_bytes())? else {
        return String::from_str(alloc, "no model");
    };
    match read_runs(alloc, &file.typed, trees_after_model(file.trees.as_slice())) {
        Ok(runs) => verdicts_joined_by_commas(alloc, &file.typed, runs),
        Err(fault) => {
            let run = fault.run;
            let command = fault.command;
            let kind = fault.kind.name();
            format!(in alloc; "{run} {command} {kind}")
        }
    }
}

/// The judgement of one item alone.
fn judgement_or_problem_text_of_item(
    alloc: Global,
    typed: &Typed,
    run: Run,
) -> Result<String, AllocError> {
    let Run { shaped, history } = run;
    let Ok(shaped) = shape(alloc, typed, shaped.into_case()) else {
        return String::from_str(alloc, "no shape");
    };
    if let Some(recorded) = &history {
        if !recorded.matches(typed, &shaped) {
            return String::from_str(alloc, "no match");
        }
    }
    judge_one(&Plain::new(typed), alloc, &Run { shaped, history })?.text(alloc)
}

/// The judgements of runs, one after another and numbered.
fn numbered_judgements_joined_by_commas(
    alloc: Global,
    typed: &Typed,
    runs: Vec<Run>,
) -> Result<String, AllocError> {
    let mut lines = String::new(alloc);
    for (index, run) in runs.into_iter().enumerate() {
        if index > 0 {
            lines.push_str(", ")?;
        }
        let number = index.saturating_add(1);
        let judged = judgement_or_problem_text_of_item(alloc, typed, run)?;
        let line = format!(in alloc; "{number} {judged}")?;
        lines.push_str(line.as_str())?;
    }
    Ok(lines)
}

/// The judgements of the items of a file, each alone.
pub fn each_item_judged_alone_answer(alloc: Global, text: &str) -> Result<String, AllocError> {
    let Ok(file) = load(alloc, text.as_bytes())? else {
        return String::from_str(alloc, "no model");
    };
    match read_runs(alloc, &file.typed, trees_after_model(file.trees.as_slice())) {
        Ok(runs) => numbered_judgements_joined_by_commas(alloc, &file.typed, runs),
        Err(_) => String::from_str(alloc, "no items"),
    }
}

/// The text that is written for items of a model.
fn read_and_write_items_as_text(alloc: Global, typed: &Typed, items: &str) -> Option<String> {
    let trees = read(alloc, items.as_bytes()).ok()?;
    let Ok(runs) = read_runs(alloc, typed, trees.as_slice()) else {
        return None;
    };
    let mut sink = Out::new(Vec::new(alloc));
    write_runs(alloc, typed, runs.as_slice(), &mut sink).ok()?;
    text_of_bytes_or_note(alloc, sink.into_inner().as_slice()).ok()
}

/// The text that is written for items of a model, with `, ` between the lines. The text that is written for this text
/// has to be the same.
pub fn written_and_rewritten_items_answer(
    alloc: Global,
    model: &str,
    items: &str,
) -> Result<String, AllocError> {
    let Some(typed) = typed_model_of_text(alloc, model) else {
        return String::from_str(alloc, "no model");
    };
    let Some(once) = read_and_write_items_as_text(alloc, &typed, items) else {
        return String::from_str(alloc, "not written");
    };
    match read_and_write_items_as_text(alloc, &typed, once.as_str()) {
        Some(again) if again.as_str() == once.as_str() => lines_joined_by_commas(
            alloc,
            once.as_bytes(),
        ),
        _ => format!(in alloc; "not written again: {once}"),
    }
}

/// `valid` if an accepted case and its copy are still the wanted case, and `changed` otherwise.
fn valid_or_changed_after_copy(
    alloc: Global,
    typed: &Typed,
    accepted: Valid,
    wanted: &Case,
) -> Option<&'static str>
    requires { accepted.model ≡ typed.now }
{
    let copy = accepted.copy(alloc, typed.source()).ok()?;
    let is_kept = copy.shaped().case() == wanted;
    let shaped = accepted.into_shaped();
    Some(if is_kept && shaped.case() == wanted {
        "valid"
    } else {
        "changed"
    })
}

/// `valid`, or the reason why a case is not valid, or `changed` if a valid case does not stay the same.
fn case_validity_or_changed(alloc: Global, typed: &Typed, case: Case) -> Option<&'static str> {
    let wanted = case.copy(alloc).ok()?;
    let shaped = shape(alloc, typed, case).ok()?;
    match valid(&Plain::new(typed), alloc, shaped) {
        Ok(accepted) => valid_or_changed_after_copy(alloc, typed, accepted, &wanted),
        Err((_, why)) => Some(why.name()),
    }
}

/// The validity of the last item of a text, as [`case_validity_or_changed`] returns it.
fn validity_of_last_item(alloc: Global, text: &str) -> Option<&'static str> {
    let file = load(alloc, text.as_bytes()).ok()?.ok()?;
    let mut runs = read_runs(alloc, &file.typed, trees_after_model(file.trees.as_slice())).ok()?;
    let case = runs.pop()?.shaped.into_case();
    case_validity_or_changed(alloc, &file.typed, case)
}

/// Whether the last item of a text is valid, or the reason why it is not.
pub fn last_item_validity_answer(alloc: Global, text: &str) -> Result<String, AllocError> {
    String::from_str(
        alloc,
        validity_of_last_item(alloc, text).unwrap_or("no case"),
    )
}

/// The numbers of a core.
fn core_text(alloc: Global, core: &[u32]) -> Result<String, AllocError> {
    let mut text = String::from_str(alloc, "core")?;
    for number in core {
        let word = format!(in alloc; " {number}")?;
        text.push_str(word.as_str())?;
    }
    Ok(text)
}

/// The core of a run with the verdict `found` in an order, or the word of the verdict if it has no core.
fn core_text_or_verdict_name<O: Order>(
    alloc: Global,
    typed: &Typed,
    run: &Run,
    history: &History,
    order: &O,
    found: Verdict,
) -> Result<String, AllocError>
    requires model { run.now.shaped.model ≡ typed.now }
    requires matches { matches typed.now run.now.shaped.case history.now ≡ true }
    requires progress { NeverBlocks (O.order order.now) (branch_lengths run.now.shaped.case) }
    requires verdict { IsVerdictInOrder typed.now (O.order order.now) run.now.shaped.case history.now found }
{
    let callbacks = Plain::new(typed);
    let recorded = RecordedRun {
        callbacks: &callbacks,
        order,
        alloc,
        shaped: &run.shaped,
        history,
    };
    let core = match found {
        Verdict::Explained(_) => return String::from_str(alloc, "explained"),
        Verdict::Broken(_) => return String::from_str(alloc, "broken"),
        Verdict::Faulted(_) => minimal_core(&recorded)?,
        Verdict::Unexplained(_) => minimal_core(&recorded)?,
    };
    core_text(alloc, core.as_slice())
}

/// The core of a run in the order of its times, or the word of its verdict if it has no core.
fn core_or_verdict_text_of_run(
    alloc: Global,
    typed: &Typed,
    run: &Run,
) -> Result<String, AllocError>
    requires model { run.now.shaped.model ≡ typed.now }
    requires matches { IfSome run.now.history (λ h. matches typed.now run.now.shaped.case h ≡ true) }
{
    let Some(history) = &run.history else {
        return String::from_str(alloc, "case");
    };
    let shaped = &run.shaped;
    let order = RecordedOrder::new(alloc, CallOrder::Time, shaped, history)?;
    let found = verdict_in_order(&Plain::new(typed), &order, alloc, shaped, history)?;
    core_text_or_verdict_name(alloc, typed, run, history, &order, found)
}

/// The core of the first run, or the word of its verdict if it has no core.
fn core_or_verdict_text_of_first_run(
    alloc: Global,
    typed: &Typed,
    runs: &[Run],
) -> Result<String, AllocError>
    requires lawful { AreLawful typed.now runs.now }
{
    match runs.split_first() {
        Some((run, _)) => core_or_verdict_text_of_run(alloc, typed, run),
        None => String::from_str(alloc, "no items"),
    }
}

/// The numbers of the core of the first run of a text, or the word of its verdict if it has no core.
pub fn first_run_core_or_verdict_answer(alloc: Global, text: &str) -> Result<String, AllocError> {
    let Ok(file) = load(alloc, text.as_bytes())? else {
        return String::from_str(alloc, "no model");
    };
    match read_runs(alloc, &file.typed, trees_after_model(file.trees.as_slice())) {
        Ok(runs) => core_or_verdict_text_of_first_run(alloc, &file.typed, runs.as_slice()),
        Err(_) => String::from_str(alloc, "no items"),
    }
}
