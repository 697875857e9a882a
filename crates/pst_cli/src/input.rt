//! Reads an input: its model, compiled, and the items after it, judged; says which runs are kept, and that threads
//! may share models and judgements.
//!
//! The functions on threads do nothing; their contracts say that the types are `Sync`.
ghost use Rattle.std.specs.Prelude.{◌≡◌, ℕ, Bool, List, IfOk, MatchResult, true, IfSome};
ghost use Rattle.pst_typing.specs.Loading.{Holds, IsRefusal};
ghost use Rattle.pst_cli.specs.Answers.{Answers};
ghost use Rattle.pst_cli.specs.Output.{HoldsRuns, IsFirstRefusal};
ghost use Rattle.pst_cli.specs.RunOutput.{IsRefusedIn};
ghost use Rattle.pst_cli.specs.Kept.{HoldsAnswered, HoldsJudged, keeps_all};
ghost use Rattle.pst_rejudge.specs.Parts.{joined};
ghost use Rattle.std.specs.Thread.{IsSync};
ghost use Rattle.pst_compile.specs.contracts.compiled.Compiled.{the_row as compiled_row};
ghost use Rattle.pst_judge.specs.contracts.judgement.Judged.{the_row as judged_row};
ghost use Rattle.pst_judge.specs.declared.by_order.CallOrder.{CallOrder};

use crate::answer::{Answer, OutputForm};
use crate::judge::{read_runs_of_trees, refused_item_answer, refused_model_answer};
use pst_case::Run;
use pst_compile::{Code, Compiled, compile};
use pst_explain::tree_places_in_input;
use pst_judge::{CallOrder, Judge, Judged};
use pst_model::{Expr, Item, Typed};
use pst_rejudge::{
    AnsweredParts, ItemResult, ProgressCounter, first_refused_item, judgements_of_items,
    read_and_judge_in_parts, rejudge_with_progress, split_before_second_bracket_line,
};
use pst_sexpr::{MAX_BYTES, Tree};
use pst_typing::{ModelFile, Refusal, load, trees_after_model};
use std::alloc::{AllocError, Global};
use std::thread::Threads;

/// A file of trees whose first tree is a well-typed model, and that model, compiled.
#[derive(Drop)]
pub struct CompiledModelAndTrees {
    /// The model.
    pub compiled: Compiled,
    /// All trees, that of the model among them.
    pub trees: Vec<Tree>,
}

/// Compiles the model at the start of the input, and returns it with all trees of the input; or returns the first
/// refusal.
pub fn compile_model_of_input(
    alloc: Global,
    input: &[u8],
) -> Result<Result<CompiledModelAndTrees, Refusal>, AllocError>
    ensures { IfOk result (λ read. MatchResult read
        (λ file. Holds input.now file.compiled file.trees.items)
        (λ refusal. IsRefusal input.now refusal)) }
{
    match load(alloc, input)? {
        Ok(ModelFile { typed, trees }) => match compile(alloc, typed) {
            Ok(compiled) => Ok(Ok(CompiledModelAndTrees { compiled, trees })),
            Err(_) => Err(AllocError),
        },
        Err(refusal) => Ok(Err(refusal)),
    }
}

/// A model, and the runs after it.
#[derive(Drop)]
pub struct ModelAndRuns {
    /// The model.
    pub compiled: Compiled,
    /// The runs, in their order.
    pub runs: Vec<Run>,
}

/// Returns how many items an input has after its model. The input must be read without a fault.
pub fn count_items_of_input(alloc: Global, input: &[u8]) -> Result<usize, AllocError> {
    let trees = tree_places_in_input(alloc, &[], input)?;
    Ok(trees.len().saturating_sub(1))
}

/// Reads the input from its first byte to its last, and returns the model and the runs, or the first refusal in a form.
pub(crate) fn read_model_and_runs_in_form(
    alloc: Global,
    form: OutputForm,
    input: &[u8],
) -> Result<Result<ModelAndRuns, Answer>, AllocError>
    ensures { IfOk result (λ read. MatchResult read
        (λ file. HoldsRuns input.now file.compiled file.runs.items)
        (Answers (IsRefusedIn form input.now))) }
{
    let CompiledModelAndTrees { compiled, trees } = match compile_model_of_input(alloc, input)? {
        Ok(file) => file,
        Err(refusal) => return Ok(Err(refused_model_answer(alloc, form, &refusal)?)),
    };
    match read_runs_of_trees(alloc, compiled.typed(), trees_after_model(trees.as_slice()))? {
        Ok(runs) => Ok(Ok(ModelAndRuns { compiled, runs })),
        Err(fault) => Ok(Err(refused_item_answer(alloc, form, &fault)?)),
    }
}

/// Reads the input from its first byte to its last, and returns the model and the runs, or the first refusal as text.
pub fn read_model_and_runs_of_input(
    alloc: Global,
    input: &[u8],
) -> Result<Result<ModelAndRuns, Answer>, AllocError>
    ensures { IfOk result (λ read. MatchResult read
        (λ file. HoldsRuns input.now file.compiled file.runs.items)
        (Answers (IsFirstRefusal input.now))) }
{
    read_model_and_runs_in_form(alloc, OutputForm::Text, input)
}

/// A model, the items after it, and the judgement on each.
#[derive(Drop)]
pub struct JudgedFile {
    /// The model.
    pub compiled: Compiled,
    /// The items after the model, in the parts in which they were read, if they are kept.
    pub runs: Vec<Vec<Run>>,
    /// Their judgements, in the order of the items.
    pub judged: Vec<Judged>,
}

/// A model, the answers to the items after it, and their runs if they are to be kept.
#[derive(Drop)]
struct AnsweredFile {
    /// The model.
    compiled: Compiled,
    /// The items that are not refused, in the parts in which they were read, if they are kept.
    runs: Vec<Vec<Run>>,
    /// The judgement on each item, or why it is refused, in the order of the items.
    answers: Vec<ItemResult>,
}

/// Reads and judges parts of the input by an order, on several threads at once. Keeps the answers of each part, and its runs as
/// `keep` says. Returns `None`, which says nothing about the input, if the input is over `MAX_BYTES`, if it does not
/// begin with a well-typed model alone before the next line that begins with a bracket, or if some part of the rest
/// is no text of trees by itself.
fn read_and_judge_in_parallel_if_possible<R: Threads + Sync>(
    rt: &R,
    alloc: Global,
    input: &[u8],
    order: CallOrder,
    keep: Keep,
    steps: &ProgressCounter,
) -> Result<Option<AnsweredFile>, AllocError>
    ensures { IfOk result (λ read. IfSome read (λ file.
        HoldsAnswered order (keeps_all keep) input.now file.compiled (joined file.runs.items) file.answers.items)) }
{
    if input.len() > MAX_BYTES {
        return Ok(None);
    }
    let Some((head, rest)) = split_before_second_bracket_line(input) else {
        return Ok(None);
    };
    let Ok(CompiledModelAndTrees { compiled, trees }) = compile_model_of_input(alloc, head)? else {
        return Ok(None);
    };
    if trees.len() != 1 {
        return Ok(None);
    }
    prove_compiled_models_are_sync();
    let keeps = keep.keeps_runs_of_model(compiled.typed());
    let callbacks = &compiled;
    let judge = Judge { callbacks, order };
    match read_and_judge_in_parts(rt, &judge, alloc, compiled.typed(), rest, keeps, steps)? {
        Some(AnsweredParts { runs, answers }) => Ok(Some(AnsweredFile {
            compiled,
            runs,
            answers,
        })),
        None => Ok(None),
    }
}

/// The judgements on the items, or the refusal of the first refused item.
fn judged_file_unless_refused(
    alloc: Global,
    file: AnsweredFile,
) -> Result<Result<JudgedFile, Answer>, AllocError>
    ensures { IfOk result (λ read. (order : CallOrder) (all : Bool) (input : List ℕ)
        → HoldsAnswered order all input file.compiled (joined file.runs.items) file.answers.items
        → MatchResult read
        (λ judged. HoldsJudged order all input judged.compiled (joined judged.runs.items) judged.judged.items)
        (Answers (IsFirstRefusal input))) }
{
    let AnsweredFile {
        compiled,
        runs,
        answers,
    } = file;
    if let Some(fault) = first_refused_item(answers.as_slice()) {
        return Ok(Err(refused_item_answer(alloc, OutputForm::Text, &fault)?));
    }
    let judged = judgements_of_items(alloc, answers)?;
    Ok(Ok(JudgedFile {
        compiled,
        runs,
        judged,
    }))
}

/// Runs as one part.
fn wrap_runs_in_one_list(alloc: Global, runs: Vec<Run>) -> Result<Vec<Vec<Run>>, AllocError>
    ensures { IfOk result (λ parts. joined parts.items ≡ runs.items) }
{
    let mut parts = Vec::new(alloc);
    parts.push(runs)?;
    Ok(parts)
}

/// The runs of all parts, in order.
pub fn concatenate_run_lists(alloc: Global, parts: Vec<Vec<Run>>) -> Result<Vec<Run>, AllocError>
    ensures { IfOk result (λ runs. runs.items ≡ joined parts.items) }
{
    let mut runs = Vec::new(alloc);
    for mut part in parts {
        runs.append(&mut part)?;
    }
    Ok(runs)
}

/// Reads the input from its first byte to its last and then judges its items by an order, several at once. Returns the items and
/// judgements, or the first refusal.
fn read_all_runs_then_judge_in_parallel<R: Threads + Sync>(
    rt: &R,
    alloc: Global,
    input: &[u8],
    order: CallOrder,
    steps: &ProgressCounter,
) -> Result<Result<JudgedFile, Answer>, AllocError>
    ensures { IfOk result (λ read. MatchResult read
        (λ file. HoldsJudged order true input.now file.compiled (joined file.runs.items) file.judged.items)
        (Answers (IsFirstRefusal input.now))) }
{
    let ModelAndRuns { compiled, runs } = match read_model_and_runs_of_input(alloc, input)? {
        Ok(read) => read,
        Err(answer) => return Ok(Err(answer)),
    };
    prove_compiled_models_are_sync();
    steps.restart_with_total(runs.len());
    let callbacks = &compiled;
    let judge = Judge { callbacks, order };
    let judged = rejudge_with_progress(rt, &judge, alloc, runs.as_slice(), steps)?;
    let runs = wrap_runs_in_one_list(alloc, runs)?;
    Ok(Ok(JudgedFile {
        compiled,
        runs,
        judged,
    }))
}

/// The judgements by an order on the items of an input, several judged at once, or the first refusal. `keep` says
/// which items to keep; more may be kept. `steps` counts the items that are judged.
pub fn read_and_judge_file<R: Threads + Sync>(
    rt: &R,
    alloc: Global,
    input: &[u8],
    order: CallOrder,
    keep: Keep,
    steps: &ProgressCounter,
) -> Result<Result<JudgedFile, Answer>, AllocError>
    ensures { IfOk result (λ read. MatchResult read
        (λ file. HoldsJudged order (keeps_all keep) input.now file.compiled (joined file.runs.items) file.judged.items)
        (Answers (IsFirstRefusal input.now))) }
{
    match read_and_judge_in_parallel_if_possible(rt, alloc, input, order, keep, steps)? {
        Some(file) => judged_file_unless_refused(alloc, file),
        None => read_all_runs_then_judge_in_parallel(rt, alloc, input, order, steps),
    }
}

/// Which runs of an input to keep beside their judgements.
#[derive(Clone, Copy, Drop)]
pub(crate) enum Keep {
    /// All of them.
    All,
    /// All of them if the precondition of some operation is another expression than `true`, else none.
    ForWarnings,
    /// None of them.
    Nothing,
}

/// Whether the precondition of an operation is another expression than `true`.
fn has_nontrivial_precondition(item: &Item) -> bool {
    match item {
        Item::Op(op) => !matches!(&op.pre, Expr::Bool(true)),
        _ => false,
    }
}

impl Keep {
    /// Keeps runs only if they may be worth a warning, and none at all if warnings are not wanted.
    pub(crate) fn for_warnings(are_wanted: bool) -> Keep {
        if are_wanted {
            Keep::ForWarnings
        } else {
            Keep::Nothing
        }
    }

    /// Whether to keep runs over a model.
    pub(crate) fn keeps_runs_of_model(self, typed: &Typed) -> bool
        ensures { keeps_all self ≡ true → result ≡ true }
    {
        match self {
            Keep::All => true,
            Keep::ForWarnings => {
                let items = typed.source().items.as_slice();
                items.iter().any(|item| has_nontrivial_precondition(item))
            }
            Keep::Nothing => false,
        }
    }
}

/// Threads may share a `Sync` type.
fn prove_sync<T: Sync>()
    ensures { IsSync T.row }
{}

/// Threads may share compiled models.
pub(crate) fn prove_compiled_models_are_sync()
    ensures { IsSync compiled_row }
{
    prove_sync::<Typed>();
    prove_sync::<Code>();
    prove_sync::<Compiled>()
}

/// Threads may share judgements.
pub(crate) fn prove_judgements_are_sync()
    ensures { IsSync judged_row }
{
    prove_sync::<Judged>()
}
