//! Items as trees: cases, and runs with their replies and times.
ghost use Rattle.std.specs.Prelude.{◌≡◌, IfOk, Ok, map};
ghost use Rattle.pst_runs.specs.Items.{item_of};
ghost use Rattle.pst_runs.specs.Lawful.{IsLawful};
ghost use Rattle.pst_runs.specs.ReadAgain.{IsRead};
ghost use Rattle.pst_runs.specs.Written as spec;
ghost use Rattle.pst_sexpr.specs.Lawful.{IsTree};

use crate::write::times::{prove_times_are_small, times_forms};
use crate::write::values::{forms_of_values, value_form};
use pst_case::{Case, Command, History, Reply, Run};
use pst_model::{Source, Typed, operation_of};
use pst_sexpr::{Form, Tree, headed, list_of_one_form, word};
use pst_value::Items;
use std::alloc::{AllocError, Global};

fn case_or_run_form(
    alloc: Global,
    model: &Source,
    case: &Case,
    history: &Option<History>,
) -> Result<Form, AllocError>
    ensures { IfOk result (λ form. form ≡ spec.item_form model.now case.now history.now) }
{
    let mut forms = case_forms(alloc, model, case)?;
    match history {
        Some(history) => {
            forms.push(replies_form(alloc, history)?)?;
            forms.append(times_forms(alloc, &history.times)?)?;
            headed(alloc, "run", forms)
        }
        None => headed(alloc, "case", forms),
    }
}

/// Proves that a valid run is read from its tree. It allocates nothing: it only uses the invariants of the types of the
/// model and of the case, and that times have at most 64 bits.
pub fn prove_run_is_read_back(typed: &Typed, run: &Run)
    requires { IsLawful typed.now run.now }
    ensures { IsRead typed.now run.now }
{
    let _model = typed.source();
    let _case = run.shaped.case();
    prove_times_are_small(&run.history);
}

/// Returns the tree of a run: a `case` if it has no history, or else a `run`. It is read as an equal run.
///
/// Two branches are written as `left` and `right`, three or four as `branches`; an empty suffix is not written. The run
/// must be one of the model, its history must match, and the times must fit its calls.
pub fn run_tree(alloc: Global, typed: &Typed, run: &Run) -> Result<Tree, AllocError>
    requires { IsLawful typed.now run.now }
    // What is written of the run.
    ensures written { IfOk result (λ tree. tree ≡ spec.run_form typed.now run.now) }
    // It has a spelling.
    ensures lawful { IfOk result (λ tree. IsTree tree) }
    // It is read as the run.
    ensures read { IfOk result (λ tree. item_of typed.now tree ≡ Ok run.now) }
{
    prove_run_is_read_back(typed, run);
    let form = case_or_run_form(alloc, typed.source(), run.shaped.case(), &run.history)?;
    Ok(Tree::new(form))
}

fn command_form(alloc: Global, model: &Source, command: &Command) -> Result<Form, AllocError>
    ensures { IfOk result (λ form. form ≡ spec.command_form model.now command.now) }
{
    let args = forms_of_values(alloc, command.args.as_slice())?;
    match operation_of(model.items.as_slice(), command.op as usize) {
        Some(operation) => headed(alloc, operation.name.as_str(), args),
        None => headed(alloc, "", args),
    }
}

fn command_forms(
    alloc: Global,
    model: &Source,
    commands: &[Command],
) -> Result<Items<Form>, AllocError>
    ensures { IfOk result (λ forms. forms ≡ map (spec.command_form model.now) commands.now) }
{
    let mut forms = Items::new(alloc);
    for command in commands {
        forms.push(command_form(alloc, model, command)?)?;
    }
    Ok(forms)
}

/// Returns a node of `word` and the commands.
fn section_form_of_commands(
    alloc: Global,
    model: &Source,
    word: &str,
    commands: &[Command],
) -> Result<Form, AllocError>
    ensures { IfOk result (λ form. form ≡ spec.section_form model.now word.now commands.now) }
{
    headed(alloc, word, command_forms(alloc, model, commands)?)
}

fn branch_forms(
    alloc: Global,
    model: &Source,
    branches: &[Items<Command>],
) -> Result<Items<Form>, AllocError>
    ensures { IfOk result (λ forms. forms ≡ map (spec.branch_form model.now) branches.now) }
{
    let mut forms = Items::new(alloc);
    for branch in branches {
        forms.push(Form::Node(command_forms(alloc, model, branch.as_slice())?))?;
    }
    Ok(forms)
}

/// Returns the trees of the branches: two as `left` and `right`, any other number as `branches`.
fn branch_section_forms(
    alloc: Global,
    model: &Source,
    branches: &[Items<Command>],
) -> Result<Items<Form>, AllocError>
    ensures { IfOk result (λ forms. forms ≡ spec.branches_forms model.now branches.now) }
{
    match branches {
        [left, right] => {
            let left = section_form_of_commands(alloc, model, "left", left.as_slice())?;
            let right = section_form_of_commands(alloc, model, "right", right.as_slice())?;
            let mut forms = list_of_one_form(alloc, left)?;
            forms.push(right)?;
            Ok(forms)
        }
        _ => list_of_one_form(
            alloc,
            headed(alloc, "branches", branch_forms(alloc, model, branches)?)?,
        ),
    }
}

/// Returns the trees of a case: its prefix, its branches, and its suffix, if it has commands.
fn case_forms(alloc: Global, model: &Source, case: &Case) -> Result<Items<Form>, AllocError>
    ensures { IfOk result (λ forms. forms ≡ spec.case_forms model.now case.now) }
{
    let prefix = section_form_of_commands(alloc, model, "prefix", case.prefix.as_slice())?;
    let mut forms = list_of_one_form(alloc, prefix)?;
    forms.append(branch_section_forms(alloc, model, case.branches.as_slice())?)?;
    if !case.suffix.is_empty() {
        forms.push(section_form_of_commands(alloc, model, "suffix", case.suffix.as_slice())?)?;
    }
    Ok(forms)
}

fn reply_form(alloc: Global, reply: &Reply) -> Result<Form, AllocError>
    ensures { IfOk result (λ form. form ≡ spec.reply_form reply.now) }
{
    match reply {
        Reply::Value(value) => value_form(alloc, value),
        Reply::Misfit => word(alloc, "misfit"),
        Reply::Failed => word(alloc, "failed"),
        Reply::NotRun => word(alloc, "not-run"),
        Reply::Unknown => word(alloc, "unknown"),
    }
}

/// The replies of a part.
fn reply_list_form(alloc: Global, replies: &[Reply]) -> Result<Form, AllocError>
    ensures { IfOk result (λ form. form ≡ spec.list_form replies.now) }
{
    let mut forms = Items::new(alloc);
    for reply in replies {
        forms.push(reply_form(alloc, reply)?)?;
    }
    Ok(Form::Node(forms))
}

fn reply_list_forms(alloc: Global, branches: &[Items<Reply>]) -> Result<Items<Form>, AllocError>
    ensures { IfOk result (λ forms. forms ≡ map spec.list_form branches.now) }
{
    let mut forms = Items::new(alloc);
    for branch in branches {
        forms.push(reply_list_form(alloc, branch.as_slice())?)?;
    }
    Ok(forms)
}

/// Returns the tree of a history: a list for the prefix, one for each branch, and one for the suffix if it is not
/// empty.
fn replies_form(alloc: Global, history: &History) -> Result<Form, AllocError>
    ensures { IfOk result (λ form. form ≡ spec.replies_form history.now) }
{
    let mut lists = list_of_one_form(alloc, reply_list_form(alloc, history.prefix.as_slice())?)?;
    lists.append(reply_list_forms(alloc, history.branches.as_slice())?)?;
    if !history.suffix.is_empty() {
        lists.push(reply_list_form(alloc, history.suffix.as_slice())?)?;
    }
    headed(alloc, "replies", lists)
}
