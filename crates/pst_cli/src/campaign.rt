//! `pst campaign`.
ghost use Rattle.std.specs.Prelude.{◌≡◌, false, IfErr, IfOk, IfSome, MatchOption, MatchResult, None, Some, length, string_bytes};
ghost use Rattle.std.specs.Arc.{arc_value};
ghost use Rattle.pst_campaign.specs.Entries.{MayGive};
ghost use Rattle.pst_cli.specs.Answering.{Delivers, Reaches, Stands, memory_of};
ghost use Rattle.pst_cli.specs.Answers.{Answers, IsRefusedCampaign};
ghost use Rattle.pst_cli.specs.CampaignEnd.{IsEndFor, IsEndOf, IsNotBegun, IsReportObject, IsReportOf, status_by};
ghost use Rattle.pst_cli.specs.CampaignOutput as spec;
ghost use Rattle.pst_cli.specs.CampaignOutput.{IsCampaignOutput, plan_of};
ghost use Rattle.pst_cli.specs.Commands.{IsCampaignAnswer};
ghost use Rattle.pst_cli.specs.Sending.{Prints};
ghost use Rattle.pst_campaign.specs.Working.{IsCampaignFault};
ghost use Rattle.pst_report.specs.Text.{report_text};
ghost use Rattle.pst_trial.specs.Settings.{AreInRange};

use crate::answer::{
    Answer, Destinations, MEMORY_LINE, OutputForm, Status, deliver, memory_text, send,
};
use crate::attendant::Attendant;
use crate::campaign_end::CampaignEnd;
use crate::judge::refused_model_answer;
use pst_campaign::{CampaignFault, NeverStops, StopCondition, Watch, campaign_until};
use pst_ledger::Closed;
use pst_model::Typed;
use pst_rejudge::json_object_line;
use pst_report::{
    CampaignStatus, add_lost_trials_and_first_failure, campaign_report_fields_before_losses,
    report, status_of_made_trials, status_of_stoppable_campaign,
};
use pst_sexpr::{Out, Sink};
use pst_system::{BoxedSystem, System};
use pst_trial::{Plan, Record, Settings};
use pst_typing::{ModelFile, load};
use std::alloc::{AllocError, Global};
use std::sync::{Arc, Wait};
use std::thread::Threads;

/// What the numbers that were not drawn mean for the status of a campaign that ended early.
#[derive(Clone, Copy, Debug, PartialEq, Eq, Drop)]
pub enum UndrawnTrials {
    /// They are missing: the status is `Lost` unless a trial did not pass.
    Missing,
    /// They are left out, since the campaign ended when its caller wished: the status is that of the trials that were made, or
    /// `Lost` if none was.
    LeftOut,
}

/// How the report of a campaign is written, and its status.
#[derive(Clone, Copy, Debug, PartialEq, Eq, Drop)]
pub struct ReportOptions {
    pub form: OutputForm,
    pub undrawn: UndrawnTrials,
}

/// `refused campaign KIND`.
fn refused_campaign_line(alloc: Global, fault: CampaignFault) -> Result<String, AllocError>
    ensures { IfOk result (λ line. string_bytes line ≡ spec.campaign_line fault) }
{
    let name = fault.name();
    format!(in alloc; "refused campaign {name}\n")
}

/// The line of a campaign that did not start. As JSON that is the object of a failed allocation.
fn refused_campaign_answer(
    alloc: Global,
    form: OutputForm,
    fault: CampaignFault,
) -> Result<Answer, AllocError>
    ensures { IfOk result (IsRefusedCampaign form fault) }
{
    if form == OutputForm::Json || fault == CampaignFault::NoMemory {
        return Err(AllocError);
    }
    Ok(Answer {
        text: refused_campaign_line(alloc, fault)?.into_bytes(),
        status: Status::Lost,
        refuses: true,
        refusal: None,
    })
}

/// The status after a campaign.
fn exit_status_after_campaign(ended: CampaignStatus) -> Status
    ensures { result ≡ spec.status_after ended }
{
    match ended {
        CampaignStatus::Passed => Status::Accepted,
        CampaignStatus::Failed => Status::Failed,
        CampaignStatus::Incomplete => Status::Lost,
    }
}

/// How the trials of a campaign ended.
fn status_of_trials(undrawn: UndrawnTrials, closed: &Closed<Record>) -> CampaignStatus
    ensures { result ≡ status_by undrawn closed.now }
{
    match undrawn {
        UndrawnTrials::Missing => status_of_stoppable_campaign(closed),
        UndrawnTrials::LeftOut => status_of_made_trials(closed),
    }
}

/// The report of a campaign.
fn campaign_lines(alloc: Global, end: &CampaignEnd) -> Result<Vec<u8>, AllocError>
    ensures { IfOk result (λ text. text.items ≡ report_text end.now.plan end.now.entries) }
{
    let mut out = Out::new(Vec::new(alloc));
    match report(alloc, end.plan(), end.closed(), &mut out) {
        Ok(()) => Ok(out.into_inner()),
        Err(_) => Err(AllocError),
    }
}

/// The object of the report of a campaign, on its line.
fn campaign_object(
    alloc: Global,
    undrawn: UndrawnTrials,
    end: &CampaignEnd,
) -> Result<Vec<u8>, AllocError>
    ensures { IfOk result (λ text. IsReportObject undrawn end.now text.items) }
{
    let (plan, closed) = (end.plan(), end.closed());
    let status = status_of_trials(undrawn, closed);
    let mut fields = campaign_report_fields_before_losses(alloc, plan, closed, status)?;
    let mut more = Vec::new(alloc);
    add_lost_trials_and_first_failure(alloc, &mut more, plan, end.entries())?;
    fields.append(&mut more)?;
    json_object_line(alloc, fields.as_slice())
}

/// The report of a campaign in a form.
fn report_answer(
    alloc: Global,
    options: ReportOptions,
    end: &CampaignEnd,
) -> Result<Answer, AllocError>
    ensures { IfOk result (Answers (IsReportOf options.undrawn options.form end.now)) }
{
    let undrawn = options.undrawn;
    let text = match options.form {
        OutputForm::Text => campaign_lines(alloc, end)?,
        OutputForm::Json => campaign_object(alloc, undrawn, end)?,
    };
    Ok(Answer {
        text,
        status: exit_status_after_campaign(status_of_trials(undrawn, end.closed())),
        refuses: false,
        refusal: None,
    })
}

/// The plan for a model and settings, twice.
fn plan_of_model_and_settings(
    alloc: Global,
    typed: Typed,
    settings: Settings,
) -> Result<(Arc<Plan>, Arc<Plan>), AllocError>
    requires { AreInRange settings }
    ensures { IfOk result (λ plans. (arc_value plans.0 ≡ plan_of typed settings) × (arc_value plans.1 ≡ plan_of typed settings)) }
{
    match Plan::new(alloc, typed, settings) {
        Ok(plan) => {
            let plan = Arc::new(alloc, plan)?;
            Ok((plan.clone()?, plan))
        }
        Err((_, refused)) => Err(refused),
    }
}

/// Runs the trials of a model, and returns what they came to, or the line that says why the campaign did not start.
fn run_trials_of_model<K: StopCondition + Sync, R: Threads + Wait + Sync>(
    rt: &R,
    alloc: Global,
    typed: Typed,
    settings: Settings,
    systems: Vec<BoxedSystem>,
    watch: &K,
    form: OutputForm,
) -> Result<CampaignEnd, Result<Answer, AllocError>>
    requires { AreInRange settings }
    ensures end { IfOk result (IsEndFor (K.may_end watch.now) (λ s. MayGive ((System-box s).answers s.value)
        ((System-box s).fails s.value) ((System-box s).reset_fails s.value)) settings systems.items typed) }
    ensures refusal { IfErr result (λ refusal. IfOk refusal (λ a. (fault : CampaignFault)
        × IsCampaignFault (length systems.items) fault × IsRefusedCampaign form fault a)) }
{
    let (plan, own) = match plan_of_model_and_settings(alloc, typed, settings) {
        Ok(plans) => plans,
        Err(AllocError) => return Err(Err(AllocError)),
    };
    match campaign_until(rt, alloc, plan, systems, watch) {
        Ok(closed) => Ok(CampaignEnd::new(own, closed)),
        Err(fault) => Err(refused_campaign_answer(alloc, form, fault)),
    }
}

/// Runs the trials of the model at the start of the input, and returns what they came to, or the answer if no trial began:
/// the first refusal, or why the campaign did not start.
fn run_trials_of_input<K: StopCondition + Sync, R: Threads + Wait + Sync>(
    rt: &R,
    alloc: Global,
    input: &[u8],
    settings: Settings,
    systems: Vec<BoxedSystem>,
    watch: &K,
    form: OutputForm,
) -> Result<CampaignEnd, Result<Answer, AllocError>>
    requires { AreInRange settings }
    ensures end { IfOk result (IsEndOf (K.may_end watch.now) (λ s. MayGive ((System-box s).answers s.value)
        ((System-box s).fails s.value) ((System-box s).reset_fails s.value)) settings systems.items input.now) }
    ensures refusal { IfErr result (λ refusal. IfOk refusal
        (Answers (IsNotBegun form systems.items input.now))) }
{
    match load(alloc, input) {
        Ok(Ok(file)) => {
            let ModelFile { typed, trees: _ } = file;
            run_trials_of_model(rt, alloc, typed, settings, systems, watch, form)
        }
        Ok(Err(refusal)) => Err(refused_model_answer(alloc, form, &refusal)),
        Err(AllocError) => Err(Err(AllocError)),
    }
}

/// The answer to what came of a campaign, with its end if a trial began.
fn answer_and_end(
    alloc: Global,
    options: ReportOptions,
    ended: Result<CampaignEnd, Result<Answer, AllocError>>,
) -> (Result<Answer, AllocError>, Option<CampaignEnd>)
    ensures end { MatchResult ended (λ end. result.1 ≡ Some end) (λ _. result.1 ≡ None) }
    ensures report { IfOk ended (λ end. IfOk result.0 (Answers (IsReportOf options.undrawn options.form end))) }
    ensures refusal { IfErr ended (λ refusal. result.0 ≡ refusal) }
{
    match ended {
        Ok(end) => (report_answer(alloc, options, &end), Some(end)),
        Err(refusal) => (refusal, None),
    }
}

/// Runs the trials of the model at the start of the input, with one worker for each system, and returns the status.
/// Writes the report of all trials. If the input is refused, writes its first refusal alone; if the campaign is refused
/// for the number of its systems, `refused campaign KIND` alone; if an allocation fails here, or in the campaign before
/// its first trial, `refused memory` alone. Ignores the trees after the model. Drops the systems at the end. Calls
/// `watch` for each trial that has ended, and when all have, before it writes anything.
///
/// The settings must be in their ranges. The status is `Lost` if a trial is lost, else `Failed` if a trial did not
/// pass, else `Accepted`; `Refused` if the input is refused; `Lost` if the campaign is refused, an allocation failed or
/// the writer failed. The call waits for as long as the calls of the systems do.
pub fn campaign_text<W: Sink, K: Watch + Sync, R: Threads + Wait + Sync>(
    rt: &R,
    alloc: Global,
    input: &[u8],
    settings: Settings,
    systems: Vec<BoxedSystem>,
    watch: &K,
    sink: &mut W,
) -> Status
    requires ranges { AreInRange settings }
    requires stands { W.broken sink.old ≡ false }
    ensures { Prints
        (IsCampaignOutput (λ s. MayGive ((System-box s).answers s.value) ((System-box s).fails s.value)
        ((System-box s).reset_fails s.value)) settings systems.items input.now)
        (W.taken sink.old) (W.taken sink.new) (W.broken sink.new) result }
{
    let watch = NeverStops { watch };
    let options = ReportOptions {
        form: OutputForm::Text,
        undrawn: UndrawnTrials::Missing,
    };
    let ended = run_trials_of_input(
        rt,
        alloc,
        input,
        settings,
        systems,
        &watch,
        OutputForm::Text,
    );
    let (answer, _end) = answer_and_end(alloc, options, ended);
    send(&answer, MEMORY_LINE, sink)
}

/// Does what [`campaign_text`] does until `watch` says that the campaign is over, and returns beside the status what the
/// trials came to, if one could begin: what is printed then is its report. If the campaign ends early, the status is
/// `Failed` if a trial did not pass and none is lost, and else as `options.undrawn` says. As JSON, writes one object: the report, or the
/// refusal of the input, or that an allocation failed, also if the campaign is refused for the number of its systems.
pub fn report_campaign<
    F: Sink,
    W: Sink,
    K: StopCondition + Sync,
    R: Threads + Wait + Sync,
    A: Attendant,
>(
    rt: &R,
    alloc: Global,
    input: &[u8],
    settings: Settings,
    systems: Vec<BoxedSystem>,
    watch: &K,
    options: ReportOptions,
    attendant: &mut A,
    to: &mut Destinations<F, W>,
) -> (Status, Option<CampaignEnd>)
    requires ranges { AreInRange settings }
    requires stands { Stands F.broken W.broken to.old }
    ensures prints { Reaches (memory_of options.form)
        (IsCampaignAnswer options.form options.undrawn (K.may_end watch.now) (λ s. MayGive ((System-box s).answers s.value)
        ((System-box s).fails s.value) ((System-box s).reset_fails s.value)) settings systems.items input.now)
        (Delivers F.taken F.broken W.taken W.broken to.old to.new result.0) }
    ensures same { IfSome result.1 (IsEndOf (K.may_end watch.now) (λ s. MayGive ((System-box s).answers s.value)
        ((System-box s).fails s.value) ((System-box s).reset_fails s.value)) settings systems.items input.now) }
    ensures shown { MatchOption result.1
        (Reaches (memory_of options.form) (IsNotBegun options.form systems.items input.now)
        (Delivers F.taken F.broken W.taken W.broken to.old to.new result.0))
        (λ end. Reaches (memory_of options.form) (IsReportOf options.undrawn options.form end)
        (Delivers F.taken F.broken W.taken W.broken to.old to.new result.0)) }
{
    let form = options.form;
    let ended = run_trials_of_input(rt, alloc, input, settings, systems, watch, form);
    let (answer, end) = answer_and_end(alloc, options, ended);
    attendant.before_output(None);
    (deliver(&answer, memory_text(form), to), end)
}
