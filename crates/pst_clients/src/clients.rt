//! The system of clients.
ghost use Rattle.std.specs.Prelude.{◌≡◌, ◌≤◌, IfErr, IfOk, MatchResult, option_copied, length, slice_get, string_bytes};
ghost use Rattle.pst_clients.specs.Answering.{Answered, Spells};
ghost use Rattle.pst_clients.specs.Bursting.{IsSaid};
ghost use Rattle.pst_clients.specs.Losing.{IsCallLoss, IsLineLoss, IsResetLoss, IsTextLoss, fault_of};

use crate::connection::Connection;
use crate::notes::{BadlyAnsweredLine, ClientId, NoteKind, Notes};
use crate::options::ClientOptions;
use crate::protocol::{
    ClientAnswer, client_answer_of_line, client_call_line, hint_on_answer_of_wrong_type,
    hint_on_answer_without_value,
};
use crate::source::{LineSink, LineSource};
use crate::states::LostAnswer;
use pst_system::{BurstCase, BurstDrive, CallFault, RealCall, System};
use pst_value::{Items, Ty, Value};
use std::alloc::{AllocError, Global};
use std::rt::Files;
use std::sync::atomic::AtomicBool;
use std::sync::{Arc, Mutex, Wait};

/// Why a line with the mark of a client's end is no answer.
const END_MARK: &str = "the client printed a line with the byte 0x18, which no answer may have";

/// What to mend in a client that prints a line too many.
pub(crate) const STRAY_HINT: &str =
    "; print one line for each line, and log lines to standard error";

/// The clients of one worker, one for each branch.
///
/// Each call of a branch is a line to the branch's client, and its answer is the value that the next line of
/// that client spells. Only the lines of a client are known.
#[derive(Drop)]
pub struct Clients<R: Wait, I: LineSource, O: LineSink> {
    pub(crate) rt: R,
    pub(crate) alloc: Global,
    /// The number of the worker, from 0.
    pub(crate) worker: u64,
    /// Whether one process has all the clients, so that they end together.
    pub(crate) is_shared: bool,
    /// The result types of the operations.
    pub(crate) results: Items<Ty>,
    pub(crate) connections: Vec<Mutex<Connection<I, O>>>,
    pub(crate) notes: Arc<Notes, Global>,
    /// The number of drives of a burst. 0 if no bursts are wanted.
    pub(crate) drives: u32,
    /// The number of the last burst.
    pub(crate) bursts: u64,
    pub(crate) options: ClientOptions,
    /// How many resets were begun.
    pub(crate) resets: u64,
    /// Whether a call since the last reset had an unknown outcome or ended its client.
    pub(crate) has_call_that_may_be_late: AtomicBool,
}

/// The place of a branch's client. A worker has at most four branches.
fn place_of_branch(branch: u32) -> usize
    ensures { result ≤ 3 }
{
    branch.min(3) as usize
}

impl<R: Wait + Files, I: LineSource + Drop, O: LineSink + Drop> Clients<R, I, O> {
    /// No clients. A value is answered only as some line spells it at its type in `results`.
    pub fn new(
        rt: R,
        alloc: Global,
        worker: u64,
        is_shared: bool,
        results: Items<Ty>,
        notes: Arc<Notes, Global>,
    ) -> Clients<R, I, O>
        ensures { result.results ≡ results }
    {
        Clients {
            rt,
            alloc,
            worker,
            is_shared,
            results,
            connections: Vec::new(alloc),
            notes,
            drives: 0,
            bursts: 0,
            options: ClientOptions::NONE,
            resets: 0,
            has_call_that_may_be_late: AtomicBool::new(false),
        }
    }

    /// The same clients, asked to drive cases `drives` times by themselves if all say that they do so.
    pub fn with_bursts(mut self, drives: u32) -> Clients<R, I, O>
        ensures { result.results ≡ self.results }
    {
        self.drives = drives;
        self
    }

    /// The same clients with these options.
    pub fn with_options(mut self, options: ClientOptions) -> Clients<R, I, O>
        ensures { result.results ≡ self.results }
    {
        self.options = options;
        self
    }

    /// Adds the client of the next branch.
    pub fn add(&mut self, connection: Connection<I, O>) -> Result<(), AllocError>
        ensures { self.new.results ≡ self.old.results }
    {
        self.connections.push(Mutex::new(connection))?;
        Ok(())
    }

    /// A branch's client.
    pub(crate) fn client_id(&self, branch: u32) -> ClientId {
        ClientId {
            worker: self.worker,
            branch,
        }
    }

    /// Notes what went wrong with a line for a branch's client.
    pub(crate) fn note_badly_answered_line(
        &self,
        branch: u32,
        kind: NoteKind,
        line: &[u8],
        answer: &str,
        hint: &'static str,
    ) {
        let wrong = BadlyAnsweredLine {
            kind,
            line,
            answer,
            hint,
        };
        self.notes
            .note_badly_answered_line(self.client_id(branch), &wrong)
    }

    /// Notes why a line was not answered.
    fn note_lost_answer_of_client(&self, branch: u32, line: &[u8], lost: &LostAnswer) {
        let (kind, why) = match lost {
            LostAnswer::Ended(how) if how.trim().is_empty() => (NoteKind::NotAnswered, END_MARK),
            LostAnswer::Ended(how) => (NoteKind::NotAnswered, how.as_str()),
            LostAnswer::EndedUnknown(how) => (NoteKind::EndedUnknown, how.as_str()),
            LostAnswer::Marked => (NoteKind::NotAnswered, END_MARK),
            LostAnswer::TooLate => (
                NoteKind::NotAnswered,
                "it takes too long (PST_START_SECONDS)",
            ),
            LostAnswer::Closed => (NoteKind::NotAnswered, "the client has gone"),
            LostAnswer::TooLong => (NoteKind::NotAnswered, "the line is longer than 1 MiB"),
            LostAnswer::NoText => (NoteKind::NoValue, "bytes that are not UTF-8"),
            LostAnswer::MoreLines(first) => {
                return self.note_badly_answered_line(
                    branch,
                    NoteKind::MoreLines,
                    line,
                    first.as_str(),
                    STRAY_HINT,
                );
            }
            LostAnswer::NoMemory => return,
        };
        self.note_badly_answered_line(branch, kind, line, why, "")
    }

    /// The line with which a branch's client answers a line.
    pub(crate) fn ask_client_and_track_wait(
        &self,
        connection: &Mutex<Connection<I, O>>,
        branch: u32,
        line: &[u8],
    ) -> Result<String, LostAnswer>
        ensures { MatchResult result (λ text. I.may_give (string_bytes text))
            (λ lost. IsLineLoss I.may_give I.may_fail I.may_run_ahead O.may_break (fault_of lost)) }
    {
        let client = self.client_id(branch);
        self.notes.waits().begin_wait_for_answer(client, line);
        let answer = connection.lock(&self.rt).ask(line);
        self.notes.waits().end_wait_for_client(client);
        answer
    }

    /// Notes why a line was not answered. Returns the fault of a call that is lost for this reason.
    pub(crate) fn noted_fault(&self, branch: u32, line: &[u8], lost: &LostAnswer) -> CallFault
        requires { IsLineLoss I.may_give I.may_fail I.may_run_ahead O.may_break (fault_of lost.now) }
        ensures { IsLineLoss I.may_give I.may_fail I.may_run_ahead O.may_break result }
    {
        self.note_lost_answer_of_client(branch, line, lost);
        lost.fault()
    }

    /// Returns the answer of a branch's client to `line`. Notes why the client did not answer.
    pub(crate) fn answer_or_noted_fault(
        &self,
        branch: u32,
        line: &[u8],
        answer: Result<String, LostAnswer>,
    ) -> Result<String, CallFault>
        requires { MatchResult answer (λ text. I.may_give (string_bytes text))
            (λ lost. IsLineLoss I.may_give I.may_fail I.may_run_ahead O.may_break (fault_of lost)) }
        ensures { MatchResult result (λ text. I.may_give (string_bytes text))
            (λ f. IsLineLoss I.may_give I.may_fail I.may_run_ahead O.may_break f) }
    {
        match answer {
            Ok(answer) => Ok(answer),
            Err(lost) => Err(self.noted_fault(branch, line, &lost)),
        }
    }

    /// Notes an answer that has not the result type of its operation.
    fn note_answer_if_of_wrong_type(
        &self,
        branch: u32,
        line: &[u8],
        text: &str,
        value: &Value,
        ty: Option<&Ty>,
    ) {
        if let Some(ty) = ty {
            if !value.has_type(ty, &[], &[]) {
                self.note_badly_answered_line(
                    branch,
                    NoteKind::Misfit,
                    line,
                    text,
                    hint_on_answer_of_wrong_type(text, ty),
                )
            }
        }
    }

    /// The value that a line of a branch's client spells, as the answer to a call. Notes why it spells none.
    pub(crate) fn value_of_answer(
        &self,
        branch: u32,
        line: &[u8],
        text: &str,
        ty: Option<&Ty>,
    ) -> Result<Value, CallFault>
        ensures { MatchResult result (Spells (option_copied ty.entry) text.now) (IsTextLoss (option_copied ty.entry) text.now) }
    {
        match client_answer_of_line(self.alloc, ty, text) {
            Ok(ClientAnswer::Value(value)) => {
                self.note_answer_if_of_wrong_type(branch, line, text, &value, ty);
                Ok(value)
            }
            Ok(ClientAnswer::Failed) => {
                self.note_badly_answered_line(branch, NoteKind::Failed, line, text, "");
                Err(CallFault::Refused)
            }
            Ok(ClientAnswer::Unknown) => {
                self.note_badly_answered_line(branch, NoteKind::Unknown, line, text, "");
                self.note_call_that_may_be_late();
                Err(CallFault::OutcomeUnknown)
            }
            Ok(ClientAnswer::NoValue) => {
                let hint = hint_on_answer_without_value(text, ty);
                self.note_badly_answered_line(branch, NoteKind::NoValue, line, text, hint);
                Err(CallFault::Refused)
            }
            Err(AllocError) => Err(CallFault::NoMemory),
        }
    }

    /// What a branch's client answers to a call.
    fn call_client_and_note_bad_answer(
        &self,
        branch: u32,
        call: &RealCall,
    ) -> Result<Value, CallFault>
        ensures value { IfOk result (λ v. Answered (IsSaid I.may_give) self.now.results call.now v) }
        ensures lost { IfErr result (λ f. IsCallLoss I.may_give (IsSaid I.may_give) I.may_fail I.may_run_ahead O.may_break
            (length self.now.connections.items) (slice_get self.now.results call.now.op) f) }
    {
        let Ok(line) = client_call_line(self.alloc, call) else {
            return Err(CallFault::NoMemory);
        };
        let line = line.as_slice();
        let place = place_of_branch(branch);
        if place >= self.connections.len() {
            let why = "this branch has no client (--branches)";
            self.note_badly_answered_line(branch, NoteKind::NotAsked, line, why, "");
            return Err(CallFault::Refused);
        }
        let answer = self.ask_client_for_call(&self.connections[place], branch, line);
        let text = self.answer_or_noted_fault(branch, line, answer)?;
        let ty = self.results.get(call.op as usize);
        self.value_of_answer(branch, line, text.as_str(), ty)
    }
}

impl<
    R: Wait + Files + Drop + Send + Sync,
    I: LineSource + Drop + Send,
    O: LineSink + Drop + Send,
> System for Clients<R, I, O> {
    ghost answers = { λ s c v. Answered (IsSaid I.may_give) s.results c v };

    ghost fails = { λ s c f. IsCallLoss I.may_give (IsSaid I.may_give) I.may_fail I.may_run_ahead O.may_break
        (length s.connections.items) (slice_get s.results c.op) f };

    ghost reset_fails = { λ _ f. IsResetLoss I.may_give I.may_fail I.may_run_ahead O.may_break f };

    /// Restarts clients that ended, and then resets through each client in turn.
    fn reset(&mut self) -> Result<(), CallFault> {
        self.reset_clients()
    }

    fn call(&self, call: &RealCall) -> Result<Value, CallFault> {
        self.call_client_and_note_bad_answer(0, call)
    }

    fn call_from(&self, branch: u32, call: &RealCall) -> Result<Value, CallFault> {
        self.call_client_and_note_bad_answer(branch, call)
    }

    fn bursts(&self) -> bool {
        self.do_clients_burst()
    }

    /// Resets through each client, and then has all of them burst: see `burst_clients`.
    fn burst(&mut self, case: &BurstCase) -> Option<Items<BurstDrive>> {
        self.burst_clients(case)
    }
}
