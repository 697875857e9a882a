//! Resets of the clients of a worker, restarts of those that have ended, and lines that they printed too many.
ghost use Rattle.std.specs.Prelude.{◌≡◌, IfErr, IfSome, IsTrue, MatchResult, length, string_bytes};
ghost use Rattle.pst_clients.specs.Losing.{IsExtra, IsLineLoss, IsResetLoss, fault_of};

use crate::clients::{Clients, STRAY_HINT};
use crate::connection::Connection;
use crate::notes::{ClientId, NoteKind};
use crate::source::{LineSink, LineSource};
use crate::states::{ClientState, LostAnswer};
use crate::waits::ClientWaits;
use pst_system::CallFault;
use std::alloc::AllocError;
use std::rt::Files;
use std::sync::atomic::Ordering;
use std::sync::{Mutex, Wait};
use std::thread::Parker;
use std::time::Duration;

/// The line that makes a client reset the system to its initial state.
const RESET: &str = "[\"reset\"]\n";

/// What a client does not answer that does not start again.
const REVIVE: &[u8] = b"[\"revive\"]";

/// How long a client that answers a reset as it did not before may take to print another line, in milliseconds.
const LATE: u64 = 100;

/// Whether some client has ended.
fn has_ended_client<I: LineSource, O: LineSink>(
    connections: &mut [Mutex<Connection<I, O>>],
) -> bool {
    for connection in connections {
        if connection.get_mut().state() == ClientState::Ended {
            return true;
        }
    }
    false
}

/// Whether some client gets no other line, and is not started again.
fn has_final_client<I: LineSource, O: LineSink>(
    connections: &mut [Mutex<Connection<I, O>>],
) -> bool {
    for connection in connections {
        if connection.get_mut().state().is_final() {
            return true;
        }
    }
    false
}

/// Waits until all clients are known to have ended, or the launcher ends the wait.
fn await_client_ends<I: LineSource, O: LineSink>(
    connections: &mut [Mutex<Connection<I, O>>],
    waits: &ClientWaits,
    worker: u64,
) {
    let mut branch = 0u32;
    for connection in connections {
        let client = ClientId { worker, branch };
        let connection = connection.get_mut();
        waits.begin_wait_for_more_output(client);
        connection.begin_limited_wait();
        connection.await_client_end();
        connection.end_limited_wait();
        waits.end_wait_for_client(client);
        branch = branch.saturating_add(1);
    }
}

/// Waits until a client that has ended runs again, or the launcher ends the wait.
pub(crate) fn await_client_restart<I: LineSource, O: LineSink>(
    connection: &mut Connection<I, O>,
    waits: &ClientWaits,
    client: ClientId,
) {
    waits.begin_wait_for_answer(client, REVIVE);
    connection.begin_limited_wait();
    connection.await_restart_of_ended_client();
    connection.end_limited_wait();
    waits.end_wait_for_client(client);
}

/// Waits until the clients run again that are known to have ended, or the launcher ends the wait.
fn await_client_restarts<I: LineSource, O: LineSink>(
    connections: &mut [Mutex<Connection<I, O>>],
    waits: &ClientWaits,
    worker: u64,
) {
    let mut branch = 0u32;
    for connection in connections {
        let client = ClientId { worker, branch };
        let connection = connection.get_mut();
        if connection.state() == ClientState::Ended {
            await_client_restart(connection, waits, client);
        }
        branch = branch.saturating_add(1);
    }
}

/// Has the clients restarted that are known to have ended. If one process has them all, this waits until all
/// are known to have ended, and is impossible once a pipe is closed.
fn restart_ended_clients_if_possible<I: LineSource, O: LineSink>(
    connections: &mut [Mutex<Connection<I, O>>],
    waits: &ClientWaits,
    worker: u64,
    is_shared: bool,
) {
    if !has_ended_client(connections) {
        return;
    }
    if is_shared {
        if has_final_client(connections) {
            return;
        }
        await_client_ends(connections, waits, worker);
        if has_final_client(connections) {
            return;
        }
    }
    for connection in &mut *connections {
        connection.get_mut().ask_launcher_to_restart_ended_client();
    }
    await_client_restarts(connections, waits, worker);
}

impl<R: Wait + Files, I: LineSource + Drop, O: LineSink + Drop> Clients<R, I, O> {
    /// Has the clients restarted that are known to have ended, if this is possible.
    fn restart_ended_clients(&mut self)
        ensures results { self.new.results ≡ self.old.results }
        ensures clients { length self.new.connections.items ≡ length self.old.connections.items }
    {
        restart_ended_clients_if_possible(
            self.connections.as_mut_slice(),
            self.notes.waits(),
            self.worker,
            self.is_shared,
        );
    }

    /// The fault of a reset whose line was lost for a reason that has the fault `fault` for a call.
    fn fault_of_reset(&self, fault: CallFault) -> CallFault
        requires { IsLineLoss I.may_give I.may_fail I.may_run_ahead O.may_break fault }
        ensures { IsResetLoss I.may_give I.may_fail I.may_run_ahead O.may_break result }
    {
        match fault {
            CallFault::NoMemory => CallFault::NoMemory,
            CallFault::Refused => CallFault::Refused,
            CallFault::OutcomeUnknown => CallFault::Refused,
        }
    }

    /// Waits before a reset, if a call since the last one may take effect late and the options say how long.
    fn wait_for_late_calls(&self) {
        let may_be_late = self.has_call_that_may_be_late.load(Ordering::SeqCst);
        self.has_call_that_may_be_late
            .store(false, Ordering::SeqCst);
        let milliseconds = self.options.settle_milliseconds;
        if may_be_late && milliseconds > 0 {
            Parker::new().park_timeout(&self.rt, Duration::from_millis(milliseconds));
        }
    }

    /// The line of the reset with its number, if the options say that it has one.
    fn numbered_reset_line(&self) -> Result<Option<String>, AllocError> {
        if !self.options.numbers_runs {
            return Ok(None);
        }
        let number = self.resets;
        let line = format!(in self.alloc; "[\"reset\",{number}]\n")?;
        Ok(Some(line))
    }

    /// The line with which a branch's client answers a reset, which may only take a limited time, if the branch has a
    /// client.
    fn ask_for_reset(&self, branch: u32) -> Option<Result<String, LostAnswer>>
        ensures { IfSome result (λ answer. MatchResult answer (λ text. I.may_give (string_bytes text))
            (λ lost. IsLineLoss I.may_give I.may_fail I.may_run_ahead O.may_break (fault_of lost))) }
    {
        let connection = self.connections.get(branch as usize)?;
        let Ok(numbered) = self.numbered_reset_line() else {
            return Some(Err(LostAnswer::NoMemory));
        };
        let line = match &numbered {
            Some(line) => line.as_str(),
            None => RESET,
        };
        connection.lock(&self.rt).begin_limited_wait();
        let answer = self.ask_client_and_track_wait(connection, branch, line.as_bytes());
        connection.lock(&self.rt).end_limited_wait();
        Some(answer)
    }

    /// Notes a line that a branch's client printed and that answers nothing.
    pub(crate) fn note_stray_line_of_client(&self, branch: u32, text: &str) {
        let last = self
            .notes
            .waits()
            .printable_last_line_of_client(self.alloc, self.client_id(branch));
        let line = match &last {
            Ok(last) if !last.is_empty() => last.as_str(),
            _ => RESET,
        };
        self.note_badly_answered_line(branch, NoteKind::Stray, line.as_bytes(), text, STRAY_HINT)
    }

    /// Drops what a branch's client has printed that answers nothing, and notes it. Returns whether a line too
    /// many came after a call, so that answers since the last reset may be those of other calls.
    fn drop_strays_and_tell_if_answers_doubtful(&self, branch: u32) -> bool
        ensures { IsTrue result → ∥ IsExtra I.may_give I.may_run_ahead ∥₁ }
    {
        let Some(connection) = self.connections.get(branch as usize) else {
            return false;
        };
        let client = self.client_id(branch);
        self.notes.waits().begin_wait_for_more_output(client);
        let mut connection = connection.lock(&self.rt);
        let stray = connection.drop_unread_lines_and_return_first(&self.rt);
        let is_astray = connection.take_extra_line_flag();
        self.notes.waits().end_wait_for_client(client);
        if let Some(text) = stray {
            self.note_stray_line_of_client(branch, text.as_str());
        }
        is_astray
    }

    /// Drops what clients have printed that answers nothing, and notes it. Returns whether a line too many came
    /// after a call.
    fn drop_all_strays_and_tell_if_doubtful(&self) -> bool
        ensures { IsTrue result → ∥ IsExtra I.may_give I.may_run_ahead ∥₁ }
    {
        let mut is_astray = false;
        let mut branch = 0u32;
        for _ in 0..self.connections.len() {
            if self.drop_strays_and_tell_if_answers_doubtful(branch) {
                is_astray = true;
            }
            branch = branch.saturating_add(1);
        }
        is_astray
    }

    /// Whether the answer of a branch's client to a reset is another than before.
    fn is_reset_answer_worth_a_wait(&self, branch: u32, answer: &str) -> bool {
        match self.connections.get(branch as usize) {
            Some(connection) => connection
                .lock(&self.rt)
                .is_reset_answer_worth_a_wait(answer),
            None => false,
        }
    }

    /// Ends the reset of a branch's client. If the client answered as it did not before, this waits for another
    /// line, and if one comes the reset fails: the answer was that of an earlier line.
    fn finish_reset_with_answer(&self, branch: u32, answer: String) -> Result<(), CallFault>
        ensures { IfErr result (λ f. IsResetLoss I.may_give I.may_fail I.may_run_ahead O.may_break f) }
    {
        if self.is_reset_answer_worth_a_wait(branch, answer.as_str()) {
            Parker::new().park_timeout(&self.rt, Duration::from_millis(LATE));
            if self.drop_strays_and_tell_if_answers_doubtful(branch) {
                return Err(CallFault::Refused);
            }
        }
        if let Some(connection) = self.connections.get(branch as usize) {
            connection.lock(&self.rt).finish_reset_with_answer(answer);
        }
        Ok(())
    }

    /// Has clients started again after a branch's client gave no answer to a reset. One that printed several lines is not
    /// asked again.
    fn restart_unless_extra_lines_came(
        &mut self,
        branch: u32,
        lost: &LostAnswer,
    ) -> Result<(), CallFault>
        requires { IsLineLoss I.may_give I.may_fail I.may_run_ahead O.may_break (fault_of lost.now) }
        ensures results { self.new.results ≡ self.old.results }
        ensures clients { length self.new.connections.items ≡ length self.old.connections.items }
        ensures lost { IfErr result (λ f. IsResetLoss I.may_give I.may_fail I.may_run_ahead O.may_break f) }
    {
        if matches!(
            lost,
            LostAnswer::MoreLines(_) | LostAnswer::Marked | LostAnswer::TooLate
        ) {
            let fault = self.noted_fault(branch, RESET.as_bytes(), lost);
            let _ = self.drop_strays_and_tell_if_answers_doubtful(branch);
            return Err(self.fault_of_reset(fault));
        }
        self.restart_ended_clients();
        Ok(())
    }

    /// Ends the reset of a branch's client with its last answer.
    fn end_reset_with_answer(
        &self,
        branch: u32,
        answer: Result<String, LostAnswer>,
    ) -> Result<(), CallFault>
        requires { MatchResult answer (λ text. I.may_give (string_bytes text))
            (λ lost. IsLineLoss I.may_give I.may_fail I.may_run_ahead O.may_break (fault_of lost)) }
        ensures { IfErr result (λ f. IsResetLoss I.may_give I.may_fail I.may_run_ahead O.may_break f) }
    {
        let line = RESET.as_bytes();
        let answer = match self.answer_or_noted_fault(branch, line, answer) {
            Ok(answer) => answer,
            Err(fault) => return Err(self.fault_of_reset(fault)),
        };
        if answer.as_bytes().starts_with(b"failed") {
            self.note_badly_answered_line(branch, NoteKind::Failed, line, answer.as_str(), "");
            return Err(CallFault::Refused);
        }
        if answer.as_bytes().starts_with(b"unknown") {
            self.note_badly_answered_line(branch, NoteKind::Unknown, line, answer.as_str(), "");
            return Err(CallFault::Refused);
        }
        self.finish_reset_with_answer(branch, answer)
    }

    /// Asks a branch's client for a reset, once more if it had to be started again.
    fn reset_client(&mut self, branch: u32) -> Result<(), CallFault>
        ensures results { self.new.results ≡ self.old.results }
        ensures clients { length self.new.connections.items ≡ length self.old.connections.items }
        ensures lost { IfErr result (λ f. IsResetLoss I.may_give I.may_fail I.may_run_ahead O.may_break f) }
    {
        let Some(first) = self.ask_for_reset(branch) else {
            return Ok(());
        };
        match first {
            Ok(text) => self.end_reset_with_answer(branch, Ok(text)),
            Err(lost) => {
                self.restart_unless_extra_lines_came(branch, &lost)?;
                match self.ask_for_reset(branch) {
                    Some(second) => self.end_reset_with_answer(branch, second),
                    None => Ok(()),
                }
            }
        }
    }

    /// Restarts clients that ended, and then resets through each client in turn, after calls that may be late. It fails if a
    /// client printed a line too many since the last reset: what it answered since may be wrong.
    pub(crate) fn reset_clients(&mut self) -> Result<(), CallFault>
        ensures results { self.new.results ≡ self.old.results }
        ensures clients { length self.new.connections.items ≡ length self.old.connections.items }
        ensures lost { IfErr result (λ f. IsResetLoss I.may_give I.may_fail I.may_run_ahead O.may_break f) }
    {
        self.resets = self.resets.saturating_add(1);
        self.wait_for_late_calls();
        if self.drop_all_strays_and_tell_if_doubtful() {
            return Err(CallFault::Refused);
        }
        self.restart_ended_clients();
        let mut branch = 0u32;
        for _ in 0..self.connections.len() {
            if let Err(fault) = self.reset_client(branch) {
                self.notes.count_failed_reset();
                return Err(fault);
            }
            branch = branch.saturating_add(1);
        }
        self.notes.forget_failed_resets();
        Ok(())
    }
}
