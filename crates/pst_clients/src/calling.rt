//! A call of a branch's client: what comes before and after the line and its answer.
ghost use Rattle.std.specs.Prelude.{IfErr, MatchResult, string_bytes};
ghost use Rattle.pst_clients.specs.Losing.{IsLineLoss, fault_of};

use crate::clients::Clients;
use crate::connection::Connection;
use crate::resetting::await_client_restart;
use crate::source::{LineSink, LineSource};
use crate::states::LostAnswer;
use std::rt::Files;
use std::sync::atomic::Ordering;
use std::sync::{Mutex, Wait};

impl<R: Wait + Files, I: LineSource + Drop, O: LineSink + Drop> Clients<R, I, O> {
    /// Notes a call that had an unknown outcome or ended its client, so that it may take effect later.
    pub(crate) fn note_call_that_may_be_late(&self) {
        self.has_call_that_may_be_late.store(true, Ordering::SeqCst);
        self.notes.count_call_that_may_be_late();
    }

    /// Has a branch's client started again if it has ended and may be started again in the run. Returns whether it was so.
    fn restart_client_in_run(&self, connection: &Mutex<Connection<I, O>>, branch: u32) -> bool {
        let mut connection = connection.lock(&self.rt);
        if self.is_shared || !connection.may_restart_in_run() {
            return false;
        }
        connection.ask_launcher_to_restart_ended_client();
        await_client_restart(&mut connection, self.notes.waits(), self.client_id(branch));
        true
    }

    /// Has the launcher limit the time of the next call of a branch's client. Notes a line that the client printed too many.
    fn begin_limited_call(
        &self,
        connection: &Mutex<Connection<I, O>>,
        branch: u32,
    ) -> Result<(), LostAnswer>
        ensures { IfErr result (λ lost. IsLineLoss I.may_give I.may_fail I.may_run_ahead O.may_break (fault_of lost)) }
    {
        let begun = connection
            .lock(&self.rt)
            .begin_limited_call(!self.is_shared);
        match begun {
            Ok(Some(text)) => {
                self.note_stray_line_of_client(branch, text.as_str());
                Ok(())
            }
            Ok(None) => Ok(()),
            Err(lost) => Err(lost),
        }
    }

    /// Does what comes before the line of a call: has the client started again if it may be in the run, and has the launcher
    /// limit the time of the call if that is wanted.
    fn begin_call(
        &self,
        connection: &Mutex<Connection<I, O>>,
        branch: u32,
    ) -> Result<(), LostAnswer>
        ensures { IfErr result (λ lost. IsLineLoss I.may_give I.may_fail I.may_run_ahead O.may_break (fault_of lost)) }
    {
        self.restart_client_in_run(connection, branch);
        if !self.options.limits_calls {
            return Ok(());
        }
        self.begin_limited_call(connection, branch)?;
        // The launcher may have ended the client just when it had answered the call before.
        if self.restart_client_in_run(connection, branch) {
            self.begin_limited_call(connection, branch)?;
        }
        Ok(())
    }

    /// The line with which a branch's client answers the line of a call.
    pub(crate) fn ask_client_for_call(
        &self,
        connection: &Mutex<Connection<I, O>>,
        branch: u32,
        line: &[u8],
    ) -> Result<String, LostAnswer>
        ensures { MatchResult result (λ text. I.may_give (string_bytes text))
            (λ lost. IsLineLoss I.may_give I.may_fail I.may_run_ahead O.may_break (fault_of lost)) }
    {
        let answer = match self.begin_call(connection, branch) {
            Ok(()) => self.ask_client_and_track_wait(connection, branch, line),
            Err(lost) => Err(lost),
        };
        if self.options.limits_calls {
            connection.lock(&self.rt).end_limited_wait();
        }
        if let Err(LostAnswer::Ended(_) | LostAnswer::EndedUnknown(_)) = &answer {
            self.note_call_that_may_be_late();
        }
        answer
    }
}
