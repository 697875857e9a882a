//! Ends of a client in a run and between runs, its restarts, and the limit of the time of its calls.
ghost use Rattle.std.specs.Prelude.{◌≡◌, IfErr};
ghost use Rattle.pst_clients.specs.Losing.{IsLineLoss, fault_of};

use crate::connection::{Connection, text_of_bytes};
use crate::marks::{LineEnd, MarkedLine};
use crate::source::{LineSink, LineSource};
use crate::states::{ClientState, LostAnswer};

/// The line that makes the launcher restart a client.
const REVIVE: &str = "[\"revive\"]\n";

/// The word that tells the launcher that a call begins, which may only take a limited time, if the launcher limits calls.
const CALL_WORD: &[u8] = b"c\n";

impl<I: LineSource, O: LineSink> Connection<I, O> {
    /// Whether the client has ended and may be started again before its next call in the same run.
    pub(crate) fn may_restart_in_run(&self) -> bool {
        self.state == ClientState::Ended && self.may_restart_in_run
    }

    /// Asks the launcher to limit the time of a call, if there is a pipe for that. Returns whether it does.
    fn ask_launcher_to_limit_call(&mut self) -> bool {
        if self.state != ClientState::Open {
            return false;
        }
        match &mut self.waits_pipe {
            Some(pipe) => pipe.send_line(CALL_WORD).is_ok(),
            None => false,
        }
    }

    /// Has the launcher limit the time of the next call, and reads up to the line by which it says so. Returns the first
    /// line that the client printed too many before.
    ///
    /// If the launcher has ended the client after it answered its last call, and `restarts_alone`, the client may then be
    /// started again in the run.
    pub fn begin_limited_call(&mut self, restarts_alone: bool) -> Result<Option<String>, LostAnswer>
        ensures { IfErr result (λ lost. IsLineLoss I.may_give I.may_fail I.may_run_ahead O.may_break (fault_of lost)) }
    {
        let mut first = None;
        if !self.ask_launcher_to_limit_call() {
            return Ok(first);
        }
        for _ in 0..u64::MAX {
            let line = self.receive_line()?;
            let marked = MarkedLine::of(line.as_slice());
            if first.is_none() && marked.is_of_client() {
                first = Some(text_of_bytes(self.alloc, marked.text)?);
                self.note_extra_line();
            }
            match marked.end {
                Some(LineEnd::Last) => break,
                Some(LineEnd::Ended | LineEnd::EndedUnknown)
                    if restarts_alone && marked.is_of_call_that_took_too_long() => {
                    self.note_gone(ClientState::Ended);
                    self.may_restart_in_run = true;
                }
                _ => self.note_end_of_line(line.as_slice())?,
            }
        }
        Ok(first)
    }

    /// Waits until the client is known to have ended, or the launcher ends the wait.
    pub fn await_client_end(&mut self) {
        for _ in 0..u64::MAX {
            if self.state != ClientState::Open {
                return;
            }
            if let Ok(line) = self.receive_line() {
                match MarkedLine::of(line.as_slice()).end {
                    Some(LineEnd::Ended | LineEnd::EndedUnknown) => {
                        self.note_gone(ClientState::Ended)
                    }
                    Some(LineEnd::GivenUp) => self.note_gone(ClientState::Closed),
                    None | Some(LineEnd::Last | LineEnd::Started) => {}
                }
            }
        }
    }

    /// Asks the launcher to start a client again that has ended.
    pub fn ask_launcher_to_restart_ended_client(&mut self) {
        if self.state == ClientState::Ended {
            let _ = self.send_client_line(REVIVE.as_bytes());
        }
    }

    /// Waits until a client that has ended runs again, or the launcher ends the wait. Drops the lines of the client, and of
    /// processes that outlive it.
    pub fn await_restart_of_ended_client(&mut self) {
        for _ in 0..u64::MAX {
            if self.state != ClientState::Ended {
                return;
            }
            if let Ok(line) = self.receive_line() {
                match MarkedLine::of(line.as_slice()).end {
                    Some(LineEnd::Started | LineEnd::Ended | LineEnd::EndedUnknown) => {
                        self.state = ClientState::Open;
                        self.may_restart_in_run = false;
                    }
                    Some(LineEnd::GivenUp) => self.note_gone(ClientState::Closed),
                    None | Some(LineEnd::Last) => {}
                }
            }
        }
    }
}
