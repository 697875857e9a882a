//! One client, at the other end of two pipes: what it is sent, what it answers and what else it prints.
ghost use Rattle.std.specs.Prelude.{◌≡◌, [], ◌∷◌, ◌++◌, true, IfErr, IfOk, IsTrue, OnOk, string_bytes};
ghost use Rattle.std.specs.Io.KnownBytes.{Appends, Consumes};
ghost use Rattle.pst_clients.specs.Losing.{IsExtra, IsGone, IsLineLoss, fault_of, is_gone};
ghost use Rattle.pst_system.specs.declared.system.CallFault.TheVariants.{NoMemory};

use crate::marks::{LAST_LINE, LineEnd, MARK, MarkedLine};
use crate::source::{LineSink, LineSource};
use crate::states::{ClientState, LostAnswer};
use pst_system::CallFault;
use std::alloc::{AllocError, Global};
use std::fs::OpenOptions;
use std::io::Write;
use std::rt::Files;

/// The word by which the launcher writes the line that ends what a client has printed so far. A wait begins.
const MARK_WORD: &[u8] = b"m\n";

/// The word that tells the launcher that a wait begins, which may only take a limited time.
const WAIT_WORD: &[u8] = b"w\n";

/// The word that tells the launcher that a wait is over.
const DONE_WORD: &[u8] = b"d\n";

/// After how many resets with an unusual answer it is worth while to wait for another line.
const MOST_WAITS: u32 = 3;

/// A client that reads lines and answers each with a line.
#[derive(Drop)]
pub struct Connection<I: LineSource, O: LineSink> {
    pub(crate) alloc: Global,
    answers: I,
    calls: O,
    pub(crate) state: ClientState,
    /// The name of the pipe of the answers, if they come from one.
    pipe: Option<String>,
    /// The pipe that tells the launcher of waits, if it has one.
    pub(crate) waits_pipe: Option<O>,
    /// Whether a line was sent since the last reset was done.
    is_asked: bool,
    /// Whether it printed a line too many since then, so that its answers may be those of other lines.
    is_astray: bool,
    /// Whether it may be started again in a run: its last call has an unknown outcome, or was answered before the client ended.
    pub(crate) may_restart_in_run: bool,
    /// The answer to the last reset.
    reset_answer: Option<String>,
    /// After how many more resets with an unusual answer it is worth while to wait for another line.
    waits: u32,
    ghost gone: { is_gone state ≡ true → ∥ IsGone I.may_give I.may_fail O.may_break ∥₁ },
    ghost extra: { IsTrue is_astray → ∥ IsExtra I.may_give I.may_run_ahead ∥₁ },
}

impl<I: LineSource, O: LineSink> Connection<I, O> {
    /// A client whose answers come from `answers`, and which reads its calls from `calls`.
    pub fn new(alloc: Global, answers: I, calls: O) -> Connection<I, O> {
        Connection {
            alloc,
            answers,
            calls,
            state: ClientState::Open,
            pipe: None,
            waits_pipe: None,
            is_asked: false,
            is_astray: false,
            may_restart_in_run: false,
            reset_answer: None,
            waits: MOST_WAITS,
        }
    }

    /// The same client, whose answers come from the pipe with this name. Lines that answer nothing are found
    /// only in a pipe that has a name.
    pub fn with_answer_pipe_name(mut self, name: String) -> Connection<I, O> {
        self.pipe = Some(name);
        self
    }

    /// Tells the launcher that a wait begins, which may only take a limited time.
    pub fn begin_limited_wait(&mut self) {
        if let Some(pipe) = &mut self.waits_pipe {
            let _ = pipe.send_line(WAIT_WORD);
        }
    }

    /// Tells the launcher that a wait is over.
    pub fn end_limited_wait(&mut self) {
        if let Some(pipe) = &mut self.waits_pipe {
            let _ = pipe.send_line(DONE_WORD);
        }
    }

    /// What is known of the client.
    pub fn state(&self) -> ClientState {
        self.state
    }

    /// Keeps in mind that the client gives no answer any more.
    pub(crate) fn note_gone(&mut self, state: ClientState)
        requires { ∥ IsGone I.may_give I.may_fail O.may_break ∥₁ }
        ensures answers { self.new.answers ≡ self.old.answers }
        ensures calls { self.new.calls ≡ self.old.calls }
    {
        self.state = state;
    }

    /// Keeps in mind that the client printed a line too many.
    pub(crate) fn note_extra_line(&mut self)
        requires { ∥ IsExtra I.may_give I.may_run_ahead ∥₁ }
        ensures answers { self.new.answers ≡ self.old.answers }
        ensures calls { self.new.calls ≡ self.old.calls }
    {
        self.is_astray = true;
    }

    /// Sends a line with its end.
    pub(crate) fn send_client_line(&mut self, line: &[u8]) -> Result<(), LostAnswer>
        ensures sent { OnOk result (Appends (O.contents self.old.calls)
            (O.contents self.new.calls) line.now) }
        ensures same { self.new.answers ≡ self.old.answers }
        ensures lost { IfErr result (λ lost. IsLineLoss I.may_give I.may_fail I.may_run_ahead O.may_break
            (fault_of lost)) }
    {
        match self.calls.send_line(line) {
            Ok(()) => Ok(()),
            Err(_) => {
                self.note_gone(ClientState::Closed);
                Err(LostAnswer::Closed)
            }
        }
    }

    /// The next line without its end.
    pub(crate) fn receive_line(&mut self) -> Result<Vec<u8>, LostAnswer>
        ensures received { IfOk result (λ line. Consumes (I.remaining self.old.answers)
            (I.remaining self.new.answers) (line.items ++ 10 ∷ [])) }
        ensures same { self.new.calls ≡ self.old.calls }
        ensures given { IfOk result (λ line. I.may_give line.items) }
        ensures lost { IfErr result (λ lost. IsLineLoss I.may_give I.may_fail I.may_run_ahead O.may_break
            (fault_of lost)) }
    {
        match self.answers.next_line(self.alloc) {
            Ok(line) => Ok(line),
            Err(lost) => match lost.fault() {
                CallFault::NoMemory => Err(lost),
                CallFault::Refused => {
                    self.note_gone(ClientState::Closed);
                    Err(lost)
                }
                CallFault::OutcomeUnknown => unreachable!(),
            },
        }
    }

    /// Keeps in mind what the end of a line says. Returns why such a line is no answer, if it says something.
    pub(crate) fn note_end_of_line(&mut self, line: &[u8]) -> Result<(), LostAnswer>
        requires { I.may_give line.now }
        ensures answers { self.new.answers ≡ self.old.answers }
        ensures calls { self.new.calls ≡ self.old.calls }
        ensures lost { IfErr result (λ lost. IsLineLoss I.may_give I.may_fail I.may_run_ahead O.may_break
            (fault_of lost)) }
    {
        let marked = MarkedLine::of(line);
        match marked.end {
            None => Ok(()),
            Some(LineEnd::Last | LineEnd::Started) => {
                self.note_extra_line();
                Err(LostAnswer::Marked)
            }
            Some(LineEnd::GivenUp) => {
                self.note_gone(ClientState::Closed);
                Err(LostAnswer::TooLate)
            }
            Some(LineEnd::Ended) => {
                self.note_gone(ClientState::Ended);
                let how = text_of_bytes(self.alloc, marked.how_it_ended())?;
                Err(LostAnswer::Ended(how))
            }
            Some(LineEnd::EndedUnknown) => {
                self.note_gone(ClientState::Ended);
                self.may_restart_in_run = true;
                let how = text_of_bytes(self.alloc, marked.how_it_ended())?;
                Err(LostAnswer::EndedUnknown(how))
            }
        }
    }

    /// The next line, if the client wrote all of it and it is UTF-8.
    fn receive_answer(&mut self) -> Result<String, LostAnswer>
        ensures received { IfOk result (λ text. Consumes (I.remaining self.old.answers)
            (I.remaining self.new.answers) (string_bytes text ++ 10 ∷ [])) }
        ensures same { self.new.calls ≡ self.old.calls }
        ensures given { IfOk result (λ text. I.may_give (string_bytes text)) }
        ensures lost { IfErr result (λ lost. IsLineLoss I.may_give I.may_fail I.may_run_ahead O.may_break
            (fault_of lost)) }
    {
        let line = self.receive_line()?;
        self.note_end_of_line(line.as_slice())?;
        match String::from_utf8(line) {
            Ok(text) => Ok(text),
            Err(_) => Err(LostAnswer::NoText),
        }
    }

    /// Whether bytes that the client printed have been read ahead. False if its answers come from no pipe with a name.
    /// What the launcher says of the client does not count.
    fn has_buffered_client_output(&self) -> bool
        ensures { IsTrue result → I.may_run_ahead }
    {
        match self.answers.next_byte_read_ahead() {
            Some(byte) => self.pipe.is_some() && byte != MARK,
            None => false,
        }
    }

    /// Sends a line with its end, and reads the line that answers it. Nothing is sent to a client that has ended.
    ///
    /// `MoreLines`: with this line came another one. A line that comes later is found by `drop_unread_lines_and_return_first`.
    pub fn ask(&mut self, line: &[u8]) -> Result<String, LostAnswer>
        ensures sent { OnOk result (Appends (O.contents self.old.calls)
            (O.contents self.new.calls) line.now) }
        ensures received { IfOk result (λ text. Consumes (I.remaining self.old.answers)
            (I.remaining self.new.answers) (string_bytes text ++ 10 ∷ [])) }
        ensures given { IfOk result (λ text. I.may_give (string_bytes text)) }
        ensures lost { IfErr result (λ lost. IsLineLoss I.may_give I.may_fail I.may_run_ahead O.may_break
            (fault_of lost)) }
    {
        match self.state {
            ClientState::Open => {}
            ClientState::Unread => return Err(LostAnswer::NoMemory),
            ClientState::Ended | ClientState::Closed => return Err(LostAnswer::Closed),
        }
        self.is_asked = true;
        self.send_client_line(line)?;
        let text = self.receive_answer()?;
        if self.has_buffered_client_output() {
            self.note_extra_line();
            return Err(LostAnswer::MoreLines(text));
        }
        Ok(text)
    }

    /// Whether the client answered its last reset by the word that says that it bursts.
    pub(crate) fn does_client_burst(&self) -> bool {
        match &self.reset_answer {
            Some(answer) => answer.as_str() == "burst",
            None => false,
        }
    }

    /// Sends the line of a burst, whose answer `receive_burst` reads. Nothing is sent to a client that has ended.
    pub(crate) fn send_burst(&mut self, line: &[u8]) -> Result<(), LostAnswer> {
        if self.state != ClientState::Open {
            return Err(LostAnswer::Closed);
        }
        self.is_asked = true;
        self.send_client_line(line)
    }

    /// The line that answers a burst.
    pub(crate) fn receive_burst(&mut self) -> Result<String, LostAnswer>
        ensures given { IfOk result (λ text. I.may_give (string_bytes text)) }
    {
        self.receive_answer()
    }

    /// Has a line written after all that the client has printed. Returns whether this could be done.
    ///
    /// The launcher writes it, if it has a pipe for that. Without one this program does, which waits as long as the pipe of
    /// the answers is full.
    fn write_end_mark_after_client_output<R: Files>(&mut self, files: &R) -> bool {
        if let Some(pipe) = &mut self.waits_pipe {
            return pipe.send_line(MARK_WORD).is_ok();
        }
        let Some(name) = &self.pipe else {
            return false;
        };
        match OpenOptions::new().write(true).open(files, name.as_str()) {
            Ok(mut end) => end.write_all(LAST_LINE).is_ok(),
            Err(_) => false,
        }
    }

    /// Reads the lines up to the end mark, or up to the line that ends the wait for it. Returns the first that the client
    /// wrote or began, if there is one. After a line was sent, that is a line too many.
    fn read_to_end_mark_line(&mut self) -> Result<Option<String>, LostAnswer> {
        let mut first = None;
        for _ in 0..u64::MAX {
            let line = self.receive_line()?;
            let marked = MarkedLine::of(line.as_slice());
            if first.is_none() && marked.is_of_client() {
                first = Some(text_of_bytes(self.alloc, marked.text)?);
                if self.is_asked {
                    self.note_extra_line();
                }
            }
            match marked.end {
                Some(LineEnd::Last) => break,
                Some(LineEnd::GivenUp) => {
                    self.note_gone(ClientState::Closed);
                    break;
                }
                Some(LineEnd::Ended | LineEnd::EndedUnknown) => self.note_gone(ClientState::Ended),
                None | Some(LineEnd::Started) => {}
            }
        }
        Ok(first)
    }

    /// Drops what the client has printed and nothing has read, without waiting for more. Returns the first line
    /// of it, if there is one. If its answers come from no pipe with a name, it drops nothing.
    pub fn drop_unread_lines_and_return_first<R: Files>(&mut self, files: &R) -> Option<String> {
        if self.state != ClientState::Open || !self.write_end_mark_after_client_output(files) {
            return None;
        }
        let read = self.read_to_end_mark_line();
        self.end_limited_wait();
        match read {
            Ok(first) => first,
            Err(lost) => {
                if lost == LostAnswer::NoMemory {
                    self.state = ClientState::Unread;
                }
                None
            }
        }
    }

    /// Whether the client printed a line too many since it was reset, as far as is known. Then each of its
    /// answers may be that of another line. It is forgotten.
    pub fn take_extra_line_flag(&mut self) -> bool
        ensures { IsTrue result → ∥ IsExtra I.may_give I.may_run_ahead ∥₁ }
    {
        let is_astray = self.is_astray;
        self.is_astray = false;
        self.is_asked = false;
        is_astray
    }

    /// Whether the answer to a reset is another than before, so that it may be worth while to wait for another
    /// line.
    pub fn is_reset_answer_worth_a_wait(&self, answer: &str) -> bool {
        match &self.reset_answer {
            Some(usual) => self.waits > 0 && usual.as_str() != answer,
            None => false,
        }
    }

    /// Counts that a reset was answered and is done.
    pub fn finish_reset_with_answer(&mut self, answer: String) {
        if self.is_reset_answer_worth_a_wait(answer.as_str()) {
            self.waits = self.waits.saturating_sub(1);
        }
        self.reset_answer = Some(answer);
        self.is_astray = false;
        self.is_asked = false;
    }
}

impl<I: LineSource, O: LineSink + Drop> Connection<I, O> {
    /// The same client, with a pipe that tells its launcher of waits. The launcher then marks the end of what the client has
    /// printed, and ends waits that take too long.
    pub fn with_waits_pipe(mut self, pipe: O) -> Connection<I, O> {
        self.waits_pipe = Some(pipe);
        self
    }
}

/// The text of bytes, with U+FFFD in the place of what is no UTF-8.
pub(crate) fn text_of_bytes(alloc: Global, bytes: &[u8]) -> Result<String, LostAnswer>
    ensures { IfErr result (λ lost. fault_of lost ≡ NoMemory) }
{
    match String::from_utf8_lossy(alloc, bytes) {
        Ok(text) => Ok(text),
        Err(AllocError) => Err(LostAnswer::NoMemory),
    }
}
