//! Bursts of the clients of a worker: each gets its calls and the number of drives in one line, and answers in one line.
ghost use Rattle.std.specs.Prelude.{◌≡◌, ◌∷◌, ◌-◌, [], IfOk, IfSome, MatchOption, length, map, string_bytes};
ghost use Rattle.std.specs.List.{AllZip};
ghost use Rattle.json.specs.Value.{value_view};
ghost use Rattle.pst_clients.specs.Bursting.{AreDrives, AreHeard, AreTold, IsBurstAnswer, IsTelling, IsTold, Tells, calls_of};

use crate::burst::{
    BurstAnswer, burst_line, calls_of_client, count_drives, drives_that_differ, places_of_json,
};
use crate::clients::Clients;
use crate::connection::Connection;
use crate::source::{LineSink, LineSource};
use crate::states::LostAnswer;
use json::{Scratch, Value as Json};
use pst_system::{BurstCase, BurstDrive, CallEnd, MadeCall, RealCall};
use pst_value::Items;
use std::alloc::AllocError;
use std::rt::Files;
use std::sync::{Mutex, Wait};

/// The first part of an array, and the others.
fn split_first_part<'v, 'j>(parts: &'v [Json<'j>]) -> Option<(&'v Json<'j>, &'v [Json<'j>])>
    ensures { MatchOption result (parts.now ≡ []) (λ p. parts.now ≡ p.0.now ∷ p.1.now) }
{
    parts.split_first()
}

impl<R: Wait + Files, I: LineSource + Drop, O: LineSink + Drop> Clients<R, I, O> {
    /// Whether bursts are wanted, and each client said at its last reset that it makes them.
    pub(crate) fn do_clients_burst(&self) -> bool {
        if self.drives == 0 {
            return false;
        }
        for connection in &self.connections {
            if !connection.lock(&self.rt).does_client_burst() {
                return false;
            }
        }
        true
    }

    // ---- what a client answers

    /// A call with its end, as a text in a client's answer tells it.
    fn made_call(&self, branch: u32, call: &RealCall, text: &str) -> Result<MadeCall, AllocError>
        ensures call { IfOk result (λ made. made.call ≡ call.now) }
        ensures told { IfOk result (Tells self.now.results text.now) }
    {
        let ty = self.results.get(call.op as usize);
        let end = match self.value_of_answer(branch, text.as_bytes(), text, ty) {
            Ok(value) => CallEnd::Answered(value),
            Err(fault) => CallEnd::Fault(fault),
        };
        let call = call.copy(self.alloc)?;
        Ok(MadeCall { call, end })
    }

    /// What became of a call, by the answer in its place: nothing if `null` says that it was not made. `None` if it is no answer.
    fn told_call(
        &self,
        branch: u32,
        call: &RealCall,
        answer: &Json<'_>,
    ) -> Result<Option<Items<MadeCall>>, AllocError>
        ensures { IfOk result (λ found. IfSome found (IsTold self.now.results call.now (value_view answer.now))) }
    {
        let mut made = Items::new(self.alloc);
        match answer {
            Json::String(text) => {
                made.push(self.made_call(branch, call, text)?)?;
                Ok(Some(made))
            }
            Json::Null => Ok(Some(made)),
            _ => Ok(None),
        }
    }

    /// The calls that a client made, by its answers: a text for each, and `null` for one that it did not make. `None` if the
    /// answers are others.
    fn told_calls(
        &self,
        branch: u32,
        calls: &[RealCall],
        answers: &[Json<'_>],
    ) -> Result<Option<Items<MadeCall>>, AllocError>
        ensures { IfOk result (λ found. IfSome found (AreTold self.now.results calls.now (map value_view answers.now))) }
    {
        let Some((call, calls)) = calls.split_first() else {
            return Ok(if answers.is_empty() {
                Some(Items::new(self.alloc))
            } else {
                None
            });
        };
        let Some((answer, answers)) = split_first_part(answers) else {
            return Ok(None);
        };
        let Some(mut made) = self.told_call(branch, call, answer)? else {
            return Ok(None);
        };
        let Some(more) = self.told_calls(branch, calls, answers)? else {
            return Ok(None);
        };
        made.append(more)?;
        Ok(Some(made))
    }

    /// The calls that a list of a client's line tells of. `None` if it is no list of answers to these calls.
    fn told_list(
        &self,
        branch: u32,
        calls: &[RealCall],
        list: &Json<'_>,
    ) -> Result<Option<Items<MadeCall>>, AllocError>
        ensures { IfOk result (λ found. IfSome found (IsTelling self.now.results calls.now (value_view list.now))) }
    {
        match list {
            Json::Array(answers) => self.told_calls(branch, calls, answers.as_slice()),
            _ => Ok(None),
        }
    }

    /// The calls that each list of a client's line tells of. `None` if one is no list of answers to these calls.
    fn told_lists(
        &self,
        branch: u32,
        calls: &[RealCall],
        lists: &[Json<'_>],
    ) -> Result<Option<Vec<Items<MadeCall>>>, AllocError>
        ensures { IfOk result (λ found. IfSome found (λ made.
            AllZip (IsTelling self.now.results calls.now) (map value_view lists.now) made.items)) }
    {
        let mut made = Vec::new(self.alloc);
        for list in lists {
            match self.told_list(branch, calls, list)? {
                Some(own) => made.push(own)?,
                None => return Ok(None),
            }
        }
        Ok(Some(made))
    }

    /// What a client's line answers to a burst of these calls. `None` if it is no such answer.
    fn burst_answer(
        &self,
        branch: u32,
        calls: &[RealCall],
        line: &str,
    ) -> Result<Option<BurstAnswer>, AllocError>
        ensures { IfOk result (λ found. IfSome found (IsBurstAnswer self.now.results calls.now line.now)) }
    {
        let mut scratch = Scratch::new(self.alloc);
        let Ok(json) = Json::parse_strict(self.alloc, line, &mut scratch) else {
            return Ok(None);
        };
        let Json::Array(parts) = &json else {
            return Ok(None);
        };
        let Some((places, lists)) = split_first_part(parts.as_slice()) else {
            return Ok(None);
        };
        let Some(places) = places_of_json(self.alloc, places)? else {
            return Ok(None);
        };
        match self.told_lists(branch, calls, lists)? {
            Some(lists) => Ok(Some(BurstAnswer { lists, places })),
            None => Ok(None),
        }
    }

    // ---- what all clients answer

    /// Sends each client its line of a burst.
    fn send_burst(&self, case: &BurstCase, drives: u32) -> Result<(), LostAnswer> {
        let mut branch = 0;
        for connection in &self.connections {
            let Ok(line) = burst_line(self.alloc, self.bursts, drives, case, branch) else {
                return Err(LostAnswer::NoMemory);
            };
            connection.lock(&self.rt).send_burst(line.as_slice())?;
            branch = branch.saturating_add(1);
        }
        Ok(())
    }

    /// The line with which a client answers a burst. `None` if it gives none.
    fn receive_burst_line(
        &self,
        connection: &Mutex<Connection<I, O>>,
        branch: u32,
    ) -> Option<String>
        ensures { IfSome result (λ line. I.may_give (string_bytes line)) }
    {
        let client = self.client_id(branch);
        self.notes.waits().begin_wait_for_answer(client, BURST);
        let line = connection.lock(&self.rt).receive_burst();
        self.notes.waits().end_wait_for_client(client);
        line.ok()
    }

    /// The answer of a branch's client to a burst. `None` if it gives none, or another one.
    fn receive_burst(
        &self,
        case: &BurstCase,
        branch: u32,
    ) -> Result<Option<BurstAnswer>, AllocError>
        ensures { IfOk result (λ found. IfSome found (λ answer. (line : _) × I.may_give line
            × IsBurstAnswer self.now.results (calls_of case.now branch) line answer)) }
    {
        let Some(connection) = self.connections.get(branch as usize) else {
            return Ok(None);
        };
        let Some(line) = self.receive_burst_line(connection, branch) else {
            return Ok(None);
        };
        let calls = calls_of_client(self.alloc, case, branch as usize)?;
        self.burst_answer(branch, calls.as_slice(), line.as_str())
    }

    /// The answers to a burst of the clients from `branch` on. `None` if one gives none, or another one; those of the others
    /// are read all the same.
    fn receive_bursts(
        &self,
        case: &BurstCase,
        branch: u32,
    ) -> Result<Option<Vec<BurstAnswer>>, AllocError>
        ensures heard { IfOk result (λ found. IfSome found (λ answers.
            AreHeard I.may_give self.now.results case.now branch answers.items)) }
        ensures whole { IfOk result (λ found. IfSome found (λ answers.
            length answers.items ≡ length self.now.connections.items - branch)) }
    {
        let mut answers = Vec::new(self.alloc);
        if branch as usize >= self.connections.len() {
            return Ok(Some(answers));
        }
        let own = self.receive_burst(case, branch)?;
        let Some(next) = branch.checked_add(1) else {
            return Ok(None);
        };
        let others = self.receive_bursts(case, next)?;
        match (own, others) {
            (Some(own), Some(mut others)) => {
                answers.push(own)?;
                answers.append(&mut others)?;
                Ok(Some(answers))
            }
            _ => Ok(None),
        }
    }

    /// Has the clients drive a case `drives` times. `None` if one of them does not.
    fn drive_clients(&self, case: &BurstCase, drives: u32) -> Option<Items<BurstDrive>>
        ensures { IfSome result (AreDrives I.may_give self.now.results case.now
            (length self.now.connections.items) drives) }
    {
        self.send_burst(case, drives).ok()?;
        let Ok(received) = self.receive_bursts(case, 0) else {
            return None;
        };
        let Some(answers) = received else {
            return None;
        };
        let count = count_drives(answers.as_slice()).min(drives as usize);
        if count == 0 {
            return None;
        }
        self.notes.count_burst_drives(count as u64);
        match drives_that_differ(self.alloc, answers.as_slice(), count) {
            Ok(drives) => drives,
            Err(AllocError) => None,
        }
    }

    /// Has the clients drive a case, after a reset. `None` if they do not do so, or one of them failed. The drives are those
    /// that the lines of the clients tell of.
    pub(crate) fn burst_clients(&mut self, case: &BurstCase) -> Option<Items<BurstDrive>>
        ensures results { self.new.results ≡ self.old.results }
        ensures clients { length self.new.connections.items ≡ length self.old.connections.items }
        ensures told { IfSome result (AreDrives I.may_give self.old.results case.now
            (length self.old.connections.items) self.old.drives) }
    {
        let drives = self.drives;
        if self.reset_clients().is_err() || !self.do_clients_burst() {
            return None;
        }
        self.bursts = self.bursts.saturating_add(1);
        self.drive_clients(case, drives)
    }
}

/// What a client has not answered that does not end its burst.
const BURST: &[u8] = b"[\"burst\"]";
