//! Which clients have a line that they have not answered yet.

use crate::notes::{ClientId, printable_beginning_of_trimmed_line};
use std::alloc::{AllocError, Global};
use std::sync::atomic::{AtomicU64, Ordering};

/// The maximum number of branches of a worker that are watched.
const MOST_BRANCHES: usize = 4;

/// The maximum number of clients that are watched.
const MOST_CLIENTS: usize = 16 * MOST_BRANCHES;

/// How many bytes of a line are kept at most.
const MOST_KEPT: usize = 128;

/// The lines of a client.
#[derive(Drop)]
struct LastClientLine {
    /// How many it got and how many of them it is done with, added up. The sum is odd while it has a line that it
    /// has not answered.
    sum: AtomicU64,
    /// The first bytes of the last line, up to its end, and then bytes of earlier lines.
    kept: Vec<AtomicU64>,
}

impl LastClientLine {
    /// No lines.
    fn new(alloc: Global) -> Result<LastClientLine, AllocError> {
        let mut kept = Vec::with_capacity(alloc, MOST_KEPT)?;
        for _ in 0..MOST_KEPT {
            kept.push(AtomicU64::new(b'\n' as u64))?;
        }
        Ok(LastClientLine {
            sum: AtomicU64::new(0),
            kept,
        })
    }

    /// Keeps the beginning of a line. A line end ends it.
    fn keep_beginning_as_last_line(&self, line: &[u8]) {
        for (place, byte) in self.kept.iter().zip(line) {
            place.store(*byte as u64, Ordering::SeqCst);
        }
    }

    /// The beginning of the last line, up to its end, with `?` in the place of bytes that are not ASCII.
    fn ascii_beginning_of_last_line(&self, alloc: Global) -> Result<Vec<u8>, AllocError> {
        let mut line = Vec::new(alloc);
        for place in &self.kept {
            let byte = (place.load(Ordering::SeqCst) & 0xff) as u8;
            if byte == b'\n' {
                break;
            }
            line.push(if byte < 128 { byte } else { b'?' })?;
        }
        Ok(line)
    }

    /// The beginning of the last line, as it is shown.
    fn printable_beginning_of_last_line(&self, alloc: Global) -> Result<String, AllocError> {
        let line = self.ascii_beginning_of_last_line(alloc)?;
        printable_beginning_of_trimmed_line(
            alloc,
            std::str::from_utf8(line.as_slice()).unwrap_or(""),
        )
    }
}

/// The lines of each client.
#[derive(Drop)]
pub struct ClientWaits {
    clients: Vec<LastClientLine>,
}

impl ClientWaits {
    /// No client has got a line.
    pub(crate) fn new(alloc: Global) -> Result<ClientWaits, AllocError> {
        let mut clients = Vec::with_capacity(alloc, MOST_CLIENTS)?;
        for _ in 0..MOST_CLIENTS {
            clients.push(LastClientLine::new(alloc)?)?;
        }
        Ok(ClientWaits { clients })
    }

    /// The lines of a client, if it is watched.
    fn last_line_if_watched(&self, client: ClientId) -> Option<&LastClientLine> {
        let worker = usize::try_from(client.worker).ok()?;
        let branch = client.branch as usize;
        if branch >= MOST_BRANCHES {
            return None;
        }
        let place = worker.saturating_mul(MOST_BRANCHES).saturating_add(branch);
        self.clients.get(place)
    }

    /// Counts that a client gets a line.
    pub(crate) fn begin_wait_for_answer(&self, client: ClientId, line: &[u8]) {
        if let Some(lines) = self.last_line_if_watched(client) {
            lines.keep_beginning_as_last_line(line);
            lines.sum.fetch_add(1, Ordering::SeqCst);
        }
    }

    /// Counts that more is read of what a client answered to its last line.
    pub(crate) fn begin_wait_for_more_output(&self, client: ClientId) {
        if let Some(lines) = self.last_line_if_watched(client) {
            lines.sum.fetch_add(1, Ordering::SeqCst);
        }
    }

    /// Counts that a client is done with its line.
    pub(crate) fn end_wait_for_client(&self, client: ClientId) {
        if let Some(lines) = self.last_line_if_watched(client) {
            lines.sum.fetch_add(1, Ordering::SeqCst);
        }
    }

    /// How many clients are watched. They have the places from 0 on.
    pub fn len(&self) -> usize {
        self.clients.len()
    }

    /// A number that tells the current line of the client at `place` from its other lines, if the client has
    /// not answered that line.
    pub fn unanswered_line_id(&self, place: usize) -> Option<u64> {
        let sum = self.clients.get(place)?.sum.load(Ordering::SeqCst);
        if sum % 2 == 1 { Some(sum) } else { None }
    }

    /// The beginning of the last line that the client at `place` got, as it is shown.
    pub fn printable_last_line_at_place(
        &self,
        alloc: Global,
        place: usize,
    ) -> Result<String, AllocError> {
        match self.clients.get(place) {
            Some(lines) => lines.printable_beginning_of_last_line(alloc),
            None => Ok(String::new(alloc)),
        }
    }

    /// The beginning of the last line that a client got, as it is shown. It is empty if the client got none.
    pub(crate) fn printable_last_line_of_client(
        &self,
        alloc: Global,
        client: ClientId,
    ) -> Result<String, AllocError> {
        match self.last_line_if_watched(client) {
            Some(lines) => lines.printable_beginning_of_last_line(alloc),
            None => Ok(String::new(alloc)),
        }
    }

    /// The numbers of the worker and of the branch whose client has the place, both from 1.
    pub fn worker_and_branch_of_place(place: usize) -> (usize, usize) {
        let worker = (place / MOST_BRANCHES).saturating_add(1);
        (worker, place % MOST_BRANCHES + 1)
    }
}
