//! Opens clients at named pipes.

use crate::clients::Clients;
use crate::connection::Connection;
use crate::notes::Notes;
use crate::source::CallPipe;
use pst_value::{Items, Ty};
use std::alloc::Global;
use std::fs::OpenOptions;
use std::io::{self, BufReader};
use std::rt::Files;
use std::sync::{Arc, Wait};

/// A folder with the pipes of clients.
#[derive(Clone, Copy, Debug, PartialEq, Eq, Drop)]
pub struct ClientFolder<'a> {
    pub name: &'a str,
    /// Whether one process has all the clients of a worker.
    pub is_shared: bool,
}

impl<'a> ClientFolder<'a> {
    /// The folder that a word such as `clients:FOLDER` or `shared:FOLDER` names.
    pub fn from_argument(word: &'a str) -> Option<ClientFolder<'a>> {
        if let Some(name) = word.strip_prefix("clients:") {
            return Some(ClientFolder {
                name,
                is_shared: false,
            });
        }
        let name = word.strip_prefix("shared:")?;
        Some(ClientFolder {
            name,
            is_shared: true,
        })
    }
}

/// The client whose pipes are the files `WORKER-BRANCH.calls` and `WORKER-BRANCH.answers` in a folder, counted from 1. If
/// the launcher has a pipe `WORKER-BRANCH.waits`, that tells it of waits.
///
/// A test may have plain files in place of pipes, to which nothing is written.
fn open_client<R: Files + AllocGlobal>(
    rt: &R,
    folder: &str,
    worker: u64,
    branch: u32,
) -> io::Result<Connection<BufReader<R::File>, CallPipe<R::File>>> {
    let alloc = rt.alloc();
    let calls = format!(in alloc; "{folder}/{worker}-{branch}.calls")?;
    let name = format!(in alloc; "{folder}/{worker}-{branch}.answers")?;
    let calls = OpenOptions::new().write(true).open(rt, calls.as_str())?;
    let answers = std::fs::open(rt, name.as_str())?;
    let answers = BufReader::new(alloc, answers)?;
    let client = Connection::new(alloc, answers, CallPipe(calls));
    if !is_pipe(rt, name.as_str()) {
        return Ok(client);
    }
    let client = client.with_answer_pipe_name(name);
    let waits = format!(in alloc; "{folder}/{worker}-{branch}.waits")?;
    if !is_pipe(rt, waits.as_str()) {
        return Ok(client);
    }
    let waits = OpenOptions::new().write(true).open(rt, waits.as_str())?;
    Ok(client.with_waits_pipe(CallPipe(waits)))
}

/// Whether a name is that of a pipe, or of something else that is no plain file.
fn is_pipe<R: Files>(rt: &R, name: &str) -> bool {
    match std::fs::metadata(rt, name) {
        Ok(kind) => !kind.is_file(),
        Err(_) => false,
    }
}

/// The clients of worker number `worker`, one for each branch from the first on for which a folder has pipes. `results`
/// has the result types of the operations.
pub fn open_clients<H: Wait + Files + Drop, R: Files + AllocGlobal>(
    handle: H,
    rt: &R,
    folder: ClientFolder<'_>,
    worker: u64,
    results: Items<Ty>,
    notes: Arc<Notes, Global>,
) -> io::Result<Clients<H, BufReader<R::File>, CallPipe<R::File>>> {
    let mut clients = Clients::new(handle, rt.alloc(), worker, folder.is_shared, results, notes);
    for branch in 1..=u32::MAX {
        match open_client(rt, folder.name, worker.saturating_add(1), branch) {
            Ok(client) => clients.add(client)?,
            Err(error) if branch > 1 && error.kind() == io::ErrorKind::NotFound => break,
            Err(error) => return Err(error),
        }
    }
    Ok(clients)
}
