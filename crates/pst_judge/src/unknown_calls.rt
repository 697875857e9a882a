//! The calls of a history in which some have an unknown outcome.
ghost use Rattle.std.specs.Prelude.{◌≡◌, ◌+◌, ◌-◌, ◌++◌, ◌<◌, ◌≤◌, ◌^◌, ◌||◌, IfOk, [], ◌∷◌, length, map, replicate};
ghost use Rattle.std.specs.List.{list_any};
ghost use Rattle.pst_case.specs.Recorded.{recorded};
ghost use Rattle.pst_case.specs.Shape.{joined};
ghost use Rattle.pst_judge.specs.UnknownCalls as spec;
ghost use Rattle.pst_value.specs.Holds.{holds};

use crate::events::{
    Event, event_of_command, number_after, split_first_branch_commands, split_first_branch_replies,
    split_first_command, split_first_reply, substituted_arguments,
};
use pst_case::{Case, Command, History, Reply, Shaped};
use pst_eval::Callbacks;
use pst_value::{Items, Value};
use std::alloc::{AllocError, Global};

// ---- broken commands

/// Whether one of the values holds the variable `number`, alone or in a reference.
fn is_used_by_any(number: u32, values: &[Value]) -> bool
    ensures { result ≡ list_any (holds number) values.now }
{
    for value in values {
        if value.uses(number) {
            return true;
        }
    }
    false
}

/// Whether one of the values needs a missing result. The first of `results` has the number `number`.
fn needs_missing_result(number: u32, results: &[Option<Value>], values: &[Value]) -> bool
    requires { number + length results.now < 2 ^ 32 }
    ensures { result ≡ spec.needs_missing number results.now values.now }
{
    let Some((first, rest)) = results.split_first() else {
        return false;
    };
    match first {
        Some(_) => needs_missing_result(number + 1, rest, values),
        None => { is_used_by_any(number, values) || needs_missing_result(number + 1, rest, values) }
    }
}

/// What decides whether a command is broken: the form of the model, and the recorded results.
#[derive(Drop)]
struct BrokenRule<'a, C> {
    callbacks: &'a C,
    results: &'a [Option<Value>],
}

impl<'a, C: Callbacks> BrokenRule<'a, C> {
    /// Whether a command with this reply is broken. `ended` says whether a call before it in its part has an unknown
    /// outcome.
    fn breaks(&self, ended: bool, command: &Command, reply: &Reply) -> bool
        requires { 1 + length self.now.results.now < 2 ^ 32 }
        ensures { result
            ≡ spec.is_broken (C.model self.now.callbacks.now) self.now.results.now ended command.now reply.now }
    {
        match reply {
            Reply::Value(_) => ended || self.lacks_result(command),
            Reply::Misfit | Reply::Failed => true,
            Reply::NotRun => false,
            Reply::Unknown => {
                ended
                    || (self.lacks_result(command) || self.callbacks.next_names_result(command.op))
            }
        }
    }

    /// Whether a result that the command needs is missing.
    fn lacks_result(&self, command: &Command) -> bool
        requires { 1 + length self.now.results.now < 2 ^ 32 }
        ensures { result ≡ spec.needs_missing 1 self.now.results.now command.now.args }
    {
        needs_missing_result(1, self.results, command.args.as_slice())
    }

    /// The number of the first broken command of a part, whose first command is `number`.
    fn first_in_part(
        &self,
        number: u32,
        ended: bool,
        commands: &[Command],
        replies: &[Reply],
    ) -> Option<u32>
        requires results { 1 + length self.now.results.now < 2 ^ 32 }
        requires numbers { number + length commands.now < 2 ^ 32 }
        ensures { result ≡ spec.part_broken (C.model self.now.callbacks.now) self.now.results.now
            number ended commands.now replies.now }
    {
        let (command, commands) = commands.split_first()?;
        let (reply, replies) = replies.split_first()?;
        if self.breaks(ended, command, reply) {
            return Some(number);
        }
        self.first_in_part(number + 1, ended || reply.is_unknown(), commands, replies)
    }

    /// The number of the first broken command of the branches, whose first command is `number`.
    fn first_in_branches(
        &self,
        number: u32,
        branches: &[Items<Command>],
        replies: &[Items<Reply>],
    ) -> Option<u32>
        requires results { 1 + length self.now.results.now < 2 ^ 32 }
        requires numbers { number + length (joined branches.now) < 2 ^ 32 }
        ensures { result ≡ spec.branches_broken (C.model self.now.callbacks.now) self.now.results.now
            number branches.now replies.now }
    {
        let (branch, branches) = split_first_branch_commands(branches)?;
        let (answers, replies) = split_first_branch_replies(replies)?;
        match self.first_in_part(number, false, branch.as_slice(), answers.as_slice()) {
            Some(broken) => Some(broken),
            None => self.first_in_branches(number + branch.len() as u32, branches, replies),
        }
    }
}

/// The number of the first broken command of a history with calls of unknown outcome.
pub(crate) fn first_broken_command<C: Callbacks>(
    callbacks: &C,
    shaped: &Shaped,
    history: &History,
    results: &[Option<Value>],
) -> Option<u32>
    requires few { length results.now ≤ 88 }
    ensures { result
        ≡ spec.broken_among (C.model callbacks.now) results.now shaped.now.case history.now }
{
    let rule = BrokenRule { callbacks, results };
    let case = shaped.case();
    let prefix = case.prefix.as_slice();
    let number = 1 + case.prefix.len() as u32;
    let branches = case.branches.as_slice();
    if let Some(broken) = rule.first_in_part(1, false, prefix, history.prefix.as_slice()) {
        return Some(broken);
    }
    if let Some(broken) = rule.first_in_branches(number, branches, history.branches.as_slice()) {
        return Some(broken);
    }
    let number = number_after(number, branches);
    rule.first_in_part(
        number,
        false,
        case.suffix.as_slice(),
        history.suffix.as_slice(),
    )
}

// ---- calls

impl Event {
    /// Whether the outcome of the call is unknown: its variable is in place of its result.
    pub fn has_unknown_outcome(&self) -> bool
        ensures { result ≡ spec.has_unknown_outcome self.now }
    {
        matches!(self.reference, Value::Var(_))
    }
}

/// A call of unknown outcome.
fn unknown_event(
    alloc: Global,
    results: &[Option<Value>],
    number: u32,
    command: &Command,
) -> Result<Event, AllocError>
    ensures { IfOk result (λ event. event ≡ spec.unknown_event results.now number command.now) }
{
    Ok(Event {
        number,
        op: command.op,
        args: substituted_arguments(alloc, results, command.args.as_slice())?,
        result: Value::Var(number),
        reference: Value::Var(number),
    })
}

/// Appends the calls of a part that have values, whose first command is `number`, to `events`.
fn append_known_events(
    alloc: Global,
    results: &[Option<Value>],
    number: u32,
    commands: &[Command],
    replies: &[Reply],
    mut events: Items<Event>,
) -> Result<Items<Event>, AllocError>
    requires { number + length commands.now < 2 ^ 32 }
    ensures { IfOk result
        (λ all. all ≡ events ++ spec.known_events results.now number commands.now replies.now) }
{
    let Some((command, commands)) = split_first_command(commands) else {
        return Ok(events);
    };
    let Some((reply, replies)) = split_first_reply(replies) else {
        return Ok(events);
    };
    if let Reply::Value(value) = reply {
        events.push(event_of_command(alloc, results, number, command, value)?)?;
    }
    append_known_events(alloc, results, number + 1, commands, replies, events)
}

/// Appends the calls of a part that have an unknown outcome, whose first command is `number`, to `events`.
fn append_unknown_events(
    alloc: Global,
    results: &[Option<Value>],
    number: u32,
    commands: &[Command],
    replies: &[Reply],
    mut events: Items<Event>,
) -> Result<Items<Event>, AllocError>
    requires { number + length commands.now < 2 ^ 32 }
    ensures { IfOk result
        (λ all. all ≡ events ++ spec.unknown_events results.now number commands.now replies.now) }
{
    let Some((command, commands)) = split_first_command(commands) else {
        return Ok(events);
    };
    let Some((reply, replies)) = split_first_reply(replies) else {
        return Ok(events);
    };
    if reply.is_unknown() {
        events.push(unknown_event(alloc, results, number, command)?)?;
    }
    append_unknown_events(alloc, results, number + 1, commands, replies, events)
}

/// Appends the columns of the branches, whose first command is `number`, to `columns`.
fn append_branch_calls(
    alloc: Global,
    results: &[Option<Value>],
    number: u32,
    branches: &[Items<Command>],
    replies: &[Items<Reply>],
    mut columns: Items<Items<Event>>,
) -> Result<Items<Items<Event>>, AllocError>
    requires { number + length (joined branches.now) < 2 ^ 32 }
    ensures { IfOk result
        (λ all. all ≡ columns ++ spec.branch_calls results.now number branches.now replies.now) }
{
    let Some((branch, branches)) = split_first_branch_commands(branches) else {
        return Ok(columns);
    };
    let Some((answers, replies)) = split_first_branch_replies(replies) else {
        return Ok(columns);
    };
    let commands = branch.as_slice();
    let answers = answers.as_slice();
    let known = append_known_events(alloc, results, number, commands, answers, Items::new(alloc))?;
    let calls = append_unknown_events(alloc, results, number, commands, answers, known)?;
    columns.push(calls)?;
    let number = number + branch.len() as u32;
    append_branch_calls(alloc, results, number, branches, replies, columns)
}

/// Appends `count` empty columns.
fn append_empty_columns(
    alloc: Global,
    count: usize,
    mut columns: Items<Items<Event>>,
) -> Result<Items<Items<Event>>, AllocError>
    ensures { IfOk result (λ all. all ≡ columns ++ replicate count []) }
{
    if count == 0 {
        return Ok(columns);
    }
    columns.push(Items::new(alloc))?;
    append_empty_columns(alloc, count - 1, columns)
}

/// The columns of four branches, some of which may be empty.
fn four_branch_columns(
    alloc: Global,
    results: &[Option<Value>],
    case: &Case,
    history: &History,
) -> Result<Items<Items<Event>>, AllocError>
    requires numbers { 1 + length case.now.prefix + length (joined case.now.branches) < 2 ^ 32 }
    requires few { length case.now.branches ≤ 4 }
    ensures { IfOk result (λ all. all ≡ spec.to_four (spec.branch_calls results.now (1 + length case.now.prefix)
        case.now.branches history.now.branches)) }
{
    let number = 1 + case.prefix.len() as u32;
    let columns = append_branch_calls(
        alloc,
        results,
        number,
        case.branches.as_slice(),
        history.branches.as_slice(),
        Items::new(alloc),
    )?;
    let missing = 4usize.saturating_sub(columns.len());
    append_empty_columns(alloc, missing, columns)
}

/// The columns of a history: four branches, the call of unknown outcome in the prefix, and the suffix.
pub(crate) fn columns_of_calls(
    alloc: Global,
    shaped: &Shaped,
    history: &History,
    results: &[Option<Value>],
) -> Result<Items<Items<Event>>, AllocError>
    requires results { results.now ≡ recorded history.now }
    ensures { IfOk result (λ columns. columns ≡ spec.columns shaped.now.case history.now) }
{
    let case = shaped.case();
    let mut columns = four_branch_columns(alloc, results, case, history)?;
    let prefix = case.prefix.as_slice();
    let replies = history.prefix.as_slice();
    columns.push(append_unknown_events(alloc, results, 1, prefix, replies, Items::new(alloc))?)?;
    let number = number_after(1 + prefix.len() as u32, case.branches.as_slice());
    let suffix = case.suffix.as_slice();
    let replies = history.suffix.as_slice();
    columns.push(append_known_events(alloc, results, number, suffix, replies, Items::new(alloc))?)?;
    Ok(columns)
}

/// The calls of the prefix that have values.
pub(crate) fn known_calls_of_prefix(
    alloc: Global,
    shaped: &Shaped,
    history: &History,
    results: &[Option<Value>],
) -> Result<Items<Event>, AllocError>
    requires results { results.now ≡ recorded history.now }
    ensures { IfOk result (λ events. events ≡ spec.known_prefix shaped.now.case history.now) }
{
    let commands = shaped.case().prefix.as_slice();
    let replies = history.prefix.as_slice();
    append_known_events(alloc, results, 1, commands, replies, Items::new(alloc))
}

/// How many calls have values.
fn count_known(calls: &[Event]) -> usize
    ensures count { result ≡ spec.known_count calls.now }
    ensures within { result ≤ length calls.now }
{
    let Some((first, rest)) = calls.split_first() else {
        return 0;
    };
    let more = count_known(rest);
    if first.has_unknown_outcome() {
        more
    } else {
        1 + more
    }
}

/// How many calls of each column have values.
pub(crate) fn count_known_in_each(
    alloc: Global,
    columns: &[Items<Event>],
) -> Result<Vec<usize>, AllocError>
    ensures { IfOk result (λ counts. counts.items ≡ map spec.known_count columns.now) }
{
    let mut counts = Vec::new(alloc);
    for calls in columns {
        counts.push(count_known(calls.as_slice()))?;
    }
    Ok(counts)
}

/// How many calls each column has.
pub(crate) fn count_calls_in_each(
    alloc: Global,
    columns: &[Items<Event>],
) -> Result<Vec<usize>, AllocError>
    ensures { IfOk result (λ counts. counts.items ≡ map length columns.now) }
{
    let mut counts = Vec::new(alloc);
    for calls in columns {
        counts.push(calls.len())?;
    }
    Ok(counts)
}
