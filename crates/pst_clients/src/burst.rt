//! Bursts: the answers of clients to many drives of a case, and the drives that these make together.
ghost use Rattle.std.specs.Prelude.{◌≡◌, ◌<◌, ◌∷◌, ◌++◌, [], Some, All, Contains, IfOk, IfSome, IsTrue, OnOk, length, map, slice_get};
ghost use Rattle.std.specs.List.{AllZip};
ghost use Rattle.json.specs.Json.{array};
ghost use Rattle.json.specs.Print.{print};
ghost use Rattle.json.specs.Tree.{items_tokens, json_tokens};
ghost use Rattle.json.specs.Value.{items_of, value_view};
ghost use Rattle.pst_clients.specs.Bursting.{AreAllDrives, AreZipped, IsAlike, IsPlace, branch_of, burst_json, calls_json, calls_of, of_first};
ghost use Rattle.pst_clients.specs.Calling.{call_json};

use json::{Value as Json, Writer};
use pst_json_runs::write_json_values_and_end;
use pst_system::{BurstCase, BurstDrive, MadeCall, RealCall};
use pst_value::Items;
use std::alloc::{AllocError, Global};

/// What a client answers to a burst.
#[derive(Drop)]
pub(crate) struct BurstAnswer {
    /// The lists of calls that differ, each with the ends of its calls.
    pub lists: Vec<Items<MadeCall>>,
    /// For each drive the place of its list.
    pub places: Vec<usize>,
}

// ---- the line of a burst

fn write_call(writer: &mut Writer<Global>, call: &RealCall) -> Result<(), AllocError>
    ensures ok { OnOk result (writer.new.tokens ≡ writer.old.tokens ++ json_tokens (call_json call.now)) }
    ensures before { writer.new.before ≡ writer.old.before }
{
    writer.begin_array()?;
    writer.string(call.name.as_str())?;
    write_json_values_and_end(writer, call.args.as_slice())
}

/// Writes calls, and the end of their array.
fn write_calls_and_end(writer: &mut Writer<Global>, calls: &[RealCall]) -> Result<(), AllocError>
    ensures ok { OnOk result (writer.new.tokens ≡ writer.old.tokens ++ items_tokens (items_of (map call_json calls.now))) }
    ensures before { writer.new.before ≡ writer.old.before }
{
    for call in calls {
        write_call(writer, call)?;
    }
    writer.end_array()
}

fn write_calls(writer: &mut Writer<Global>, calls: &[RealCall]) -> Result<(), AllocError>
    ensures ok { OnOk result (writer.new.tokens ≡ writer.old.tokens ++ json_tokens (calls_json calls.now)) }
    ensures before { writer.new.before ≡ writer.old.before }
{
    writer.begin_array()?;
    write_calls_and_end(writer, calls)
}

/// The calls of a branch, none if the case has no such branch.
fn branch_calls(case: &BurstCase, branch: usize) -> &[RealCall]
    ensures { result.now ≡ branch_of case.now branch }
{
    match case.branches.get(branch) {
        Some(calls) => calls.as_slice(),
        None => &[],
    }
}

/// These calls if the branch is the first, and else none: only its client makes the calls of the prefix and of the suffix.
fn calls_of_first(branch: usize, calls: &[RealCall]) -> &[RealCall]
    ensures { result.now ≡ of_first branch calls.now }
{
    if branch == 0 { calls } else { &[] }
}

/// The line that begins a burst of the client of `branch`: `["burst",NUMBER,DRIVES,PREFIX,BRANCH,SUFFIX]`, and a line end.
pub(crate) fn burst_line(
    alloc: Global,
    number: u64,
    drives: u32,
    case: &BurstCase,
    branch: usize,
) -> Result<Vec<u8>, AllocError>
    ensures { IfOk result (λ line. line.items
        ≡ print (json_tokens (burst_json number drives case.now branch)) ++ 10 ∷ []) }
{
    let mut writer = Writer::new(Vec::new(alloc));
    writer.begin_array()?;
    writer.string("burst")?;
    writer.u64(number)?;
    writer.u64(drives as u64)?;
    write_calls(&mut writer, calls_of_first(branch, case.prefix.as_slice()))?;
    write_calls(&mut writer, branch_calls(case, branch))?;
    write_calls(&mut writer, calls_of_first(branch, case.suffix.as_slice()))?;
    writer.end_array()?;
    let mut line = writer.into_inner();
    line.push(b'\n')?;
    Ok(line)
}

// ---- the calls of a client

fn push_copies(
    calls: &mut Items<RealCall>,
    alloc: Global,
    more: &[RealCall],
) -> Result<(), AllocError>
    ensures { OnOk result (calls.new ≡ calls.old ++ more.now) }
{
    for call in more {
        calls.push(call.copy(alloc)?)?;
    }
    Ok(())
}

/// The calls that the client of `branch` makes in each drive, in their order.
pub(crate) fn calls_of_client(
    alloc: Global,
    case: &BurstCase,
    branch: usize,
) -> Result<Items<RealCall>, AllocError>
    ensures { IfOk result (λ calls. calls ≡ calls_of case.now branch) }
{
    let mut calls = Items::new(alloc);
    push_copies(
        &mut calls,
        alloc,
        calls_of_first(branch, case.prefix.as_slice()),
    )?;
    push_copies(&mut calls, alloc, branch_calls(case, branch))?;
    push_copies(
        &mut calls,
        alloc,
        calls_of_first(branch, case.suffix.as_slice()),
    )?;
    Ok(calls)
}

// ---- the places in an answer

/// The place that a number spells.
fn place_of_number(number: &Json<'_>) -> Option<usize>
    ensures { IfSome result (IsPlace (value_view number.now)) }
{
    match number.as_u64() {
        Some(place) => Some(place as usize),
        None => None,
    }
}

/// The places that numbers spell. `None` if there is something else among them.
fn places_of_numbers(alloc: Global, numbers: &[Json<'_>]) -> Result<Option<Vec<usize>>, AllocError>
    ensures { IfOk result (λ found. IfSome found (λ places.
        AllZip IsPlace (map value_view numbers.now) places.items)) }
{
    let mut places = Vec::new(alloc);
    for number in numbers {
        match place_of_number(number) {
            Some(place) => places.push(place)?,
            None => return Ok(None),
        }
    }
    Ok(Some(places))
}

/// The places that a JSON array of numbers spells. `None` if it is something else.
pub(crate) fn places_of_json(
    alloc: Global,
    json: &Json<'_>,
) -> Result<Option<Vec<usize>>, AllocError>
    ensures { IfOk result (λ found. IfSome found (λ places. (numbers : _)
        × (value_view json.now ≡ array (items_of numbers)) × AllZip IsPlace numbers places.items)) }
{
    match json {
        Json::Array(numbers) => places_of_numbers(alloc, numbers.as_slice()),
        _ => Ok(None),
    }
}

// ---- the drives

fn copy_made_calls(alloc: Global, calls: &[MadeCall]) -> Result<Items<MadeCall>, AllocError>
    ensures { IfOk result (λ copies. copies ≡ calls.now) }
{
    let mut copies = Items::new(alloc);
    for call in calls {
        copies.push(call.copy(alloc)?)?;
    }
    Ok(copies)
}

/// The calls of a client in drive `k`, if it made this drive.
fn calls_of_drive(answer: &BurstAnswer, k: usize) -> Option<&Items<MadeCall>>
    ensures { IfSome result (λ calls. (place : _) × (slice_get answer.now.places.items k ≡ Some place)
        × (slice_get answer.now.lists.items place ≡ Some calls.now)) }
{
    let place = *answer.places.get(k)?;
    answer.lists.get(place)
}

/// The calls of drive `k` from each client, if all made this drive.
fn zipped_calls(
    alloc: Global,
    answers: &[BurstAnswer],
    k: usize,
) -> Result<Option<Items<Items<MadeCall>>>, AllocError>
    ensures { IfOk result (λ found. IfSome found (λ branches. AreZipped k answers.now branches)) }
{
    let mut branches = Items::new(alloc);
    let Some((answer, others)) = answers.split_first() else {
        return Ok(Some(branches));
    };
    let Some(calls) = calls_of_drive(answer, k) else {
        return Ok(None);
    };
    let Some(more) = zipped_calls(alloc, others, k)? else {
        return Ok(None);
    };
    branches.push(copy_made_calls(alloc, calls.as_slice())?)?;
    branches.append(more)?;
    Ok(Some(branches))
}

/// Whether a client has the same list of calls in both drives.
fn is_alike(answer: &BurstAnswer, k: usize, other: usize) -> bool
    ensures { IsTrue result → IsAlike k other answer.now }
{
    match (answer.places.get(k), answer.places.get(other)) {
        (Some(place), Some(found)) => *place == *found,
        _ => false,
    }
}

/// Whether each client has the same list of calls in both drives.
fn are_drives_alike(answers: &[BurstAnswer], k: usize, other: usize) -> bool
    ensures { IsTrue result → All (IsAlike k other) answers.now }
{
    for answer in answers {
        if !is_alike(answer, k, other) {
            return false;
        }
    }
    true
}

/// The first of some drives that drive `k` is like, if there is one.
fn like_drive(answers: &[BurstAnswer], firsts: &[usize], k: usize) -> Option<usize>
    ensures { IfSome result (λ first. Contains firsts.now first × All (IsAlike k first) answers.now) }
{
    for first in firsts {
        if are_drives_alike(answers, k, *first) {
            return Some(*first);
        }
    }
    None
}

/// The number of drives that all clients made.
pub(crate) fn count_drives(answers: &[BurstAnswer]) -> usize
    ensures { (k : _) (branches : _) → k < 4294967296 → AreZipped k answers.now branches → k < result }
{
    match answers.split_first() {
        Some((first, others)) => first.places.len().min(count_drives(others)),
        None => usize::MAX,
    }
}

/// The first `count` drives but those that are like an earlier one, in their order. `None` if an answer names a list that it
/// does not have, or has fewer drives.
pub(crate) fn drives_that_differ(
    alloc: Global,
    answers: &[BurstAnswer],
    count: usize,
) -> Result<Option<Items<BurstDrive>>, AllocError>
    ensures { IfOk result (λ found. IfSome found (AreAllDrives answers.now count)) }
{
    let mut drives = Items::new(alloc);
    let mut firsts = Vec::new(alloc);
    for k in 0..count {
        if like_drive(answers, firsts.as_slice(), k).is_none() {
            let Some(branches) = zipped_calls(alloc, answers, k)? else {
                return Ok(None);
            };
            firsts.push(k)?;
            drives.push(BurstDrive { branches })?;
        }
    }
    Ok(Some(drives))
}
