//! Clients that are texts, the lines of calls, and the values of answers.

use pst_clients::{
    ClientAnswer, Clients, Connection, Notes, client_answer_of_line, client_call_line,
};
use pst_system::{RealCall, System};
use pst_value::{Boxed, Items, Key, KeyTy, Text, Ty, Value};
use std::alloc::{AllocError, Global};
use std::rt::Files;
use std::sync::{Arc, Wait};
use std::test::Fail;

/// Clients whose lines are known.
type KnownClients<'a, H> = Clients<H, &'a [u8], Vec<u8>>;

/// No notes yet.
fn empty_notes(alloc: Global) -> Result<Arc<Notes, Global>, AllocError> {
    Ok(Arc::new(alloc, Notes::new(alloc)?)?)
}

/// One client at these pipes. The model has one operation, with an integer result.
fn client_at_connection<'a, H: Wait + Files + Send + Sync + Drop>(
    rt: H,
    alloc: Global,
    notes: &Arc<Notes, Global>,
    connection: Connection<&'a [u8], Vec<u8>>,
) -> Result<KnownClients<'a, H>, AllocError> {
    let mut results = Items::new(alloc);
    results.push(Ty::Int)?;
    let mut clients = Clients::new(rt, alloc, 0, false, results, Arc::try_clone(notes)?);
    clients.add(connection)?;
    Ok(clients)
}

/// One client that prints these lines, whatever the request.
fn client_that_prints_lines<'a, H: Wait + Files + Send + Sync + Drop>(
    rt: H,
    alloc: Global,
    notes: &Arc<Notes, Global>,
    lines: &'a str,
) -> Result<KnownClients<'a, H>, AllocError> {
    client_at_connection(
        rt,
        alloc,
        notes,
        Connection::new(alloc, lines.as_bytes(), Vec::new(alloc)),
    )
}

/// The call `(put ARG)`.
fn call_of_put_operation(alloc: Global, arg: Value) -> Result<RealCall, AllocError> {
    let name = Text::from_string(String::from_str(alloc, "put")?);
    let mut args = Items::new(alloc);
    args.push(arg)?;
    Ok(RealCall { op: 0, name, args })
}

/// The answers to `calls` calls `(put 1)`, each after a space.
fn answers_to_put_calls<H: Wait + Files + Send + Sync + Drop>(
    alloc: Global,
    clients: &KnownClients<'_, H>,
    calls: u32,
) -> Result<String, AllocError> {
    let call = call_of_put_operation(alloc, Value::Int(1))?;
    let mut text = String::new(alloc);
    for _ in 0..calls {
        let answer = clients.call(&call);
        write!(&mut text, " {answer:?}")?;
    }
    Ok(text)
}

/// The answers to one reset and then `calls` calls, each after a space.
fn answers_to_reset_and_put_calls<H: Wait + Files + Send + Sync + Drop>(
    alloc: Global,
    clients: &mut KnownClients<'_, H>,
    calls: u32,
) -> Result<String, AllocError> {
    let reset = clients.reset();
    let answers = answers_to_put_calls(alloc, clients, calls)?;
    format!(in alloc; " {reset:?}{answers}")
}

/// The answers to resets and to the calls after each of them, and then the notes from a new line on.
fn answers_after_resets_and_notes<H: Wait + Files + Send + Sync + Drop>(
    alloc: Global,
    clients: &mut KnownClients<'_, H>,
    notes: &Notes,
    calls_after_resets: &[u32],
) -> Result<String, AllocError> {
    let mut text = String::new(alloc);
    for calls in calls_after_resets {
        text.push_str(answers_to_reset_and_put_calls(alloc, clients, *calls)?.as_str())?;
    }
    text.push('\n')?;
    text.push_str(notes.text()?.as_str())?;
    Ok(text)
}

#[test]
fn client_lines_answer_calls_in_turn(rt: HostRuntime) -> Result<(), Fail> {
    let alloc = rt.alloc();
    let notes = empty_notes(alloc)?;
    let lines = "true\n7\nfailed: no\nhello\n[1,\"a\"]\n";
    let text = answers_to_reset_and_put_calls(
        alloc,
        &mut client_that_prints_lines(rt, alloc, &notes, lines)?,
        5,
    )?;
    let wanted =
        " Ok(()) Ok(Int(7)) Err(Refused) Err(Refused) Ok(List(Items { items: [Int(1), Text(Text { text: \"a\" })] })) Err(Refused)";
    assert_eq!(rt; text.as_str(), wanted);
    Ok(())
}

#[test]
fn client_notes_say_what_failed(rt: HostRuntime) -> Result<(), Fail> {
    let alloc = rt.alloc();
    let notes = empty_notes(alloc)?;
    let lines = "true\nfailed: no\nhello\nhello\nnull\n[1,\"a\"]\n";
    let _ = answers_to_reset_and_put_calls(
        alloc,
        &mut client_that_prints_lines(rt, alloc, &notes, lines)?,
        6,
    )?;
    let wanted = "client 1-1: [\"put\",1] was not answered: the client has gone
client 1-1: [\"put\",1] was answered with failed: no
client 1-1: [\"put\",1] was answered with something that is not a value: hello
client 1-1: [\"put\",1] was answered with something that is not a value: null; answer true if there is no result, [] or [x] for an option (docs/language.md, Patterns)
client: 1 more like these
client 1-1: [\"put\",1] was answered with another type: [1,\"a\"]; type int is a number such as 7
";
    assert_eq!(rt; notes.text()?.as_str(), wanted);
    Ok(())
}

/// The answer to a call of the second branch, and then the notes.
fn answer_to_second_branch_and_notes<H: Wait + Files + Send + Sync + Drop>(
    alloc: Global,
    clients: &KnownClients<'_, H>,
    notes: &Notes,
) -> Result<String, AllocError> {
    let call = call_of_put_operation(alloc, Value::Int(1))?;
    let answer = clients.call_from(1, &call);
    let note = notes.text()?;
    format!(in alloc; "{answer:?} {note}")
}

#[test]
fn calls_without_a_client_are_refused(rt: HostRuntime) -> Result<(), Fail> {
    let alloc = rt.alloc();
    let notes = empty_notes(alloc)?;
    let clients = client_that_prints_lines(rt, alloc, &notes, "1\n")?;
    let text = answer_to_second_branch_and_notes(alloc, &clients, &notes)?;
    assert_eq!(rt;
        text.as_str(),
        "Err(Refused) client 1-2: [\"put\",1] was not asked: this branch has no client (--branches)\n"
    );
    Ok(())
}

#[test]
fn a_client_is_started_again_by_a_reset(rt: HostRuntime) -> Result<(), Fail> {
    let alloc = rt.alloc();
    let notes = empty_notes(alloc)?;
    let lines = "\x18ended 1\n\x18started\ntrue\n7\n12\x18ended 2\n\x18started\ntrue\n8\n";
    let mut clients = client_that_prints_lines(rt, alloc, &notes, lines)?;
    let before = answers_to_reset_and_put_calls(alloc, &mut clients, 3)?;
    let after = answers_to_reset_and_put_calls(alloc, &mut clients, 1)?;
    let text = format!(in alloc; "{before}{after}")?;
    let wanted = " Ok(()) Ok(Int(7)) Err(Refused) Err(Refused) Ok(()) Ok(Int(8))";
    assert_eq!(rt; text.as_str(), wanted);
    Ok(())
}

/// What a client prints that prints lines too many, with the line that the program writes to its pipe at each
/// reset and reads up to.
const STRAY_LINES: &str =
    "\x18pst\ntrue\n7\ndebug\nmore\n\x18pst\n\x18pst\ntrue\n8\n\x18pst\n9\ntrue\n\x18pst\n\x18pst\ntrue\nlate\n\x18pst\ntrue\n";

/// One client that prints these lines, whatever the request. Its pipe has the name of an empty file.
fn client_with_answer_pipe<'a, H: Wait + Files + Send + Sync + Drop>(
    rt: H,
    alloc: Global,
    notes: &Arc<Notes, Global>,
    lines: &'a str,
) -> Result<KnownClients<'a, H>, Fail> {
    let pipe = String::from_str(alloc, "answers")?;
    std::fs::write(&rt, pipe.as_str(), "")?;
    let client = Connection::new(alloc, lines.as_bytes(), Vec::new(alloc));
    Ok(client_at_connection(rt, alloc, notes, client.with_answer_pipe_name(pipe))?)
}

#[test]
fn a_reset_fails_after_a_line_too_many(rt: HostRuntime) -> Result<(), Fail> {
    let alloc = rt.alloc();
    let notes = empty_notes(alloc)?;
    let mut clients = client_with_answer_pipe(rt, alloc, &notes, STRAY_LINES)?;
    let calls = [1, 0, 1, 0, 0, 0];
    let text = answers_after_resets_and_notes(alloc, &mut clients, &notes, &calls)?;
    let wanted = " Ok(()) Ok(Int(7)) Err(Refused) Ok(()) Ok(Int(8)) Err(Refused) Ok(()) Ok(())
client 1-1: [\"put\",1] was followed by a line too many: debug; print one line for each line, and log lines to standard error
client 1-1: [\"reset\"] was followed by a line too many: true; print one line for each line, and log lines to standard error
client: 1 more like these
";
    assert_eq!(rt; text.as_str(), wanted);
    Ok(())
}

/// The last line for the client, and whether it was answered.
fn last_line_and_whether_answered(alloc: Global, notes: &Notes) -> Result<String, AllocError> {
    let line = notes.waits().printable_last_line_at_place(alloc, 0)?;
    let is_answered = notes.waits().unanswered_line_id(0).is_none();
    format!(in alloc; "{line} {is_answered}")
}

/// Makes a reset. Returns how many resets have failed since the last one that did not.
fn reset_and_count_failed_resets<H: Wait + Files + Send + Sync + Drop>(
    clients: &mut KnownClients<'_, H>,
    notes: &Notes,
) -> u64 {
    let _ = clients.reset();
    notes.failed_resets_since_last_success()
}

/// Makes three resets. Returns the last line for the client, whether it was answered, and after each reset how many
/// have failed since the last one that did not.
fn reset_thrice_and_tell_line_and_failures<H: Wait + Files + Send + Sync + Drop>(
    alloc: Global,
    clients: &mut KnownClients<'_, H>,
    notes: &Notes,
) -> Result<String, AllocError> {
    let failures = [
        reset_and_count_failed_resets(clients, notes),
        reset_and_count_failed_resets(clients, notes),
        reset_and_count_failed_resets(clients, notes),
    ];
    let line = last_line_and_whether_answered(alloc, notes)?;
    format!(in alloc; "{line} {failures:?}")
}

/// Makes a call and then three resets. Returns what is noted of the last line after the call, and of it and of failed
/// resets after the resets.
fn call_and_reset_and_tell_last_lines<H: Wait + Files + Send + Sync + Drop>(
    alloc: Global,
    clients: &mut KnownClients<'_, H>,
    notes: &Notes,
) -> Result<String, AllocError> {
    let _ = answers_to_put_calls(alloc, clients, 1)?;
    let call = last_line_and_whether_answered(alloc, notes)?;
    let resets = reset_thrice_and_tell_line_and_failures(alloc, clients, notes)?;
    format!(in alloc; "{call} {resets}")
}

#[test]
fn notes_know_last_line_and_failed_resets(rt: HostRuntime) -> Result<(), Fail> {
    let alloc = rt.alloc();
    let notes = empty_notes(alloc)?;
    let mut clients = client_that_prints_lines(rt, alloc, &notes, "7\nfailed\nfailed\ntrue\n")?;
    let text = call_and_reset_and_tell_last_lines(alloc, &mut clients, &notes)?;
    assert_eq!(rt;
        text.as_str(),
        "[\"put\",1] true [\"reset\"] true [1, 2, 0]"
    );
    Ok(())
}

/// A box of two items in their order.
fn boxed_pair_of_items<T: Drop>(
    alloc: Global,
    first: T,
    second: T,
) -> Result<Boxed<Items<T>>, AllocError> {
    let mut items = Items::new(alloc);
    items.push(first)?;
    items.push(second)?;
    Boxed::new(alloc, items)
}

/// The map from -2 to one value and from 3 to another.
fn map_of_two_values(alloc: Global, first: Value, second: Value) -> Result<Value, AllocError> {
    let values = boxed_pair_of_items(alloc, first, second)?;
    let keys = boxed_pair_of_items(alloc, Key::Int(-2), Key::Int(3))?;
    Ok(Value::Map(keys, values))
}

#[test]
fn a_call_is_a_line_of_json(rt: HostRuntime) -> Result<(), Fail> {
    let alloc = rt.alloc();
    let quoted = Text::from_string(String::from_str(alloc, "a \"b\" \\")?);
    let map = map_of_two_values(alloc, Value::Text(quoted), Value::List(Items::new(alloc)))?;
    let line = client_call_line(alloc, &call_of_put_operation(alloc, map)?)?;
    let text = std::str::from_utf8(line.as_slice()).unwrap_or("");
    assert_eq!(rt; text, "[\"put\",{\"-2\":\"a \\\"b\\\" \\\\\",\"3\":[]}]\n");
    Ok(())
}

/// What a line is at the type of maps from `int` to `int`.
fn answer_at_map_type(alloc: Global, line: &str) -> Result<ClientAnswer, AllocError> {
    let ty = Ty::Map(KeyTy::Int, Boxed::new(alloc, Ty::Int)?);
    client_answer_of_line(alloc, Some(&ty), line)
}

#[test]
fn a_map_is_read_with_its_keys_in_any_order(rt: HostRuntime) -> Result<(), Fail> {
    let alloc = rt.alloc();
    let wanted = ClientAnswer::Value(map_of_two_values(alloc, Value::Int(1), Value::Int(0))?);
    let read = answer_at_map_type(alloc, " {\"3\":0, \"-2\":1}\r")?;
    assert!(rt; read == wanted);
    Ok(())
}

/// The letter of what a line is at the type `int`: `v` for a value, `f` for failed, `u` for unknown, `n` for no value.
fn answer_kind_letter(alloc: Global, line: &str) -> Result<char, AllocError> {
    match client_answer_of_line(alloc, Some(&Ty::Int), line)? {
        ClientAnswer::Value(_) => Ok('v'),
        ClientAnswer::Failed => Ok('f'),
        ClientAnswer::Unknown => Ok('u'),
        ClientAnswer::NoValue => Ok('n'),
    }
}

/// The letters of what lines are at the type `int`.
fn answer_kind_letters(alloc: Global, lines: &[&str]) -> Result<String, AllocError> {
    let mut letters = String::new(alloc);
    for line in lines {
        letters.push(answer_kind_letter(alloc, line)?)?;
    }
    Ok(letters)
}

#[test]
fn kinds_of_client_lines_are_recognized(rt: HostRuntime) -> Result<(), Fail> {
    let lines = [
        "null",
        "1.5",
        "1e3",
        "[1,null]",
        "9223372036854775808",
        "{\"a\":1,\"a\":1}",
        "",
        "7 7",
        "-9223372036854775808",
        "\"a\"",
        "failed",
        "failed: why",
        "unknown",
        "unknown timeout",
        " unknown",
    ];
    assert_eq!(rt;
        answer_kind_letters(rt.alloc(), &lines)?.as_str(),
        "nnnnnnnnvvffuun"
    );
    Ok(())
}
