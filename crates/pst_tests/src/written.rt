//! Trees, cases and runs that are written, also to writers that fail.
ghost use Rattle.std.specs.Prelude.{IfSome};
ghost use Rattle.pst_runs.specs.Lawful.{AreLawful};

use crate::support::{COUNTER, LimitedSink, typed_model_of_text};
use pst_case::Run;
use pst_model::Typed;
use pst_runs::{WriteFault, read_runs, write_runs};
use pst_sexpr::{Form, Out, Sink, Tree, put_all, put_each, read, write};
use pst_value::Text;
use std::alloc::{AllocError, Global};
use std::test::Fail;

/// Whether a tree is written to a sink as far as it has room, and the sink has failed if that is not the whole.
fn is_tree_written_until_sink_fails(
    alloc: Global,
    tree: &Tree,
    written: &[u8],
    room: usize,
) -> bool {
    let mut sink = LimitedSink::new(alloc, room);
    let is_whole = write(tree, &mut sink).is_ok();
    is_whole == (room >= written.len())
        && sink.has_failed() == !is_whole
        && Some(sink.bytes.as_slice()) == written.get(..room)
}

#[test]
fn trees_are_written_until_sink_fails(rt: HostRuntime) {
    let text = b" ( a\t\"x\\\"y\\\\\"b() ;note\n c;(\n)";
    let written = b"(a \"x\\\"y\\\\\" b () c)";
    let Ok(trees) = read(rt.alloc(), text) else {
        panic!(rt; "no trees");
    };
    let [tree] = trees.as_slice() else {
        panic!(rt; "not one tree");
    };
    for room in 0..=written.len() {
        assert!(rt; is_tree_written_until_sink_fails(rt.alloc(), tree, written, room));
    }
}

/// The bytes written for trees, a line end and some bytes after it, if nothing fails.
fn write_trees_and_fixed_bytes(alloc: Global, trees: &[Tree]) -> Option<Vec<u8>> {
    let mut sink = Out::new(Vec::new(alloc));
    for tree in trees {
        if sink.has_failed() {
            return None;
        }
        write(tree, &mut sink).ok()?;
    }
    if sink.has_failed() {
        return None;
    }
    put_all(b"\n", &mut sink).ok()?;
    put_each(&[b"c", b"", b"de"], &mut sink).ok()?;
    Some(sink.into_inner())
}

#[test]
fn trees_are_written_to_memory(rt: HostRuntime) {
    let Ok(trees) = read(rt.alloc(), b"(a \"b\")") else {
        panic!(rt; "no trees");
    };
    let Some(bytes) = write_trees_and_fixed_bytes(rt.alloc(), trees.as_slice()) else {
        panic!(rt; "a writer failed");
    };
    assert_eq!(rt; bytes.as_slice(), b"(a \"b\")\ncde".as_slice());
}

/// A node of a word and a text.
fn node_of_word_and_text(alloc: Global) -> Result<Tree, AllocError> {
    let mut trees = Vec::new(alloc);
    trees.push(Tree::word(Text::from_string(String::from_str(alloc, "ab")?)))?;
    trees.push(Tree::text(Text::from_string(String::from_str(alloc, " \"")?)))?;
    Tree::node(alloc, trees)
}

#[test]
fn a_made_tree_is_written(rt: HostRuntime) -> Result<(), Fail> {
    let node = node_of_word_and_text(rt.alloc())?;
    let mut sink = Out::new(Vec::new(rt.alloc()));
    let answer = write(&node, &mut sink);
    let count = match node.into_form() {
        Form::Node(forms) => forms.len(),
        _ => 0,
    };
    let bytes = sink.into_inner();
    assert!(rt; answer.is_ok() && count == 2 && bytes.as_slice() == b"(ab \" \\\"\")".as_slice());
    Ok(())
}

/// The runs that a text spells.
fn read_runs_of_text(alloc: Global, typed: &Typed, text: &str) -> Option<Vec<Run>>
    ensures { IfSome result (λ runs. AreLawful typed.now runs.items) }
{
    let trees = read(alloc, text.as_bytes()).ok()?;
    read_runs(alloc, typed, trees.as_slice()).ok()
}

/// Whether runs are written to a writer as far as it has room, and it has failed if that is not the whole.
fn are_runs_written_until_sink_fails(
    alloc: Global,
    typed: &Typed,
    runs: &[Run],
    text: &[u8],
    room: usize,
) -> bool
    requires { AreLawful typed.now runs.now }
{
    let mut sink = LimitedSink::new(alloc, room);
    let is_right = match write_runs(alloc, typed, runs, &mut sink) {
        Ok(()) => room >= text.len() && !sink.failed,
        Err(WriteFault::WriteFailed) => room < text.len() && sink.failed,
        Err(WriteFault::NoMemory) => false,
    };
    is_right && Some(sink.bytes.as_slice()) == text.get(..room)
}

#[test]
fn runs_are_written_until_sink_fails(rt: HostRuntime) -> Result<(), Fail> {
    let alloc = rt.alloc();
    let text =
        "(case (prefix (inc)) (left) (right))\n(run (prefix) (left (inc)) (right) (replies () (1) ()))\n";
    let typed = typed_model_of_text(alloc, COUNTER).ok_or("no model")?;
    let Some(runs) = read_runs_of_text(alloc, &typed, text) else {
        panic!(rt; "no runs");
    };
    for room in 0..=text.len() {
        assert!(rt;
            are_runs_written_until_sink_fails(alloc, &typed, runs.as_slice(), text.as_bytes(), room)
        );
    }
    Ok(())
}

#[test]
fn write_faults_have_names(rt: HostRuntime) -> Result<(), Fail> {
    let alloc = rt.alloc();
    assert_eq!(rt; WriteFault::WriteFailed.name(), "WriteFailed");
    let fault = WriteFault::NoMemory;
    assert_eq!(rt; format!(in alloc; "{fault}")?.as_str(), "NoMemory");
    Ok(())
}
