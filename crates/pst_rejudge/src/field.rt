//! Members of JSON objects: their names, and functions that add them and write objects on lines.
ghost use Rattle.std.specs.Prelude.{◌≡◌, [], ◌∷◌, ◌++◌, OnOk, Some, IfOk};
ghost use Rattle.pst_rejudge.specs.Objects.{name_text, field_json, field_name, members_of, object_line, object_of, object_text, texts_of};
ghost use Rattle.pst_rejudge.specs.declared.field.Field.TheVariants as spec;
ghost use Rattle.json.specs.Json.{document};
ghost use Rattle.json.specs.Token.{key};
ghost use Rattle.json.specs.Tree.{items_tokens, json_tokens, members_tokens};

use json::Writer;
use pst_value::Text;
use std::alloc::{AllocError, Global};

/// The name of a member.
#[derive(Clone, Copy, Debug, PartialEq, Eq, Drop)]
pub enum FieldName {
    /// The number of an item, from 1.
    Item,
    /// The verdict on an item or on a model.
    Verdict,
    /// An interleaving, spelled by the letters of its branches.
    Merge,
    /// How many events an interleaving has true before its first false one.
    Far,
    /// The number of a command in its case, from 1, or 0 for the case itself.
    Command,
    /// The callback that faults.
    Callback,
    /// The kind of a fault.
    Fault,
    /// The part of the program that refuses an input: `read`, `model`, `type`, `item` or `memory`.
    Stage,
    /// A place in the input: how many bytes are before it.
    Place,
    /// The number of an item of a model, from 1, or 0 for the model itself.
    ModelItem,
    /// The name of a model.
    Model,
    /// How serious a message is: `error` or `warning`.
    Severity,
    /// The name of a file.
    File,
    /// The number of a line, from 1.
    Line,
    /// The number of a byte in its line, from 1.
    Column,
    /// How many bytes of the file are before what a message is about.
    Start,
    /// How many bytes of the file are before the end of what a message is about.
    End,
    /// What is wrong.
    Message,
    /// What was expected, what was found, and hints.
    Notes,
    /// Why it is wrong, in lines.
    Explanation,
    /// The seed of a campaign.
    Seed,
    Order,
    /// How many trials a campaign has.
    Trials,
    /// The maximum number of commands in a case's branches.
    Commands,
    /// How many branches a case has.
    Branches,
    /// The maximum number of commands in a case's suffix.
    Suffix,
    /// How often each case is driven.
    Repeats,
    /// The maximum number of cases that are driven to shrink one case.
    Limit,
    /// How many trials passed.
    Passed,
    /// How many trials failed because no interleaving explains a run.
    Unexplained,
    /// How many trials failed because the model faults.
    Faulted,
    /// How many trials failed because a reply is not a value.
    Broken,
    /// How many trials have no case, because a callback faults while it is generated.
    GenFault,
    /// How many trials were lost.
    Lost,
    /// How many trials were not begun.
    Undrawn,
    /// How many trials had calls of unknown outcome.
    UnknownOutcomes,
    /// The numbers of the trials that were lost, each with its cause.
    Losses,
    /// The first trial that failed.
    Least,
    /// The run with which that trial failed, as a tree.
    From,
    /// The verdict on that run.
    FromVerdict,
    /// How many cases shrinking took.
    Steps,
    /// Whether shrinking ended with a case that no step makes smaller: `minimal` or `stopped`.
    Ending,
    /// The last run that shrinking came to, as a tree.
    To,
    /// The verdict on that run.
    ToVerdict,
    /// The run that a system gave, as a tree.
    Run,
    /// How often a case was driven.
    Drives,
    /// How many of the drives of a case failed.
    Failed,
}

impl FieldName {
    /// Returns the name as it is written. The function is long because it has a row for each name.
    pub fn text(&self) -> &'static str
        ensures { result.now ≡ name_text self.now }
    {
        match self {
            FieldName::Item => "item",
            FieldName::Verdict => "verdict",
            FieldName::Merge => "merge",
            FieldName::Far => "far",
            FieldName::Command => "command",
            FieldName::Callback => "callback",
            FieldName::Fault => "fault",
            FieldName::Stage => "stage",
            FieldName::Place => "place",
            FieldName::ModelItem => "model_item",
            FieldName::Model => "model",
            FieldName::Severity => "severity",
            FieldName::File => "file",
            FieldName::Line => "line",
            FieldName::Column => "column",
            FieldName::Start => "start",
            FieldName::End => "end",
            FieldName::Message => "message",
            FieldName::Notes => "notes",
            FieldName::Explanation => "explanation",
            FieldName::Seed => "seed",
            FieldName::Order => "order",
            FieldName::Trials => "trials",
            FieldName::Commands => "commands",
            FieldName::Branches => "branches",
            FieldName::Suffix => "suffix",
            FieldName::Repeats => "repeats",
            FieldName::Limit => "limit",
            FieldName::Passed => "passed",
            FieldName::Unexplained => "unexplained",
            FieldName::Faulted => "faulted",
            FieldName::Broken => "broken",
            FieldName::GenFault => "genfault",
            FieldName::Lost => "lost",
            FieldName::Undrawn => "undrawn",
            FieldName::UnknownOutcomes => "unknown",
            FieldName::Losses => "losses",
            FieldName::Least => "least",
            FieldName::From => "from",
            FieldName::FromVerdict => "from_verdict",
            FieldName::Steps => "steps",
            FieldName::Ending => "ending",
            FieldName::To => "to",
            FieldName::ToVerdict => "to_verdict",
            FieldName::Run => "run",
            FieldName::Drives => "drives",
            FieldName::Failed => "failed",
        }
    }
}

/// A member of an object.
#[derive(Debug, Drop)]
pub enum Field {
    /// A member that is a number.
    Number(FieldName, u64),
    /// A member that is a text.
    Words(FieldName, Text),
    /// A member that is an array of texts.
    Lines(FieldName, Vec<Text>),
}

/// Adds a member that is a text.
pub fn add_text_field(
    alloc: Global,
    fields: &mut Vec<Field>,
    name: FieldName,
    words: &str,
) -> Result<(), AllocError>
    ensures { OnOk result (fields.new.items ≡ fields.old.items ++ spec.Words name words.now ∷ []) }
{
    let words = Text::from_string(String::from_str(alloc, words)?);
    fields.push(Field::Words(name, words))?;
    Ok(())
}

/// Adds a member that is a number.
pub fn add_number_field(
    fields: &mut Vec<Field>,
    name: FieldName,
    number: u64,
) -> Result<(), AllocError>
    ensures { OnOk result (fields.new.items ≡ fields.old.items ++ spec.Number name number ∷ []) }
{
    fields.push(Field::Number(name, number))?;
    Ok(())
}

/// Writes texts, and the end of their array.
fn write_json_texts_and_end_array(
    writer: &mut Writer<Global>,
    texts: &[Text],
) -> Result<(), AllocError>
    ensures ok { OnOk result (writer.new.tokens ≡ writer.old.tokens ++ items_tokens (texts_of texts.now)) }
    ensures before { writer.new.before ≡ writer.old.before }
{
    for text in texts {
        writer.string(text.as_str())?;
    }
    writer.end_array()
}

/// Writes a member.
fn write_json_field(writer: &mut Writer<Global>, field: &Field) -> Result<(), AllocError>
    ensures ok { OnOk result (writer.new.tokens
        ≡ writer.old.tokens ++ key (field_name field.now) ∷ json_tokens (field_json field.now)) }
    ensures before { writer.new.before ≡ writer.old.before }
{
    match field {
        Field::Number(name, number) => {
            writer.key(name.text())?;
            writer.u64(*number)
        }
        Field::Words(name, words) => {
            writer.key(name.text())?;
            writer.string(words.as_str())
        }
        Field::Lines(name, lines) => {
            writer.key(name.text())?;
            writer.begin_array()?;
            write_json_texts_and_end_array(writer, lines.as_slice())
        }
    }
}

/// Writes members, and the end of their object.
fn write_json_fields_and_end_object(
    writer: &mut Writer<Global>,
    fields: &[Field],
) -> Result<(), AllocError>
    ensures ok { OnOk result (writer.new.tokens
        ≡ writer.old.tokens ++ members_tokens (members_of fields.now)) }
    ensures before { writer.new.before ≡ writer.old.before }
{
    for field in fields {
        write_json_field(writer, field)?;
    }
    writer.end_object()
}

/// Returns the object with these members, in their order, and a line end. Read as JSON, the line is this object.
pub fn json_object_line(alloc: Global, fields: &[Field]) -> Result<Vec<u8>, AllocError>
    ensures line { IfOk result (λ line. line.items ≡ object_line fields.now) }
    ensures reads_back { OnOk result (document (object_text fields.now) ≡ Some (object_of fields.now)) }
{
    let mut writer = Writer::new(Vec::new(alloc));
    writer.begin_object()?;
    write_json_fields_and_end_object(&mut writer, fields)?;
    let mut line = writer.into_inner();
    line.push(b'\n')?;
    Ok(line)
}
