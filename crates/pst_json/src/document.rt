//! Documents.
ghost use Rattle.std.specs.Prelude.{IfOk};
ghost use Rattle.pst_json.specs.Page.{IsPageText};

use crate::models::write_json_model_member;
use crate::writing::{into_page_safe_ascii_json, push_known_page_safe_byte};
use json::Writer;
use pst_model::Source;
use pst_sources::SourceFile;
use std::alloc::{AllocError, Global};

/// The version of the schema. It changes only if the meaning of a key changes or a key goes away.
const VERSION: u64 = 1;

/// Between two items.
pub const BETWEEN_ITEMS: &str = ",\n";

/// After the last item.
pub const AFTER_ITEMS: &str = "\n]}\n";

/// After the start of a document without items.
pub const AFTER_NO_ITEM: &str = "]}\n";

/// A campaign whose failures are the items of a document.
#[derive(Clone, Copy, Debug, PartialEq, Eq, Drop)]
pub struct CampaignFacts {
    /// The seed of its plan.
    pub seed: u64,
    /// How many trials it has.
    pub trials: u64,
    /// How many of them failed.
    pub failed: u64,
}

/// Writes the version and the names of the files, the first members of a document.
fn write_json_version_and_file_members(
    writer: &mut Writer<Global>,
    files: &[SourceFile<'_>],
) -> Result<(), AllocError> {
    writer.key("pst")?;
    writer.u64(VERSION)?;
    writer.key("files")?;
    writer.begin_array()?;
    for file in files {
        writer.string(file.name)?;
    }
    writer.end_array()
}

/// Writes the member `campaign`.
fn write_json_campaign_member(
    writer: &mut Writer<Global>,
    facts: CampaignFacts,
) -> Result<(), AllocError> {
    writer.key("campaign")?;
    writer.begin_object()?;
    writer.key("seed")?;
    writer.u64(facts.seed)?;
    writer.key("trials")?;
    writer.u64(facts.trials)?;
    writer.key("failed")?;
    writer.u64(facts.failed)?;
    writer.end_object()
}

/// Returns the first line of a document, up to the items.
fn json_document_first_line(
    alloc: Global,
    files: &[SourceFile<'_>],
    campaign: Option<CampaignFacts>,
    model: &Source,
) -> Result<Vec<u8>, AllocError>
    ensures { IfOk result (λ text. IsPageText text.items) }
{
    let mut writer = Writer::new(Vec::new(alloc));
    writer.begin_object()?;
    write_json_version_and_file_members(&mut writer, files)?;
    if let Some(facts) = campaign {
        write_json_campaign_member(&mut writer, facts)?;
    }
    write_json_model_member(&mut writer, alloc, model)?;
    writer.key("items")?;
    writer.begin_array()?;
    let mut start = into_page_safe_ascii_json(alloc, writer)?;
    push_known_page_safe_byte(&mut start, b'\n')?;
    Ok(start)
}

/// The first line of a document: the version, the names of the files, the model, and the start of the items.
pub fn json_document_start(
    alloc: Global,
    files: &[SourceFile<'_>],
    model: &Source,
) -> Result<Vec<u8>, AllocError>
    ensures { IfOk result (λ text. IsPageText text.items) }
{
    json_document_first_line(alloc, files, None, model)
}

/// The first line of a document whose items are the failures of a campaign: the version, the names of the files, the
/// campaign, the model, and the start of the items.
pub fn json_campaign_document_start(
    alloc: Global,
    files: &[SourceFile<'_>],
    facts: CampaignFacts,
    model: &Source,
) -> Result<Vec<u8>, AllocError>
    ensures { IfOk result (λ text. IsPageText text.items) }
{
    json_document_first_line(alloc, files, Some(facts), model)
}
