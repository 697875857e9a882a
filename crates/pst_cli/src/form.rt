//! The forms of explanations.

use pst_explain::{Explanation, append_colored_explanation_text, append_explanation_text};
use pst_json::{
    AFTER_DATA, AFTER_ITEMS, AFTER_NO_ITEM, BEFORE_DATA, BETWEEN_ITEMS, item_explanation_json,
    json_document_start,
};
use pst_model::Source;
use pst_sources::SourceFile;
use std::alloc::{AllocError, Global};

/// The form of explanations.
#[derive(Clone, Copy, Debug, PartialEq, Eq, Drop)]
pub enum ExplanationForm {
    /// As text in lines of this width, with an empty line between two items.
    Text(usize),
    /// As text in lines of this width, in the colors of a terminal.
    Colored(usize),
    /// As JSON: a line for the model, and one for each item.
    Json,
    /// As a page for a browser, with the JSON in it.
    Html,
    /// As graphs for Graphviz. Of an explained run the whole search is drawn only if `is_whole` says so.
    Dot { is_whole: bool },
}

impl ExplanationForm {
    /// What comes before the items.
    pub(crate) fn text_before_items(
        self,
        alloc: Global,
        files: &[SourceFile<'_>],
        model: &Source,
    ) -> Result<Vec<u8>, AllocError> {
        match self {
            ExplanationForm::Text(_) | ExplanationForm::Colored(_) | ExplanationForm::Dot { .. } =>
                Ok(Vec::new(alloc)),
            ExplanationForm::Json => json_document_start(alloc, files, model),
            ExplanationForm::Html => {
                let mut text = Vec::from_slice(alloc, BEFORE_DATA.as_bytes())?;
                text.extend_from_slice(json_document_start(alloc, files, model)?.as_slice())?;
                Ok(text)
            }
        }
    }

    /// What comes between two items.
    pub(crate) fn separator_of_explanations(self) -> &'static str {
        match self {
            ExplanationForm::Text(_) | ExplanationForm::Colored(_) => "\n",
            ExplanationForm::Json | ExplanationForm::Html => BETWEEN_ITEMS,
            ExplanationForm::Dot { .. } => "",
        }
    }

    /// `text` and after it an item, but for a graph.
    pub(crate) fn append_explanation_unless_graph(
        self,
        mut text: Vec<u8>,
        alloc: Global,
        explanation: &Explanation<'_>,
    ) -> Result<Vec<u8>, AllocError> {
        match self {
            ExplanationForm::Text(width) => append_explanation_text(
                text,
                alloc,
                explanation,
                width,
            ),
            ExplanationForm::Colored(width) => append_colored_explanation_text(
                text,
                alloc,
                explanation,
                width,
            ),
            ExplanationForm::Json | ExplanationForm::Html => {
                text.extend_from_slice(item_explanation_json(alloc, explanation)?.as_slice())?;
                Ok(text)
            }
            ExplanationForm::Dot { .. } => Ok(text),
        }
    }

    /// Adds what comes after `count` items.
    pub(crate) fn add_text_after_items(
        self,
        text: &mut Vec<u8>,
        count: usize,
    ) -> Result<(), AllocError> {
        let end = if count == 0 {
            AFTER_NO_ITEM
        } else {
            AFTER_ITEMS
        };
        match self {
            ExplanationForm::Text(_) | ExplanationForm::Colored(_) | ExplanationForm::Dot { .. } =>
                Ok(()),
            ExplanationForm::Json => text.extend_from_slice(end.as_bytes()),
            ExplanationForm::Html => {
                text.extend_from_slice(end.as_bytes())?;
                text.extend_from_slice(AFTER_DATA.as_bytes())
            }
        }
    }
}
