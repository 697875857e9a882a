//! Explanations as JSON: what `pst explain --format json` writes, the page for a browser, and the data in it.
//!
//! A document is `json_document_start`, an `item_explanation_json` for each item with `BETWEEN_ITEMS` between two, and
//! `AFTER_ITEMS` or, if there is no item, `AFTER_NO_ITEM`. That of a campaign's failures is
//! `json_campaign_document_start`, a `trial_explanation_json` for each failure, and then `AFTER_ITEMS` or
//! `AFTER_NO_ITEM`. It is ASCII without `<`, `>`, `&` and DEL, so a page can contain it unchanged.
//! Each part is derived from the explanation. The kit's `json` writes it token by token: a tree of `serde_json` would
//! hold each text once more, and a map for each object.
//!
//! `AllocError` means that an allocation failed.
#![tactic(auto)]

mod calls;
mod document;
mod failures;
mod graphs;
mod items;
mod models;
mod page;
mod reasons;
mod values;
mod walks;
mod writing;

pub use document::{
    AFTER_ITEMS, AFTER_NO_ITEM, BETWEEN_ITEMS, CampaignFacts, json_campaign_document_start,
    json_document_start,
};
pub use items::{item_explanation_json, trial_explanation_json};
pub use page::{AFTER_DATA, BEFORE_DATA};
