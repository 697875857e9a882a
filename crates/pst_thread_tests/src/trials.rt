//! Trials of plans on systems.

mod campaigns;
mod plans;
mod shrinking;
