//! Shrinking: lists of candidates that were worked out by hand, and cases that are shrunk.

mod cases;
mod shrinking;
