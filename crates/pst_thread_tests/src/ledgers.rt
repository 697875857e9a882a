//! The ledgers: the answers to rows of calls, and threads that share one.

mod rows;
mod seats;
