//! The machine, on functions by hand.

mod checked;
mod functions;
mod runs;
