//! What is known of the terminal.

use clap::builder::ValueParser;
use clap::{Arg, ArgMatches};
use std::alloc::Global;
use std::env;
use std::rt::Env;

/// Which streams of the program are terminals.
#[derive(Clone, Copy, Drop)]
pub struct Terminals {
    pub input: bool,
    pub output: bool,
    pub errors: bool,
}

impl Terminals {
    /// These terminals with the output in a file, which is none.
    pub fn with_output_in_a_file(self) -> Terminals {
        Terminals {
            output: false,
            ..self
        }
    }
}

/// The width of lines if nothing says another.
const WIDTH: usize = 80;

/// The least width of lines.
pub const LEAST_WIDTH: u64 = 20;

/// The greatest width of lines.
pub const MOST_WIDTH: u64 = 1_000;

/// When output has colors.
const COLORS: [&str; 3] = ["auto", "always", "never"];

/// The option that says when output has colors.
pub fn color_option<'a>(alloc: Global) -> Arg<'a> {
    Arg::new(alloc, "color")
        .long("color")
        .value_name("WHEN")
        .value_parser(ValueParser::Names(&COLORS))
        .default_value("auto")
        .help("Colors in text: auto (on a terminal, unless NO_COLOR is set), always or never")
        .hide_possible_values(true)
}

/// Whether a variable of the environment has another text than the empty one. False if its value is not UTF-8.
fn is_environment_variable_nonempty<R: Env + AllocGlobal>(rt: &R, name: &str) -> bool {
    match env::var(rt, name) {
        Ok(text) => !text.is_empty(),
        Err(_) => false,
    }
}

/// Whether text is to have colors: as the arguments say, or else on a terminal, unless the environment has `NO_COLOR`.
pub fn should_output_have_colors<R: Env + AllocGlobal>(
    rt: &R,
    arguments: &ArgMatches<'_>,
    is_terminal: bool,
) -> bool {
    match arguments.get_str("color") {
        Some("always") => true,
        Some("never") => false,
        _ => is_terminal && !is_environment_variable_nonempty(rt, "NO_COLOR"),
    }
}

/// The width of lines that the environment gives by `COLUMNS`, if it does.
fn line_width_of_environment<R: Env + AllocGlobal>(rt: &R) -> Option<u64> {
    let text = env::var(rt, "COLUMNS").ok()?;
    text.as_str()
        .parse::<u64>()
        .ok()
        .filter(|columns| *columns > 0)
}

/// The width of lines: `width` if it is given, or else 80; at least 20 and at most 1,000.
fn clamped_line_width_or_default(width: Option<u64>) -> usize {
    match width {
        Some(width) => width.clamp(LEAST_WIDTH, MOST_WIDTH) as usize,
        None => WIDTH,
    }
}

/// The width of lines: as the arguments say, or else `COLUMNS`, or 80.
pub fn line_width_from_arguments_or_environment<R: Env + AllocGlobal>(
    rt: &R,
    arguments: &ArgMatches<'_>,
) -> usize {
    let chosen: Option<u64> = arguments.get_one("width");
    clamped_line_width_or_default(chosen.or(line_width_of_environment(rt)))
}
