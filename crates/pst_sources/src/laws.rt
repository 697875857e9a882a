//! A law on where the files of an input begin in its text.
ghost use Rattle.pst_sources.specs.Files.{EachStarts};

/// The text of an input, from the place where a file begins, is the text of this file and the files after it.
pub fn files_start_in_joined_text()
    ensures { EachStarts }
{}
