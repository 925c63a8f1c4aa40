//! Cases of lines and their fields, first words, lines of both languages that are given one at a time, object text, and
//! bytes and images of GPL, worked out by hand. Other cases are in `tests/rows`. The crate holds tests alone, so that
//! the crates below it are proved once.
#![tactic(auto)]

#[cfg(test)]
mod compressed_text;
#[cfg(test)]
mod first_words;
#[cfg(test)]
mod gpl_images;
#[cfg(test)]
mod gpl_source_lines;
#[cfg(test)]
mod gpl_spellings;
#[cfg(test)]
mod lines_and_fields;
#[cfg(test)]
mod object_text;
#[cfg(test)]
mod source_lines;
