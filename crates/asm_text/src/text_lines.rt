//! A text as lines, and a line as fields.

pub(crate) mod line_fields;
pub(crate) mod line_iter;
pub(crate) mod split;
pub(crate) mod text;
