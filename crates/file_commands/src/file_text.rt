//! A file that was read.

ghost use Rattle.std.specs.Prelude.{◌≤◌, length};
ghost use Rattle.report_defs.specs.Report.{largest_input};

use bench_shelf::FileName;

/// A file that was read: its name, and its bytes, which are 1,048,576 at most.
#[derive(Drop)]
pub(crate) struct FileText {
    pub(crate) name: FileName,
    pub(crate) bytes: Vec<u8>,
    ghost within: { length bytes.items ≤ largest_input },
}
