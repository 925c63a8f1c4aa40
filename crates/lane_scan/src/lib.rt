//! Comparisons and sums of lists of bytes, many bytes at a time. Each is equal to its plain definition on lists, at
//! every length.
#![tactic(auto)]

mod count;
mod difference;
mod lanes;
mod rows;
mod sum;

pub use count::count_differences;
pub use difference::first_difference;
pub use rows::rows_equal;
pub use sum::sum_bytes;
