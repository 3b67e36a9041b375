#![tactic(auto)]

// The date book, and its two kinds of entry: off-peak days and calls for demand response.
pub mod book;
pub mod call;
pub mod off_peak;

pub use book::{Book, Entry};
pub use call::{Call, CallKind, call_on};
pub use off_peak::{OffPeakDay, book_off_peak, is_off_peak};
