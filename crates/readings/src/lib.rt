#![tactic(auto)]

// Meter codes, and the sheet of a month's readings over lent storage.
pub mod code;
pub mod full_month;
pub mod sheet;

pub use code::MeterCode;
pub use full_month::FullMonth;
pub use sheet::{HIGHEST_READING, SLOTS_A_DAY, Sheet, any_above};
