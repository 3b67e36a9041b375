#![tactic(auto)]

// Days, months, seasons and kinds of day, and the refusals that every layer answers with.
pub mod date;
pub mod day;
pub mod month;
pub mod refusal;
pub mod season;

pub use date::{Date, day_number};
pub use day::{DayKind, Weekday};
pub use month::Month;
pub use refusal::Refusal;
pub use season::Season;
