#![tactic(auto)]

// A job text: its lines, what they say, and the job carried out.
mod body;
pub mod job;
pub mod keys;
pub mod line;
mod reader;
pub mod statement;
pub mod stop;
mod text;

pub use job::{LONGEST_TEXT, run_job};
pub use stop::Stop;

#[cfg(test)]
mod tests;
