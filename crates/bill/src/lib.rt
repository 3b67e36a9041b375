#![tactic(auto)]

// The bill of a month: the quote, the draft that it gives, the issued bill and its print.
pub mod contract;
pub mod draft;
pub mod figures;
pub mod issued;
pub mod items;
pub mod keys;
mod print;
pub mod quote;
mod totals;
mod write;

pub use contract::{Contract, Excess};
pub use draft::Draft;
pub use figures::figures_shown;
pub use issued::{Issued, Unprinted};
pub use items::Items;
pub use quote::plain_quote;

#[cfg(test)]
mod tests;
