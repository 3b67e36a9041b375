#![tactic(auto)]

// Tariffs: which rank a slot has, what energy costs, and the household price; for contracts also what capacities allow and cost.
pub mod capacities;
pub mod contract;
pub mod excess;
pub mod h3;
pub mod l2;
mod prices;
pub mod rank;
pub mod s3;
mod season_table;
pub mod tariff;

pub use capacities::Capacities;
pub use contract::ContractTariff;
pub use excess::{excess_charge, excess_lines, tenth};
pub use h3::H3;
pub use l2::L2;
pub use rank::{ByRank, Rank};
pub use s3::S3;
pub use tariff::Tariff;

#[cfg(test)]
mod tests;
