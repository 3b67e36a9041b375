#![tactic(auto)]

// Demand response: the programmes that a contract can have, what they credit and what they charge.
pub mod average;
pub mod bid;
pub mod flexible;
pub mod metered;
pub mod month_calls;
pub mod no_programme;
pub mod part;
pub mod programme;
pub mod site;
pub mod terms;

pub use average::GRAINS_A_KW;
pub use bid::Bid;
pub use flexible::Flexible;
pub use metered::Metered;
pub use no_programme::NoProgramme;
pub use part::Part;
pub use programme::{BareProgramme, Programme};
pub use site::{LEAD_DAYS, Site};
pub use terms::BidTerms;
