#![tactic(auto)]

// Examples at the edges of each layer, as tests. No program builds on this crate.
#[cfg(test)]
mod bill_tests;
#[cfg(test)]
mod books_tests;
#[cfg(test)]
mod calendar_tests;
#[cfg(test)]
mod job_tests;
#[cfg(test)]
mod programmes_tests;
#[cfg(test)]
mod readings_tests;
#[cfg(test)]
mod tariffs_tests;
