//! The top call over disks in memory, compared with runs that were worked out from the rules.
//!
//! The crate has only tests. `rows` has worked runs in which no node stops, `stop_rows` those with stops, retries,
//! questions and compactions, `stop_disks` what the files hold behind some of them.
#![tactic(auto)]

#[cfg(test)]
mod commit_stops;
#[cfg(test)]
mod rows;
#[cfg(test)]
mod sinks;
#[cfg(test)]
mod stop_disks;
#[cfg(test)]
mod stop_rows;
#[cfg(test)]
mod stops;
#[cfg(test)]
mod tests;
