//! The tests of kc_value, kc_files and kc_session, over their public calls alone, that no file of cases can hold:
//! streams that fail at a given call, what a session keeps, resolvers, and calls that no command makes.
//!
//! A crate with tests is proved twice, with them and without. With its tests here, each library is proved once.
#![tactic(auto)]

#[cfg(test)]
mod calls;
#[cfg(test)]
mod failing;
#[cfg(test)]
mod failures;
#[cfg(test)]
mod files;
#[cfg(test)]
mod kept;
pub mod listed;
#[cfg(test)]
mod reasons;
#[cfg(test)]
mod serving;
#[cfg(test)]
mod table;
