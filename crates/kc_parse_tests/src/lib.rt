//! The tests of kc_text and kc_tree, over their public calls alone: lines of texts, all faults at once, what nodes
//! use, the numbers of `select` lines, and lists that were cut, as definitions and worked examples have them. What a
//! case can show is in kc_cases.
//!
//! A crate with tests is proved twice, with them and without. With its tests here, each library is proved once.
#![tactic(auto)]

#[cfg(test)]
mod all_faults;
#[cfg(test)]
mod cut;
#[cfg(test)]
mod fitting;
#[cfg(test)]
mod line_showing;
#[cfg(test)]
mod lines;
#[cfg(test)]
mod nodes;
#[cfg(test)]
mod parsing;
#[cfg(test)]
mod reverses;
#[cfg(test)]
mod sharing;
#[cfg(test)]
mod sources;
#[cfg(test)]
mod table;
#[cfg(test)]
mod variables;
