//! The tests of the program that need calls: streams and folders that fail or watch, memory that is refused, and the files
//! of the system. What words, files and an input can show is in the cases of kc_cases.
//!
//! A crate with tests is proved twice, with them and without. As they are here, kc_program is proved once.
#![tactic(auto)]

#[cfg(test)]
mod failing;
#[cfg(test)]
mod files;
#[cfg(test)]
mod flushes;
#[cfg(test)]
mod once;
#[cfg(test)]
mod refusals;
#[cfg(test)]
mod running;
#[cfg(test)]
mod system_files;
#[cfg(test)]
mod words;
