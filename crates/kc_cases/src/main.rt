//! Runs cases: Kconfigs with commands and the replies that are wanted, or with the fault that is wanted, and runs of the
//! whole program over files in memory.
//!
//! Each word of the command line names a file of cases. The form of a file is described in docs/TESTING.md.
#![tactic(auto)]

mod blocks;
mod cuts;
mod escapes;
mod fault_text;
mod files;
mod header;
mod malformed;
mod outcome;
mod parts;
mod piece_reader;
mod run_results;
mod runs;
mod sequence;

use crate::files::run_files;
use std::process::ExitCode;
use std::rt::Env;
use std::{env, io};

/// The words of the command line.
fn read_words<R: Env + AllocGlobal>(rt: &R) -> io::Result<Vec<String>> {
    Ok(env::args(rt)?.collect(rt.alloc())?)
}

/// Runs the files that the words name. It gives whether all of their cases passed.
fn run_words(rt: &HostRuntime) -> io::Result<bool> {
    let words = read_words(rt)?;
    match words.as_slice().split_first() {
        Some((_program, paths)) => run_files(rt, paths, &mut rt.stdout()),
        None => Ok(false),
    }
}

fn main(rt: HostRuntime) -> ExitCode {
    match run_words(&rt) {
        Ok(true) => ExitCode::SUCCESS,
        Ok(false) => ExitCode::FAILURE,
        Err(error) => {
            let _ = eprintln!(rt; "kc_cases: {error}");
            ExitCode::FAILURE
        }
    }
}
