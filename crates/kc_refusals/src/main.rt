//! Makes calls that can be refused memory, and checks what they answer, what is left where they are out of memory, and
//! that they answer the next time.
//!
//! Each word of the command line names a call, and without words all are made. It writes a line for each, the same
//! whether the call was refused memory or not. The status is 0 where none was, 4 where one was and all is as it should
//! be, 3 where the program was refused memory of its own, 1 where something is wrong, which the line says, and 2 where
//! a word names no call. What refuses memory is beside the program: tools/refuse_each_request.sh.
#![tactic(auto)]

mod asking;
mod checks;
mod counting;
mod finding;
mod opening;
mod reporting;
mod sessions;
mod showing;
mod streams;
mod tables;
mod text_calls;
mod texts;
mod tree_calls;

use crate::checks::{Ending, run_words};
use std::process::ExitCode;
use std::{env, io};

/// Runs the checks of the words after the program's name.
fn run_checks(rt: &HostRuntime) -> io::Result<Ending> {
    let words: Vec<String> = env::args(rt)?.collect(rt.alloc())?;
    match words.as_slice().split_first() {
        Some((_program, words)) => run_words(rt.alloc(), words, &mut rt.stdout()),
        None => Ok(Ending::Usage),
    }
}

fn main(rt: HostRuntime) -> ExitCode {
    let ending = match run_checks(&rt) {
        Ok(ending) => ending,
        Err(_) => Ending::Unprepared,
    };
    ExitCode::from(ending.status())
}
