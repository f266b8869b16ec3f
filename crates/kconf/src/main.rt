//! A program that resolves a Kconfig: `kconf TARGET KCONFIG CONFIG [NAME=VALUE]...`.
#![tactic(auto)]

use kc_program::{SystemFolder, answer_unread, program};
use std::process::ExitCode;
use std::rt::Env;
use std::{env, io};

/// The words of the command line.
fn read_words<R: Env + AllocGlobal>(rt: &R) -> io::Result<Vec<String>> {
    Ok(env::args(rt)?.collect(rt.alloc())?)
}

fn main(rt: HostRuntime) -> ExitCode {
    let status = match read_words(&rt) {
        Ok(words) => program(
            rt.alloc(),
            words.as_slice(),
            &SystemFolder::new(&rt),
            &mut rt.stdin(),
            &mut rt.stdout(),
            &mut rt.stderr(),
        ),
        Err(error) => answer_unread(&error, &mut rt.stderr()).code(),
    };
    ExitCode::from(status)
}
