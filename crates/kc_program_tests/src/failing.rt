//! Streams that fail and memory that is refused: what is written to standard error, and the status after it.
use crate::running::{
    FailingFlush, FailingReader, FailingWriter, MemoryFolder, Outcome, run_in, want,
};
use kc_program::{Folder, FolderFault, program};
use std::alloc::Global;
use std::io::{Read, Write};
use std::process::Abort;

// A Kconfig, and a `.config` with a line that is warned of.
const FILES: [(&str, &[u8]); 2] = [
    ("Kconfig", b"config A\nbool \"a\"\n"),
    (".config", b"frob\n"),
];

// Has no memory for any file.
#[derive(Drop)]
struct NoMemoryFolder {}

impl Folder for NoMemoryFolder {
    fn read_bytes(&self, _alloc: Global, _path: &str) -> Result<Vec<u8>, FolderFault> {
        Err(FolderFault::NoMemory)
    }

    fn read_plain(&self, alloc: Global, path: &str) -> Result<Vec<u8>, FolderFault> {
        self.read_bytes(alloc, path)
    }
}

#[test]
fn refused_memory_is_reported(rt: HostRuntime) {
    // Of the top file, and of CONFIG.
    for config in ["-", ".config"] {
        let words = ["kconf", "session", "Kconfig", config];
        let outcome = run_in(
            rt.alloc(),
            words.as_slice(),
            &NoMemoryFolder {},
            b"config\n",
        );
        want(&rt, &outcome, 1, "", "kconf: memory\n", config);
    }
}

// Runs the program on the words of a line and the files, with these streams. The outcome has no output.
fn run_streams<I: Read, O: Write>(
    alloc: Global,
    words: &[&str],
    input: &mut I,
    output: &mut O,
) -> Outcome {
    let folder = MemoryFolder {
        files: FILES.as_slice(),
    };
    let mut errors = Vec::new(alloc);
    let status = program(alloc, words, &folder, input, output, &mut errors);
    Outcome {
        status,
        output: Vec::new(alloc),
        errors,
    }
}

// Wants an output that fails to be reported, after these errors.
fn wants_cannot_write<O: Write>(
    rt: &impl Abort,
    alloc: Global,
    words: &[&str],
    errors: &str,
    output: &mut O,
) {
    let mut input = b"config\n".as_slice();
    let outcome = run_streams(alloc, words, &mut input, output);
    want(rt, &outcome, 1, "", errors, "a failing output");
}

#[test]
fn a_failing_output_is_reported(rt: HostRuntime) {
    let cannot = "kconf: cannot write\n";
    let rows = [
        (["kconf", "--help"].as_slice(), cannot),
        (["kconf", "session", "--help"].as_slice(), cannot),
        (["kconf", "session", "Kconfig", "-"].as_slice(), cannot),
        (["kconf", "olddefconfig", "Kconfig", "-"].as_slice(), cannot),
        (["kconf", "allyesconfig", "Kconfig"].as_slice(), cannot),
        (["kconf", "files", "Kconfig"].as_slice(), cannot),
        (["kconf", "why", "Kconfig", "-", "A"].as_slice(), cannot),
        (["kconf", "check", "Kconfig"].as_slice(), cannot),
        (["kconf", "menu", "Kconfig", "-"].as_slice(), cannot),
        (
            ["kconf", "merge", "Kconfig", ".config", ".config"].as_slice(),
            ".config:1: not a line of a .config
1 asked: 0 got, 0 got another value, 1 unusable, 0 replaced; 0 lines of .config lost
kconf: cannot write
",
        ),
        (
            ["kconf", "olddefconfig", "Kconfig", ".config"].as_slice(),
            "kconf: .config:1: warning 4\nkconf: cannot write\n",
        ),
    ];
    for (words, errors) in rows {
        wants_cannot_write(&rt, rt.alloc(), words, errors, &mut FailingWriter {});
        wants_cannot_write(&rt, rt.alloc(), words, errors, &mut FailingFlush {});
    }
}

#[test]
fn a_failing_input_is_reported(rt: HostRuntime) {
    let words = ["kconf", "session", "Kconfig", "-"];
    let mut output = Vec::new(rt.alloc());
    let outcome = run_streams(
        rt.alloc(),
        words.as_slice(),
        &mut FailingReader {},
        &mut output,
    );
    assert_eq!(rt; output.as_slice(), b"".as_slice());
    want(
        &rt,
        &outcome,
        1,
        "",
        "kconf: cannot read\n",
        "a failing input",
    );
}

#[test]
fn failing_errors_change_nothing_else(rt: HostRuntime) {
    let rows = [
        (["kconf", "session", "nowhere", "-"].as_slice(), 1, ""),
        (["kconf"].as_slice(), 2, ""),
        (
            ["kconf", "olddefconfig", "Kconfig", ".config"].as_slice(),
            0,
            "# CONFIG_A is not set\n",
        ),
    ];
    let folder = MemoryFolder {
        files: FILES.as_slice(),
    };
    for (words, status, text) in rows {
        let mut output = Vec::new(rt.alloc());
        let mut input = b"".as_slice();
        let mut errors = FailingWriter {};
        let found = program(
            rt.alloc(),
            words,
            &folder,
            &mut input,
            &mut output,
            &mut errors,
        );
        assert_eq!(rt; found, status, "at {words:?}");
        assert_eq!(rt; output.as_slice(), text.as_bytes(), "at {words:?}");
    }
}
