//! Runs of the program over files and streams in memory.

use kc_program::{Folder, FolderFault, program};
use std::alloc::{AllocError, Global};
use std::io::{self, Error, ErrorKind, Read, Write};
use std::process::Abort;

// Files in memory, each as its path and its bytes.
#[derive(Drop)]
pub(crate) struct MemoryFolder<'a> {
    pub(crate) files: &'a [(&'a str, &'a [u8])],
}

impl Folder for MemoryFolder<'_> {
    fn read_bytes(&self, alloc: Global, path: &str) -> Result<Vec<u8>, FolderFault> {
        for (name, bytes) in self.files {
            if *name == path {
                return bytes.to_vec(alloc).map_err(|_| FolderFault::NoMemory);
            }
        }
        Err(FolderFault::CannotRead)
    }

    fn read_plain(&self, alloc: Global, path: &str) -> Result<Vec<u8>, FolderFault> {
        self.read_bytes(alloc, path)
    }

    fn why_unread(&self, alloc: Global, _path: &str) -> Result<String, AllocError> {
        String::from_str(alloc, "no such file")
    }
}

// Fails at each read.
#[derive(Drop)]
pub(crate) struct FailingReader {}

impl Read for FailingReader {
    fn read(&mut self, _buf: &mut [u8]) -> io::Result<usize> {
        Err(Error::from(ErrorKind::Other))
    }
}

// Fails at each write.
#[derive(Drop)]
pub(crate) struct FailingWriter {}

impl Write for FailingWriter {
    fn write(&mut self, _buf: &[u8]) -> io::Result<usize> {
        Err(Error::from(ErrorKind::Other))
    }

    fn flush(&mut self) -> io::Result<()> {
        Ok(())
    }
}

// Takes each write, and fails at each flush.
#[derive(Drop)]
pub(crate) struct FailingFlush {}

impl Write for FailingFlush {
    fn write(&mut self, buf: &[u8]) -> io::Result<usize> {
        Ok(buf.len())
    }

    fn flush(&mut self) -> io::Result<()> {
        Err(Error::from(ErrorKind::Other))
    }
}

// How a run of the program ended, and what it wrote.
#[derive(Drop)]
pub(crate) struct Outcome {
    pub(crate) status: u8,
    pub(crate) output: Vec<u8>,
    pub(crate) errors: Vec<u8>,
}

// Wants of a run its status and what it wrote; `at` says which run of a test it is.
pub(crate) fn want(
    rt: &impl Abort,
    outcome: &Outcome,
    status: u8,
    output: &str,
    errors: &str,
    at: &str,
) {
    assert_eq!(rt; outcome.errors.as_slice(), errors.as_bytes(), "at {at:?}");
    assert_eq!(rt; outcome.output.as_slice(), output.as_bytes(), "at {at:?}");
    assert_eq!(rt; outcome.status, status, "at {at:?}");
}

// Runs the program on words, a folder and a stream of commands.
pub(crate) fn run_in<F: Folder>(
    alloc: Global,
    words: &[&str],
    folder: &F,
    commands: &[u8],
) -> Outcome {
    let mut input = commands;
    let mut output = Vec::new(alloc);
    let mut errors = Vec::new(alloc);
    let status = program(alloc, words, folder, &mut input, &mut output, &mut errors);
    Outcome {
        status,
        output,
        errors,
    }
}
