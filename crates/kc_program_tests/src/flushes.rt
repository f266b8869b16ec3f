//! What is written when: each reply is flushed before the next command is read, warnings come before the output and in
//! pieces, and all is flushed at the end.
use crate::running::MemoryFolder;
use kc_program::program;
use std::alloc::{AllocError, Global};
use std::cell::Cell;
use std::io::{self, Read, Write};
use std::process::Abort;
use std::test::Fail;

/// How many symbols the Kconfig has: enough that a list of them has more than 512 bytes.
const SYMBOLS: usize = 40;

/// What reader and writers know of each other.
#[derive(Drop)]
struct Watch {
    /// How many warnings come before the first read and before all output.
    warnings: usize,
    /// How many lines were reported.
    reported: Cell<usize>,
    /// How many lines the replies have to all commands that were read.
    due: Cell<usize>,
    /// How many lines were written.
    written: Cell<usize>,
    /// How many lines were flushed.
    flushed: Cell<usize>,
    /// How many reads came while a reply was missing or not flushed, and how many reads or writes before the warnings.
    early: Cell<usize>,
}

impl Watch {
    /// Nothing was read or written, and so many warnings are to come.
    fn new(warnings: usize) -> Watch {
        Watch {
            warnings,
            reported: Cell::new(0),
            due: Cell::new(0),
            written: Cell::new(0),
            flushed: Cell::new(0),
            early: Cell::new(0),
        }
    }

    /// Counts what came too early, where it did.
    fn wants(&self, holds: bool) {
        if !holds {
            self.early.set(self.early.get().wrapping_add(1));
        }
    }
}

/// Gives a command a read, and looks whether the warnings and the replies to those before are there.
#[derive(Drop)]
struct WatchingReader<'a> {
    watch: &'a Watch,
    /// The commands, each with the number of lines of its reply.
    commands: &'a [(&'a str, usize)],
    /// How many of them were read.
    read: usize,
}

impl Read for WatchingReader<'_> {
    fn read(&mut self, buf: &mut [u8]) -> io::Result<usize> {
        let watch = self.watch;
        watch.wants(watch.reported.get() == watch.warnings);
        watch.wants(watch.written.get() == watch.due.get());
        watch.wants(watch.flushed.get() == watch.due.get());
        let Some((command, lines)) = self.commands.get(self.read) else {
            return Ok(0);
        };
        let count = command.len().min(buf.len());
        let (taken, _) = command.as_bytes().split_at(count);
        buf[..count].copy_from_slice(taken);
        watch.due.set(watch.due.get().wrapping_add(*lines));
        self.read = self.read.wrapping_add(1);
        Ok(count)
    }
}

/// Counts the lines that were written, and those of them that were flushed.
#[derive(Drop)]
struct WatchingWriter<'a> {
    watch: &'a Watch,
}

fn count_lines(bytes: &[u8]) -> usize {
    bytes.iter().filter(|byte| **byte == b'\n').count()
}

impl Write for WatchingWriter<'_> {
    fn write(&mut self, buf: &[u8]) -> io::Result<usize> {
        let watch = self.watch;
        watch.wants(watch.reported.get() == watch.warnings);
        let written = watch.written.get().wrapping_add(count_lines(buf));
        watch.written.set(written);
        Ok(buf.len())
    }

    fn flush(&mut self) -> io::Result<()> {
        self.watch.flushed.set(self.watch.written.get());
        Ok(())
    }
}

/// Counts the lines that were reported.
#[derive(Drop)]
struct WatchingErrors<'a> {
    watch: &'a Watch,
}

impl Write for WatchingErrors<'_> {
    fn write(&mut self, buf: &[u8]) -> io::Result<usize> {
        let reported = self.watch.reported.get().wrapping_add(count_lines(buf));
        self.watch.reported.set(reported);
        Ok(buf.len())
    }

    fn flush(&mut self) -> io::Result<()> {
        Ok(())
    }
}

/// The bools A0, A1, .. of a Kconfig.
fn symbols(alloc: Global) -> Result<String, AllocError> {
    let mut text = String::new(alloc);
    for number in 0..SYMBOLS {
        let lines = format!(in alloc; "config A{number}\nbool \"a\"\n")?;
        text.push_str(lines.as_str())?;
    }
    Ok(text)
}

/// Runs the program on words and commands, with a `.config` of which two lines are warned of.
fn run_watched<'a>(
    alloc: Global,
    words: &[&str],
    watch: &'a Watch,
    commands: &'a [(&'a str, usize)],
) -> Result<u8, AllocError> {
    let kconfig = symbols(alloc)?;
    let files = [
        ("Kconfig", kconfig.as_str().as_bytes()),
        (".config", b"frob\nCONFIG_A0=m\nCONFIG_A1=y\n".as_slice()),
    ];
    Ok(program(
        alloc,
        words,
        &MemoryFolder {
            files: files.as_slice(),
        },
        &mut WatchingReader {
            watch,
            commands,
            read: 0,
        },
        &mut WatchingWriter { watch },
        &mut WatchingErrors { watch },
    ))
}

#[test]
fn a_reply_is_flushed_before_the_next_line_is_read(rt: HostRuntime) -> Result<(), Fail> {
    let words = ["kconf", "session", "Kconfig", ".config"];
    // The replies to `list` and `config` have more than 512 bytes.
    let commands = [
        ("set A0 y\n", 1),
        ("frob\n", 1),
        ("list\n", SYMBOLS + 1),
        ("reset\n", 1),
        ("config\n", SYMBOLS + 1),
        ("set U y\n", 1),
        ("set A0 n\n", 1),
        ("header\n", 1),
    ];
    wants_replies_flushed(&rt, rt.alloc(), words.as_slice(), commands.as_slice(), 88)
}

#[test]
fn a_reply_is_flushed_where_refusals_are_explained(rt: HostRuntime) -> Result<(), Fail> {
    let words = ["kconf", "session", "Kconfig", ".config", "--explain"];
    let commands = [
        ("set A0 y\n", 1),
        ("list\n", SYMBOLS + 1),
        ("set A0 n\n", 1),
    ];
    wants_replies_flushed(&rt, rt.alloc(), words.as_slice(), commands.as_slice(), 43)
}

/// Wants this many lines as the replies to commands, each flushed before the next command is read.
fn wants_replies_flushed(
    rt: &impl Abort,
    alloc: Global,
    words: &[&str],
    commands: &[(&str, usize)],
    lines: usize,
) -> Result<(), Fail> {
    let watch = Watch::new(2);
    let status = run_watched(alloc, words, &watch, commands)?;
    assert_eq!(rt; status, 0);
    assert_eq!(rt; watch.flushed.get(), lines);
    assert_eq!(rt; watch.early.get(), 0);
    Ok(())
}

#[test]
fn each_text_is_flushed(rt: HostRuntime) -> Result<(), Fail> {
    let rows = [
        (
            ["kconf", "olddefconfig", "Kconfig", ".config"].as_slice(),
            2,
        ),
        (
            ["kconf", "savedefconfig", "Kconfig", ".config"].as_slice(),
            2,
        ),
        (
            ["kconf", "listnewconfig", "Kconfig", ".config"].as_slice(),
            2,
        ),
        (["kconf", "genheader", "Kconfig", ".config"].as_slice(), 2),
        (["kconf", "why", "Kconfig", ".config", "A0"].as_slice(), 2),
        (["kconf", "menu", "Kconfig", ".config"].as_slice(), 2),
        // The lines of the report: two that can't be used, and the counts.
        (
            ["kconf", "merge", "Kconfig", ".config", ".config"].as_slice(),
            3,
        ),
        (["kconf", "check", "Kconfig", ".config"].as_slice(), 0),
        (["kconf", "files", "Kconfig"].as_slice(), 0),
        (["kconf", "allnoconfig", "Kconfig"].as_slice(), 0),
        (["kconf", "allyesconfig", "Kconfig"].as_slice(), 0),
        (["kconf", "--help"].as_slice(), 0),
        (["kconf", "session", "--help"].as_slice(), 0),
    ];
    for (words, warnings) in rows {
        let watch = Watch::new(warnings);
        let status = run_watched(rt.alloc(), words, &watch, [].as_slice())?;
        assert_eq!(rt; status, 0, "at {words:?}");
        assert!(rt; watch.written.get() > 0, "at {words:?}");
        assert_eq!(rt; watch.flushed.get(), watch.written.get(), "at {words:?}");
        assert_eq!(rt; watch.reported.get(), warnings, "at {words:?}");
        assert_eq!(rt; watch.early.get(), 0, "at {words:?}");
    }
    Ok(())
}

/// Keeps what is reported, and counts the writes.
#[derive(Drop)]
struct CountingErrors {
    writes: usize,
    text: Vec<u8>,
}

impl Write for CountingErrors {
    fn write(&mut self, buf: &[u8]) -> io::Result<usize> {
        self.writes = self.writes.wrapping_add(1);
        self.text.extend_from_slice(buf)?;
        Ok(buf.len())
    }

    fn flush(&mut self) -> io::Result<()> {
        Ok(())
    }
}

#[test]
fn warnings_are_written_in_pieces(rt: HostRuntime) -> Result<(), Fail> {
    let alloc = rt.alloc();
    let mut config = String::new(alloc);
    let mut wanted = String::new(alloc);
    for number in 1..=2_000 {
        config.push_str("frob\n")?;
        let line = format!(in alloc; "kconf: .config:{number}: warning 4\n")?;
        wanted.push_str(line.as_str())?;
    }
    let files = [
        ("Kconfig", b"config A\nbool \"a\"\n".as_slice()),
        (".config", config.as_str().as_bytes()),
    ];
    let words = ["kconf", "olddefconfig", "Kconfig", ".config"];
    let mut output = Vec::new(alloc);
    let mut errors = CountingErrors {
        writes: 0,
        text: Vec::new(alloc),
    };
    let status = program(
        alloc,
        words.as_slice(),
        &MemoryFolder {
            files: files.as_slice(),
        },
        &mut b"".as_slice(),
        &mut output,
        &mut errors,
    );
    assert_eq!(rt; status, 0);
    assert_eq!(rt; errors.text.as_slice(), wanted.as_str().as_bytes());
    assert!(rt; errors.writes <= 8);
    Ok(())
}
