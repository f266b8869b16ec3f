//! Each file is read once, when its `source` line comes, and no file that none wants.
use crate::running::{Outcome, run_in};
use kc_program::{Folder, FolderFault};
use std::alloc::{AllocError, Global};
use std::cell::Cell;
use std::test::Fail;

/// A top file, and a text at each other path. Counts the reads.
#[derive(Drop)]
struct ManyFiles<'a> {
    kconfig: &'a str,
    /// The text of each file but the top one.
    others: &'a str,
    reads: Cell<usize>,
}

impl<'a> ManyFiles<'a> {
    /// No file was read.
    fn new(kconfig: &'a str, others: &'a str) -> ManyFiles<'a> {
        ManyFiles {
            kconfig,
            others,
            reads: Cell::new(0),
        }
    }
}

impl Folder for ManyFiles<'_> {
    fn read_bytes(&self, alloc: Global, path: &str) -> Result<Vec<u8>, FolderFault> {
        self.reads.set(self.reads.get().wrapping_add(1));
        let text = if path == "Kconfig" {
            self.kconfig
        } else {
            self.others
        };
        text.as_bytes()
            .to_vec(alloc)
            .map_err(|_| FolderFault::NoMemory)
    }

    fn read_plain(&self, alloc: Global, path: &str) -> Result<Vec<u8>, FolderFault> {
        self.read_bytes(alloc, path)
    }
}

/// Lines that source so many files, each as `BEFORE` and its number in quotes of a kind.
fn sourcing_in(
    alloc: Global,
    quote: char,
    before: &str,
    count: usize,
) -> Result<String, AllocError> {
    let mut text = String::new(alloc);
    for number in 0..count {
        let line = format!(in alloc; "source {quote}{before}{number}{quote}\n")?;
        text.push_str(line.as_str())?;
    }
    Ok(text)
}

/// A run over a top file, with how many files were read.
fn run_many(alloc: Global, kconfig: &str, others: &str) -> (Outcome, usize) {
    let folder = ManyFiles::new(kconfig, others);
    let words = ["kconf", "olddefconfig", "Kconfig", "-", "D=x", "E=d/e"];
    let outcome = run_in(alloc, words.as_slice(), &folder, b"");
    (outcome, folder.reads.get())
}

#[test]
fn a_file_is_read_once_however_it_is_named(rt: HostRuntime) -> Result<(), Fail> {
    let rows = [
        ("", '"', "f"),
        ("", '\'', "f"),
        ("", '"', "$(D)/f"),
        ("", '\'', "$(D)/f"),
        ("", '"', "a/$(E)$(D)/f"),
        ("", '"', "$(NONE)f"),
        ("F := d\n", '"', "$(F)/f"),
        ("F = $(D)\nG:=a/$(F)\n", '"', "$(G)/f"),
        ("D := other\n", '"', "$(D)/f"),
        ("", '"', "\\f"),
    ];
    for (lines, quote, before) in rows {
        let mut kconfig = String::from_str(rt.alloc(), lines)?;
        let sources = sourcing_in(rt.alloc(), quote, before, 20)?;
        kconfig.push_str(sources.as_str())?;
        kconfig.push_str(sources.as_str())?;
        let (outcome, reads) = run_many(rt.alloc(), kconfig.as_str(), "");
        assert_eq!(rt;
            outcome.errors.as_slice(),
            b"".as_slice(),
            "at {quote}{before}"
        );
        assert_eq!(rt; outcome.status, 0, "at {quote}{before}");
        assert_eq!(rt; reads, 21, "at {quote}{before}");
    }
    Ok(())
}

#[test]
fn no_file_is_read_that_no_line_wants(rt: HostRuntime) {
    let rows = [
        // A help text and a comment name a file, and so does a variable that no line refers to.
        (
            "config A\nbool \"a\"\nhelp\n source \"d\"\n# source \"e\"\nF = source \"f\"\n",
            1,
        ),
        // A variable means each file as its line comes.
        (
            "V := a\nsource \"$(V)\"\nV := b\nsource \"$(V)\"\nconfig A\nbool \"a\"\n",
            3,
        ),
        // A line that is joined with the next one.
        ("source \\\n \"d\"\nconfig A\nbool \"a\"\n", 2),
    ];
    for (kconfig, want) in rows {
        let (outcome, reads) = run_many(rt.alloc(), kconfig, "");
        assert_eq!(rt; outcome.errors.as_slice(), b"".as_slice(), "at {kconfig:?}");
        assert_eq!(rt;
            outcome.output.as_slice(),
            b"# CONFIG_A is not set\n".as_slice(),
            "at {kconfig:?}"
        );
        assert_eq!(rt; reads, want, "at {kconfig:?}");
    }
}

#[test]
fn nothing_is_read_after_a_fault(rt: HostRuntime) {
    let (outcome, reads) = run_many(rt.alloc(), "source \"a\"\n?\nsource \"b\"\n", "");
    assert_eq!(rt;
        outcome.errors.as_slice(),
        b"kconf: Kconfig:2: K02\n".as_slice()
    );
    assert_eq!(rt; reads, 2);
}

#[test]
fn too_many_files_are_a_limit_however_they_are_named(rt: HostRuntime) -> Result<(), Fail> {
    let rows = [
        (4_095, ""),
        (4_096, "kconf: x/f4095:0: K01\n"),
        (4_097, "kconf: x/f4095:0: K01\n"),
    ];
    for (count, want) in rows {
        let kconfig = sourcing_in(rt.alloc(), '"', "$(D)/f", count)?;
        let (outcome, _) = run_many(rt.alloc(), kconfig.as_str(), "");
        assert_eq!(rt; outcome.errors.as_slice(), want.as_bytes(), "at {count}");
        assert_eq!(rt; outcome.status == 0, want.is_empty(), "at {count}");
    }
    Ok(())
}
