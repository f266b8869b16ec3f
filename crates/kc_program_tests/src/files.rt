//! How often the files of a Kconfig and its CONFIG are read, and the seed is asked for.
use crate::running::{MemoryFolder, run_in};
use kc_program::{Folder, FolderFault, Seed};
use std::alloc::Global;
use std::cell::Cell;
use std::process::Abort;

// Counts the reads of files in memory, and how often the seed is asked for.
#[derive(Drop)]
struct CountingFolder<'a> {
    files: MemoryFolder<'a>,
    reads: Cell<usize>,
    seeds: Cell<usize>,
}

impl Folder for CountingFolder<'_> {
    fn read_bytes(&self, alloc: Global, path: &str) -> Result<Vec<u8>, FolderFault> {
        self.reads.set(self.reads.get().wrapping_add(1));
        self.files.read_bytes(alloc, path)
    }

    fn read_plain(&self, alloc: Global, path: &str) -> Result<Vec<u8>, FolderFault> {
        self.read_bytes(alloc, path)
    }

    fn seed(&self) -> Seed {
        self.seeds.set(self.seeds.get().wrapping_add(1));
        Seed::fixed()
    }
}

// Wants so many reads of a top file, of the files b, c and d that it may want, and of a CONFIG.
fn wants_reads<'a>(
    rt: &impl Abort,
    alloc: Global,
    texts: (&'a str, &'a str, &'a str),
    want: usize,
) {
    let (top, b, c) = texts;
    let files = [
        ("Kconfig", top.as_bytes()),
        ("b", b.as_bytes()),
        ("c", c.as_bytes()),
        ("d", b"".as_slice()),
        (".config", b"CONFIG_A=y\n".as_slice()),
    ];
    let folder = CountingFolder {
        files: MemoryFolder {
            files: files.as_slice(),
        },
        reads: Cell::new(0),
        seeds: Cell::new(0),
    };
    let words = ["kconf", "session", "Kconfig", ".config"];
    let outcome = run_in(alloc, words.as_slice(), &folder, b"config\n");
    assert_eq!(rt; outcome.errors.as_slice(), b"".as_slice());
    assert_eq!(rt; outcome.output.as_slice(), b"CONFIG_A=y\nok\n".as_slice());
    assert_eq!(rt; folder.reads.get(), want, "at {top:?}");
    assert_eq!(rt; folder.seeds.get(), 1);
}

#[test]
fn each_file_is_read_as_it_is_wanted(rt: HostRuntime) {
    let rows = [
        // A help text names d, and b and c are named twice.
        (
            (
                "config A\nbool \"a\"\nhelp\n source \"d\"\nsource \"$(NAME)b\"\nsource \"c\"\nsource \"b\"\n",
                "source \"c\"\n",
                "# source \"d\"\n",
            ),
            4,
        ),
        // A file names a further one.
        (
            (
                "config A\nbool \"a\"\nhelp\n source \"d\"\nsource \"\\b\"\n",
                "source \"c\"\n",
                "",
            ),
            4,
        ),
        // After it was wanted b is named again.
        (
            (
                "config A\nbool \"a\"\nsource \"\\b\"\nsource \"\\c\"\n",
                "",
                "source \"b\"\n",
            ),
            4,
        ),
    ];
    for (texts, want) in rows {
        wants_reads(&rt, rt.alloc(), texts, want);
    }
}
