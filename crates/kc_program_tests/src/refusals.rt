//! The words of a session's refusals, over an output that takes a byte at a time.
use crate::running::MemoryFolder;
use kc_program::program;
use std::io::{self, Write};
use std::test::Fail;

/// Takes the first byte of each write.
#[derive(Drop)]
struct SlowWriter {
    text: Vec<u8>,
}

impl Write for SlowWriter {
    fn write(&mut self, buf: &[u8]) -> io::Result<usize> {
        let count = buf.len().min(1);
        let (taken, _) = buf.split_at(count);
        self.text.extend_from_slice(taken)?;
        Ok(count)
    }

    fn flush(&mut self) -> io::Result<()> {
        Ok(())
    }
}

#[test]
fn refusals_are_explained_whatever_a_write_takes(rt: HostRuntime) -> Result<(), Fail> {
    let alloc = rt.alloc();
    let files = [("Kconfig", b"config A\nbool \"a\"\n".as_slice())];
    let words = ["kconf", "session", "Kconfig", "-", "--explain"];
    let mut output = SlowWriter {
        text: Vec::new(alloc),
    };
    let mut errors = Vec::new(alloc);
    let status = program(
        alloc,
        words.as_slice(),
        &MemoryFolder {
            files: files.as_slice(),
        },
        &mut b"set A y\nfrob\nshow A\nset A m\n".as_slice(),
        &mut output,
        &mut errors,
    );
    let replies = "ok\nrefused 1\nA type=bool value=y vis=y can=n,y user=y\nok\nrefused 3\n";
    let words =
        "kconf: command 2: refused 1: no command is named frob; kconf session --help lists them: `frob`
kconf: command 4: refused 3: A is a bool, which takes n and y: `set A m`
";
    assert_eq!(rt; output.text.as_slice(), replies.as_bytes());
    assert_eq!(rt; errors.as_slice(), words.as_bytes());
    assert_eq!(rt; status, 0);
    Ok(())
}
