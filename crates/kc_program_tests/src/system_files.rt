//! Files of the system, which must be Linux: what can't be read is never taken for an empty file.
use crate::running::{run_in, want};
use kc_program::{Folder, FolderFault, SystemFolder};
use std::fs::OpenFile;
use std::hash::BuildHasher;
use std::io::Write;
use std::os::fd::AsRawFd;
use std::rt::Env;
use std::test::Fail;
use std::{env, fs, io, process};

#[test]
fn a_file_that_cannot_be_read_is_not_empty(rt: HostRuntime) -> Result<(), Fail> {
    let folder = SystemFolder::new(&rt);
    let rows = [
        // An empty file.
        ("/dev/null", Ok(0)),
        // Its length is said to be 0, and a read at its beginning fails.
        ("/proc/self/mem", Err(FolderFault::CannotRead)),
        // A folder, which can be opened.
        ("/", Err(FolderFault::CannotRead)),
        ("/proc/self", Err(FolderFault::CannotRead)),
        // No file.
        ("/dev/null/nothing", Err(FolderFault::CannotRead)),
        ("", Err(FolderFault::CannotRead)),
    ];
    for (path, want) in rows {
        let bytes = folder.read_bytes(rt.alloc(), path);
        assert_eq!(rt; bytes.map(|bytes| bytes.len()), want, "at {path:?}");
        let config = folder.read_config(rt.alloc(), path);
        assert_eq!(rt; config.map(|bytes| bytes.len()), want, "at {path:?}");
    }
    Ok(())
}

#[test]
fn what_cannot_be_read_has_a_reason(rt: HostRuntime) -> Result<(), Fail> {
    let folder = SystemFolder::new(&rt);
    let rows = [
        ("/", "it is a directory", false),
        ("/proc/self", "it is a directory", false),
        ("/dev/null/nothing", "the system can't open it", true),
        ("/dev/no/file", "no such file", true),
        ("", "no such file", true),
    ];
    for (path, want, lacks_directory) in rows {
        let why = folder.why_unread(rt.alloc(), path)?;
        assert_eq!(rt; why.as_str(), want, "at {path:?}");
        assert_eq!(rt;
            folder.lacks_directory(path),
            lacks_directory,
            "at {path:?}"
        );
    }
    Ok(())
}

#[test]
fn a_file_of_unknown_length_is_read_whole(rt: HostRuntime) -> Result<(), Fail> {
    // Its length is said to be 0, and it has lines.
    let path = "/proc/self/status";
    let folder = SystemFolder::new(&rt);
    let bytes = folder.read_bytes(rt.alloc(), path)?;
    assert!(rt; bytes.starts_with(b"Name:"));
    assert!(rt; bytes.ends_with(b"\n"));
    Ok(())
}

#[test]
fn a_file_without_end_is_cut(rt: HostRuntime) -> Result<(), Fail> {
    let folder = SystemFolder::new(&rt);
    let config = folder.read_config(rt.alloc(), "/dev/zero")?;
    assert_eq!(rt; config.len(), 16_777_217);
    let bytes = folder.read_bytes(rt.alloc(), "/dev/zero")?;
    assert_eq!(rt; bytes.len(), 16_777_224);
    Ok(())
}

#[test]
fn only_plain_files_are_read_again(rt: HostRuntime) -> Result<(), Fail> {
    let folder = SystemFolder::new(&rt);
    for path in ["/dev/null", "/dev/zero", "/", "/dev/null/nothing", ""] {
        let bytes = folder.read_plain(rt.alloc(), path);
        let count = bytes.map(|bytes| bytes.len());
        assert_eq!(rt; count, Err(FolderFault::CannotRead), "at {path:?}");
    }
    let bytes = folder.read_plain(rt.alloc(), "/proc/self/status")?;
    assert!(rt; bytes.starts_with(b"Name:"));
    Ok(())
}

#[test]
fn a_pipe_is_not_read_again(rt: HostRuntime) -> Result<(), Fail> {
    let folder = SystemFolder::new(&rt);
    let (reader, mut writer) = io::pipe(&rt)?;
    writer.write_all(b"config A\n")?;
    drop(writer);
    let path = format!(in rt.alloc(); "/proc/self/fd/{}", reader.as_raw_fd())?;
    let bytes = folder.read_plain(rt.alloc(), path.as_str());
    assert_eq!(rt;
        bytes.map(|bytes| bytes.len()),
        Err(FolderFault::CannotRead)
    );
    let bytes = folder.read_bytes(rt.alloc(), path.as_str())?;
    assert_eq!(rt; bytes.as_slice(), b"config A\n".as_slice());
    Ok(())
}

/// A path of a name among the temporary files, for the process of a number alone.
fn temporary_path<R: Env + AllocGlobal>(rt: &R, process: u32, name: &str) -> io::Result<String> {
    let folder = env::temp_dir(rt)?;
    let path = format!(in rt.alloc(); "{}/kconf_{name}_{process}", folder.as_str())?;
    Ok(path)
}

#[test]
fn a_character_that_is_cut_is_no_fault(rt: HostRuntime) -> Result<(), Fail> {
    let alloc = rt.alloc();
    let path = temporary_path(&rt, process::id(rt.process()), "cut")?;
    // Of the 16,777,224 bytes that are read the last three begin a character of four.
    let mut text = vec![in alloc; b'#'; 16_777_221]?;
    text.extend_from_slice("\u{1F600}\u{1F600}".as_bytes())?;
    fs::write(&rt, path.as_str(), text)?;
    let words = ["kconf", "session", path.as_str(), "-"];
    let outcome = run_in(alloc, words.as_slice(), &SystemFolder::new(&rt), b"");
    fs::remove_file(&rt, path.as_str())?;
    let errors = format!(in alloc; "kconf: {path}:0: K01\n")?;
    want(&rt, &outcome, 1, "", errors.as_str(), "a cut character");
    Ok(())
}

#[test]
fn a_file_of_100_gigabytes_is_a_limit(rt: HostRuntime) -> Result<(), Fail> {
    let alloc = rt.alloc();
    let path = temporary_path(&rt, process::id(rt.process()), "hole")?;
    // A hole, which takes no room on the disk.
    fs::create(&rt, path.as_str())?.set_len(100_000_000_000)?;
    let folder = SystemFolder::new(&rt);
    let plain = folder.read_plain(alloc, path.as_str());
    let config = folder.read_config(alloc, path.as_str());
    let words = ["kconf", "session", path.as_str(), "-"];
    let outcome = run_in(alloc, words.as_slice(), &folder, b"");
    fs::remove_file(&rt, path.as_str())?;
    assert_eq!(rt;
        plain.map(|bytes| bytes.len()),
        Err(FolderFault::CannotRead)
    );
    assert_eq!(rt; config.map(|bytes| bytes.len()), Ok(16_777_217));
    let errors = format!(in alloc; "kconf: {path}:0: K01\n")?;
    want(&rt, &outcome, 1, "", errors.as_str(), "a hole");
    Ok(())
}

#[test]
fn each_seed_is_drawn(rt: HostRuntime) {
    // Two seeds agree on a hash of 64 bits once in 2^64.
    let folder = SystemFolder::new(&rt);
    let first = folder.seed().hash_one("NAME");
    let second = folder.seed().hash_one("NAME");
    assert!(rt; first != second);
}
