//! Files in place of `source` lines.
use crate::table::{Shown, compare, compare_rows};
use std::alloc::{AllocError, Global};
use std::test::Fail;

/// Files, each as `path: text` with ` & ` between them, and the lines of K or the fault.
const FILES: &str = r#"
K: source "b" | K08 K:1 b
K: source "b" & b: source "b" | K09 b:1
K: A\nsource "b"\nC & b: B\n\n | [1 A][b#1 1 B][b#1 3 end][3 C][4 end]
// Each putting in place is a run of its own.
K: source "b"\nsource 'b' & b: B | [b#1 1 B][b#1 2 end][b#2 1 B][b#2 2 end][3 end]
K: source "b"\nA & b: source "c"\nB & c:  | [c#2 1 end][b#1 2 B][b#1 3 end][2 A][3 end]
// A ring of three files is closed in the last.
K: \nsource "b" & b: source "c" & c: x\n\nsource "K" | K09 c:3
// Definitions go through all files.
K: A = 1\nsource "b"\ndefault $(A) & b: default $(A)\nA = 2 | [b#1 1 default <1>][b#1 3 end][3 default <2>][4 end]
K: D = d\nsource "$(D)/b" & d/b: B | [d/b#1 1 B][d/b#1 2 end][3 end]
// Any other `source` line stays.
K: source\nsource "b" x\nsource b\n"source" "b"\nS = source\n$(S) "b" | [1 source][2 source "b" x][3 source b][4 "source" "b"][6 <source> "b"][7 end]
// Paths are compared as they are spelt.
K: source "./K" | K08 K:1 ./K
// The faults of the line's tokens come first, and the line's own come before those of the lines after it.
K: source "K" @ | K02 K:1
K: source "b"\n@ & b: \n@ | K02 b:2
"#;

#[test]
fn puts_files_in_place(rt: HostRuntime) -> Result<(), Fail> {
    compare_rows(rt.alloc(), Shown::Files, FILES)
}

/// Files that each source the next. K is the first, and the last has this text.
fn nested(alloc: Global, depth: usize, last: &str) -> Result<String, AllocError> {
    let mut files = String::from_str(alloc, "K: source \"2\"")?;
    for i in 2..depth {
        let next = i + 1;
        files.push_str(format!(in alloc; " & {i}: source \"{next}\"")?.as_str())?;
    }
    files.push_str(format!(in alloc; " & {depth}: {last}")?.as_str())?;
    Ok(files)
}

#[test]
fn keeps_the_limit_of_depth(rt: HostRuntime) -> Result<(), Fail> {
    for (depth, last, want) in [
        (64, "@", "K02 64:1"),
        (65, "@", "K01 64:1"),
        // A file within itself is found before the depth, and the depth before a file that is missing.
        (64, "source \"K\"", "K09 64:1"),
        (64, "source \"missing\"", "K01 64:1"),
        (63, "source \"missing\"", "K08 63:1 missing"),
    ] {
        let files = nested(rt.alloc(), depth, last)?;
        compare(rt.alloc(), Shown::Files, files.as_str(), want)?;
    }
    Ok(())
}
