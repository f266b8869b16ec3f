//! All faults of texts at once, the first of which is the fault of `Tree::parse`.
use crate::table::{Shown, compare, compare_rows};
use std::test::Fail;

/// Texts with all their faults, and files with ` & ` between them.
const FAULTS: &str = r#"
// Lines, each by itself. An unknown word ends an entry.
default y\nfrob | K:1: K06, K:2: K04
config A\nbool a\nselect "B"\nendif x\ndefault y | K:2: K20, K:3: K05, K:4: K07, K:5: K06
config A\nbool "a"\ndefualt y\ndepends on B\nconfig B\nbool "b"\ndepends B | K:3: K04, K:4: K06, K:7: K05
// A block that is opened by a line at fault is open, and a closer takes the innermost away, also a wrong one.
menu Network\ndefault y\nendmenu | K:1: K20, K:2: K06
menu "Network"\nif PCI\nendmenu\nendif | K:3: K07, K:4: K07
endmenu\nmenu "Network"\nendmenu\nendmenu | K:1: K07, K:4: K07
choice SPEED\nmenu "m"\nendmenu\nchoice\nendchoice\nendchoice | K:1: K20, K:2: K20, K:4: K20
menu "Network"\nfrob | K:2: K04, K:3: K07
// Nothing is said of symbols and choices where a line is at fault.
config A\nconfig B\nfrob | K:3: K04
choice\nendchoice\nconfig A\nendif | K:4: K07
// Symbols and choices, kind by kind, each in the order of their first lines.
config B\nconfig A | K12 B, K12 A
config B\nbool "b"\nprompt "c"\nconfig A\nbool "a"\ntristate | K13 A, K14 B
config N\nint "n"\ndefault "x"\nconfig M\nbool "m"\nprompt "p" | K14 M, K15 N
config A\nint "a"\nprompt "b"\ndefault 1x | K14 A, K15 A
config A\nint "a"\nprompt "b"\ndefault 1x\nselect B\nmodules\nconfig B\nbool "b" | K14 A, K15 A, K16 A, K18 A
choice\nendchoice\nconfig B\nbool "b"\nselect N\nconfig N\nint "n" | K16 N, K:1: K17
choice\nendchoice\nconfig MODULES\ntristate "m" | K:1: K17, K18 MODULES
choice\nendchoice\nchoice\nprompt "c"\nendchoice\nchoice\nprompt "d"\ndefault X\nendchoice | K:1: K17, K:6: K17
config A\nmodules\nchoice\nendchoice\nconfig B\nbool "b"\ntristate | K12 A, K13 B, K:3: K17, K18 A
// A loop is sought where there is nothing else.
config A\nbool "a"\ndepends on A\nmodules | K18 A
config A\nbool "a"\ndefault A | K19
config A\nbool "a"\nchoice\nprompt "c"\nconfig B\nbool "b"\nendchoice\n | a tree
// A file K, and b after it: the menu is left open by b, and no file closes a block of another.
frob\nsource "b"\nendmenu\n & default y\nmenu "m"\n | K:1: K04, b:1: K06, b:3: K07, K:3: K07
"#;

#[test]
fn all_faults_are_found(rt: HostRuntime) -> Result<(), Fail> {
    compare_rows(rt.alloc(), Shown::Faults, FAULTS)
}

/// What comes after 64 open blocks, with all faults. The end of the file is the line after the last.
const TOO_DEEP: [(&str, &str); 2] = [
    ("", "K:1: K06, K:66: K04, K:67: K07"),
    ("if y\nfrob\n", "K:1: K06, K:66: K04, K:67: K01"),
];

#[test]
fn nothing_is_read_after_a_block_too_deep(rt: HostRuntime) -> Result<(), Fail> {
    let alloc = rt.alloc();
    let blocks = "if y\n".repeat(alloc, 64)?;
    for (after, want) in TOO_DEEP {
        let text = format!(in alloc; "default y\n{blocks}frob\n{after}")?;
        compare(alloc, Shown::Faults, text.as_str(), want)?;
    }
    Ok(())
}
