//! Lines, tokens and help texts.
use crate::table::{Shown, compare_rows};
use std::test::Fail;

/// Texts with their lines, or their first fault.
const LINES: &str = r#"
config A\nbool "a" | [1 config A][2 bool "a"][3 end]
config A\r\nbool "a"\r\n | [1 config A][2 bool "a"][3 end]
config A\nbool "a | K03 K:2
config A | [1 config A][2 end]
 | [1 end]
\n \t# no token @\n\nA | [4 A][5 end]
a"b"c | [1 a "b" c][2 end]
"é @" a.b/c-d_1 | [1 "é @" a.b/c-d_1][2 end]
a&&b||c | [1 a && b || c][2 end]
!=!<=<>=> =() | [1 != ! <= < >= > = ( )][2 end]
a & b | K02 K:1
a \| b | K02 K:1
A\nx @ | K02 K:2
é | K02 K:1
// Both kinds of quotes, with backslashes.
'a"b' "a'b" 'a\\'b' "\\é\\\\" | [1 "a"b" "a'b" "a'b" "é\\"][2 end]
"a\\$b" | [1 "a$b"][2 end]
"a # b" # c | [1 "a # b"][2 end]
// A last line keeps its carriage return, which is no blank.
A\r | K02 K:1
A\r\r\n | K02 K:1
# c\r | [2 end]
// Faults from left to right.
default $X "a | K10 K:1
default "a @ | K03 K:1
default @ $X | K02 K:1
default "$X | K10 K:1
"#;

#[test]
fn reads_lines(rt: HostRuntime) -> Result<(), Fail> {
    compare_rows(rt.alloc(), Shown::Lines, LINES)
}

/// Texts with lines that end in a backslash.
const JOINED_LINES: &str = r#"
// The joined line has the number of its first line.
config \\\nA | [1 config A][3 end]
config \\\r\nA\r\n | [1 config A][3 end]
config \\\n\\\nA\nB | [1 config A][4 B][5 end]
// A backslash that ends the file is dropped; before a carriage return it joins nothing.
config A\\ | [1 config A][2 end]
config A\\\n | [1 config A][2 end]
A\\\r | K02 K:1
// Joining comes before all else.
# comment \\\nA\nB | [3 B][4 end]
 \\\nA | [1 A][3 end]
"a\\\nb" | [1 "ab"][3 end]
"a\\\\\nb" | [1 "ab"][3 end]
A = x\\\ny\ndefault $(A) | [3 default <xy>][4 end]
con\\\nfig A | [1 config A][3 end]
"#;

#[test]
fn joins_lines(rt: HostRuntime) -> Result<(), Fail> {
    compare_rows(rt.alloc(), Shown::Lines, JOINED_LINES)
}

/// Texts with help texts.
const HELP_TEXTS: &str = r#"
help\n\t  one\n\t\ttwo\n\n\t  three\nbool "a" | [1 help {one\n      two\n\nthree\n}][6 bool "a"][7 end]
help\n one\n | [1 help {one\n}][3 end]
---help---\n  one | [1 ---help--- {one\n}][3 end]
// Nothing in it is read: no token, no reference, no joining.
help\n @ $( " \\\n A = 1\n source "b"\nA | [1 help {@ $( " \\\nA = 1\nsource "b"\n}][5 A][6 end]
// Lines of blanks at the beginning are passed, at the end dropped, inside kept as empty.
help\n \t\n\n  one  \n \t \n  two\t\n\n  \nA | [1 help {one\n\ntwo\n}][9 A][10 end]
// No text: no line follows, or the next one is not indented.
help | [1 help {}][2 end]
help\n \n\n | [1 help {}][4 end]
help\n\nA | [1 help {}][3 A][4 end]
// Tabs go to the next multiple of 8.
help\n   \tone\n        two\n\t three | [1 help {one\ntwo\n three\n}][5 end]
help\n \tone\n       two | [1 help {one\n}][3 two][4 end]
// What is a help line.
help # c\n one | [1 help {one\n}][3 end]
 help\t\n one | [1 help {one\n}][3 end]
he\\\nlp\n one | [1 help {one\n}][4 end]
help x\n one | [1 help x][2 one][3 end]
"help"\n one | [1 "help"][2 one][3 end]
H = help\n$(H)\n one | [2 <help>][3 one][4 end]
help = x\n one | [2 one][3 end]
"#;

#[test]
fn takes_help_texts(rt: HostRuntime) -> Result<(), Fail> {
    compare_rows(rt.alloc(), Shown::Lines, HELP_TEXTS)
}
