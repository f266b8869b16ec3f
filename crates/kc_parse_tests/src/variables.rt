//! Variables, references and what is passed in.
use crate::table::{Shown, compare, compare_rows};
use std::test::Fail;

/// Texts with references, and what these give.
const REFERENCES: &str = r#"
// `=` is expanded at each use, `:=` at its line.
A = $(B)\nB = 1\ndefault $(A) | [3 default <1>][4 end]
A := $(B)\nB = 1\ndefault "$(A)" | [3 default ""][4 end]
A = x\nA += y\ndefault "$(A)" | [3 default "x y"][4 end]
A := a\nA := $(A) b\ndefault "$(A)" | [3 default "a b"][4 end]
A = 1\nB = $(A)\ndefault $(B)\nA = 2\ndefault $(B) | [3 default <1>][5 default <2>][6 end]
// `+=` is expanded at once where the text was; on a name without definition it acts as `=`.
B = 1\nA := x\nA += $(B)\nB = 2\ndefault "$(A)" | [5 default "x 1"][6 end]
B = 1\nA = x\nA += $(B)\nB = 2\ndefault "$(A)" | [5 default "x 2"][6 end]
B = 1\nA += $(B)\nB = 2\ndefault "$(A)" | [4 default "2"][5 end]
A =\nA +=\ndefault "$(A)" | [3 default " "][4 end]
// A name without definition has the empty text.
default $(A) | [1 default <>][2 end]
default "a$(A)b" | [1 default "ab"][2 end]
// A reference in a word is part of it, and a word with one is one word.
A = x y\ndefault a$(A).b | [2 default <ax y.b>][3 end]
A = b\ndefault '$(A)'$(A)c | [2 default "b" <bc>][3 end]
A = config\n$(A) B | [2 <config> B][3 end]
// What a variable line is.
A = a # b \ndefault "$(A)" | [2 default "a # b"][3 end]
A == B\ndefault "$(A)" | [2 default "= B"][3 end]
  a-1\t="x"\ndefault '$(a-1)' | [2 default ""x""][3 end]
config = x\ndefault $(config) | [2 default <x>][3 end]
1 = x\n-x = y\ndefault $(-x) | [3 default <y>][4 end]
A := \\$(B)\ndefault '$(A)' | [2 default "\\"][3 end]
a.b = 1 | [1 a.b = 1][2 end]
A$(X) = 1 | [1 <A> = 1][2 end]
$(X) = 1 | [1 <> = 1][2 end]
a.b := 1 | K02 K:1
// A definition ends no line of its own.
config A\nB = 1\nbool | [1 config A][3 bool][4 end]
"#;

#[test]
fn follows_references(rt: HostRuntime) -> Result<(), Fail> {
    compare_rows(rt.alloc(), Shown::Lines, REFERENCES)
}

/// Texts with references at fault, and some that look so.
const REFUSED_REFERENCES: &str = r#"
default $(f,x) | K10 K:1
default $X | K10 K:1
default $() | K10 K:1
default $(1) | K10 K:1
1 = x\ndefault $(1) | K10 K:2
default $(A B) | K10 K:1
default $( A) | K10 K:1
default $(A | K10 K:1
default "$(A" | K10 K:1
default $($(A)) | K10 K:1
default $(filename) | K10 K:1
default $(lineno) | K10 K:1
default $(linenos) | [1 default <>][2 end]
default "$" | K10 K:1
default $ | K10 K:1
// In a value that is not expanded at once a fault is found at its use.
A = $X | [2 end]
A = $X\ndefault $(A) | K10 K:2
A := $X | K10 K:1
A = x\nA += $X | [3 end]
A := x\nA += $X | K10 K:2
A = $\nA += (B)\ndefault $(A) | K10 K:3
// A variable in its own expansion.
A = $(A) | [2 end]
A = $(A)\ndefault $(A) | K11 K:2
A = $(B)\nB = x$(A)\ndefault "$(A)" | K11 K:3
A = $(B)\nB = $(C)\nC = $(A)\ndefault $(B) | K11 K:4
A = x\nA = $(A)\nB := $(A) | K11 K:3
// The first in the order of references.
A = $(A)\ndefault $(A)$X | K11 K:2
A = $(A)\ndefault $X$(A) | K10 K:2
"#;

#[test]
fn refuses_references(rt: HostRuntime) -> Result<(), Fail> {
    compare_rows(rt.alloc(), Shown::Lines, REFUSED_REFERENCES)
}

/// Variables that are passed in, each with ` & ` after it, and a text with its lines or the first fault.
const PASSED_IN: &str = r#"
A=a & B=$(A) & A=later & default $(A) | [1 default <later>][2 end]
// Its text is taken as it is.
A=a & B=$(A) & A=later & default '$(B)' | [1 default "$(A)"][2 end]
A=a & B=$(A) & A=later & A = own\ndefault $(A) | [2 default <own>][3 end]
// `+=` for such a name acts as `=`.
A=a & B=$(A) & A=later & A += own\ndefault $(A) | [2 default <own>][3 end]
A=a & B=$(A) & A=later & A := $(A)s\ndefault $(A) | [2 default <laters>][3 end]
A=é @ $( &  | [1 end]
// Texts that can't be passed in.
A=a\nb &  | K02 A:0
A=a & B=\r &  | K02 B:0
A=\0 & A=a &  | K02 A:0
B=\t & A=\n &  | K02 A:0
"#;

#[test]
fn takes_what_is_passed_in(rt: HostRuntime) -> Result<(), Fail> {
    compare_rows(rt.alloc(), Shown::Pairs, PASSED_IN)
}

/// Lengths of a text that is passed in as A, what comes after it, and the lines or the first fault.
const LENGTHS: [(usize, &str, &str); 5] = [
    (65_536, " & B := $(A)", "[2 end]"),
    (65_536, " & B := $(A)x", "K01 K:1"),
    (65_537, " & ", "K01 A:0"),
    (65_537, "\n & ", "K02 A:0"),
    (65_537, " & B=\n & ", "K01 A:0"),
];

#[test]
fn keeps_the_limit_of_a_text_that_is_passed_in(rt: HostRuntime) -> Result<(), Fail> {
    let alloc = rt.alloc();
    for (length, after, want) in LENGTHS {
        let value = "x".repeat(alloc, length)?;
        let text = format!(in alloc; "A={value}{after}")?;
        compare(alloc, Shown::Pairs, text.as_str(), want)?;
    }
    Ok(())
}
