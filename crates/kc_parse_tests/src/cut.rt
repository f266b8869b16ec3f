//! Lists of lines that were cut before the end of their file.
use crate::table::{Shown, compare, compare_rows};
use std::test::Fail;

/// Texts with the fault of their lines without the end of the file.
const CUT: &str = r#"
menu "m"\n | K:1: K07
if y\nif y\nendif\n | K:3: K07
menu "m"\nconfig A\nbool "a"\n | K:3: K07
if y\nendif\n | a tree
// The last line counts itself, well formed or not, but an unknown word comes before the block.
config A\nbool "a"\nif\n | K:3: K07
menu "m"\nfrob\n | K:2: K04
"#;

#[test]
fn a_block_is_open_at_the_last_line_of_a_cut_list(rt: HostRuntime) -> Result<(), Fail> {
    compare_rows(rt.alloc(), Shown::Cut, CUT)
}

#[test]
fn an_open_block_comes_before_the_limit_of_blocks(rt: HostRuntime) -> Result<(), Fail> {
    let blocks = "if y\n".repeat(rt.alloc(), 65)?;
    compare(rt.alloc(), Shown::Cut, blocks.as_str(), "K:65: K07")
}
