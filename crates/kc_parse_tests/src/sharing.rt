//! How much the tables of a tree take: a list that many nodes read is there once.
use crate::table::{Shown, compare};
use kc_graph::Rows;
use kc_tree::Tree;
use std::alloc::{AllocError, Global};
use std::test::Fail;

/// How many symbols there are in a condition, and how many under it.
const COUNT: u32 = 1_000;

/// The numbers that a node has in a table, on average, where no long list is there twice.
const MOST_OF_A_NODE: usize = 8;

/// `COUNT` symbols, whose names begin with this letter.
fn symbols(alloc: Global, letter: &str) -> Result<String, AllocError> {
    let mut text = String::new(alloc);
    for number in 0..COUNT {
        let entry = format!(in alloc; "config {letter}{number}\n\tbool \"p\"\n")?;
        text.push_str(entry.as_str())?;
    }
    Ok(text)
}

/// The condition that one of them is not n.
fn condition(alloc: Global) -> Result<String, AllocError> {
    let mut text = String::from_str(alloc, "A0")?;
    for number in 1..COUNT {
        text.push_str(format!(in alloc; " || A{number}")?.as_str())?;
    }
    Ok(text)
}

/// Symbols, and others under three lines that each have this condition.
fn kconfig(alloc: Global) -> Result<String, AllocError> {
    let (before, inside) = (symbols(alloc, "A")?, symbols(alloc, "M")?);
    let condition = condition(alloc)?;
    let menu = "menu \"m\"\n\tdepends on";
    format!(in alloc;
        "{before}if {condition}\n{menu} {condition}\n\tvisible if {condition}\n{inside}endmenu\nendif\n"
    )
}

/// How many numbers the rows of a table have.
fn numbers_in(table: &Rows) -> usize {
    let mut count: usize = 0;
    for row in 0..table.len() {
        count = count.saturating_add(table.row(row).len());
    }
    count
}

/// What is wrong with the size of a tree's tables.
pub(crate) fn show_size(alloc: Global, tree: &Tree) -> Result<String, AllocError> {
    let most = tree.node_count().saturating_mul(MOST_OF_A_NODE);
    let used = numbers_in(tree.use_table());
    let users = numbers_in(tree.user_table());
    if used <= most && users <= most {
        return String::from_str(alloc, "small");
    }
    format!(in alloc; "{used} and {users} numbers")
}

#[test]
fn a_list_that_many_nodes_read_is_there_once(rt: HostRuntime) -> Result<(), Fail> {
    let text = kconfig(rt.alloc())?;
    compare(rt.alloc(), Shown::Size, text.as_str(), "small")
}
