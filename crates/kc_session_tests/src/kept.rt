//! What a session keeps: the count of evaluations, and replies that don't depend on it.
use crate::serving::{in_session, replies_in};
use crate::table::{rows, two_fields};
use kc_session::Session;
use kc_tree::{Node, SymId};
use kc_value::Resolver;
use std::alloc::Global;
use std::test::Fail;

/// A symbol, and one that depends on it.
const TWO: &str = r#"
config A
    bool "a"
    default y
config B
    bool "b"
    depends on A
"#;

/// Symbols that have nothing to do with each other.
const FOUR: &str = r#"
config A
    bool "a"
config B
    bool "b"
config C
    bool "c"
config D
    bool "d"
"#;

/// A choice, with a member that depends on a symbol.
const CHOICE: &str = r#"
config D
    bool "d"
choice
    prompt "ch"
    default B
config A
    bool "a"
config B
    bool "b"
config C
    bool "c" if D
endchoice
"#;

/// A choice that may be off.
const OPTIONAL: &str = r#"
choice
    prompt "c"
    optional
config P
    bool "p"
config Q
    bool "q"
endchoice
"#;

/// Symbols that others select, imply and bound.
const REVERSE: &str = r#"
config MODULES
    def_bool y
    modules
config S
    tristate "s"
    select T
    imply U
config T
    tristate "t" if m
config U
    bool "u"
    depends on S
config LOW
    int "low"
    default 3
config N
    int "n"
    range LOW 9
    default 5
"#;

/// A tristate, and the symbol that says whether modules are built.
const MODULE: &str = r#"
config MODULES
    bool "modules"
    modules
    default y
config T
    tristate "t"
"#;

/// A tristate that another selects, where modules are always built.
const SELECTED: &str = r#"
config MODULES
    def_bool y
    modules
config S
    tristate "s"
    select T
config T
    tristate "t" if m
    default y
"#;

/// The same where the user says whether modules are built.
const SELECTED_IN_MODULES: &str = r#"
config MODULES
    bool "modules"
    modules
    default y
config S
    tristate "s"
    select T
config T
    tristate "t" if m
    default y
"#;

/// An int and a hex, each with a default past its range.
const NUMBERS: &str = r#"
config N
    int "n"
    default 9
    range 1 5
config H
    hex "h"
    default 0x20
    range 0x0 0x1f
"#;

/// Commands, and the count of evaluations after each.
const OF_TWO: &str = r#"
show A | 2
show B | 4
set A n | 4
show A | 5
set B y | 5
show B | 7
"#;

/// A symbol that is shown first has its own nodes and those that it is computed from evaluated.
const OF_ONE_OF_TWO: &str = r#"
show B | 4
show B | 4
"#;

/// A value that is the same as before changes nothing.
const OF_FOUR: &str = r#"
list | 8
set D y | 8
list | 9
set D y | 9
list | 9
set D m | 9
unset D | 9
list | 10
reset | 10
list | 10
"#;

/// Of a choice, the values of its members are not asked.
const OF_CHOICE: &str = r#"
choices | 7
set D y | 7
choices | 10
"#;

/// A choice that goes on has another mode; one that only selects another member has not.
const OF_OPTIONAL: &str = r#"
choices | 4
set P y | 4
choices | 8
set Q y | 8
choices | 9
"#;

/// What is compared with a table.
#[derive(Clone, Copy)]
enum Shown {
    /// The count of evaluations.
    Count,
    /// Which nodes of two symbols are kept.
    Kept,
}

/// The count of evaluations of a session, or whether each node of two symbols is kept, a letter each.
fn show_kept(alloc: Global, session: &Session, shown: Shown) -> Result<String, Fail> {
    if let Shown::Count = shown {
        let count = session.evals();
        return Ok(format!(in alloc; "{count}")?);
    }
    let mut letters = String::new(alloc);
    for number in 0..2 {
        for node in [Node::Vis(SymId(number)), Node::Val(SymId(number))] {
            letters.push_str(if session.is_kept(node) { "y" } else { "n" })?;
        }
    }
    Ok(letters)
}

/// Wants of a session what a table has after each command.
fn compare_kept(
    alloc: Global,
    session: &mut Session,
    shown: Shown,
    table: &str,
) -> Result<(), Fail> {
    for row in rows(alloc, table)? {
        let (command, want) = two_fields(alloc, row)?;
        let line = format!(in alloc; "{command}\n")?;
        let _ = replies_in(alloc, session, line.as_str())?;
        let found = show_kept(alloc, session, shown)?;
        if found.as_str() != want.as_str() {
            return Err(Fail::new(format!(in alloc; "{command} | {found}")?));
        }
    }
    Ok(())
}

/// Wants of a new session of a Kconfig what a table has after each command.
fn compare_in(alloc: Global, kconfig: &str, shown: Shown, table: &str) -> Result<(), Fail> {
    in_session(alloc, kconfig, |alloc, session| {
        compare_kept(alloc, session, shown, table)
    })
}

#[test]
fn each_node_is_evaluated_once_until_an_edit_changes_it(rt: HostRuntime) -> Result<(), Fail> {
    for (kconfig, counts) in [
        (TWO, OF_TWO),
        (TWO, OF_ONE_OF_TWO),
        (FOUR, OF_FOUR),
        (CHOICE, OF_CHOICE),
        (OPTIONAL, OF_OPTIONAL),
    ] {
        compare_in(rt.alloc(), kconfig, Shown::Count, counts)?;
    }
    Ok(())
}

/// Symbols that each depend on the one before, after `depends on`, or with the prompt alone, where all nodes are in one
/// chain: a value is then computed from its visibility alone.
fn chain(alloc: Global, count: u32, condition: &str) -> Result<String, Fail> {
    let mut text = String::from_str(alloc, "config S0\n\tbool \"s\"\n")?;
    for number in 1..count {
        let before = number - 1;
        let entry = format!(in alloc; "config S{number}\n\tbool \"s\"{condition}{before}\n")?;
        text.push_str(entry.as_str())?;
    }
    Ok(text)
}

#[test]
fn a_chain_is_evaluated_without_repeats(rt: HostRuntime) -> Result<(), Fail> {
    for condition in ["\n\tdepends on S", " if S"] {
        let kconfig = chain(rt.alloc(), 65_535, condition)?;
        let counts = "show S65534 | 131070\nshow S0 | 131070\n";
        compare_in(rt.alloc(), kconfig.as_str(), Shown::Count, counts)?;
    }
    Ok(())
}

/// Commands, and whether the visibility and the value of A and those of B are kept after each.
const KEPT_OF_TWO: &str = r#"
frob | nnnn
show A | yynn
set A n | ynnn
show B | yyyy
set B y | yyyn
set B y | yyyn
config | yyyy
reset | ynnn
list | yyyy
allno | ynnn
choices | ynnn
defconfig | yyyy
"#;

#[test]
fn an_edit_drops_what_it_can_change_and_nothing_else(rt: HostRuntime) -> Result<(), Fail> {
    compare_in(rt.alloc(), TWO, Shown::Kept, KEPT_OF_TWO)
}

/// Edits of all kinds, and those that are refused in some trees or in all.
const EDITS: &str = r#"
set A n\n | a symbol that others depend on
set B y\n | it may be invisible
set A y\n | and come back
set A y\n | as it is
set D y\n | a member gets visible
set C y\n | and is chosen
set C n\n | refused
unset C\n | not chosen any more
set P y\n | an optional choice goes on
set Q y\n | another member
unset P\n | which is not chosen
unset Q\n | it goes off
set S m\n | it selects
set T n\n | it is selected
set S y\n | and implies
set U n\n | implied otherwise
set S n\n | no more
set LOW 7\n | a bound
set N 9\n | within
set LOW 10\n | past the other bound
set N x\n | refused
unset LOW\n | the default
set S m\n | it selects a module
set T m\n | a module
set MODULES n\n | no modules
set T y\n | no module
set S y\n | nor what selects it
set MODULES y\n | modules again
unset MODULES\n | the default
set N 7\n | past a range
set N 3\n | within
set H 1F\n | within, as spelt
set H 20\n | past a range
unset H\n | the default
load 3\nCONFIG_A=y\nCONFIG_S=m\nCONFIG_N=8\n | a file
load 3\nCONFIG_A=y\nCONFIG_S=m\nCONFIG_N=8\n | the same again
merge 2\nCONFIG_Q=y\nCONFIG_LOW=4\n | more
merge 2\nCONFIG_Q=y\n | refused: too few lines
allno\n | n
allyes\n | y
set A n\n | one
reset\n | none
"#;

/// What is asked after each.
const QUERIES: &str = "list\nchoices\nconfig\nheader\ndefconfig\nnew\nlist\n";

/// The replies to an edit and then to the queries.
fn replies_to(alloc: Global, session: &mut Session, edit: &str) -> Result<(String, String), Fail> {
    let edited = replies_in(alloc, session, edit)?;
    Ok((edited, replies_in(alloc, session, QUERIES)?))
}

/// The same in a new session, after the edits that were accepted.
fn replies_of_new(
    alloc: Global,
    kconfig: &str,
    accepted: &str,
    edit: &str,
) -> Result<(String, String), Fail> {
    in_session(alloc, kconfig, |alloc, session| {
        let _ = replies_in(alloc, session, accepted)?;
        replies_to(alloc, session, edit)
    })
}

/// To each edit and the queries after it the session must reply as a new one does to which the edits that were accepted
/// before were given. The result says how many are.
fn compare_with_new(alloc: Global, kconfig: &str, session: &mut Session) -> Result<usize, Fail> {
    let mut accepted = String::new(alloc);
    let mut count: usize = 0;
    for row in rows(alloc, EDITS)? {
        let (edit, _) = two_fields(alloc, row)?;
        let want = replies_of_new(alloc, kconfig, accepted.as_str(), edit.as_str())?;
        let found = replies_to(alloc, session, edit.as_str())?;
        if found.0 != want.0 || found.1 != want.1 {
            return Err(Fail::new(edit));
        }
        if found.0.ends_with("ok\n") {
            accepted.push_str(edit.as_str())?;
            count = count.saturating_add(1);
        }
    }
    Ok(count)
}

/// How many edits are accepted in a session of a Kconfig, which is compared with new ones.
fn accepted_in(alloc: Global, kconfig: &str) -> Result<usize, Fail> {
    in_session(alloc, kconfig, |alloc, session| {
        compare_with_new(alloc, kconfig, session)
    })
}

#[test]
fn replies_are_those_of_a_session_that_kept_nothing(rt: HostRuntime) -> Result<(), Fail> {
    for (kconfig, accepted) in [
        (TWO, 11),
        (FOUR, 15),
        (CHOICE, 12),
        (OPTIONAL, 10),
        (REVERSE, 24),
        (MODULE, 12),
        (SELECTED, 17),
        (SELECTED_IN_MODULES, 17),
        (NUMBERS, 12),
    ] {
        let count = accepted_in(rt.alloc(), kconfig)?;
        assert_eq!(rt; count, accepted, "in {kconfig}");
    }
    Ok(())
}
