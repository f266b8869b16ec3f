//! Why symbols have their values, over a fresh resolver and over a session: the branches of docs/VALUES.md,
//! "Reasons", one or more rows for each. And the factors of a condition, in the order of its "Conditions".
ghost use Rattle.kc_tree.specs.declared.node.Node.TheVariants.{Val};
ghost use Rattle.kc_tree.specs.Nodes.{IsNodeOf};

use crate::calls::{Question, compare_rows};
use crate::serving::in_session;
use kc_session::Session;
use kc_tree::{SymId, Tree};
use kc_value::{
    DefaultPlace, Factor, Origin, RangePlace, Reason, Resolver, prompt_factors, reason_of,
};
use std::alloc::{AllocError, Global};
use std::test::Fail;

/// Kconfigs, commands, and the reasons after them: places are the number of the definition and the place there, and what
/// selects or implies is by its place.
const REASONS: &str = r#"
config A\nbool "a"\n | set A y\n | A the user value\n
config A\nbool "a"\ndefault y\n | set A n\n | A the user value\n
config A\nbool "a"\ndefault y\nconfig B\nbool\nselect A\n | set A n\n | A the user value\n
config MODULES\ndef_bool y\nmodules\nconfig M\ndef_tristate m\nconfig A\ntristate "a" if M\n | set A y\n | A the user value within\nM default 1.0\n
config A\ntristate "a"\n | set A m\n | A the user value within\n
config A\nint "a"\nrange 12 25\ndefault 17\n | set A 40\n | A outside 0.0 default 0.0\n
config A\nint "a"\nrange 12 25\n | set A 40\n | A outside 0.0 no default\n
config N\nbool "n"\nconfig A\nint "a"\nrange 1 50 if N\nrange 12 25\ndefault 3 if N\ndefault 17\n | set A 40\n | A outside 1.1 default 1.1\n
config N\nbool "n"\nconfig A\nint "a"\nrange 1 50 if N\nrange 12 25\n | set A 40\nset N y\n | A the user value\n
config N\nbool "n"\nconfig A\nbool\ndefault n if N\ndefault y\n |  | A default 1.1\n
config N\nbool "n"\nconfig A\nbool\ndefault n if N\ndefault y\n | set N y\n | A default 1.0\n
config A\nint\nrange 12 25\ndefault 40\n |  | A bound 0.0 default 0.0\n
config A\nint\nrange 12 25\n |  | A bound 0.0 no default\n
config A\nint\nrange 12 25\ndefault 20\n |  | A default 0.0\n
config Y\ndef_bool y\nimply A\nconfig A\nbool\n |  | A implied 0\n
config Y\ndef_bool y\nimply A\nconfig A\nbool\ndefault y\n |  | A default 1.0\n
config Y\ndef_bool y\nimply A\nconfig N\nbool\nconfig A\nbool\ndepends on N\n |  | A no dependencies\n
// A select of value n is never a reason.
config N\nbool\nselect A\nconfig Y\ndef_bool y\nselect A\nconfig A\nbool\ndefault n\n |  | A selected 1\n
config N\nbool\nselect A\nconfig A\nbool\n |  | A nothing\n
config Y\ndef_bool y\nselect A\nconfig A\nbool "a"\n | set A y\n | A the user value\n
config Y\ndef_bool y\nselect A\nconfig A\nbool "a"\n | set A n\n | A selected 0\n
config Y\ndef_bool y\nselect A\nconfig A\nbool\ndefault y\n |  | A default 1.0\n
choice\nprompt "c"\nconfig A\nbool "a"\nconfig X\nbool "x"\nendchoice\n |  | A chosen\nX A is chosen\n
choice\nprompt "c"\nconfig A\nbool "a"\nconfig X\nbool "x"\nendchoice\n | set X y\n | A X is chosen\nX chosen\n
config N\nbool\nchoice\nprompt "c"\nconfig A\nbool "a" if N\nendchoice\n |  | A none is chosen\n
config N\nbool\nconfig A\nbool\ndefault y\ndepends on N\n |  | A no dependencies\n
config A\nbool "a"\n |  | A nothing\n
config A\nstring "a"\n |  | A nothing\n
config N\nbool\nconfig A\nbool "a" if N\ndefault y\n | set A n\n | A default 1.0\n
"#;

/// Where a default is, if there is one.
fn default_words(alloc: Global, place: Option<DefaultPlace>) -> Result<String, AllocError> {
    match place {
        Some(place) => format!(in alloc; "default {}.{}", place.definition, place.default),
        None => String::from_str(alloc, "no default"),
    }
}

/// Where a range is, and the default that counts with it.
fn range_words(
    alloc: Global,
    word: &str,
    range: RangePlace,
    default: Option<DefaultPlace>,
) -> Result<String, AllocError> {
    let default = default_words(alloc, default)?;
    format!(in alloc; "{word} {}.{} {default}", range.definition, range.range)
}

/// A reason in words.
fn reason_words(alloc: Global, tree: &Tree, reason: Reason) -> Result<String, AllocError> {
    match reason {
        Reason::User => String::from_str(alloc, "the user value"),
        Reason::UserWithin => String::from_str(alloc, "the user value within"),
        Reason::OutsideRange { range, default } => range_words(alloc, "outside", range, default),
        Reason::Default(place) => default_words(alloc, Some(place)),
        Reason::Bound { range, default } => range_words(alloc, "bound", range, default),
        Reason::Implied(place) => format!(in alloc; "implied {place}"),
        Reason::Selected(place) => format!(in alloc; "selected {place}"),
        Reason::Chosen => String::from_str(alloc, "chosen"),
        Reason::OtherChosen(member) => {
            let name = tree.name(member);
            format!(in alloc; "{name} is chosen")
        }
        Reason::NoneChosen => String::from_str(alloc, "none is chosen"),
        Reason::NoDependencies => String::from_str(alloc, "no dependencies"),
        Reason::Nothing => String::from_str(alloc, "nothing"),
    }
}

/// Why a symbol has its value.
pub(crate) fn reason_of_symbol<R: Resolver>(
    alloc: Global,
    resolver: &mut R,
    symbol: SymId,
) -> Result<String, AllocError>
    requires { IsNodeOf (R.tree_of resolver.old) (Val symbol) }
{
    let reason = reason_of(alloc, resolver, symbol)?;
    reason_words(alloc, resolver.tree(), reason)
}

#[test]
fn reasons_are_the_branches_of_the_rule(rt: HostRuntime) -> Result<(), Fail> {
    compare_rows(rt.alloc(), Question::Why, REASONS)
}

/// The example of docs/VALUES.md, "Conditions", with the symbols that it names: SHOW and PCI are y, and no other.
const CONDITION: &str = r#"
config SHOW
    def_bool y
config PCI
    def_bool y
if PCI
menu "Network"
    depends on BUS
    visible if EXPERT
config NET
    bool "Network" if SHOW
    depends on USB
endmenu
endif
"#;

/// A factor in words: where it is, and its value.
fn factor_words(alloc: Global, factor: Factor<'_>) -> Result<String, AllocError> {
    let value = factor.value.letter();
    match factor.origin {
        Origin::Own(place) => format!(in alloc; "own {place} {value}\n"),
        Origin::Condition => format!(in alloc; "if {value}\n"),
        Origin::Block(block, place) => format!(in alloc; "block {} {place} {value}\n", block.0),
        Origin::Visible(block, place) => format!(in alloc; "visible {} {place} {value}\n", block.0),
        Origin::Mode => format!(in alloc; "mode {value}\n"),
        Origin::Missing => format!(in alloc; "missing {value}\n"),
    }
}

/// The factors of the prompt of the third definition, a line each.
fn prompt_words(alloc: Global, session: &mut Session) -> Result<String, Fail> {
    session.fill_all()?;
    let solved = session.solved();
    let mut out = String::new(alloc);
    for factor in prompt_factors(alloc, solved.known(), 2)?.as_slice() {
        out.push_str(factor_words(alloc, *factor)?.as_str())?;
    }
    Ok(out)
}

#[test]
fn factors_are_in_the_order_of_the_table(rt: HostRuntime) -> Result<(), Fail> {
    let alloc = rt.alloc();
    let said = in_session(
        alloc,
        CONDITION,
        |alloc, session| prompt_words(alloc, session),
    )?;
    if said.as_str() == "if y\nown 0 n\nblock 1 0 n\nblock 0 0 y\nvisible 1 0 n\n" {
        return Ok(());
    }
    Err(Fail::new(said))
}
