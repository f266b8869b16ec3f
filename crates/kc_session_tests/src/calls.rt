//! The calls of kc_value over a fresh resolver, over one that is written outside kc_value, and over a session: all give
//! the same answers, which are those of worked examples. And the rule of a node by itself.
ghost use Rattle.std.specs.Prelude.{◌≡◌, IsTrue};
ghost use Rattle.kc_tree.specs.declared.node.Node.TheVariants.{Vis, Sel};
ghost use Rattle.kc_tree.specs.Nodes.{IsNodeOf};

use crate::listed::Listed;
use crate::reasons::reason_of_symbol;
use crate::serving::{in_session, replies_in};
use crate::table::{rows, three_fields};
use kc_session::Session;
use kc_tree::{ChoiceId, Node, SymId, Tree, Tri};
use kc_value::{
    Fresh, KeptValues, Known, Meter, NodeValues, Resolver, User, Value, assignable, eval,
    values_of_all, without_user,
};
use std::alloc::Global;
use std::test::Fail;

/// Kconfigs, commands, and what a symbol could be after them: the values that a user can give it with an effect, and the
/// value that it would have without its own user value. Of a choice, the member that would be selected without a chosen
/// one.
const ANSWERS: &str = r#"
config A\nbool "a"\n |  | A can=n,y without=n\n
config A\nbool "a"\ndefault y\nconfig B\nbool "b"\ndepends on A\n | set B y\nset A n\n | A can=n,y without=y\nB can=- without=n\n
config A\nbool "a"\ndefault y\nconfig B\nbool "b"\ndepends on A\n | set B y\nset A n\nunset A\n | A can=n,y without=y\nB can=n,y without=n\n
// What is selected is not assignable while it is invisible.
config X\nbool "x"\nselect Y\nconfig Y\nbool "y"\ndepends on Z\nconfig Z\nbool "z"\n | set X y\n | X can=n,y without=n\nY can=- without=y\nZ can=n,y without=n\n
config MODULES\nbool "modules"\nmodules\ndefault y\nconfig T\ntristate "t"\n | set T m\n | MODULES can=n,y without=y\nT can=n,m,y without=n\n
config MODULES\nbool "modules"\nmodules\ndefault y\nconfig T\ntristate "t"\n | set T m\nset MODULES n\n | MODULES can=n,y without=y\nT can=n,y without=n\n
// A default is not cut by the visibility, and a user value is.
config MODULES\ndef_bool y\nmodules\nconfig S\ntristate "s"\nselect T\nconfig T\ntristate "t" if m\ndefault y\n | set S m\nset T n\n | S can=n,m,y without=n\nT can=m without=y\n
config MODULES\ndef_bool y\nmodules\nconfig T\ntristate "t" if m\ndefault y\n | set T y\n | T can=n,m without=y\n
config N\nint "n"\ndefault 9\nrange 1 5\nconfig H\nhex "h"\ndefault 0x20\nrange 0x0 0x1f\n | set N 3\n | N can=- without=5\nH can=- without=0x1f\n
config S\nstring "s"\ndefault "d"\n | set S x\n | S can=- without=d\n
config D\nbool "d"\nchoice\nprompt "ch"\ndefault B\nconfig A\nbool "a"\nconfig B\nbool "b"\nconfig C\nbool "c" if D\nendchoice\n | set C y\n | D can=n,y without=n\nA can=y without=n\nB can=y without=y\nC can=- without=n\nchoice without=B\n
// A member has no user value of its own: it is selected, or not.
config D\nbool "d"\nchoice\nprompt "ch"\ndefault B\nconfig A\nbool "a"\nconfig B\nbool "b"\nconfig C\nbool "c" if D\nendchoice\n | set C y\nset D y\n | B can=y without=n\nC can=y without=y\nchoice without=B\n
choice\nprompt "c"\noptional\nconfig P\nbool "p"\nconfig Q\nbool "q"\nendchoice\n | set P y\n | P can=y without=y\nQ can=y without=n\nchoice without=-\n
"#;

/// Values as `n,m,y`, and as `-` where there are none.
fn show_values(alloc: Global, values: &[Tri]) -> Result<String, Fail> {
    if values.is_empty() {
        return Ok(String::from_str(alloc, "-")?);
    }
    let mut out = String::new(alloc);
    for value in values {
        if !out.is_empty() {
            out.push_str(",")?;
        }
        out.push_str(value.letter())?;
    }
    Ok(out)
}

/// What a symbol could be.
fn answer_for_symbol<R: Resolver>(
    alloc: Global,
    resolver: &mut R,
    symbol: SymId,
) -> Result<String, Fail>
    requires { IsNodeOf (R.tree_of resolver.old) (Vis symbol) }
{
    let can = assignable(alloc, resolver, symbol)?;
    let can = show_values(alloc, can.as_slice())?;
    let without = without_user(alloc, resolver, Node::Val(symbol))?;
    let without = without.as_text();
    Ok(format!(in alloc; "can={can} without={without}")?)
}

/// Whether a tree has a choice.
fn has_choice(tree: &Tree, choice: ChoiceId) -> bool
    ensures { IsTrue result → IsNodeOf tree.now (Sel choice) }
{
    (choice.0 as usize) < tree.choices().len()
}

/// The name of the member that is selected.
fn member_name<'a>(tree: &'a Tree, value: &Value) -> &'a str {
    match value.as_member() {
        Some(member) => tree.name(member),
        None => "-",
    }
}

/// What the first choice would select.
fn answer_for_choice<R: Resolver>(alloc: Global, resolver: &mut R) -> Result<String, Fail> {
    let choice = ChoiceId(0);
    if !has_choice(resolver.tree(), choice) {
        return Ok(String::from_str(alloc, "without a choice")?);
    }
    let without = without_user(alloc, resolver, Node::Sel(choice))?;
    let without = member_name(resolver.tree(), &without);
    Ok(format!(in alloc; "without={without}")?)
}

/// What is asked of a resolver about a symbol.
#[derive(Clone, Copy)]
pub(crate) enum Question {
    /// What it could be. Where no symbol has the name, the first choice is asked.
    CouldBe,
    /// Why it has its value.
    Why,
}

/// What a resolver answers about the symbol of a name.
fn answer<R: Resolver>(
    alloc: Global,
    resolver: &mut R,
    question: Question,
    name: &str,
) -> Result<String, Fail> {
    let symbol = resolver.tree().find(name);
    match (question, symbol) {
        (Question::CouldBe, Some(symbol)) => answer_for_symbol(alloc, resolver, symbol),
        (Question::CouldBe, None) => answer_for_choice(alloc, resolver),
        (Question::Why, Some(symbol)) => Ok(reason_of_symbol(alloc, resolver, symbol)?),
        (Question::Why, None) => Err(Fail::new(format!(in alloc; "no symbol {name}")?)),
    }
}

/// What a resolver answers about the symbols whose names begin the lines of a text.
fn answers<R: Resolver>(
    alloc: Global,
    resolver: &mut R,
    question: Question,
    lines: &str,
) -> Result<String, Fail> {
    let mut out = String::new(alloc);
    for line in lines.lines() {
        let (name, _) = line.split_once(' ').ok_or("a line without a name")?;
        let answer = answer(alloc, resolver, question, name)?;
        out.push_str(format!(in alloc; "{name} {answer}\n")?.as_str())?;
    }
    Ok(out)
}

/// The same over a fresh resolver, for the tree and the user values of a session.
fn fresh_answers(
    alloc: Global,
    session: &Session,
    question: Question,
    lines: &str,
) -> Result<String, Fail> {
    let mut resolver = Fresh::new(alloc, session.tree(), session.user());
    answers(alloc, &mut resolver, question, lines)
}

/// The same over a list of values.
fn listed_answers(
    alloc: Global,
    session: &mut Session,
    question: Question,
    lines: &str,
) -> Result<String, Fail> {
    let (_, mut meter) = KeptValues::new(alloc, session.tree())?.into_parts();
    session.fill_all()?;
    let mut resolver = Listed::of(alloc, &session.solved(), &mut meter)?;
    answers(alloc, &mut resolver, question, lines)
}

/// Wants these answers after commands, from a fresh resolver, from the session, from what it has kept by then, and from
/// a list of values. And wants the rule of each node to give its value.
fn compare_answers(
    alloc: Global,
    session: &mut Session,
    question: Question,
    commands: &str,
    want: &str,
) -> Result<(), Fail> {
    let _ = replies_in(alloc, session, commands)?;
    let fresh = fresh_answers(alloc, session, question, want)?;
    let first = answers(alloc, session, question, want)?;
    let second = answers(alloc, session, question, want)?;
    let listed = listed_answers(alloc, session, question, want)?;
    let rules = show_rules(alloc, session)?;
    let found = [&fresh, &first, &second, &listed];
    if found.iter().all(|found| found.as_str() == want) && rules.as_str() == "0 true" {
        return Ok(());
    }
    Err(Fail::new(format!(in alloc; "{fresh}, {first}, {second}, {listed}, {rules}")?))
}

/// Wants the answers of a table: each row has a Kconfig, commands, and the answers after them.
pub(crate) fn compare_rows(alloc: Global, question: Question, table: &str) -> Result<(), Fail> {
    for row in rows(alloc, table)? {
        let (kconfig, commands, want) = three_fields(alloc, row)?;
        in_session(alloc, kconfig.as_str(), |alloc, session| {
            compare_answers(alloc, session, question, commands.as_str(), want.as_str())
        })?;
    }
    Ok(())
}

#[test]
fn resolvers_say_what_a_symbol_could_be(rt: HostRuntime) -> Result<(), Fail> {
    compare_rows(rt.alloc(), Question::CouldBe, ANSWERS)
}

/// The value of a node: its text, whether the `.config` has a line for it, and the member that is selected.
fn show_value(alloc: Global, tree: &Tree, value: Option<&Value>) -> Result<String, Fail> {
    let Some(value) = value else {
        return Ok(String::from_str(alloc, "none")?);
    };
    let (text, is_written) = (value.as_text(), value.is_written());
    let member = member_name(tree, value);
    Ok(format!(in alloc; "{text} {is_written} {member}")?)
}

/// The nodes whose rules give other values over these than they have among them.
fn nodes_at_odds(
    alloc: Global,
    known: &Known<'_>,
    user: &User,
    meter: &mut Meter,
) -> Result<usize, Fail> {
    let tree = known.tree();
    let mut count: usize = 0;
    for node in tree.nodes() {
        let given = eval(alloc, known, user, node, meter)?;
        let given = show_value(alloc, tree, Some(&given))?;
        let had = show_value(alloc, tree, known.get(node))?;
        if given.as_str() != had.as_str() {
            count = count.saturating_add(1);
        }
    }
    Ok(count)
}

/// The nodes at odds over all values of a resolver, and how many evaluations were counted.
fn show_rules<R: Resolver>(alloc: Global, resolver: &mut R) -> Result<String, Fail> {
    let values = values_of_all(alloc, resolver)?;
    let (_, mut meter) = KeptValues::new(alloc, resolver.tree())?.into_parts();
    let tree = resolver.tree();
    let known = Known::of_nodes(tree, &values);
    let at_odds = nodes_at_odds(alloc, &known, resolver.user(), &mut meter)?;
    let counted = meter.count() == tree.node_count() as u64;
    Ok(format!(in alloc; "{at_odds} {counted}")?)
}

/// What the rule of R gives where no node has a value, whether the `.config` has a line for it, and the count of rules
/// that were evaluated.
fn show_rule(alloc: Global, tree: &Tree) -> Result<String, Fail> {
    let symbol = tree.find("R").ok_or("no symbol R")?;
    let user = User::empty(alloc, tree)?;
    let none = NodeValues::empty(alloc, 0)?;
    let (_, mut meter) = KeptValues::new(alloc, tree)?.into_parts();
    let known = Known::of_nodes(tree, &none);
    evaluated(alloc, &known, &user, symbol, &mut meter)
}

/// What the rule of a symbol gives over these values, and the count.
fn evaluated(
    alloc: Global,
    known: &Known<'_>,
    user: &User,
    symbol: SymId,
    meter: &mut Meter,
) -> Result<String, Fail> {
    let value = eval(alloc, known, user, Node::Val(symbol), meter)?;
    let (text, is_written, count) = (value.as_text(), value.is_written(), meter.count());
    Ok(format!(in alloc; "{text} {is_written} {count}")?)
}

/// Wants of the rule of R in a Kconfig what it gives where no node has a value.
fn compare_rule(alloc: Global, kconfig: &str, want: &str) -> Result<(), Fail> {
    let found = in_session(alloc, kconfig, |alloc, session| {
        show_rule(alloc, session.tree())
    })?;
    if found.as_str() == want {
        return Ok(());
    }
    Err(Fail::new(format!(in alloc; "{found} at {kconfig:?}")?))
}

#[test]
fn a_rule_takes_n_for_what_has_no_value(rt: HostRuntime) -> Result<(), Fail> {
    compare_rule(rt.alloc(), "config R\ndef_bool y\n", "y true 1")?;
    compare_rule(
        rt.alloc(),
        "config A\ndef_bool y\nconfig R\ndef_bool A\n",
        "n false 1",
    )
}
