//! All that is found in a Kconfig.

ghost use Rattle.std.specs.Prelude.{◌≡◌, ◌&&◌, ◌++◌, IfOk, OnOk, map, not};
ghost use Rattle.kc_text.specs.LineReferences.{lent_names};
ghost use Rattle.kc_value.specs.Assignment.{assignment_of};
ghost use Rattle.kc_check.specs.CheckReport.{IsCheckReport, exchanged_if, has_symbols, is_all, unused_if};
ghost use Rattle.kc_check.specs.UnusedVariables.{about};

use crate::finding::Finding;
use crate::inputs::CheckInputs;
use crate::tree_findings::{TreeReport, tree_findings};
use crate::variables::Variables;
use kc_facts::View;
use kc_line_facts::Extent;
use kc_lines::LineIndex;
use kc_tree::Tree;
use std::alloc::{AllocError, Global};

/// Whether a tree has no symbols.
fn has_no_symbols(tree: &Tree) -> bool
    ensures { result ≡ not (has_symbols tree.now) }
{
    tree.symbols().is_empty()
}

/// Whether definitions of variables are looked for that no line uses: in a tree with symbols, where all names are listed.
fn are_all_sought(tree: &Tree, extent: Extent) -> bool
    ensures { result ≡ (has_symbols tree.now && is_all extent) }
{
    match extent {
        Extent::All => !tree.symbols().is_empty(),
        Extent::Near => false,
    }
}

/// Adds that a Kconfig defines variables, if it is one that defines no symbol.
fn add_exchanged_if(
    alloc: Global,
    variables: &Variables<'_>,
    is: bool,
    found: &mut Vec<Finding>,
) -> Result<(), AllocError>
    ensures { OnOk result (map about found.new.items ≡ map about found.old.items ++ exchanged_if is variables.now.files.items) }
{
    if is {
        return variables.add_exchanged(alloc, found);
    }
    Ok(())
}

/// Adds variables that are defined and used nowhere, if these are looked for.
fn add_unused_if(
    alloc: Global,
    variables: &Variables<'_>,
    is: bool,
    found: &mut Vec<Finding>,
) -> Result<(), AllocError>
    ensures { OnOk result (map about found.new.items ≡ map about found.old.items ++ unused_if is variables.now.files.items) }
{
    if is {
        return variables.add_unused_definitions(alloc, found);
    }
    Ok(())
}

/// What is found in a Kconfig: that it defines no symbol, what is found in its lines, and variables that no line uses.
///
/// # Errors
///
/// `AllocError` where memory is refused.
pub(crate) fn kconfig_findings(
    alloc: Global,
    view: &View<'_>,
    index: &LineIndex<'_, '_>,
    inputs: &CheckInputs<'_, '_>,
    extent: Extent,
) -> Result<TreeReport, AllocError>
    ensures { IfOk result (λ r. IsCheckReport inputs.now.sources.now index.now view.now.tree (assignment_of view.now.tree view.now.values)
        (lent_names inputs.now.given.now) inputs.now.prefix.now extent r.findings.items) }
{
    let variables = Variables::of(alloc, inputs.sources)?;
    let tree = view.tree();
    let mut findings = Vec::new(alloc);
    add_exchanged_if(alloc, &variables, has_no_symbols(tree), &mut findings)?;
    let mut report = tree_findings(alloc, view, index, inputs, &variables, extent)?;
    findings.append(&mut report.findings)?;
    add_unused_if(
        alloc,
        &variables,
        are_all_sought(tree, extent),
        &mut findings,
    )?;
    variables.add_unused(alloc, inputs.given, &mut findings)?;
    Ok(TreeReport {
        findings,
        unlisted: report.unlisted,
    })
}
