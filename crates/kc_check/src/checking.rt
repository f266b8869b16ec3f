//! All that is found in a tree and a `.config`.

ghost use Rattle.std.specs.Prelude.{◌≡◌, IfOk};
ghost use Rattle.kc_text.specs.LineReferences.{lent_names};
ghost use Rattle.kc_value.specs.Assignment.{assignment_of};
ghost use Rattle.kc_check.specs.CheckReport.{IsCheckReport};

use crate::config_findings::config_findings;
use crate::finding::Findings;
use crate::inputs::CheckInputs;
use crate::kconfig_findings::kconfig_findings;
use crate::tree_findings::TreeReport;
use kc_facts::View;
use kc_files::ReadFault;
use kc_line_facts::Extent;
use kc_lines::LineIndex;
use kc_text::Text;
use std::alloc::Global;

/// What is likely a mistake in a tree and a `.config` (this project's own). Of the `.config` these are the lines that
/// can't be used, those that take the place of others, those without effect, and comments that are meant as lines. Of the
/// tree they are, in the order of the lines, variables that nobody gave, where they are used first, names that no line
/// defines, conditions that are always n, selects without effect, defaults and ranges that can't be meant, and symbols
/// that are selected for more than their dependencies are worth; and last variables that no file uses: those that the files
/// define, where all names are listed, and those that are given.
///
/// # Errors
///
/// - `ReadFault::Limit` where the `.config` has more than 16,777,216 bytes.
/// - `ReadFault::NoMemory` where memory was refused.
pub fn check(
    alloc: Global,
    view: &View<'_>,
    index: &LineIndex<'_, '_>,
    inputs: &CheckInputs<'_, '_>,
    extent: Extent,
) -> Result<Findings, ReadFault>
    ensures { IfOk result (λ f. IsCheckReport inputs.now.sources.now index.now view.now.tree (assignment_of view.now.tree view.now.values)
        (lent_names inputs.now.given.now) inputs.now.prefix.now extent f.of_tree.items) }
{
    let mut path = None;
    let mut of_config = Vec::new(alloc);
    if let Some(config) = inputs.config {
        path = Some(Text::copy_of(alloc, config.path)?);
        config_findings(alloc, view, index, inputs, config, &mut of_config)?;
    }
    let TreeReport { findings, unlisted } = kconfig_findings(alloc, view, index, inputs, extent)?;
    Ok(Findings {
        config: path,
        of_config,
        of_tree: findings,
        unlisted,
    })
}
