//! What is found in a tree, line by line.

ghost use Rattle.std.specs.Prelude.{◌≡◌, IfOk};
ghost use Rattle.kc_value.specs.Assignment.{assignment_of};
ghost use Rattle.kc_text.specs.LineReferences.{lent_names};
ghost use Rattle.kc_check.specs.TreeReport.{AreOfFacts, IsListedReport, befores};

use crate::earlier_words::EarlierWords;
use crate::finding::Finding;
use crate::finding_places::FindingPlaces;
use crate::forced_words::ForcedWords;
use crate::inputs::CheckInputs;
use crate::said::Said;
use crate::said_findings::said_once;
use crate::said_lines::SaidLines;
use crate::selections::said_of_member;
use crate::undefined_names::said_of_name;
use crate::unset_symbols::{said_of_never_modules, said_of_unset};
use crate::unused_defaults::{said_of_hidden, said_of_unused};
use crate::values::{said_of_default, said_of_range};
use crate::variables::Variables;
use kc_facts::{FoundInTree, FoundLines, TreeFinding, View, findings_by_line};
use kc_line_facts::{EarlierFinding, Extent, ListedName, earlier_findings, list_names};
use kc_lines::{Attribute, LineIndex};
use kc_text::Line;
use std::alloc::{AllocError, Global};

/// What is found in the lines of a tree, and how many names that no line defines are not listed.
#[derive(Drop)]
pub(crate) struct TreeReport {
    pub findings: Vec<Finding>,
    pub unlisted: usize,
}

/// What is found in the lines of a tree, in their order, each finding once. Variables that are missing come before what else
/// is found in their lines.
///
/// # Errors
///
/// `AllocError` where memory is refused.
pub(crate) fn tree_findings(
    alloc: Global,
    view: &View<'_>,
    index: &LineIndex<'_, '_>,
    inputs: &CheckInputs<'_, '_>,
    variables: &Variables<'_>,
    extent: Extent,
) -> Result<TreeReport, AllocError>
    ensures { IfOk result (λ r. IsListedReport index.now view.now.tree (assignment_of view.now.tree view.now.values)
        variables.now.files.items (lent_names inputs.now.given.now) inputs.now.prefix.now extent r.findings.items) }
{
    let tree = view.tree();
    let read = index.lines();
    let files = variables.files();
    let earlier = earlier_findings(alloc, read, tree, files, inputs.given)?;
    let names = list_names(alloc, tree, read, inputs.prefix.as_str(), extent)?;
    let befores = befores_of(alloc, earlier.as_slice())?;
    let lines = FoundLines {
        earlier: befores.as_slice(),
        names: names.lines.as_slice(),
    };
    let facts = findings_by_line(alloc, view, index, lines, extent)?;
    let places = FindingPlaces {
        lines: read,
        files,
        earlier: earlier.as_slice(),
    };
    let unlisted = names.unlisted.len();
    let mut worded = Worded {
        view,
        index,
        earlier: EarlierWords::of(alloc, read)?,
        names: names.names.as_slice(),
        forced: ForcedWords::new(alloc),
        defaults: SaidLines::new(alloc, Attribute::Default),
    };
    let said = findings_of(alloc, &mut worded, places, facts.as_slice())?;
    let findings = said_once(alloc, said)?;
    Ok(TreeReport { findings, unlisted })
}

/// The numbers of the lines that findings come before.
fn befores_of(alloc: Global, earlier: &[EarlierFinding]) -> Result<Vec<usize>, AllocError>
    ensures { IfOk result (λ r. r.items ≡ befores earlier.now) }
{
    let mut befores = Vec::with_capacity(alloc, earlier.len())?;
    for one in earlier {
        befores.push(one.before)?;
    }
    Ok(befores)
}

/// One finding of each fact, in its line.
fn findings_of(
    alloc: Global,
    worded: &mut Worded<'_, '_, '_, '_, '_>,
    places: FindingPlaces<'_, '_, '_, '_, '_>,
    facts: &[FoundInTree],
) -> Result<Vec<Finding>, AllocError>
    ensures { IfOk result (λ r. AreOfFacts places.entry.lines.now places.entry.files.now places.entry.earlier.now facts.now r.items) }
{
    let mut findings = Vec::with_capacity(alloc, facts.len())?;
    for fact in facts {
        let said = worded.said(alloc, places, fact)?;
        let at = places.of(alloc, fact)?;
        findings.push(Finding::said(at, said))?;
    }
    Ok(findings)
}

/// What is needed to put into words what is found in a tree.
#[derive(Drop)]
struct Worded<'w, 's, 'l, 'a, 'n> {
    view: &'w View<'s>,
    index: &'w LineIndex<'l, 'a>,
    earlier: EarlierWords<'l>,
    names: &'n [ListedName],
    forced: ForcedWords,
    /// The lines of defaults.
    defaults: SaidLines,
}

impl Worded<'_, '_, '_, '_, '_> {
    /// What is said of what is found in a line.
    fn said(
        &mut self,
        alloc: Global,
        places: FindingPlaces<'_, '_, '_, '_, '_>,
        found: &FoundInTree,
    ) -> Result<Said, AllocError> {
        if let TreeFinding::Earlier(number) = found.finding {
            return match places.earlier.get(number) {
                Some(earlier) => self.earlier.said(alloc, places.files, earlier),
                None => Said::nothing(alloc),
            };
        }
        match self.index.lines().get(found.line) {
            Some(line) => self.said_of_line(alloc, line, &found.finding),
            None => Said::nothing(alloc),
        }
    }

    /// What is said of a line.
    fn said_of_line(
        &mut self,
        alloc: Global,
        line: &Line<'_>,
        found: &TreeFinding,
    ) -> Result<Said, AllocError> {
        let (view, tree, index) = (self.view, self.view.tree(), self.index);
        match found {
            TreeFinding::Earlier(_) => Said::nothing(alloc),
            TreeFinding::Forced(forced) => self.forced.said(alloc, view, index, forced),
            TreeFinding::Unset(number) => said_of_unset(alloc, tree, *number),
            TreeFinding::FaultyDefault(faulty) => said_of_default(alloc, tree, faulty),
            TreeFinding::NeverModules(number) => said_of_never_modules(alloc, tree, *number),
            TreeFinding::UnusedDefault(unused) => {
                said_of_unused(alloc, tree, index, line, unused, &mut self.defaults)
            }
            TreeFinding::ExchangedRange(range) => said_of_range(alloc, tree, *range),
            TreeFinding::SelectedMember(number) => said_of_member(alloc, tree, line, *number),
            TreeFinding::HiddenDefault => said_of_hidden(alloc, line),
            TreeFinding::Name(number) => match self.names.get(*number) {
                Some(listed) => said_of_name(alloc, tree, index.lines(), listed),
                None => Said::nothing(alloc),
            },
        }
    }
}
