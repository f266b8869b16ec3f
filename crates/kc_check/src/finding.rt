//! What is found, as lines of a report.

ghost use Rattle.std.specs.Prelude.{◌≡◌, ◌++◌, IfOk, None, OnOk, Some};
ghost use Rattle.std.specs.String.{string_bytes};
ghost use Rattle.kc_check.specs.ReportLines.{at_text, line_text, lines_text, name_text};

use crate::said::Said;
use kc_text::Text;
use std::alloc::{AllocError, Global};

/// A line of a file, by its path and its number.
#[derive(Debug, Drop)]
pub struct FoundAt {
    /// The path of the file, verbatim.
    pub path: Text,
    /// The number of the line, counted from 1.
    pub line: usize,
}

impl FoundAt {
    /// The line of a number in the file of a path.
    ///
    /// # Errors
    ///
    /// `AllocError` where memory is refused.
    pub fn new(alloc: Global, path: &str, line: usize) -> Result<FoundAt, AllocError>
        ensures { IfOk result (λ at. at ≡ record { path = path.now; line = line }) }
    {
        Ok(FoundAt {
            path: Text::copy_of(alloc, path)?,
            line,
        })
    }
}

impl FoundAt {
    /// Adds it: `PATH:LINE: `.
    fn push_to(&self, text: &mut String) -> Result<(), AllocError>
        ensures { OnOk result (string_bytes text.new ≡ string_bytes text.old ++ at_text self.now) }
    {
        let path = self.path.as_str();
        let line = self.line;
        write!(text, "{path}:{line}: ")
    }
}

/// Adds a name, if it is not empty: `NAME: `.
fn push_name(text: &mut String, name: &str) -> Result<(), AllocError>
    ensures { OnOk result (string_bytes text.new ≡ string_bytes text.old ++ name_text name.now) }
{
    if name != "" {
        text.push_str(name)?;
        text.push_str(": ")?;
    }
    Ok(())
}

/// Something that is likely a mistake: where it is, the name that it is about, and what is wrong (this project's own).
#[derive(Debug, Drop)]
pub struct Finding {
    /// The line, none for what is found in no line.
    pub at: Option<FoundAt>,
    /// The name of a symbol or of a variable, empty where a line has none.
    pub name: Text,
    pub words: String,
}

impl Finding {
    /// Words about a name in the line of a number in the file of a path.
    ///
    /// # Errors
    ///
    /// `AllocError` where memory is refused.
    pub(crate) fn in_line(
        alloc: Global,
        path: &str,
        line: usize,
        name: &str,
        words: String,
    ) -> Result<Finding, AllocError>
        ensures place { IfOk result (λ f. f.at ≡ Some (record { path = path.now; line = line })) }
        ensures name { IfOk result (λ f. f.name ≡ name.now) }
    {
        Ok(Finding {
            at: Some(FoundAt::new(alloc, path, line)?),
            name: Text::copy_of(alloc, name)?,
            words,
        })
    }

    /// Words about a name that is in no line.
    ///
    /// # Errors
    ///
    /// `AllocError` where memory is refused.
    pub(crate) fn of_name(alloc: Global, name: &str, words: String) -> Result<Finding, AllocError>
        ensures place { IfOk result (λ f. f.at ≡ None) }
        ensures name { IfOk result (λ f. f.name ≡ name.now) }
    {
        Ok(Finding {
            at: None,
            name: Text::copy_of(alloc, name)?,
            words,
        })
    }

    /// What is said, in a line or in none.
    pub(crate) fn said(at: Option<FoundAt>, said: Said) -> Finding
        ensures { result.at ≡ at }
    {
        let Said { name, words } = said;
        Finding { at, name, words }
    }

    /// What it says.
    pub(crate) fn into_said(self) -> Said {
        let Finding {
            at: _at,
            name,
            words,
        } = self;
        Said { name, words }
    }

    /// Adds it as a line `PATH:LINE: NAME: WORDS`, without what it does not have.
    ///
    /// # Errors
    ///
    /// `AllocError` where memory is refused.
    pub fn push_line(&self, text: &mut String) -> Result<(), AllocError>
        ensures { OnOk result (string_bytes text.new ≡ string_bytes text.old ++ line_text self.now) }
    {
        if let Some(at) = &self.at {
            at.push_to(text)?;
        }
        push_name(text, self.name.as_str())?;
        text.push_str(self.words.as_str())?;
        text.push_str("\n")
    }
}

/// Which findings are judged.
#[derive(Clone, Copy, Debug, PartialEq, Eq)]
pub enum Judged {
    /// Those of the `.config`; without one, all.
    Config,
    /// All.
    All,
}

/// What is found in a tree and a `.config`, and how many names are defined nowhere and not listed.
#[derive(Debug, Drop)]
pub struct Findings {
    /// The path of the `.config`, if one was checked.
    pub config: Option<Text>,
    /// What is found in the `.config`, in the order of its lines.
    pub of_config: Vec<Finding>,
    /// What is found in the tree, in the order in which its lines are read, and then in what was given.
    pub of_tree: Vec<Finding>,
    /// How many names that are defined nowhere are in no finding.
    pub unlisted: usize,
}

impl Findings {
    /// The lines of the findings, those of the `.config` first, and a last line with their count.
    ///
    /// # Errors
    ///
    /// `AllocError` where memory is refused.
    pub fn to_text(&self, alloc: Global) -> Result<String, AllocError> {
        let mut text = String::new(alloc);
        push_lines(&mut text, self.of_config.as_slice())?;
        push_lines(&mut text, self.of_tree.as_slice())?;
        self.push_counts(&mut text)?;
        push_unlisted(&mut text, self.unlisted)?;
        text.push('\n')?;
        Ok(text)
    }

    /// Whether there is a finding among those that are judged.
    pub fn has_any(&self, judged: Judged) -> bool {
        let is_config_alone = judged == Judged::Config && self.config.is_some();
        !self.of_config.is_empty() || !is_config_alone && !self.of_tree.is_empty()
    }

    /// Adds how many findings there are, with a `.config` of each of the two.
    fn push_counts(&self, text: &mut String) -> Result<(), AllocError> {
        let in_tree = self.of_tree.len();
        match &self.config {
            Some(path) if self.has_any(Judged::All) => {
                push_count(text, self.of_config.len())?;
                text.push_str(" in ")?;
                text.push_str(path.as_str())?;
                match in_tree {
                    0 => text.push_str(", none in the tree"),
                    _ => write!(text, ", {in_tree} in the tree"),
                }
            }
            _ => push_count(text, in_tree),
        }
    }
}

/// Adds the lines of findings.
fn push_lines(text: &mut String, findings: &[Finding]) -> Result<(), AllocError>
    ensures { OnOk result (string_bytes text.new ≡ string_bytes text.old ++ lines_text findings.now) }
{
    for finding in findings {
        finding.push_line(text)?;
    }
    Ok(())
}

/// Adds a number of findings.
fn push_count(text: &mut String, findings: usize) -> Result<(), AllocError> {
    match findings {
        0 => text.push_str("no findings"),
        1 => text.push_str("1 finding"),
        _ => write!(text, "{findings} findings"),
    }
}

/// Adds how many names that are defined nowhere are not among the findings.
fn push_unlisted(text: &mut String, unlisted: usize) -> Result<(), AllocError> {
    match unlisted {
        0 => Ok(()),
        1 => text.push_str(", 1 undefined name (--undefined lists it)"),
        _ => write!(
            text,
            ", {unlisted} undefined names (--undefined lists them)"
        ),
    }
}
