//! A `.config` line by line: what each says, with its number, and what becomes of it.

ghost use Rattle.std.specs.Prelude.{◌≡◌, ◌≤◌, ◌<◌, ◌↔◌, ◌++◌, List, [], All, Err, IfOk, OnOk, filter_map, length};
ghost use Rattle.kc_files.specs.ConfigReading.{counting, warnings_from};
ghost use Rattle.kc_files.specs.Effects.{IsSaidInside};
ghost use Rattle.kc_files.specs.Fates.{counting_at, fate_at, fate_by, fate_said, new_lines, with_line, with_reading, with_repeat, with_warned, AreLast};
ghost use Rattle.kc_files.specs.LineSteps.{readings_in, IsInside};
ghost use Rattle.kc_files.specs.NumberedLines.{assign_of, config_lines_in, lines_from, AreLinesOf, IsLineFor, IsUnfedLine};
ghost use Rattle.kc_files.specs.OneReading.{assigns_in, warnings_in};
ghost use Rattle.kc_files.specs.declared.numbered_lines.LineSays.TheVariants as LineSays;

use crate::assign::Assign;
use crate::config_lines::first_line;
use crate::config_reading::{MOST_BYTES, ReadFault};
use crate::line_reading::{Reading, read_line};
use crate::prefix::Prefix;
use crate::warning::{Warning, WarningKind};
use kc_tree::{SymId, Tree};
use std::alloc::{AllocError, Global};
use std::marker::Model;

/// What a line of a `.config` says.
#[derive(Debug, Drop)]
pub enum LineSays {
    /// It gives a symbol of the tree a value of its type.
    Usable(Assign),
    /// It says nothing that can be used: one of the first four warnings.
    Warned(WarningKind),
}

/// A line of a `.config` that says something, by its number from 1.
#[derive(Debug, Drop)]
pub struct ConfigLine {
    pub number: usize,
    pub says: LineSays,
}

/// What becomes of a line of a `.config` among the lines of its text, whatever the values are.
#[derive(Clone, Copy, Debug, PartialEq, Eq)]
pub enum Fate {
    /// It counts: it is the last usable line of its symbol.
    Counts,
    /// The last usable line of its symbol takes its place, which has this index among the lines that say something.
    Replaced(usize),
    /// It says nothing that can be used.
    Unusable,
}

/// The lines of a `.config` that say something, and its warnings. Contracts see the record of them.
#[derive(Drop)]
pub struct ConfigLines {
    lines: Vec<ConfigLine>,
    warnings: Vec<Warning>,
    /// The index of the last usable line of a symbol, by the symbol's number.
    last: Vec<Option<usize>>,
}

impl Model for ConfigLines {
    ghost use Rattle.std.specs.Prelude.{length};
    ghost use Rattle.kc_files.specs.Fates.{AreLast, ReadLines};

    ghost Value = { ReadLines };

    ghost view = { λ c. record { symbols = length c.last.items; lines = c.lines.items; warnings = c.warnings.items } };

    ghost invariant = { λ c. AreLast c.last.items c.lines.items };
}

/// What becomes of a usable line of this index, by the last one of its symbol.
fn fate_by(index: usize, last: Option<usize>) -> Fate
    ensures { result ≡ fate_by index last }
{
    match last {
        Some(by) if by != index => Fate::Replaced(by),
        Some(_) | None => Fate::Counts,
    }
}

/// What becomes of the line of this index, by what it says.
fn fate_said(last: &[Option<usize>], index: usize, says: &LineSays) -> Fate
    requires { IsSaidInside (length last.now) says.now }
    ensures { result ≡ fate_said last.now index says.now }
{
    match says {
        LineSays::Usable(assign) => fate_by(index, last[assign.symbol.0 as usize]),
        LineSays::Warned(_) => Fate::Unusable,
    }
}

/// Appends the assignment of a line of this index, where it counts.
fn keep_counting(
    kept: &mut Vec<Assign>,
    last: &[Option<usize>],
    index: usize,
    says: LineSays,
) -> Result<(), AllocError>
    requires { IsSaidInside (length last.now) says }
    ensures { OnOk result (kept.new.items ≡ kept.old.items ++ counting_at last.now index says) }
{
    match says {
        LineSays::Usable(assign) => {
            let last = last[assign.symbol.0 as usize];
            if matches!(fate_by(index, last), Fate::Counts) {
                kept.push(assign)?;
            }
            Ok(())
        }
        LineSays::Warned(_) => Ok(()),
    }
}

/// The assignments of the lines that count, in their order, by the last usable line of each symbol.
///
/// The error comes where memory is refused.
fn counting_of(
    alloc: Global,
    lines: Vec<ConfigLine>,
    last: &[Option<usize>],
) -> Result<Vec<Assign>, AllocError>
    requires { AreLast last.now lines.items }
    ensures { IfOk result (λ kept. kept.items ≡ counting (filter_map assign_of lines.items)) }
{
    // That a list is not too long for an index is a clause of this call.
    let _ = lines.len();
    let mut kept = Vec::new(alloc);
    let mut index = 0;
    for line in lines {
        keep_counting(&mut kept, last, index, line.says)?;
        index += 1;
    }
    Ok(kept)
}

impl ConfigLines {
    /// Before the first line, over so many symbols.
    fn new(alloc: Global, symbols: usize) -> Result<ConfigLines, AllocError>
        ensures { IfOk result (λ c. c ≡ new_lines symbols) }
    {
        Ok(ConfigLines {
            lines: Vec::new(alloc),
            warnings: Vec::new(alloc),
            last: vec![in alloc; None; symbols]?,
        })
    }

    /// Takes what the line of this number gives.
    fn take(&mut self, number: usize, reading: Reading) -> Result<(), AllocError>
        requires { IsInside self.old.symbols reading }
        ensures { OnOk result (self.new ≡ with_reading self.old number reading) }
    {
        match reading {
            Reading::Usable(assign) => {
                self.warn_of_repeat(number, assign.symbol)?;
                self.keep(number, assign)
            }
            Reading::Warned(kind) => self.warn(number, kind),
            Reading::Nothing => Ok(()),
        }
    }

    /// Warns of a symbol that has a usable line before.
    #[tactic(auto, using(crate::proofs::FateLaws::has_last))]
    fn warn_of_repeat(&mut self, number: usize, symbol: SymId) -> Result<(), AllocError>
        requires { symbol.0 < self.old.symbols }
        ensures { OnOk result (self.new ≡ with_repeat self.old number symbol) }
    {
        if self.last[symbol.0 as usize].is_some() {
            self.warnings.push(Warning {
                line: number,
                kind: WarningKind::Repeated,
            })?;
        }
        Ok(())
    }

    /// Keeps a usable line, which is the last one of its symbol so far.
    fn keep(&mut self, number: usize, assign: Assign) -> Result<(), AllocError>
        requires { assign.symbol.0 < self.old.symbols }
        ensures { OnOk result (self.new ≡ with_line self.old number (LineSays.Usable assign)) }
    {
        let symbol = assign.symbol.0 as usize;
        let index = self.lines.len();
        let says = LineSays::Usable(assign);
        self.lines.push(ConfigLine { number, says })?;
        self.last[symbol] = Some(index);
        Ok(())
    }

    /// Keeps a line that can't be used, with its warning.
    fn warn(&mut self, number: usize, kind: WarningKind) -> Result<(), AllocError>
        ensures { OnOk result (self.new ≡ with_warned self.old number kind) }
    {
        let says = LineSays::Warned(kind);
        self.warnings.push(Warning { line: number, kind })?;
        self.lines.push(ConfigLine { number, says })?;
        Ok(())
    }

    /// The lines, in their order.
    pub fn lines(&self) -> &[ConfigLine]
        ensures { result.now ≡ self.now.lines }
    {
        self.lines.as_slice()
    }

    /// What becomes of the line of this index, if there is one: a usable line counts where no later one names its symbol.
    #[tactic(auto, using(crate::proofs::FateLaws::fate_here, crate::proofs::FateLaws::inside_here))]
    pub fn fate(&self, index: usize) -> Option<Fate>
        ensures { result ≡ fate_at self.now.lines index }
    {
        let line = self.lines.get(index)?;
        Some(fate_said(self.last.as_slice(), index, &line.says))
    }

    /// The lines, in their order.
    pub fn into_lines(self) -> Vec<ConfigLine>
        ensures { result.items ≡ self.lines }
    {
        self.lines
    }

    /// The assignments of the lines that count, and the warnings, each in the order of the lines.
    ///
    /// The error comes where memory is refused.
    pub(crate) fn into_reading(
        self,
        alloc: Global,
    ) -> Result<(Vec<Assign>, Vec<Warning>), AllocError>
        ensures assigns { IfOk result (λ r. r.0.items ≡ counting (filter_map assign_of self.lines)) }
        ensures warnings { IfOk result (λ r. r.1.items ≡ self.warnings) }
    {
        let ConfigLines {
            lines,
            warnings,
            last,
        } = self;
        let assigns = counting_of(alloc, lines, last.as_slice())?;
        Ok((assigns, warnings))
    }
}

/// The symbol that the line after one with this reading is likely to name: the next one. Lines mostly are in the order of
/// the tree. Where the line names none, it is as likely as before.
fn likely_after(reading: &Reading, likely: SymId) -> SymId {
    match reading {
        Reading::Usable(assign) => SymId(assign.symbol.0.saturating_add(1)),
        Reading::Warned(_) | Reading::Nothing => likely,
    }
}

/// Goes over the lines of a text.
///
/// The error comes where memory is refused.
#[tactic(auto, using(crate::proofs::NumberedLaws::read_begins, crate::proofs::NumberedLaws::lines_end, crate::proofs::NumberedLaws::warnings_end))]
fn read_all(
    alloc: Global,
    tree: &Tree,
    prefix: &str,
    bytes: &[u8],
) -> Result<ConfigLines, AllocError>
    requires size { length bytes.now ≤ 16777216 }
    ensures lines { IfOk result (λ c. c.lines ≡ lines_from 1 (readings_in tree.now prefix.now bytes.now)) }
    ensures warnings { IfOk result (λ c. c.warnings ≡ warnings_from [] 1 (readings_in tree.now prefix.now bytes.now)) }
    ensures fitting { IfOk result (λ c. All (IsLineFor tree.now) c.lines) }
{
    let mut read = ConfigLines::new(alloc, tree.symbols().len())?;
    let mut rest = bytes;
    let mut number = 0;
    let mut likely = SymId(0);
    while !rest.is_empty() {
        let (line, behind) = first_line(rest);
        number += 1;
        let reading = read_line(alloc, tree, prefix, line, likely)?;
        likely = likely_after(&reading, likely);
        read.take(number, reading)?;
        rest = behind;
    }
    Ok(read)
}

/// Reads a `.config` line by line (docs/FILES.md): the lines that say something, in their order, each with its number
/// from 1 and what becomes of it, and the warnings.
///
/// # Errors
///
/// - `ReadFault::Limit` where the text has more than 16,777,216 bytes, before anything else.
/// - `ReadFault::NoMemory` where memory was refused.
#[tactic(auto, using(crate::proofs::NumberedLaws::lines_are, crate::proofs::NumberedLaws::warnings_are))]
pub fn read_lines(
    alloc: Global,
    tree: &Tree,
    prefix: &Prefix,
    bytes: &[u8],
) -> Result<ConfigLines, ReadFault>
    ensures lines { IfOk result (λ c. c.lines ≡ config_lines_in tree.now prefix.now bytes.now) }
    ensures warnings { IfOk result (λ c. c.warnings ≡ warnings_in tree.now prefix.now bytes.now) }
    ensures fitting { IfOk result (λ c. All (IsLineFor tree.now) c.lines) }
    ensures limit { (result ≡ Err ReadFault.Limit) ↔ (16777216 < length bytes.now) }
{
    if bytes.len() > MOST_BYTES {
        return Err(ReadFault::Limit);
    }
    let lines = read_all(alloc, tree, prefix.as_str(), bytes)?;
    Ok(lines)
}

/// Reads a `.config` line by line (docs/FILES.md): the lines that say something, in their order, each with its number
/// from 1. A line that gives a symbol of the tree a value of its type is usable, and all usable lines of a symbol are
/// there: those that count of them, whose symbol no later one names, are what [`read_config`](crate::read_config) gives.
/// No value that is read has a line feed.
///
/// # Errors
///
/// - `ReadFault::Limit` where the text has more than 16,777,216 bytes, before anything else.
/// - `ReadFault::NoMemory` where memory was refused.
#[tactic(auto, using(crate::proofs::NumberedLaws::text_lines, crate::proofs::NumberedLaws::text_counted, crate::proofs::NumberedLaws::text_lines_unfed))]
pub fn read_config_lines(
    alloc: Global,
    tree: &Tree,
    prefix: &Prefix,
    bytes: &[u8],
) -> Result<Vec<ConfigLine>, ReadFault>
    ensures reading { IfOk result (λ r. AreLinesOf tree.now prefix.now bytes.now r.items) }
    ensures only { IfOk result (λ r. (lines : List ConfigLine) → AreLinesOf tree.now prefix.now bytes.now lines → lines ≡ r.items) }
    ensures lines { IfOk result (λ r. r.items ≡ config_lines_in tree.now prefix.now bytes.now) }
    ensures counted { IfOk result (λ r. counting (filter_map assign_of r.items) ≡ assigns_in tree.now prefix.now bytes.now) }
    ensures fitting { IfOk result (λ r. All (IsLineFor tree.now) r.items) }
    ensures unfed { IfOk result (λ r. All IsUnfedLine r.items) }
    ensures limit { (result ≡ Err ReadFault.Limit) ↔ (16777216 < length bytes.now) }
{
    // That a text has one reading is a clause of this call.
    let _ = prefix.as_str();
    let lines = read_lines(alloc, tree, prefix, bytes)?;
    Ok(lines.into_lines())
}
