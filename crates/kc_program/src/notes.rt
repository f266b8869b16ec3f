//! What is written of an explanation: its words, and below these a line for each that it names.

use crate::files::Files;
use kc_explain::{Explanation, Place, Remark};
use kc_lines::shown_line;
use memchr::memchr_iter;
use std::alloc::{AllocError, Global};
use std::collections::BTreeMap;

/// An explanation as it is written.
#[derive(Drop)]
pub struct Note {
    /// What is written after the number and `: `.
    pub words: String,
    /// The lines below, each with its line end.
    pub lines: String,
}

impl Note {
    /// Words alone.
    pub fn of_words(alloc: Global, words: String) -> Note {
        Note {
            words,
            lines: String::new(alloc),
        }
    }

    /// What is written of an explanation. The lines that it names are shown as they are in the files; of a file that was
    /// not read the place alone is shown. Line ends are sought once in each file, however many lines of it are named.
    ///
    /// # Errors
    ///
    /// `AllocError` where memory is refused.
    pub fn of(
        alloc: Global,
        explanation: &Explanation,
        files: &Files<'_>,
    ) -> Result<Note, AllocError> {
        let mut texts = BTreeMap::new(alloc);
        let mut lines = String::new(alloc);
        for remark in explanation.remarks.as_slice() {
            let path = remark.place.path.as_str();
            if !texts.contains_key(path) {
                let text = LineTexts::of(alloc, files.text(path).unwrap_or(""))?;
                texts.insert(String::from_str(alloc, path)?, text)?;
            }
            push_remark(&mut lines, remark, shown_in(&texts, &remark.place))?;
        }
        Ok(Note {
            words: String::from_str(alloc, explanation.words.as_str())?,
            lines,
        })
    }
}

/// Adds the line of a remark: its words, the place, and the line that it names.
fn push_remark(lines: &mut String, remark: &Remark, shown: &str) -> Result<(), AllocError> {
    let words = remark.words.as_str();
    let path = remark.place.path.as_str();
    let number = remark.place.line;
    write!(lines, "  {words}{path}:{number}:")?;
    if !shown.is_empty() {
        write!(lines, " {shown}")?;
    }
    lines.push('\n')
}

/// How the line of a place is shown, which is empty where it can't be read.
fn shown_in<'t>(texts: &'t BTreeMap<String, LineTexts<'_>>, place: &Place) -> &'t str {
    match texts.get(place.path.as_str()) {
        Some(text) => shown_line(text.line(place.line)),
        None => "",
    }
}

/// The lines of a text, to be taken by their numbers.
#[derive(Drop)]
struct LineTexts<'a> {
    text: &'a str,
    /// Where the line ends are.
    ends: Vec<usize>,
}

impl<'a> LineTexts<'a> {
    /// The lines of a text.
    fn of(alloc: Global, text: &'a str) -> Result<LineTexts<'a>, AllocError> {
        let mut ends = Vec::new(alloc);
        for end in memchr_iter(b'\n', text.as_bytes()) {
            ends.push(end)?;
        }
        Ok(LineTexts { text, ends })
    }

    /// The line of a number, counted from 1, which is empty where the text has no such line.
    fn line(&self, number: usize) -> &'a str {
        let text = self.text;
        let start = match number {
            0 | 1 => 0,
            _ => match self.ends.get(number - 2) {
                Some(end) => end.saturating_add(1),
                None => return "",
            },
        };
        let end = self.ends.get(number.saturating_sub(1));
        text.get(start..end.copied().unwrap_or(text.len()))
            .unwrap_or("")
    }
}
