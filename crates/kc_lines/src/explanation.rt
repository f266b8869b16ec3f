//! What is said of a fault or a warning.

ghost use Rattle.std.specs.Prelude.{◌≡◌, [], IfOk};

use kc_text::Text;
use std::alloc::{AllocError, Global};

/// A line of a file, by its path and its number.
#[derive(Debug, Drop)]
pub struct Place {
    /// The path of the file, verbatim.
    pub path: Text,
    /// The number of the line, counted from 1.
    pub line: usize,
}

/// A line that a message names, and the words before it, which may be none.
#[derive(Debug, Drop)]
pub struct Remark {
    /// The words before the place, as `A is visible by `.
    pub words: String,
    pub place: Place,
}

/// What a message says after its number, and the lines that it names, in order.
#[derive(Debug, Drop)]
pub struct Explanation {
    pub words: String,
    pub remarks: Vec<Remark>,
}

impl Place {
    /// The line of a number in the file of a path.
    ///
    /// # Errors
    ///
    /// `AllocError` where memory is refused.
    pub fn new(alloc: Global, path: &str, line: usize) -> Result<Place, AllocError> {
        Ok(Place {
            path: Text::copy_of(alloc, path)?,
            line,
        })
    }
}

impl Explanation {
    /// Words that name no line as yet.
    pub fn new(alloc: Global, words: String) -> Explanation
        ensures { result.remarks.items ≡ [] }
    {
        Explanation {
            words,
            remarks: Vec::new(alloc),
        }
    }

    /// Words alone, which name no line.
    ///
    /// # Errors
    ///
    /// `AllocError` where memory is refused.
    pub fn of_words(alloc: Global, words: &str) -> Result<Explanation, AllocError>
        ensures { IfOk result (λ e. e.remarks.items ≡ []) }
    {
        Ok(Explanation {
            words: String::from_str(alloc, words)?,
            remarks: Vec::new(alloc),
        })
    }

    /// Names a line after those that are named, with words before its place.
    ///
    /// # Errors
    ///
    /// `AllocError` where memory is refused. No line is named more then.
    pub fn name_line(
        &mut self,
        alloc: Global,
        words: &str,
        path: &str,
        line: usize,
    ) -> Result<(), AllocError> {
        let remark = Remark {
            words: String::from_str(alloc, words)?,
            place: Place::new(alloc, path, line)?,
        };
        self.remarks.push(remark)?;
        Ok(())
    }
}
