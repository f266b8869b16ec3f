//! A `.config` in: what its lines give a tree.

ghost use Rattle.std.specs.Prelude.{◌≡◌, ◌<◌, ◌↔◌, List, All, Err, IfOk, length};
ghost use Rattle.kc_files.specs.ConfigReading.{IsConfigReading};
ghost use Rattle.kc_files.specs.LineReading.{IsAssignFor, IsUnfed};
ghost use Rattle.kc_files.specs.OneReading.{assigns_in, warnings_in};

use crate::assign::Assign;
use crate::numbered_lines::read_lines;
use crate::prefix::Prefix;
use crate::warning::Warning;
use kc_tree::Tree;
use std::alloc::{AllocError, Global};

/// The most bytes that a `.config` has.
pub(crate) const MOST_BYTES: usize = 16_777_216;

/// Why a `.config` was not read.
#[derive(Clone, Copy, Debug, PartialEq, Eq)]
pub enum ReadFault {
    /// It has more than 16,777,216 bytes.
    Limit,
    /// Memory was refused.
    NoMemory,
}

impl From<AllocError> for ReadFault {
    ghost use Rattle.std.specs.Prelude.{◌≡◌};
    ghost use Rattle.kc_files.specs.declared.config_reading.ReadFault.TheVariants.{NoMemory};

    ghost from_gives = { λ _ fault. fault ≡ NoMemory };

    fn from(_refused: AllocError) -> ReadFault {
        ReadFault::NoMemory
    }
}

/// Reads a `.config`: the assignments that count, in the order of their lines, and the warnings, in the order of theirs
/// (docs/FILES.md). A line that gives a symbol of the tree a value of its type is usable, and of a symbol's usable lines
/// the last counts; members of choices are symbols like others here. No value that is read has a line feed.
///
/// # Errors
///
/// - `ReadFault::Limit` where the text has more than 16,777,216 bytes, before anything else.
/// - `ReadFault::NoMemory` where memory was refused.
pub fn read_config(
    alloc: Global,
    tree: &Tree,
    prefix: &Prefix,
    bytes: &[u8],
) -> Result<(Vec<Assign>, Vec<Warning>), ReadFault>
    ensures reading { IfOk result (λ r. IsConfigReading tree.now prefix.now bytes.now r.0.items r.1.items) }
    ensures read { IfOk result (λ r. (r.0.items ≡ assigns_in tree.now prefix.now bytes.now)
        × (r.1.items ≡ warnings_in tree.now prefix.now bytes.now)) }
    ensures fitting { IfOk result (λ r. All (IsAssignFor tree.now) r.0.items) }
    ensures unfed { IfOk result (λ r. All IsUnfed r.0.items) }
    ensures only { IfOk result (λ r. (assigns : List Assign) (warnings : List Warning)
        → IsConfigReading tree.now prefix.now bytes.now assigns warnings
        → (assigns ≡ r.0.items) × (warnings ≡ r.1.items)) }
    ensures limit { (result ≡ Err ReadFault.Limit) ↔ (16777216 < length bytes.now) }
{
    // That a text has one reading is a clause of this call.
    let _ = prefix.as_str();
    let lines = read_lines(alloc, tree, prefix, bytes)?;
    let reading = lines.into_reading(alloc)?;
    Ok(reading)
}
