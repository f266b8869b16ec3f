//! A `.config` that is passed as KCONFIG. Each of its lines defines a variable, so it is a Kconfig without a symbol, and no
//! error.

use crate::files::Files;
use crate::opening::Kconfig;
use kc_command_line::Wording;
use kc_folder::Folder;
use std::io::Write;

/// Asks whether a Kconfig is a `.config`, where its files define variables and no symbol, and words are wanted. What can't
/// be written, or for which memory is refused, changes nothing else.
pub(crate) fn ask_of_exchange<F: Folder, E: Write>(
    symbols: usize,
    files: &Files<'_>,
    kconfig: &Kconfig<'_, F>,
    wording: Wording,
    errors: &mut E,
) {
    if symbols > 0 || wording == Wording::Number {
        return;
    }
    let Ok(names) = files.defined_names() else {
        return;
    };
    if !names.is_empty() {
        let path = kconfig.top;
        let _ = writeln!(errors, "kconf: {path}: defines no symbol: is it a .config?");
    }
}
