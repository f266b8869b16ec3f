//! What is dear to the search: weights by which its answers are those that one would write oneself.

/// A line for a bool or a tristate.
pub(crate) const LINE: u32 = 10;
/// A line that changes what the user gave.
pub(crate) const CHANGED_LINE: u32 = 12;
/// A line for a member of a choice.
pub(crate) const MEMBER_LINE: u32 = 40;
/// A line for a text.
pub(crate) const TEXT_LINE: u32 = 30;

/// To raise a symbol by a `select`.
pub(crate) const SELECT: u32 = 6;
/// The same of a symbol with a prompt, which a line could raise.
pub(crate) const SELECT_FOR_PROMPT: u32 = 21;
/// To raise a symbol without a prompt by a default or an `imply`.
pub(crate) const DEFAULT: u32 = 1;
/// The same of a symbol with a prompt.
pub(crate) const DEFAULT_FOR_PROMPT: u32 = 12;

/// To lower what the user gave.
pub(crate) const FALL_OF_USER: u32 = 50;
/// To lower another value.
pub(crate) const FALL: u32 = 25;
/// To lower a symbol by its line.
pub(crate) const LOW_LINE: u32 = 3;
/// To lower a symbol by what it depends on.
pub(crate) const LOW_DEPENDENCY: u32 = 15;

/// A way by another line where the symbol's own can't be given.
pub(crate) const ROUNDABOUT: u32 = 20;
/// What turns MODULES off.
pub(crate) const MODULES_OFF: u32 = 100;

/// What a symbol costs that no longer has what the user gave it.
pub(crate) const LOST: u32 = 100;
