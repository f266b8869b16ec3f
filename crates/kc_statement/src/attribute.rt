//! The parts that attributes have: prompts, defaults and ranges, each with its condition.

use crate::expr::{Expr, Term};
use crate::prompt_text::PromptText;
use kc_text::Text;
use std::alloc::Global;
use std::default::MadeWith;

/// The prompt of a definition: `bool "text" if E`, or a `prompt` line (kconfig-language.rst, "Menu attributes").
#[derive(Debug, Drop)]
pub struct Prompt {
    pub text: PromptText,
    /// The condition after `if`.
    pub condition: Option<Expr>,
}

/// A short list of prompts keeps places for some inside: an empty text without a condition is in those that are free.
impl MadeWith<Global> for Prompt {
    fn made_with(alloc: Global) -> Prompt {
        Prompt {
            text: PromptText::new(Text::new(String::new(alloc))),
            condition: None,
        }
    }
}

/// A default: `default E if F`, or a `def_bool` line (kconfig-language.rst, "Menu attributes").
#[derive(Debug, Drop)]
pub struct DefaultValue {
    /// The expression, in which m is a term like any other.
    pub value: Expr,
    /// The condition after `if`.
    pub condition: Option<Expr>,
}

/// A range: `range LOW HIGH if E` (kconfig-language.rst, "Menu attributes").
#[derive(Debug, Drop)]
pub struct Range {
    pub low: Term,
    pub high: Term,
    /// The condition after `if`.
    pub condition: Option<Expr>,
}

/// What an `option` line sets (kconfig-language.rst, "Menu attributes").
#[derive(Clone, Copy, Debug, PartialEq, Eq)]
pub enum Setting {
    /// `option modules`
    Modules,
    /// `option allnoconfig_y`
    AllNoConfigYes,
}
