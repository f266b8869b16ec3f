//! Factors of conditions with the values of their symbols.

use crate::expressions::{push_quoted, push_valued_expr};
use crate::view::View;
use kc_lines::shown_line;
use kc_statement::ExprNode;
use kc_tree::{ChoiceId, Tree};
use kc_value::{Factor, FactorPart};
use std::alloc::AllocError;

/// Adds what a choice is called: `choice` and its prompt.
pub fn push_choice(text: &mut String, tree: &Tree, choice: ChoiceId) -> Result<(), AllocError> {
    text.push_str("choice")?;
    let prompt = match tree.choices().get(choice.0 as usize) {
        Some(choice) => choice.prompt(),
        None => None,
    };
    if let Some(prompt) = prompt {
        text.push(' ')?;
        push_quoted(text, shown_line(prompt.text.as_str()))?;
    }
    Ok(())
}

/// Adds a factor with its values, in parentheses where it is a list that `||` joins and others are beside it.
pub fn push_valued_factor(
    text: &mut String,
    view: &View<'_>,
    factor: &Factor<'_>,
    is_alone: bool,
) -> Result<(), AllocError> {
    match factor.part {
        FactorPart::Expression(expr) => {
            let is_any = matches!(expr.node(), ExprNode::Any(_));
            if is_any && !is_alone {
                text.push('(')?;
            }
            push_valued_expr(text, view.known(), expr)?;
            if is_any && !is_alone {
                text.push(')')?;
            }
            Ok(())
        }
        FactorPart::Mode(choice) => {
            push_choice(text, view.tree(), choice)?;
            text.push('=')?;
            text.push_str(factor.value.letter())
        }
        FactorPart::Missing => text.push('n'),
    }
}

/// Adds factors with their values, which `&&` joins.
pub fn push_valued_factors(
    text: &mut String,
    view: &View<'_>,
    factors: &[Factor<'_>],
) -> Result<(), AllocError> {
    let is_alone = factors.len() == 1;
    let mut between = "";
    for factor in factors {
        text.push_str(between)?;
        push_valued_factor(text, view, factor, is_alone)?;
        between = " && ";
    }
    Ok(())
}
