//! The nodes of a symbol, as a resolver answers them.

use crate::finding::{Stop, Wrong, want};
use kc_tree::Node;
use kc_value::Resolver;

/// Wants a symbol to have this visibility and this value.
pub(crate) fn want_nodes<R: Resolver>(
    resolver: &mut R,
    name: &str,
    visibility: &str,
    value: &str,
) -> Result<(), Stop> {
    let Some(symbol) = resolver.tree().find(name) else {
        return Err(Stop::Wrong(Wrong::Missing));
    };
    let Ok(found) = resolver.node(Node::Vis(symbol)) else {
        return Err(Stop::Refused);
    };
    want(found.as_text() == visibility, Wrong::Value)?;
    let Ok(found) = resolver.node(Node::Val(symbol)) else {
        return Err(Stop::Refused);
    };
    want(found.as_text() == value, Wrong::Value)
}
