ghost use Rattle.std.specs.Prelude.{◌≡◌, ◌<◌, ◌≤◌, ◌*◌, ◌+◌, ◌^◌};
ghost use Rattle.kc_tree.specs.Nodes.{number_in, node_in, symbol_node, choice_node};
ghost use Rattle.kc_statement.specs.declared.limits.TheConstants.{MOST_SYMBOLS};

use kc_outline::ChoiceId;
use kc_statement::SymId;

/// What is computed of a tree: two nodes for each symbol, and two for each choice.
#[derive(Clone, Copy, Debug, PartialEq, Eq)]
pub enum Node {
    /// The visibility of a symbol.
    Vis(SymId),
    /// The value of a symbol.
    Val(SymId),
    /// The mode of a choice: y where its members can be visible.
    Mode(ChoiceId),
    /// The selection of a choice: which member is y.
    Sel(ChoiceId),
}

impl Node {
    /// The number of the node in a tree of this many symbols: twice that of its symbol for the visibility, and one more
    /// for the value. Those of the choices follow, in the same way.
    pub(crate) fn number_in(self, symbols: usize) -> usize
        requires { symbols ≤ MOST_SYMBOLS }
        ensures { result ≡ number_in symbols self }
    {
        let place = match self {
            Node::Vis(symbol) | Node::Val(symbol) => symbol.0 as usize,
            Node::Mode(choice) | Node::Sel(choice) => symbols + choice.0 as usize,
        };
        let second = match self {
            Node::Vis(_) | Node::Mode(_) => 0,
            Node::Val(_) | Node::Sel(_) => 1,
        };
        2 * place + second
    }

    /// The same in 32 bits.
    pub(crate) fn index_in(self, symbols: usize) -> u32
        requires few { symbols ≤ MOST_SYMBOLS }
        requires small { number_in symbols self < 2 ^ 32 }
        ensures { result ≡ number_in symbols self }
    {
        self.number_in(symbols) as u32
    }

    /// The node of a symbol by a number that no symbols stand before.
    fn of_symbol(number: usize) -> Node
        requires { number < 2 ^ 32 }
        ensures { result ≡ symbol_node number }
    {
        let symbol = SymId((number / 2) as u32);
        if number % 2 == 0 {
            Node::Vis(symbol)
        } else {
            Node::Val(symbol)
        }
    }

    /// The node of a choice by a number that no symbols stand before.
    fn of_choice(number: usize) -> Node
        requires { number < 2 ^ 32 }
        ensures { result ≡ choice_node number }
    {
        let choice = ChoiceId((number / 2) as u32);
        if number % 2 == 0 {
            Node::Mode(choice)
        } else {
            Node::Sel(choice)
        }
    }

    /// The node of a number in a tree of this many symbols.
    pub(crate) fn in_tree(symbols: usize, number: usize) -> Node
        requires few { symbols ≤ MOST_SYMBOLS }
        requires number { number < 2 ^ 32 }
        ensures { result ≡ node_in symbols number }
    {
        if number < 2 * symbols {
            Node::of_symbol(number)
        } else {
            Node::of_choice(number - 2 * symbols)
        }
    }
}
