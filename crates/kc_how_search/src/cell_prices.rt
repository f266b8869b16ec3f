//! What it costs to change the value of each node and each condition: one pass in the tree's order.

use crate::costs::{Costs, NEVER, plus};
use crate::prices::Prices;
use crate::weights::{
    DEFAULT, DEFAULT_FOR_PROMPT, LINE, LOW_DEPENDENCY, LOW_LINE, MEMBER_LINE, SELECT,
    SELECT_FOR_PROMPT,
};
use kc_tree::{
    Cell, ChoiceId, DefaultValue, Definition, Node, Prompt, Reverse, SymId, Symbol, SymbolType,
    Tree, Tri,
};
use kc_value::{Known, User};
use std::alloc::{AllocError, Global};

/// The costs of all cells, by number, in a tree with user values, and the values of all nodes for these. The error comes
/// where memory is refused.
pub(crate) fn cell_costs<'p>(
    alloc: Global,
    tree: &'p Tree,
    start: &'p Known<'p>,
    user: &'p User,
) -> Result<Vec<Costs>, AllocError> {
    let mut cells = vec![in alloc; Costs::of_constant(Tri::No); tree.cell_count()]?;
    for number in tree.cell_order() {
        let number = *number as usize;
        if number >= tree.cell_count() {
            continue;
        }
        let costs = Prices::new(tree, start, user, cells.as_slice()).cell(tree.cell(number));
        if let Some(place) = cells.get_mut(number) {
            *place = costs;
        }
    }
    Ok(cells)
}

impl<'p, 'c> Prices<'p, 'c> {
    /// Those of the cell that is next, by those of what it reads.
    fn cell(&self, cell: Cell) -> Costs {
        match cell {
            Cell::Node(node) => self.of_node(node),
            Cell::Definition(number) => match self.tree.definitions().get(number) {
                Some(definition) => self
                    .all(definition.depends())
                    .and(self.depends(definition.block())),
                None => Costs::of_constant(Tri::No),
            },
            Cell::Depends(id) => match self.tree.blocks().get(id.0) {
                Some(block) => self.all(block.depends()).and(self.depends(block.parent())),
                None => Costs::of_constant(Tri::Yes),
            },
            Cell::Visible(id) => match self.tree.blocks().get(id.0) {
                Some(block) => self.all(block.visible()).and(self.visible(block.parent())),
                None => Costs::of_constant(Tri::Yes),
            },
        }
    }

    /// Those of the node that is next.
    fn of_node(&self, node: Node) -> Costs {
        match node {
            Node::Vis(id) => match self.tree.symbols().get(id.0 as usize) {
                Some(symbol) => self.of_visibility(symbol).at(self.known.tri(node)),
                None => Costs::of_constant(Tri::No),
            },
            Node::Val(id) => match self.tree.symbols().get(id.0 as usize) {
                Some(symbol) => self.of_value(id, symbol).at(self.known.tri(node)),
                None => Costs::of_constant(Tri::No),
            },
            Node::Mode(id) => self.of_mode(id).at(self.known.tri(node)),
            Node::Sel(id) => self.of_selection(id),
        }
    }

    /// Whether a symbol has no m now.
    fn is_folded(&self, symbol: &Symbol) -> bool {
        match self.tree.modules() {
            Some(modules) => {
                !matches!(symbol.kind(), SymbolType::Tristate)
                    || self.known.tri(Node::Val(modules)).is_no()
            }
            None => true,
        }
    }

    /// Those of a value as a symbol has it.
    fn in_type(&self, symbol: &Symbol, costs: Costs) -> Costs {
        if self.is_folded(symbol) {
            costs.folded()
        } else {
            costs
        }
    }

    /// Those of the condition of a prompt.
    fn prompt(&self, number: usize, definition: &Definition, prompt: &Prompt) -> Costs {
        self.condition(prompt.condition.as_ref())
            .and(self.definition(number))
            .and(self.visible(definition.block()))
    }

    /// Those of the visibility of a symbol.
    fn of_visibility(&self, symbol: &Symbol) -> Costs {
        let mut costs = Costs::of_constant(Tri::No);
        for number in symbol.definitions() {
            if let Some(definition) = self.tree.definitions().get(*number)
                && let Some(prompt) = definition.prompt()
            {
                costs = costs.or(self.prompt(*number, definition, prompt));
            }
        }
        if let Some(choice) = symbol.choice() {
            costs = costs.and(self.node(Node::Mode(choice)));
        }
        self.in_type(symbol, costs)
    }

    /// Those of the mode of a choice.
    fn of_mode(&self, id: ChoiceId) -> Costs {
        let Some(choice) = self.tree.choices().get(id.0 as usize) else {
            return Costs::of_constant(Tri::No);
        };
        let Some(prompt) = choice.prompt() else {
            return Costs::of_constant(Tri::No);
        };
        let block = Some(choice.block());
        let costs = self
            .condition(prompt.condition.as_ref())
            .and(self.depends(block))
            .and(self.visible(block))
            .folded();
        if choice.is_optional() && self.user.chosen(id).is_none() {
            return costs.dearer(MEMBER_LINE, 0);
        }
        costs
    }

    /// Of a choice, in place of costs: as m what it costs to show the cheapest member, and as y the next one.
    fn of_selection(&self, id: ChoiceId) -> Costs {
        let mut costs = Costs::of_constant(Tri::No);
        let Some(choice) = self.tree.choices().get(id.0 as usize) else {
            return costs;
        };
        for member in choice.members() {
            let cost = self.node(Node::Vis(*member)).module;
            if cost < costs.module {
                costs.yes = costs.module;
                costs.module = cost;
            } else if cost < costs.yes {
                costs.yes = cost;
            }
        }
        costs
    }

    /// Those of the value of a symbol.
    fn of_value(&self, id: SymId, symbol: &Symbol) -> Costs {
        if let Some(choice) = symbol.choice() {
            return self.of_member(id, choice);
        }
        if !symbol.kind().is_tri() {
            return Costs::of_constant(Tri::No);
        }
        let selected = self.in_type(symbol, self.reverses(symbol.selected()));
        let direct = self.direct(symbol);
        let implied = self.reverses(symbol.implied()).and(direct);
        let own = self.defaults(symbol).or(implied);
        let low = own.and(direct.dearer(0, LOW_DEPENDENCY));
        let rising = self.of_rising(id, selected, self.in_type(symbol, own));
        let falling = self.of_falling(id, symbol, selected, self.in_type(symbol, low));
        let costs = Costs {
            module: rising.module,
            yes: rising.yes,
            below_yes: falling.below_yes,
            no: falling.no,
        };
        costs.dearer(self.rise_of(id), self.fall_of(id))
    }

    /// Those of the value of a member of a choice.
    fn of_member(&self, id: SymId, choice: ChoiceId) -> Costs {
        let own = self.node(Node::Vis(id)).module;
        let among = self.node(Node::Sel(choice));
        let other = if own <= among.module {
            among.yes
        } else {
            among.module
        };
        let rise = plus(own, plus(MEMBER_LINE, self.rise_of(id)));
        let away = self.node(Node::Vis(id)).no;
        let fall = plus(plus(other, MEMBER_LINE).min(away), self.fall_of(id));
        Costs {
            module: rise,
            yes: rise,
            below_yes: fall,
            no: fall,
        }
    }
    /// Those of the greatest that some `select` or `imply` lines give.
    fn reverses(&self, reverses: &[Reverse]) -> Costs {
        let mut costs = Costs::of_constant(Tri::No);
        for reverse in reverses {
            costs = costs.or(self.reverse(reverse));
        }
        costs
    }

    /// Those of the greatest of the dependencies of the definitions of a symbol.
    fn direct(&self, symbol: &Symbol) -> Costs {
        let mut costs = Costs::of_constant(Tri::No);
        for number in symbol.definitions() {
            costs = costs.or(self.definition(*number));
        }
        costs
    }

    /// Those of what a default of a definition gives.
    fn default(&self, number: usize, default: &DefaultValue) -> Costs {
        self.definition(number)
            .and(self.condition(default.condition.as_ref()))
            .and(self.expr(&default.value))
    }

    /// Those of the greatest of something and what the defaults of a definition give.
    fn or_defaults(&self, costs: Costs, number: usize, definition: &Definition) -> Costs {
        let mut costs = costs;
        for default in definition.defaults() {
            costs = costs.or(self.default(number, default));
        }
        costs
    }

    /// Those of the greatest that the defaults of a symbol give.
    fn defaults(&self, symbol: &Symbol) -> Costs {
        let mut costs = Costs::of_constant(Tri::No);
        for number in symbol.definitions() {
            if let Some(definition) = self.tree.definitions().get(*number) {
                costs = self.or_defaults(costs, *number, definition);
            }
        }
        costs
    }

    /// Whether the user value of a symbol counts now.
    fn is_given(&self, id: SymId) -> bool {
        self.user.get(id).is_some() && !self.known.tri(Node::Vis(id)).is_no()
    }

    /// Those of raising a bool or a tristate, by a line, what selects it, or what it is by itself.
    fn of_rising(&self, id: SymId, selected: Costs, own: Costs) -> Costs {
        let shown = self.node(Node::Vis(id));
        let line = self.line_of(id);
        let (select, default) = if shown.module < NEVER {
            (SELECT_FOR_PROMPT, DEFAULT_FOR_PROMPT)
        } else {
            (SELECT, DEFAULT)
        };
        let by_line = Costs {
            module: plus(shown.module, line),
            yes: plus(shown.yes, line),
            below_yes: NEVER,
            no: NEVER,
        };
        let costs = by_line.or(selected.dearer(select, 0));
        if self.is_given(id) {
            costs
        } else {
            costs.or(own.dearer(default, 0))
        }
    }

    /// Those of lowering a bool or a tristate: what selects it has to be low, and what it is by itself, or its line.
    fn of_falling(&self, id: SymId, symbol: &Symbol, selected: Costs, own: Costs) -> Costs {
        let by_line = plus(self.node(Node::Vis(id)).module, LOW_LINE);
        let (below_yes, no) = if self.known.tri(Node::Vis(id)).is_no() {
            (own.below_yes.min(by_line), own.no.min(by_line))
        } else {
            (by_line, by_line)
        };
        let modules = if matches!(symbol.kind(), SymbolType::Tristate) {
            plus(self.modules().module, LINE)
        } else {
            NEVER
        };
        Costs {
            module: NEVER,
            yes: NEVER,
            below_yes: plus(selected.below_yes, below_yes).min(modules),
            no: plus(selected.no, no),
        }
    }
}
