//! By which part of a tree a node is computed from another one.

ghost use Rattle.std.specs.Prelude.{◌≡◌, is_some, option_map, position, slice_get};
ghost use Rattle.std.specs.Option.{option_copied};
ghost use Rattle.kc_lines.specs.declared.loop_step.Way.TheVariants.{Own};
ghost use Rattle.kc_lines.specs.declared.parts.Attribute.TheVariants.{Depends};
ghost use Rattle.kc_lines.specs.declared.parts.Family.TheVariants.{Definition as OfDefinition};
ghost use Rattle.kc_lines.specs.declared.parts.Part.TheVariants.{Said};
ghost use Rattle.kc_lines.specs.LoopSteps.{block_lines, by, by_if, choice_step, dependency_step, first_of, free_step, line_part, member_step, mode_step, part_around, part_in, part_within, prompt_step, prompted_step, reads, reads_if, reverse_step, selecting_step, selection_step, shown_step, step_between, type_step, value_step, valued_step, visibility_step, worth_step};

use crate::block_parts::{block_part, is_if_kind};
use crate::culprits::first_part;
use crate::line_index::LineIndex;
use crate::loop_step::{BlockLines, Step, Way};
use crate::parts::{Attribute, Family, Part};
use crate::sought::Sought;
use kc_outline::{
    Block, BlockId, Choice, ChoiceDefault, ChoiceId, Definition, MOST_OPEN_BLOCKS, Outline,
    Reverse, Symbol,
};
use kc_statement::{Expr, Prompt, SymId, SymbolType};
use kc_tree::Node;

/// A step where a test holds.
fn by_if(test: bool, way: Way, part: Part) -> Option<Step>
    ensures { result ≡ by_if test way part }
{
    test.then_some(Step { part, way })
}

/// A step by a part, if there is one.
fn by(way: Way, part: Option<Part>) -> Option<Step>
    ensures { result ≡ option_map (by way) part }
{
    match part {
        Some(part) => Some(Step { part, way }),
        None => None,
    }
}

/// A step by the line of a number among those that say an attribute of a definition or a choice, if there is one.
fn by_line(
    family: Family,
    number: usize,
    attribute: Attribute,
    place: Option<usize>,
) -> Option<Step>
    ensures { result ≡ option_map (λ n. by Own (Said family number attribute n)) place }
{
    let place = place?;
    let part = Part::Said(family, number, attribute, place);
    Some(Step {
        part,
        way: Way::Own,
    })
}

/// The lines of a block that are asked for.
fn block_lines(lines: BlockLines, block: &Block) -> &[Expr]
    ensures { result.now ≡ block_lines lines block.now }
{
    match lines {
        BlockLines::Depends => block.depends(),
        BlockLines::Visible => block.visible(),
    }
}

/// The part that says the line of a place.
fn line_part(lines: BlockLines, block: &Block, id: BlockId, place: usize) -> Part
    ensures { result ≡ line_part lines block.now.kind id place }
{
    match lines {
        BlockLines::Depends => block_part(is_if_kind(block.kind()), id, place),
        BlockLines::Visible => Part::Said(Family::Block, id.0, Attribute::Visible, place),
    }
}

/// The block of a number.
fn block_at(outline: &Outline, id: BlockId) -> Option<&Block>
    ensures { option_copied result ≡ slice_get outline.now.blocks id.0 }
{
    outline.blocks().get(id.0)
}

impl<'o> Sought<'o> {
    /// The first line of a block that reads the node.
    fn within(&self, lines: BlockLines, id: BlockId, block: &Block) -> Option<Part>
        ensures { result ≡ part_within self.now.outline.now self.now.node lines id block.now }
    {
        let place = self.place_of(block_lines(lines, block))?;
        Some(line_part(lines, block, id, place))
    }

    /// The first line of the block of a number that reads the node.
    fn in_block(&self, lines: BlockLines, id: BlockId) -> Option<Part>
        ensures { result ≡ part_in self.now.outline.now self.now.node lines id }
    {
        let block = block_at(self.outline, id)?;
        self.within(lines, id, block)
    }

    /// The first line of the blocks around that reads the node, from the innermost outwards.
    fn around(&self, lines: BlockLines, innermost: Option<BlockId>) -> Option<Part>
        ensures { result ≡ part_around self.now.outline.now self.now.node lines innermost }
    {
        let mut next = innermost;
        for _ in 0..MOST_OPEN_BLOCKS {
            let Some(id) = next else {
                return None;
            };
            let Some(block) = block_at(self.outline, id) else {
                return None;
            };
            if let Some(part) = self.within(lines, id, block) {
                return Some(part);
            }
            next = block.parent();
        }
        None
    }

    /// The step by the own dependencies of the definition of a number.
    fn own_dependency(&self, way: Way, number: usize, definition: &Definition) -> Option<Step>
        ensures { result ≡ option_map (λ n. by way (Said OfDefinition number Depends n)) (position (reads self.now.outline.now self.now.node) definition.now.depends) }
    {
        let place = self.place_of(definition.depends())?;
        let part = Part::Said(Family::Definition, number, Attribute::Depends, place);
        Some(Step { part, way })
    }

    /// The step by the dependencies of the definition of a number: its own, and those of the blocks around it.
    fn dependency(
        &self,
        own: Way,
        around: Way,
        number: usize,
        definition: &Definition,
    ) -> Option<Step>
        ensures { result ≡ dependency_step self.now.outline.now self.now.node own around number definition.now }
    {
        self.own_dependency(own, number, definition).or(by(
            around,
            self.around(BlockLines::Depends, definition.block()),
        ))
    }

    /// The step by a prompt of the definition of a number.
    fn prompted(&self, number: usize, definition: &Definition, prompt: &Prompt) -> Option<Step>
        ensures { result ≡ prompted_step self.now.outline.now self.now.node number definition.now prompt.now }
    {
        let line = Part::Said(Family::Definition, number, Attribute::Prompt, 0);
        by_if(self.in_condition(&prompt.condition), Way::Own, line)
            .or(self.dependency(Way::Own, Way::Around, number, definition))
            .or(by(
                Way::Around,
                self.around(BlockLines::Visible, definition.block()),
            ))
    }

    /// The step by the prompt of the definition of a number, if it has one.
    fn prompt(&self, number: usize) -> Option<Step>
        ensures { result ≡ prompt_step self.now.outline.now self.now.node number }
    {
        let definition = self.outline.definitions().get(number)?;
        let prompt = definition.prompt()?;
        self.prompted(number, definition, prompt)
    }

    /// The place of the first of some definitions whose prompt makes a step.
    fn prompt_place(&self, numbers: &[usize]) -> Option<usize>
        ensures { result ≡ position (λ n. is_some (prompt_step self.now.outline.now self.now.node n)) numbers.now }
    {
        numbers
            .iter()
            .position(|number| self.prompt(*number).is_some())
    }

    /// The step by the prompts of some definitions.
    fn prompts(&self, numbers: &[usize]) -> Option<Step>
        ensures { result ≡ first_of (prompt_step self.now.outline.now self.now.node) numbers.now }
    {
        let place = self.prompt_place(numbers)?;
        self.prompt(*numbers.get(place)?)
    }

    /// The step by the defaults of the definition of a number, its ranges, and its dependencies.
    fn valued(&self, number: usize, definition: &Definition) -> Option<Step>
        ensures { result ≡ valued_step self.now.outline.now self.now.node number definition.now }
    {
        let default = self.place_in_defaults(definition.defaults());
        let range = self.place_in_ranges(definition.ranges());
        by_line(Family::Definition, number, Attribute::Default, default)
            .or(by_line(Family::Definition, number, Attribute::Range, range))
            .or(self.dependency(Way::Own, Way::Around, number, definition))
    }

    /// The step by what gives a value in the definition of a number.
    fn value(&self, number: usize) -> Option<Step>
        ensures { result ≡ value_step self.now.outline.now self.now.node number }
    {
        let definition = self.outline.definitions().get(number)?;
        self.valued(number, definition)
    }

    /// The place of the first of some definitions in which something that gives a value makes a step.
    fn value_place(&self, numbers: &[usize]) -> Option<usize>
        ensures { result ≡ position (λ n. is_some (value_step self.now.outline.now self.now.node n)) numbers.now }
    {
        numbers
            .iter()
            .position(|number| self.value(*number).is_some())
    }

    /// The step by what gives a value in some definitions.
    fn values(&self, numbers: &[usize]) -> Option<Step>
        ensures { result ≡ first_of (value_step self.now.outline.now self.now.node) numbers.now }
    {
        let place = self.value_place(numbers)?;
        self.value(*numbers.get(place)?)
    }

    /// The step by the dependencies of the definition of a number, which has a line that selects or implies the symbol.
    fn selecting(&self, line: Part, number: usize) -> Option<Step>
        ensures { result ≡ selecting_step self.now.outline.now self.now.node line number }
    {
        let definition = self.outline.definitions().get(number)?;
        let (own, around) = (Way::OfSelecting(line), Way::AroundSelecting(line));
        self.dependency(own, around, number, definition)
    }

    /// The step by a line that selects or implies the symbol: by the symbol that it is in, its condition, or what the
    /// definition that it is in depends on.
    fn reverse(&self, attribute: Attribute, reverse: &Reverse) -> Option<Step>
        ensures { result ≡ reverse_step self.now.outline.now self.now.node attribute reverse.now }
    {
        let line = Part::Said(
            Family::Definition,
            reverse.definition,
            attribute,
            reverse.number,
        );
        if self.is_value(reverse.by) || self.in_condition(&reverse.condition) {
            let way = Way::Selected;
            return Some(Step { part: line, way });
        }
        self.selecting(line, reverse.definition)
    }

    /// The place of the first of such lines that makes a step.
    fn reverse_place(&self, attribute: Attribute, lines: &[Reverse]) -> Option<usize>
        ensures { result ≡ position (λ r. is_some (reverse_step self.now.outline.now self.now.node attribute r)) lines.now }
    {
        lines
            .iter()
            .position(|line| self.reverse(attribute, line).is_some())
    }

    /// The step by lines that select or imply the symbol.
    fn reverses(&self, attribute: Attribute, lines: &[Reverse]) -> Option<Step>
        ensures { result ≡ first_of (reverse_step self.now.outline.now self.now.node attribute) lines.now }
    {
        let place = self.reverse_place(attribute, lines)?;
        self.reverse(attribute, lines.get(place)?)
    }

    /// The step by the type of a symbol: a tristate acts as a bool where there are no modules.
    fn type_of(&self, index: &LineIndex<'_, '_>, symbol: &Symbol) -> Option<Step>
        ensures { result ≡ type_step index.now self.now.outline.now self.now.node symbol.now }
    {
        match symbol.kind() {
            SymbolType::Tristate if self.is_modules() => {
                by(Way::Type, first_part(index, Attribute::Type, symbol))
            }
            SymbolType::Tristate
            | SymbolType::Bool
            | SymbolType::String
            | SymbolType::Int
            | SymbolType::Hex => None,
        }
    }

    /// The step by the choice that a symbol is a member of, whose mode or selection is a node.
    fn choice(&self, node: Node, choice: ChoiceId) -> Option<Step>
        ensures { result ≡ choice_step self.now.node node choice }
    {
        let line = Part::Owner(Family::Choice, choice.0 as usize);
        by_if(self.is(node), Way::Choice, line)
    }

    /// The step by the visibility of a symbol, at its first definition.
    fn visibility(&self, way: Way, id: SymId, symbol: &Symbol) -> Option<Step>
        ensures { result ≡ visibility_step self.now.node way id symbol.now }
    {
        if !self.is(Node::Vis(id)) {
            return None;
        }
        let number = *symbol.definitions().first()?;
        Some(Step {
            part: Part::Owner(Family::Definition, number),
            way,
        })
    }

    /// The step from the visibility of a symbol.
    fn from_visibility(&self, index: &LineIndex<'_, '_>, symbol: &Symbol) -> Option<Step>
        ensures { result ≡ shown_step index.now self.now.outline.now self.now.node symbol.now }
    {
        let within = match symbol.choice() {
            Some(choice) => self.choice(Node::Mode(choice), choice),
            None => None,
        };
        self.prompts(symbol.definitions())
            .or(self.type_of(index, symbol))
            .or(within)
    }

    /// The step from the value of a symbol that is no member of a choice, but for its visibility.
    fn from_free_value(&self, index: &LineIndex<'_, '_>, symbol: &Symbol) -> Option<Step>
        ensures { result ≡ free_step index.now self.now.outline.now self.now.node symbol.now }
    {
        if let Some(step) = self.values(symbol.definitions()) {
            return Some(step);
        }
        self.reverses(Attribute::Select, symbol.selected())
            .or(self.reverses(Attribute::Imply, symbol.implied()))
            .or(self.type_of(index, symbol))
    }

    /// The step from the value of a symbol.
    fn from_value(&self, index: &LineIndex<'_, '_>, id: SymId, symbol: &Symbol) -> Option<Step>
        ensures { result ≡ worth_step index.now self.now.outline.now self.now.node id symbol.now }
    {
        if let Some(step) = self.visibility(Way::Visibility, id, symbol) {
            return Some(step);
        }
        match symbol.choice() {
            Some(choice) => self.choice(Node::Sel(choice), choice),
            None => self.from_free_value(index, symbol),
        }
    }

    /// The step from the mode of a choice, by its prompt.
    fn from_mode(&self, id: ChoiceId, choice: &Choice, prompt: &Prompt) -> Option<Step>
        ensures { result ≡ mode_step self.now.outline.now self.now.node id choice.now prompt.now }
    {
        let line = Part::Said(Family::Choice, id.0 as usize, Attribute::Prompt, 0);
        let block = choice.block();
        by_if(self.in_condition(&prompt.condition), Way::Own, line)
            .or(by(Way::Own, self.in_block(BlockLines::Depends, block)))
            .or(by(Way::Around, self.around(BlockLines::Depends, Some(block))))
            .or(by(Way::Around, self.around(BlockLines::Visible, Some(block))))
    }

    /// The step by the visibility of a member of a choice.
    fn member(&self, id: SymId) -> Option<Step>
        ensures { result ≡ member_step self.now.outline.now self.now.node id }
    {
        let symbol = self.outline.symbols().get(id.0 as usize)?;
        self.visibility(Way::Member, id, symbol)
    }

    /// The place of the first of the members of a choice whose visibility makes a step.
    fn member_place(&self, members: &[SymId]) -> Option<usize>
        ensures { result ≡ position (λ s. is_some (member_step self.now.outline.now self.now.node s)) members.now }
    {
        members
            .iter()
            .position(|member| self.member(*member).is_some())
    }

    /// The step by the members of a choice.
    fn members(&self, members: &[SymId]) -> Option<Step>
        ensures { result ≡ first_of (member_step self.now.outline.now self.now.node) members.now }
    {
        let place = self.member_place(members)?;
        self.member(*members.get(place)?)
    }

    /// The place of the first default of a choice whose condition reads the node.
    fn place_in_choice_defaults(&self, defaults: &[ChoiceDefault]) -> Option<usize>
        ensures { result ≡ position (λ d. reads_if self.now.outline.now self.now.node d.condition) defaults.now }
    {
        defaults
            .iter()
            .position(|default| self.in_condition(&default.condition))
    }

    /// The step from the selection of a choice.
    fn from_selection(&self, id: ChoiceId, choice: &Choice) -> Option<Step>
        ensures { result ≡ selection_step self.now.outline.now self.now.node id choice.now }
    {
        let (family, number) = (Family::Choice, id.0 as usize);
        let default = self.place_in_choice_defaults(choice.defaults());
        by_if(
            self.is(Node::Mode(id)),
            Way::Mode,
            Part::Owner(family, number),
        )
        .or(self.members(choice.members()))
        .or(by_line(family, number, Attribute::Default, default))
    }
}

/// The part by which a node is computed from another one, as each node of a loop from the next, and in which way; of
/// several parts the first (this project's own, docs/VALUES.md, "What uses what, and loops"). None where it is not
/// computed from it.
pub fn step_between(
    index: &LineIndex<'_, '_>,
    outline: &Outline,
    node: Node,
    next: Node,
) -> Option<Step>
    ensures { result ≡ step_between index.now outline.now node next }
{
    let sought = Sought {
        outline,
        node: next,
    };
    match node {
        Node::Vis(id) => {
            let symbol = outline.symbols().get(id.0 as usize)?;
            sought.from_visibility(index, symbol)
        }
        Node::Val(id) => {
            let symbol = outline.symbols().get(id.0 as usize)?;
            sought.from_value(index, id, symbol)
        }
        Node::Mode(id) => {
            let choice = outline.choices().get(id.0 as usize)?;
            sought.from_mode(id, choice, choice.prompt()?)
        }
        Node::Sel(id) => {
            let choice = outline.choices().get(id.0 as usize)?;
            sought.from_selection(id, choice)
        }
    }
}
