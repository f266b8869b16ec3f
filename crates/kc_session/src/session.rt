//! A session: a tree, user values, and the commands that read and change them.
ghost use Rattle.std.specs.Prelude.{◌≡◌, ◌⊎◌, ◌∷◌, ℕ, List, [], None, true, All, IfSome, IfOk, IfErr, OnErr};
ghost use Rattle.std.specs.String.{string_bytes};
ghost use Rattle.kc_value.specs.Solution.{solution, IsOnlySolution};
ghost use Rattle.kc_value.specs.UserValues.{UserValues, chosen_in};
ghost use Rattle.kc_value.specs.ChoiceRule.{is_symbol};

use crate::choices::choices_text;
use crate::command::{Command, Refusal, Reply};
use crate::load::{read_body, warnings_text};
use crate::show::{list_text, show_line};
use crate::values::value_of;
use kc_files::{
    Assign, Load, Prefix, config_text_over, defconfig_text_over, header_text_over, new_text_over,
};
use kc_text::Text;
use kc_tree::{ChoiceId, Node, SymId, Tree};
use kc_value::{AllValue, Change, KeptValues, NewUser, User};
use std::alloc::{AllocError, Global};
use std::marker::Model;

/// A tree with user values. It answers with the values of the one solution. What it has evaluated it keeps, until an
/// edit can change it. Contracts see the tree, the user values and the prefix, and what is kept.
#[derive(Drop)]
pub struct Session {
    pub(crate) alloc: Global,
    pub(crate) tree: Tree,
    pub(crate) user: User,
    pub(crate) kept: KeptValues,
    pub(crate) prefix: Prefix,
}

impl Model for Session {
    ghost use Rattle.kc_session.specs.Session.{SessionState, IsSound};
    ghost use Rattle.kc_statement.specs.contracts.expr.Expr as expr;
    ghost use Rattle.std.specs.Coded.{codes};

    ghost Value = { SessionState };

    ghost coded = { Prim.hlevel (codes, expr.the_row.coded) };

    ghost view = { λ s. record { session = record { tree = s.tree; user = s.user; prefix = s.prefix }; kept = s.kept } };

    ghost invariant = { λ s. IsSound (record { session = record { tree = s.tree; user = s.user; prefix = s.prefix }; kept = s.kept }) };
}

impl Session {
    ghost use Rattle.kc_session.specs.Keeping.{Asks, EditsKept, Keeps, KeepsRight, shown_nodes, symbol_nodes, choice_nodes};
    ghost use Rattle.kc_session.specs.Session.{with_user};
    ghost use Rattle.kc_tree.specs.declared.node.Node.TheVariants.{Vis, Val};
    ghost use Rattle.kc_tree.specs.Nodes.{IsNodeOf, all_nodes};
    ghost use Rattle.kc_outline.specs.TreeValue.{symbol_named, choice_of};
    ghost use Rattle.kc_files.specs.DefaultLoading.{HasNoFeeds};
    ghost use Rattle.kc_files.specs.LineReading.{IsAssignFor, IsUnfed};
    ghost use Rattle.kc_files.specs.Loading.{user_after};
    ghost use Rattle.kc_value.specs.AllValues.{all_given};
    ghost use Rattle.kc_files.specs.OneReading.{assigns_in, IsReadAs};
    ghost use Rattle.kc_session.specs.Bodies.{fits_body, warnings_text_of, IsReadRefusal};
    ghost use Rattle.kc_session.specs.DefaultReply.{HasNoFeed, IsEnough, IsLoad, KeepsTheChanges};
    ghost use Rattle.kc_session.specs.Effect.{IsApplied, IsOutcome, IsReplyTo, answer, set_member, set_value, set_symbol, unset_outcome, unset_symbol, unchosen, reset_outcome, load_outcome, show_outcome, list_outcome, choices_outcome, config_outcome, header_outcome, defconfig_outcome, new_outcome};
    ghost use Rattle.kc_session.specs.ShowLine.{show_line_of};

    /// Does one command. A refusal changes nothing, and only a query, a load and an edit that keeps a text can be refused
    /// their memory.
    ///
    /// An edit drops exactly the values that it can change, and evaluates nothing. A query evaluates each node once that
    /// its answer is computed from and that is not kept, and keeps the values, also where it is refused its memory.
    ///
    /// A body of a load is read as its lines mean it, which is one way and no other. User values without line feeds stay
    /// so unless a `set` gives a value with one, and the default file then keeps what the user changed, with no line too
    /// many.
    pub fn apply(&mut self, command: Command<'_>) -> Reply
        ensures applied { IsApplied self.old.session command.entry result self.new.session }
        ensures keeps { Keeps self.old command.entry result self.new }
        ensures right_before { KeepsRight self.old }
        ensures right { KeepsRight self.new }
        ensures solved { (u : UserValues) → IsOnlySolution self.old.session.tree u (solution self.old.session.tree u) }
        ensures bodies { (body : List ℕ) → IsReadAs self.old.session.tree self.old.session.prefix body }
        ensures enough { IsEnough self.old.session command.entry result }
        ensures unfed { HasNoFeed command.entry → HasNoFeeds self.old.session.user → HasNoFeeds self.new.session.user }
    {
        self.facts();
        let reply = self.perform(command);
        self.facts();
        reply
    }

    /// Does one command.
    #[tactic(auto, unfolding(crate::specs::Effect::perform, crate::specs::Keeping::Keeps))]
    fn perform(&mut self, command: Command<'_>) -> Reply
        ensures applied { IsApplied self.old.session command.entry result self.new.session }
        ensures keeps { Keeps self.old command.entry result self.new }
        ensures enough { IsEnough self.old.session command.entry result }
        ensures unfed_load { IsLoad command.entry → HasNoFeeds self.old.session.user → HasNoFeeds self.new.session.user }
    {
        match command {
            Command::Set(name, value) => self.set(name.as_str(), value.as_str()),
            Command::Unset(name) => self.unset(name.as_str()),
            Command::Reset => self.reset(),
            Command::Load(body) => self.load(Load::Replace, body.as_bytes()),
            Command::Merge(body) => self.load(Load::Merge, body.as_bytes()),
            Command::AllNo => self.give_all(AllValue::No),
            Command::AllYes => self.give_all(AllValue::Yes),
            Command::Show(name) => self.show(name.as_str()),
            Command::List => self.list(),
            Command::Choices => self.choices(),
            Command::Config => self.config(),
            Command::Header => self.header(),
            Command::Defconfig => self.defconfig(),
            Command::New => self.new_list(),
        }
    }

    /// The symbol of a name.
    fn find(&self, name: &str) -> Option<SymId>
        ensures symbol { result ≡ symbol_named self.now.session.tree name.now }
        ensures inside { IfSome result (λ s. IsNodeOf self.now.session.tree (Vis s)) }
    {
        self.tree.find(name)
    }

    /// The reply to an edit that is refused: it changes no user value, and drops nothing.
    fn refuse(&self, refusal: Refusal) -> Reply
        ensures reply { result ≡ Reply.Refused refusal }
        ensures edits { EditsKept self.now self.now }
    {
        self.facts();
        Reply::Refused(refusal)
    }

    #[tactic(auto, using(crate::proofs::Outcomes::unknown_applied, crate::proofs::Outcomes::symbol_applied))]
    fn set(&mut self, name: &str, value: &str) -> Reply
        ensures applied { IsApplied self.old.session (Command.Set name.now value.now) result self.new.session }
        ensures edits { EditsKept self.old self.new }
    {
        match self.find(name) {
            Some(symbol) => self.set_symbol(symbol, value),
            None => self.refuse(Refusal::UndefinedSymbol),
        }
    }

    /// Gives a symbol a value, or makes it the chosen member of its choice.
    #[tactic(auto, using(crate::proofs::Outcomes::member_outcome, crate::proofs::Outcomes::free_outcome))]
    fn set_symbol(&mut self, symbol: SymId, value: &str) -> Reply
        requires { IsNodeOf self.old.session.tree (Vis symbol) }
        ensures outcome { IsOutcome self.old.session (set_symbol self.old.session value.now symbol) result self.new.session }
        ensures edits { EditsKept self.old self.new }
    {
        match self.tree.choice_of(symbol) {
            Some(choice) => self.set_member(symbol, choice, value),
            None => self.set_value(symbol, value),
        }
    }

    /// Makes a member of a choice the chosen one.
    fn set_member(&mut self, member: SymId, choice: ChoiceId, value: &str) -> Reply
        ensures reply { result ≡ (set_member self.old.session member choice value.now).reply }
        ensures session { self.new.session ≡ with_user self.old.session (set_member self.old.session member choice value.now).user }
        ensures edits { EditsKept self.old self.new }
    {
        if value == "y" {
            self.choose(choice, Some(member));
            done(self.alloc)
        } else {
            self.refuse(Refusal::BadMemberValue)
        }
    }

    /// Gives a symbol that is no member a value.
    #[tactic(auto, using(crate::proofs::Outcomes::value_refused, crate::proofs::Outcomes::value_kept, crate::proofs::Outcomes::value_starved, crate::proofs::Spelling::spelled_fits))]
    fn set_value(&mut self, symbol: SymId, value: &str) -> Reply
        requires inside { IsNodeOf self.old.session.tree (Vis symbol) }
        requires alone { choice_of self.old.session.tree symbol ≡ None }
        ensures outcome { IsOutcome self.old.session (set_value self.old.session symbol value.now) result self.new.session }
        ensures edits { EditsKept self.old self.new }
    {
        match value_of(self.alloc, self.tree.symbol_type(symbol), value) {
            Ok(Some(value)) => {
                self.edit(Change::Value(symbol, Some(value)));
                done(self.alloc)
            }
            Ok(None) => self.refuse(Refusal::BadValue),
            Err(_) => self.refuse(Refusal::NoMemory),
        }
    }

    fn unset(&mut self, name: &str) -> Reply
        ensures reply { result ≡ (unset_outcome self.old.session name.now).reply }
        ensures session { self.new.session ≡ with_user self.old.session (unset_outcome self.old.session name.now).user }
        ensures edits { EditsKept self.old self.new }
    {
        match self.find(name) {
            Some(symbol) => self.unset_symbol(symbol),
            None => self.refuse(Refusal::UndefinedSymbol),
        }
    }

    /// Removes the value of a symbol, or leaves its choice without a chosen member where that is this one.
    fn unset_symbol(&mut self, symbol: SymId) -> Reply
        requires { IsNodeOf self.old.session.tree (Vis symbol) }
        ensures reply { result ≡ (unset_symbol self.old.session symbol).reply }
        ensures session { self.new.session ≡ with_user self.old.session (unset_symbol self.old.session symbol).user }
        ensures edits { EditsKept self.old self.new }
    {
        match self.tree.choice_of(symbol) {
            Some(choice) => self.unset_member(symbol, choice),
            None => {
                self.edit(Change::Value(symbol, None));
                done(self.alloc)
            }
        }
    }

    /// Leaves a choice without a chosen member, where this one is chosen.
    fn unset_member(&mut self, member: SymId, choice: ChoiceId) -> Reply
        ensures reply { result ≡ Reply.Done [] }
        ensures session { self.new.session ≡ with_user self.old.session (unchosen self.old.session.user member choice) }
        ensures edits { EditsKept self.old self.new }
    {
        if !is_chosen(&self.user, member, choice) {
            self.facts();
            return done(self.alloc);
        }
        self.choose(choice, None);
        done(self.alloc)
    }

    /// Removes all values and chosen members, which takes no memory.
    fn reset(&mut self) -> Reply
        ensures reply { result ≡ (reset_outcome self.old.session).reply }
        ensures session { self.new.session ≡ with_user self.old.session (reset_outcome self.old.session).user }
        ensures edits { EditsKept self.old self.new }
    {
        self.edit(Change::All(NewUser::Nothing));
        done(self.alloc)
    }

    /// Loads a body: what its lines mean, and the lines about its warnings. Both are there before anything changes.
    #[tactic(auto, using(crate::proofs::Outcomes::load_refused, crate::proofs::Outcomes::load_done))]
    fn load(&mut self, load: Load, body: &[u8]) -> Reply
        ensures outcome { IsOutcome self.old.session (load_outcome self.old.session load body.now) result self.new.session }
        ensures edits { EditsKept self.old self.new }
        ensures unfed { HasNoFeeds self.old.session.user → HasNoFeeds self.new.session.user }
    {
        match self.read(body) {
            Ok((assigns, warnings)) => self.load_read(load, assigns, warnings),
            Err(refusal) => self.refuse(refusal),
        }
    }

    /// Loads what was read of a body.
    fn load_read(&mut self, load: Load, assigns: Vec<Assign>, warnings: String) -> Reply
        requires fitting { All (IsAssignFor self.old.session.tree) assigns.items }
        requires unfed { All IsUnfed assigns.items }
        ensures reply { (result ≡ Reply.Done (string_bytes warnings)) ⊎ (result ≡ Reply.Refused Refusal.NoMemory) }
        ensures done { result ≡ Reply.Done (string_bytes warnings)
            → self.new.session ≡ with_user self.old.session (user_after self.old.session.tree self.old.session.user load assigns.items) }
        ensures refused { result ≡ Reply.Refused Refusal.NoMemory → self.new ≡ self.old }
        ensures edits { EditsKept self.old self.new }
        ensures unfed { HasNoFeeds self.old.session.user → HasNoFeeds self.new.session.user }
    {
        match self.load_assigns(load, assigns) {
            Ok(()) => Reply::Done(Text::new(warnings)),
            Err(_) => Reply::Refused(Refusal::NoMemory),
        }
    }

    /// The assignments of a body that count, and the lines about its warnings.
    ///
    /// The error comes where the body is too long, or memory was refused.
    fn read(&self, body: &[u8]) -> Result<(Vec<Assign>, String), Refusal>
        ensures fits { IfOk result (λ r. fits_body body.now ≡ true) }
        ensures assigns { IfOk result (λ r. r.0.items ≡ assigns_in self.now.session.tree self.now.session.prefix body.now) }
        ensures fitting { IfOk result (λ r. All (IsAssignFor self.now.session.tree) r.0.items) }
        ensures unfed { IfOk result (λ r. All IsUnfed r.0.items) }
        ensures warnings { IfOk result (λ r. string_bytes r.1 ≡ warnings_text_of self.now.session.tree self.now.session.prefix body.now) }
        ensures refusal { IfErr result (IsReadRefusal body.now) }
    {
        let (assigns, warnings) = read_body(self.alloc, &self.tree, &self.prefix, body)?;
        match warnings_text(self.alloc, warnings.as_slice()) {
            Ok(text) => Ok((assigns, text)),
            Err(_) => Err(Refusal::NoMemory),
        }
    }

    /// Gives each bool and each tristate a value that is no member of a choice, and removes all other values and all
    /// chosen members, which takes no memory.
    fn give_all(&mut self, all: AllValue) -> Reply
        ensures reply { result ≡ Reply.Done [] }
        ensures session { self.new.session ≡ with_user self.old.session (all_given self.old.session.tree all) }
        ensures edits { EditsKept self.old self.new }
    {
        self.edit(Change::All(NewUser::EachTri(all)));
        done(self.alloc)
    }

    fn show(&mut self, name: &str) -> Reply
        ensures reply { IsReplyTo result (show_outcome self.old.session name.now) }
        ensures session { self.new.session ≡ self.old.session }
        ensures asks { Asks (shown_nodes self.old.session.tree name.now) self.old result self.new }
    {
        match self.find(name) {
            Some(symbol) => self.show_symbol(symbol),
            None => Reply::Refused(Refusal::UndefinedSymbol),
        }
    }

    /// The line about a symbol.
    #[tactic(auto, using(crate::proofs::Outcomes::text_starved))]
    fn show_symbol(&mut self, symbol: SymId) -> Reply
        requires { IsNodeOf self.old.session.tree (Vis symbol) }
        ensures reply { IsReplyTo result (answer self.old.session (show_line_of self.old.session.tree self.old.session.user symbol)) }
        ensures session { self.new.session ≡ self.old.session }
        ensures asks { Asks (Vis symbol ∷ Val symbol ∷ []) self.old result self.new }
    {
        match self.fill_node(Node::Val(symbol)) {
            Ok(()) => text_reply(show_line(self.alloc, &self.solved(), symbol)),
            Err(_) => Reply::Refused(Refusal::NoMemory),
        }
    }

    #[tactic(auto, using(crate::proofs::Outcomes::text_starved, crate::proofs::AskedLaws::asks_refused, crate::proofs::AskedLaws::asks_these))]
    fn list(&mut self) -> Reply
        ensures reply { IsReplyTo result (list_outcome self.old.session) }
        ensures session { self.new.session ≡ self.old.session }
        ensures asks { Asks (symbol_nodes self.old.session.tree) self.old result self.new }
    {
        match self.fill_symbols() {
            Ok(()) => text_reply(list_text(self.alloc, &self.solved())),
            Err(_) => Reply::Refused(Refusal::NoMemory),
        }
    }

    #[tactic(auto, using(crate::proofs::Outcomes::text_starved, crate::proofs::AskedLaws::asks_refused, crate::proofs::AskedLaws::asks_these))]
    fn choices(&mut self) -> Reply
        ensures reply { IsReplyTo result (choices_outcome self.old.session) }
        ensures session { self.new.session ≡ self.old.session }
        ensures asks { Asks (choice_nodes self.old.session.tree) self.old result self.new }
    {
        match self.fill_choices() {
            Ok(()) => text_reply(choices_text(self.alloc, &self.solved())),
            Err(_) => Reply::Refused(Refusal::NoMemory),
        }
    }

    #[tactic(auto, using(crate::proofs::Outcomes::text_starved))]
    fn config(&mut self) -> Reply
        ensures reply { IsReplyTo result (config_outcome self.old.session) }
        ensures session { self.new.session ≡ self.old.session }
        ensures asks { Asks (all_nodes self.old.session.tree) self.old result self.new }
    {
        match self.fill_all() {
            Ok(()) => text_reply(config_text_over(
                self.alloc,
                self.solved().known(),
                &self.prefix,
                "",
            )),
            Err(_) => Reply::Refused(Refusal::NoMemory),
        }
    }

    #[tactic(auto, using(crate::proofs::Outcomes::text_starved))]
    fn header(&mut self) -> Reply
        ensures reply { IsReplyTo result (header_outcome self.old.session) }
        ensures session { self.new.session ≡ self.old.session }
        ensures asks { Asks (all_nodes self.old.session.tree) self.old result self.new }
    {
        match self.fill_all() {
            Ok(()) => text_reply(header_text_over(self.alloc, self.solved().known(), &self.prefix)),
            Err(_) => Reply::Refused(Refusal::NoMemory),
        }
    }

    #[tactic(auto, using(crate::proofs::Outcomes::text_starved))]
    fn defconfig(&mut self) -> Reply
        ensures reply { IsReplyTo result (defconfig_outcome self.old.session) }
        ensures enough { HasNoFeeds self.old.session.user → KeepsTheChanges self.old.session result }
        ensures session { self.new.session ≡ self.old.session }
        ensures asks { Asks (all_nodes self.old.session.tree) self.old result self.new }
    {
        match self.fill_all() {
            Ok(()) => text_reply(defconfig_text_over(self.alloc, &self.solved(), &self.prefix)),
            Err(_) => Reply::Refused(Refusal::NoMemory),
        }
    }

    #[tactic(auto, using(crate::proofs::Outcomes::text_starved))]
    fn new_list(&mut self) -> Reply
        ensures reply { IsReplyTo result (new_outcome self.old.session) }
        ensures session { self.new.session ≡ self.old.session }
        ensures asks { Asks (all_nodes self.old.session.tree) self.old result self.new }
    {
        match self.fill_all() {
            Ok(()) => text_reply(new_text_over(self.alloc, &self.solved(), &self.prefix)),
            Err(_) => Reply::Refused(Refusal::NoMemory),
        }
    }
}

/// Whether the user chose this member of a choice.
fn is_chosen(user: &User, member: SymId, choice: ChoiceId) -> bool
    ensures { result ≡ is_symbol (chosen_in user.now choice) member }
{
    user.chosen(choice) == Some(member)
}

/// The reply to an edit that was done: no text.
fn done(alloc: Global) -> Reply
    ensures { result ≡ Reply.Done [] }
{
    Reply::Done(Text::new(String::new(alloc)))
}

/// The reply to a query: its text, or that memory was refused.
fn text_reply(text: Result<String, AllocError>) -> Reply
    ensures text { IfOk text (λ t. result ≡ Reply.Done (string_bytes t)) }
    ensures starved { OnErr text (result ≡ Reply.Refused Refusal.NoMemory) }
{
    match text {
        Ok(text) => Reply::Done(Text::new(text)),
        Err(_) => Reply::Refused(Refusal::NoMemory),
    }
}
