//! What a session keeps: the values of nodes, which are evaluated when they are asked for the first time.
ghost use Rattle.std.specs.Prelude.{◌≡◌, ℕ, List, [], ◌∷◌, IfOk, IfErr, OnOk, IsOk};
ghost use Rattle.kc_files.specs.DefaultLoading.{HasNoFeeds};
ghost use Rattle.kc_files.specs.OneReading.{IsReadAs};
ghost use Rattle.kc_session.specs.Keeping.{symbol_nodes, choice_nodes, AreAllKept, EditsKept, Grew, GrewByLaws, KeepsAll, KeepsRight, KeepsUsed};
ghost use Rattle.kc_session.specs.Session.{new_session, new_state, IsSound};
ghost use Rattle.kc_tree.specs.Nodes.{IsNodeOf, all_nodes};
ghost use Rattle.kc_value.specs.Kept.{is_kept, IsKept};
ghost use Rattle.kc_value.specs.KeptLaws.{KeptLaws};
ghost use Rattle.kc_value.specs.Solution.{solution, AreSolved, IsOnlySolution};
ghost use Rattle.kc_value.specs.UserValues.{UserValues, IsUserFor};

use crate::session::Session;
use kc_files::Prefix;
use kc_tree::{Node, Tree};
use kc_value::{KeptValues, Resolver, Solved, User, Value};
use std::alloc::{AllocError, Global};

impl Session {
    /// A session of a tree, without user values, with the prefix of the names in files. Its values are those of the only
    /// solution, also where its user values become others, and none is kept yet.
    ///
    /// # Errors
    ///
    /// Where memory was refused, with the tree and the prefix that were passed in.
    pub fn new(
        alloc: Global,
        tree: Tree,
        prefix: Prefix,
    ) -> Result<Session, (Tree, Prefix, AllocError)>
        ensures ok { IfOk result (λ s. s ≡ new_state (new_session tree prefix)) }
        ensures right { IfOk result KeepsRight }
        ensures used { IfOk result KeepsUsed }
        ensures unfed { IfOk result (λ s. HasNoFeeds s.session.user) }
        ensures solved { IfOk result (λ s. (u : UserValues) → IsOnlySolution s.session.tree u (solution s.session.tree u)) }
        ensures err { IfErr result (λ e. (e.0 ≡ tree) × (e.1 ≡ prefix)) }
    {
        match User::empty(alloc, &tree) {
            Ok(user) => Session::with_user(alloc, tree, user, prefix),
            Err(fault) => Err((tree, prefix, fault)),
        }
    }

    /// A session of a tree with user values. Nothing is kept yet.
    ///
    /// # Errors
    ///
    /// Where memory was refused, with the tree and the prefix that were passed in.
    pub(crate) fn with_user(
        alloc: Global,
        tree: Tree,
        user: User,
        prefix: Prefix,
    ) -> Result<Session, (Tree, Prefix, AllocError)>
        requires { IsUserFor tree user }
        ensures ok { IfOk result (λ s. s ≡ new_state (record { tree = tree; user = user; prefix = prefix })) }
        ensures right { IfOk result KeepsRight }
        ensures used { IfOk result KeepsUsed }
        ensures solved { IfOk result (λ s. (u : UserValues) → IsOnlySolution s.session.tree u (solution s.session.tree u)) }
        ensures bodies { IfOk result (λ s. (body : List ℕ) → IsReadAs s.session.tree s.session.prefix body) }
        ensures err { IfErr result (λ e. (e.0 ≡ tree) × (e.1 ≡ prefix)) }
    {
        match KeptValues::new(alloc, &tree) {
            Ok(kept) => {
                let session = Session {
                    alloc,
                    tree,
                    user,
                    kept,
                    prefix,
                };
                session.facts();
                Ok(session)
            }
            Err(fault) => Err((tree, prefix, fault)),
        }
    }

    /// What is true of a session, whatever was done before: what is kept is right; whatever the user values are, the tree
    /// has one solution, and no other; and each body has one reading. Besides, the laws of what is kept; by one of them an
    /// edit that changes no user value drops nothing.
    #[tactic(auto, using(crate::proofs::AskedLaws::used_kept))]
    pub(crate) fn facts(&self)
        ensures sound { IsSound self.now }
        ensures right { KeepsRight self.now }
        ensures used { KeepsUsed self.now }
        ensures solved { (u : UserValues) → IsOnlySolution self.now.session.tree u (solution self.now.session.tree u) }
        ensures bodies { (body : List ℕ) → IsReadAs self.now.session.tree self.now.session.prefix body }
        ensures laws { KeptLaws self.now.session.tree }
        ensures stays { EditsKept self.now self.now }
    {
        let _ = self.prefix.as_str();
    }

    /// Whether the value of a node is kept: it is the solution's then, a query of it evaluates nothing, and each node that
    /// it is computed from is kept, too.
    pub fn is_kept(&self, node: Node) -> bool
        ensures kept { result ≡ is_kept self.now.session.tree self.now.kept.values node }
        ensures right { KeepsRight self.now }
        ensures used { KeepsUsed self.now }
    {
        self.facts();
        self.kept.is_kept(&self.tree, node)
    }

    /// How many nodes were evaluated since the session began; from 2^64 - 1 on the count stays.
    pub fn evals(&self) -> u64
        ensures { result ≡ self.now.kept.evals }
    {
        self.kept.evals()
    }

    /// Evaluates all nodes, as far as they are not kept: each once, and the values are kept, also where memory is refused
    /// for others. Then `solved` has the value of each node.
    ///
    /// # Errors
    ///
    /// Where memory was refused.
    pub fn fill_all(&mut self) -> Result<(), AllocError>
        ensures grew { Grew (all_nodes self.old.session.tree) self.old self.new }
        ensures all { OnOk result (KeepsAll self.new) }
        ensures right { KeepsRight self.new }
    {
        self.kept.fill_all(self.alloc, &self.tree, &self.user)
    }

    /// Evaluates what a node is computed from, and the node, as far as it is not kept.
    ///
    /// The error comes where memory is refused. A node that is kept takes none.
    pub(crate) fn fill_node(&mut self, node: Node) -> Result<(), AllocError>
        requires inside { IsNodeOf self.old.session.tree node }
        ensures grew { Grew (node ∷ []) self.old self.new }
        ensures done { OnOk result (IsKept self.old.session.tree self.new.kept.values node) }
        ensures known { IsKept self.old.session.tree self.old.kept.values node → IsOk result }
        ensures sound { IsSound self.new }
        ensures tree { self.new.session.tree ≡ self.old.session.tree }
        ensures user { self.new.session.user ≡ self.old.session.user }
        ensures solved { IsOnlySolution self.old.session.tree self.old.session.user (solution self.old.session.tree self.old.session.user) }
        ensures fitting { IsUserFor self.old.session.tree self.old.session.user }
    {
        self.kept.fill(self.alloc, &self.tree, &self.user, node)
    }

    /// Evaluates the visibility and the value of each symbol, as far as they are not kept.
    ///
    /// The error comes where memory is refused.
    pub(crate) fn fill_symbols(&mut self) -> Result<(), AllocError>
        ensures grew { Grew (symbol_nodes self.old.session.tree) self.old self.new }
        ensures done { OnOk result (AreAllKept (symbol_nodes self.old.session.tree) self.new) }
        ensures sound { IsSound self.new }
    {
        let count = 2 * self.tree.symbols().len();
        self.kept
            .fill_numbers(self.alloc, &self.tree, &self.user, 0, count)
    }

    /// Evaluates the mode and the selection of each choice, as far as they are not kept.
    ///
    /// The error comes where memory is refused.
    pub(crate) fn fill_choices(&mut self) -> Result<(), AllocError>
        ensures grew { Grew (choice_nodes self.old.session.tree) self.old self.new }
        ensures done { OnOk result (AreAllKept (choice_nodes self.old.session.tree) self.new) }
        ensures sound { IsSound self.new }
    {
        let first = 2 * self.tree.symbols().len();
        let count = 2 * self.tree.choices().len();
        self.kept
            .fill_numbers(self.alloc, &self.tree, &self.user, first, count)
    }

    /// The tree with the user values and the values that are kept. They are the solution's: of all nodes where all are kept,
    /// as after `fill_all`.
    #[tactic(auto, using(crate::proofs::AskedLaws::kept_solved))]
    pub fn solved(&self) -> Solved<'_>
        ensures solved { result ≡ record { tree = self.now.session.tree; user = self.now.session.user; values = self.now.kept.values } }
        ensures all { KeepsAll self.now → AreSolved self.now.session.tree self.now.session.user self.now.kept.values }
        ensures only { IsOnlySolution self.now.session.tree self.now.session.user (solution self.now.session.tree self.now.session.user) }
        ensures right { KeepsRight self.now }
    {
        self.facts();
        Solved::of_kept(&self.tree, &self.user, self.kept.values())
    }

    /// The value of a node that is kept.
    fn value(&self, node: Node) -> &Value
        requires inside { IsNodeOf self.now.session.tree node }
        requires kept { IsKept self.now.session.tree self.now.kept.values node }
        ensures { result.now ≡ solution self.now.session.tree self.now.session.user node }
    {
        self.solved().value(node)
    }
}

impl Resolver for Session {
    ghost use Rattle.std.specs.Borrow.{sem};
    ghost use Rattle.std.specs.Io.BufRead.{Rests};
    ghost use Rattle.std.proofs.Common.{refl, sym, ap, ◌∙◌, subst};
    ghost use Rattle.kc_outline.specs.TreeValue.{TreeValue};
    ghost use Rattle.kc_session.specs.contracts.session.Session.{the_row};
    ghost use Rattle.kc_session.specs.Session.{SessionValue};
    ghost use Rattle.kc_value.specs.FillLaws.{FillLaws};
    ghost use Rattle.kc_value.specs.Kept.{Fills};

    ghost tree_of = { λ s. s.session.tree };

    ghost user_of = { λ s. s.session.user };

    ghost grew = { λ old new asked. GrewByLaws asked old new };

    ghost knows = { λ s n. IsKept s.session.tree s.kept.values n };

    ghost grew_nothing = { λ r. record { session = refl; stays = λ n inside kept. kept; fills = λ laws. laws.nothing r.kept } };

    ghost grew_then = { λ r s t p q g h.
        let same : s.session.tree ≡ r.session.tree = ap (λ (x : SessionValue). x.tree) g.session in
        record {
          session = h.session ∙ g.session;
          stays = λ n inside kept.
              subst (λ (x : TreeValue). IsKept x t.kept.values n) same
              (h.stays n (subst (λ (x : TreeValue). IsNodeOf x n) (sym same) inside)
              (subst (λ (x : TreeValue). IsKept x s.kept.values n) (sym same) (g.stays n inside kept)));
          fills = λ laws.
              laws.both p q r.kept s.kept t.kept (g.fills laws)
              (subst (λ (x : TreeValue). Fills x q s.kept t.kept) same (h.fills (subst (λ (x : TreeValue). FillLaws x) (sym same) laws)));
        } };

    ghost grew_wider = { λ r s p q wider g. record {
      session = g.session;
      stays = g.stays;
      fills = λ laws. laws.wider p q r.kept s.kept wider (g.fills laws);
    } };

    ghost knows_after = { λ r s p n inside known g.
        subst (λ (x : SessionValue). IsKept x.tree s.kept.values n) (sym g.session) (g.stays n inside known) };

    fn tree(&self) -> &Tree {
        &self.tree
    }

    fn user(&self) -> &User {
        &self.user
    }

    #[tactic(auto, using(crate::proofs::AskedLaws::grew_by_laws))]
    fn node(&mut self, node: Node) -> Result<&Value, AllocError>
        requires { IsNodeOf self.old.session.tree node }
        ensures value { IfOk result (λ v. v.now ≡ solution self.old.session.tree self.old.session.user node) }
        ensures solved { IsOnlySolution self.old.session.tree self.old.session.user (solution self.old.session.tree self.old.session.user) }
        ensures fitting { IsUserFor self.old.session.tree self.old.session.user }
        ensures right { KeepsRight self.old }
        ensures kept_before { IsKept self.old.session.tree self.old.kept.values node → IsOk result }
        ensures used { KeepsUsed self.old }
        ensures laws { KeptLaws self.old.session.tree }
        ensures* after_borrow { sem 𝓛 (Rests the_row self.entry (λ new.
            (new.session.tree ≡ self.old.session.tree) × (new.session.user ≡ self.old.session.user)
            × GrewByLaws (node ∷ []) self.old new × OnOk result (IsKept new.session.tree new.kept.values node))) }
    {
        self.facts();
        self.fill_node(node)?;
        Ok(self.value(node))
    }
}
