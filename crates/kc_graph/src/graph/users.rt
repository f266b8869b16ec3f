//! The users of a graph's nodes: they are counted, and each is then put at a place of its row.

ghost use Rattle.std.specs.Prelude.{◌≡◌, ◌+◌, ◌<◌, ◌^◌, ◌∷◌, [], IfOk, ℕ, drop, length, replicate, slice_index, slice_set, sum, take};
ghost use Rattle.kc_graph.specs.Graph.{row};
ghost use Rattle.kc_graph.specs.Rows.{rows_in, AreEnds};
ghost use Rattle.kc_graph.specs.Users.{uses_in, AddsCounts};

use super::Graph;
use crate::rows::Rows;
use std::alloc::{AllocError, Global};

/// The uses in the row of a node are counted.
fn count_row(counts: &mut Vec<usize>, graph: &Graph<'_>, user: u32)
    requires inside { user < length graph.now }
    requires size { length counts.old.items ≡ length graph.now }
    requires few { sum counts.old.items + length (row graph.now user) < 2 ^ 63 }
    ensures { AddsCounts counts.old.items counts.new.items (row graph.now user) }
{
    let mut next = 0;
    while let Some(used) = graph.use_at(user, next) {
        counts[used as usize] += 1;
        next += 1;
    }
}

/// The result says how often each node of a graph is used. It fails where memory runs out.
fn use_counts(alloc: Global, graph: &Graph<'_>) -> Result<Vec<usize>, AllocError>
    ensures counts { IfOk result (λ counts. AddsCounts (replicate (length graph.now) 0) counts.items (uses_in graph.now)) }
    ensures few { IfOk result (λ counts. sum counts.items < 2 ^ 63) }
{
    let nodes = graph.len();
    let mut counts = vec![in alloc; 0; nodes]?;
    for user in 0..nodes as u32 {
        count_row(&mut counts, graph, user);
    }
    Ok(counts)
}

/// Each count becomes the sum of those before it, and the result is the sum of all.
fn sum_counts(counts: &mut Vec<usize>) -> usize
    requires { sum counts.old.items < 2 ^ 63 }
    ensures size { length counts.new.items ≡ length counts.old.items }
    ensures sums { (i : ℕ) → i < length counts.old.items → slice_index counts.new.items i ≡ sum (take i counts.old.items) }
    ensures total { result ≡ sum counts.old.items }
{
    let mut total = 0;
    for count in counts.iter_mut() {
        let before = total;
        total += *count;
        *count = before;
    }
    total
}

/// These are rows of users that are being filled.
#[derive(Drop)]
pub struct UserRows {
    /// The next user of each node is put at its place here. The places start as those of the first users, and once all
    /// users are there, each is the end of its node's row.
    places: Vec<usize>,

    /// These are the users of all nodes, those of each node after those of the nodes before it.
    users: Vec<u32>,
}

impl UserRows {
    ghost use Rattle.kc_graph.specs.Users.{users_of, AddsUser, HasRoomFor};

    /// The rows are empty, and have room for all uses of a graph. It fails where memory runs out.
    pub fn with_room(alloc: Global, graph: &Graph<'_>) -> Result<UserRows, AllocError>
        ensures size { IfOk result (λ rows. length rows.places.items ≡ length graph.now) }
        ensures room { IfOk result (λ rows. HasRoomFor rows (uses_in graph.now) (uses_in graph.now)) }
        ensures empty { IfOk result (λ rows. (q : ℕ) → users_of rows (uses_in graph.now) q ≡ []) }
    {
        let mut places = use_counts(alloc, graph)?;
        let total = sum_counts(&mut places);
        let users = vec![in alloc; 0; total]?;
        Ok(UserRows { places, users })
    }

    /// A user is put at the next place of a node.
    fn add_user(&mut self, used: u32, user: u32)
        requires inside { used < length self.old.places.items }
        requires place { slice_index self.old.places.items used < length self.old.users.items }
        ensures places { let place = slice_index self.old.places.items used in
            self.new.places.items ≡ slice_set self.old.places.items used (place + 1) }
        ensures users { let place = slice_index self.old.places.items used in
            self.new.users.items ≡ slice_set self.old.users.items place user }
    {
        let place = self.places[used as usize];
        self.users[place] = user;
        self.places[used as usize] = place + 1;
    }

    /// A node is added to the users of each node that it uses.
    pub fn add_uses(&mut self, graph: &Graph<'_>, user: u32)
        requires inside { user < length graph.now }
        requires size { length self.old.places.items ≡ length graph.now }
        requires room { HasRoomFor self.old (uses_in graph.now) (uses_in (drop user graph.now)) }
        ensures size { length self.new.places.items ≡ length graph.now }
        ensures room { HasRoomFor self.new (uses_in graph.now) (uses_in (drop (user + 1) graph.now)) }
        ensures added { let uses = uses_in graph.now in
            AddsUser (users_of self.old uses) (users_of self.new uses) (row graph.now user) user }
    {
        let mut next = 0;
        while let Some(used) = graph.use_at(user, next) {
            self.add_user(used, user);
            next += 1;
        }
    }

    /// The result is the rows as they are, once they are full.
    pub fn into_rows(self) -> Rows
        requires { AreEnds 0 self.places.items (length self.users.items) }
        ensures { result ≡ rows_in self.users.items self.places.items }
    {
        let UserRows { places, users } = self;
        Rows::of_ends(places, users)
    }
}
