//! Bodies that are merged one after the other, and the `.config` after them.
ghost use Rattle.std.specs.Prelude.{◌≡◌, ℕ, List, true, IfOk, IfErr, OnOk};
ghost use Rattle.kc_value.specs.Solution.{solution, IsOnlySolution};
ghost use Rattle.kc_value.specs.UserValues.{UserValues};
ghost use Rattle.kc_files.specs.DefaultLoading.{HasNoFeeds};
ghost use Rattle.kc_files.specs.Loading.{user_after};
ghost use Rattle.kc_files.specs.OneReading.{assigns_in, IsReadAs};
ghost use Rattle.kc_files.specs.declared.loading.Load.TheVariants.{Merge};
ghost use Rattle.kc_session.specs.Bodies.{fits_body, IsReadRefusal};
ghost use Rattle.kc_session.specs.Keeping.{KeepsAll, KeepsRight};
ghost use Rattle.kc_session.specs.MergedBodies.{config_of, session_merged, AreMerged, IsMergeFault};
ghost use Rattle.kc_session.specs.Session.{with_user};

use crate::body::Body;
use crate::command::{Command, Refusal, Reply};
use crate::session::Session;
use kc_text::Text;

/// Why bodies were not merged.
#[derive(Clone, Copy, Debug, PartialEq, Eq)]
pub enum MergeFault {
    /// The body of this index was refused: it is too long, or memory was refused. Those before it were merged.
    Body(usize, Refusal),
    /// Memory was refused for the text. All bodies were merged.
    NoMemory,
}

/// Merges a body. A refusal changes no user value.
#[tactic(auto, using(crate::proofs::MergedLaws::merge_refused, crate::proofs::MergedLaws::merge_stays))]
fn merge_one(session: &mut Session, body: &Body<'_>) -> Result<(), Refusal>
    ensures fits { OnOk result (fits_body body.now ≡ true) }
    ensures done { OnOk result (session.new.session ≡ with_user session.old.session
        (user_after session.old.session.tree session.old.session.user Merge (assigns_in session.old.session.tree session.old.session.prefix body.now))) }
    ensures refusal { IfErr result (IsReadRefusal body.now) }
    ensures stays { IfErr result (λ _. session.new.session ≡ session.old.session) }
    ensures right { KeepsRight session.new }
    ensures unfed { HasNoFeeds session.old.session.user → HasNoFeeds session.new.session.user }
{
    match session.apply(Command::Merge(Body::new(body.as_bytes()))) {
        Reply::Done(_text) => Ok(()),
        Reply::Refused(refusal) => Err(refusal),
    }
}

/// Merges bodies one after the other, up to the first that is refused.
#[tactic(auto, using(crate::proofs::MergedLaws::merged_none, crate::proofs::MergedLaws::refused_at, crate::proofs::MergedLaws::merged_all))]
fn merge_all(session: &mut Session, bodies: &[Body<'_>]) -> Result<(), MergeFault>
    ensures done { OnOk result (AreMerged session.old.session bodies.now session.new.session) }
    ensures fault { IfErr result (λ fault. IsMergeFault session.old.session bodies.now fault session.new.session) }
    ensures right { KeepsRight session.new }
    ensures unfed { HasNoFeeds session.old.session.user → HasNoFeeds session.new.session.user }
{
    session.facts();
    for (index, body) in bodies.iter().enumerate() {
        if let Err(refusal) = merge_one(session, body) {
            return Err(MergeFault::Body(index, refusal));
        }
    }
    Ok(())
}

/// The text of the `.config` after bodies were merged one after the other, as the commands `merge` of each and `config`
/// give it: the user values are those that each `merge` leaves for the next. All nodes are kept after it. A body is read
/// as its lines mean it, which is one way and no other, and user values without line feeds stay so.
///
/// # Errors
///
/// - `MergeFault::Body` with the index of the first body that was refused, as too long or since memory was refused.
/// - `MergeFault::NoMemory` where memory was refused for the text.
#[tactic(auto, using(crate::proofs::MergedLaws::merged_then, crate::proofs::MergedLaws::merged_text, crate::proofs::MergedLaws::config_keeps))]
pub fn merged(session: &mut Session, bodies: &[Body<'_>]) -> Result<Text, MergeFault>
    ensures done { OnOk result (AreMerged session.old.session bodies.now session.new.session) }
    ensures text { IfOk result (λ text. text ≡ config_of (session_merged session.old.session bodies.now)) }
    ensures fault { IfErr result (λ fault. IsMergeFault session.old.session bodies.now fault session.new.session) }
    ensures all { OnOk result (KeepsAll session.new) }
    ensures right { KeepsRight session.new }
    ensures solved { (u : UserValues) → IsOnlySolution session.old.session.tree u (solution session.old.session.tree u) }
    ensures bodies { (body : List ℕ) → IsReadAs session.old.session.tree session.old.session.prefix body }
    ensures unfed { HasNoFeeds session.old.session.user → HasNoFeeds session.new.session.user }
{
    session.facts();
    merge_all(session, bodies)?;
    session.facts();
    match session.apply(Command::Config) {
        Reply::Done(text) => Ok(text),
        Reply::Refused(_) => Err(MergeFault::NoMemory),
    }
}
