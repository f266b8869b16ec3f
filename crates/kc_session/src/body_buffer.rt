//! The buffer that holds the body of a load.
ghost use Rattle.std.specs.Prelude.{◌≡◌, ◌≤◌, ◌+◌, ℕ, List, [], ◌∷◌, ◌++◌, length, true, Ok, Err, IfOk, IfErr};
ghost use Rattle.kc_session.specs.Bodies.{body_limit};
ghost use Rattle.kc_session.specs.Held.{held_of};
ghost use Rattle.kc_session.specs.HeldBody.{HoldsLines, body_held};
ghost use Rattle.kc_session.specs.Stream.{fits_line};

use crate::body::BODY_LIMIT;
use crate::command::Refusal;
use crate::line::LineBuffer;
use std::alloc::Global;
use std::marker::Model;

/// The lines of a body, as far as they are not too long and memory is there. Its memory is kept for the next body.
#[derive(Drop)]
pub(crate) struct BodyBuffer {
    bytes: Vec<u8>,
    /// The bytes of all lines, also where they were not kept.
    length: usize,
    /// Why the body can't be loaded.
    refusal: Option<Refusal>,
}

impl Model for BodyBuffer {
    ghost use Rattle.std.specs.Prelude.{◌≤◌};
    ghost use Rattle.kc_session.specs.Bodies.{body_limit};
    ghost use Rattle.kc_session.specs.HeldBody.{HeldBody};

    ghost Value = { HeldBody };

    ghost view = { λ body. record { bytes = body.bytes.items; size = body.length; refusal = body.refusal } };

    ghost invariant = { λ body. body.length ≤ body_limit };
}

impl BodyBuffer {
    /// A buffer without a line, which takes no memory.
    pub(crate) fn new(alloc: Global) -> Self {
        BodyBuffer {
            bytes: Vec::new(alloc),
            length: 0,
            refusal: None,
        }
    }

    /// Forgets the body that is held.
    #[tactic(auto, using(crate::proofs::BodyHolding::held_nothing))]
    pub(crate) fn clear(&mut self)
        ensures { HoldsLines self.new [] }
    {
        self.bytes.clear();
        self.length = 0;
        self.refusal = None;
    }

    /// Puts one more line after the others. A line that is too long makes the body too long, and so does one past the
    /// most bytes of a body, whether the others were kept or not.
    #[tactic(auto, using(crate::proofs::BodyHolding::pushed_line, crate::proofs::BodyHolding::pushed_long))]
    pub(crate) fn push_line(&mut self, line: &LineBuffer)
        ensures { (lines : List (List ℕ)) (bytes : List ℕ) → HoldsLines self.old lines → line.now ≡ held_of bytes
            → HoldsLines self.new (lines ++ bytes ∷ []) }
    {
        match line.whole() {
            Some(bytes) => self.push(bytes),
            None => self.refusal = Some(Refusal::TooLong),
        }
    }

    /// Puts one more line after the others, which itself is not too long.
    #[tactic(auto, using(crate::proofs::BodyHolding::held_past))]
    fn push(&mut self, line: &[u8])
        ensures { (lines : List (List ℕ)) → HoldsLines self.old lines → fits_line line.now ≡ true
            → HoldsLines self.new (lines ++ line.now ∷ []) }
    {
        if line.len() > BODY_LIMIT - self.length {
            self.refusal = Some(Refusal::TooLong);
            return;
        }
        self.keep(line);
    }

    /// Puts one more line after the others, for which there is room.
    #[tactic(auto, using(crate::proofs::BodyHolding::held_counted, crate::proofs::BodyHolding::held_kept, crate::proofs::BodyHolding::held_starved))]
    fn keep(&mut self, line: &[u8])
        requires room { self.old.size + length line.now ≤ body_limit }
        ensures { (lines : List (List ℕ)) → HoldsLines self.old lines → fits_line line.now ≡ true
            → HoldsLines self.new (lines ++ line.now ∷ []) }
    {
        self.length += line.len();
        if self.refusal.is_some() {
            return;
        }
        match self.bytes.extend_from_slice(line) {
            Ok(()) => {}
            Err(_) => self.refusal = Some(Refusal::NoMemory),
        }
    }

    /// The stream has fewer lines.
    pub(crate) fn end_early(&mut self)
        ensures { body_held self.new ≡ Err Refusal.BadLineCount }
    {
        self.refusal = Some(Refusal::BadLineCount);
    }

    /// The bytes of all lines, or why the body can't be loaded.
    pub(crate) fn content(&self) -> Result<&[u8], Refusal>
        ensures ok { IfOk result (λ bytes. body_held self.now ≡ Ok bytes.now) }
        ensures err { IfErr result (λ refusal. body_held self.now ≡ Err refusal) }
    {
        match self.refusal {
            Some(refusal) => Err(refusal),
            None => Ok(self.bytes.as_slice()),
        }
    }
}
