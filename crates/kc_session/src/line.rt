//! The one buffer that holds a line.
ghost use Rattle.std.specs.Prelude.{◌≡◌, ◌≤◌, ◌+◌, ℕ, List, [], ◌++◌, IfOk, IfErr, option_copied, length, ◌==◌};
ghost use Rattle.kc_session.specs.Held.{held_of, line_held, line_room, text_held};
ghost use Rattle.kc_session.specs.Stream.{fits_line, text_of_line, without_return};

use crate::fault::IoFault;
use std::alloc::Global;
use std::marker::Model;

/// The most bytes that a line may have, without its line end.
pub(crate) const LINE_LIMIT: usize = 65_536;

// A line of that length, a carriage return and a line feed.
const LINE_ROOM: usize = LINE_LIMIT + 2;

/// One line with its line end, as far as there is room for it. All its memory is there from the start.
#[derive(Drop)]
pub(crate) struct LineBuffer {
    bytes: Vec<u8>,
    is_cut: bool,
}

impl Model for LineBuffer {
    ghost use Rattle.std.specs.Prelude.{◌≤◌, vec_len, vec_capacity};
    ghost use Rattle.kc_session.specs.Held.{HeldLine, line_room};

    ghost Value = { HeldLine };

    ghost view = { λ line. record { kept = line.bytes.items; is_cut = line.is_cut } };

    ghost invariant = { λ line. (vec_len line.bytes ≤ line_room) × (line_room ≤ vec_capacity line.bytes) };
}

impl LineBuffer {
    /// A buffer without a byte, with the room for the longest line.
    ///
    /// # Errors
    ///
    /// `IoFault::Memory` where the memory was refused.
    pub(crate) fn new(alloc: Global) -> Result<Self, IoFault>
        ensures ok { IfOk result (λ line. line ≡ held_of []) }
        ensures err { IfErr result (λ fault. fault ≡ IoFault.Memory) }
    {
        match Vec::with_capacity(alloc, LINE_ROOM) {
            Ok(bytes) => Ok(LineBuffer {
                bytes,
                is_cut: false,
            }),
            Err(_) => Err(IoFault::Memory),
        }
    }

    /// Forgets the line that is held.
    pub(crate) fn clear(&mut self)
        ensures { self.new ≡ held_of [] }
    {
        self.bytes.clear();
        self.is_cut = false;
    }

    /// Whether the line that is held has no byte.
    pub(crate) fn is_empty(&self) -> bool
        ensures { result ≡ (length self.now.kept == 0) }
    {
        self.bytes.is_empty()
    }

    /// Appends bytes to the line; past the room for them, only that there were some.
    pub(crate) fn push(&mut self, bytes: &[u8])
        ensures { (line : List ℕ) → self.old ≡ held_of line → self.new ≡ held_of (line ++ bytes.now) }
    {
        let room = LINE_ROOM - self.bytes.len();
        if bytes.len() <= room {
            self.keep(bytes);
        } else {
            self.keep(&bytes[..room]);
            self.is_cut = true;
        }
    }

    // Appends bytes, for which there is room.
    fn keep(&mut self, bytes: &[u8])
        requires room { length self.old.kept + length bytes.now ≤ line_room }
        ensures kept { self.new.kept ≡ self.old.kept ++ bytes.now }
        ensures is_cut { self.new.is_cut ≡ self.old.is_cut }
    {
        match self.bytes.extend_from_slice(bytes) {
            Ok(()) => {}
            Err(_) => unreachable!(),
        }
    }

    /// The line with its line end, or `None` where it is too long.
    #[tactic(auto, unfolding(crate::specs::Held::line_held))]
    pub(crate) fn whole(&self) -> Option<&[u8]>
        ensures { option_copied result ≡ line_held self.now }
    {
        if self.is_cut {
            return None;
        }
        let line = self.bytes.as_slice();
        fits_line(line).then_some(line)
    }

    /// The line without its line end, or `None` where it is too long.
    #[tactic(auto, unfolding(crate::specs::Held::text_held))]
    pub(crate) fn text(&self) -> Option<&[u8]>
        ensures { option_copied result ≡ text_held self.now }
    {
        if self.is_cut {
            return None;
        }
        let text = without_line_end(self.bytes.as_slice());
        (text.len() <= LINE_LIMIT).then_some(text)
    }
}

/// Whether a line with its line end is not too long.
pub(crate) fn fits_line(line: &[u8]) -> bool
    ensures { result ≡ fits_line line.now }
{
    without_line_end(line).len() <= LINE_LIMIT
}

// The line without its line feed and the one carriage return before it.
#[tactic(auto, unfolding(crate::specs::Stream::text_of_line))]
fn without_line_end(line: &[u8]) -> &[u8]
    ensures { result.now ≡ text_of_line line.now }
{
    match line {
        [text @ .., b'\n'] => without_return(text),
        _ => line,
    }
}

// The text without the one carriage return at its end, where there is one.
fn without_return(text: &[u8]) -> &[u8]
    ensures { result.now ≡ without_return text.now }
{
    match text {
        [rest @ .., b'\r'] => rest,
        _ => text,
    }
}
