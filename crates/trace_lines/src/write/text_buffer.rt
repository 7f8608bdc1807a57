//! Text that is written piece by piece.
ghost use Rattle.std.specs.Prelude.{◌≡◌, ◌+◌, ◌≤◌, [], ◌∷◌, ◌++◌, length, take, vec_len, OnOk};

use std::alloc::{AllocError, Global};
use std::marker::Model;

// How many bytes are made ready at once.
const AHEAD: usize = 1_024;

static ZEROS: [u8; AHEAD] = [0; AHEAD];

/// Bytes that are written one after another. Behind them stands room that is ready, so that a piece costs one test.
#[derive(Drop)]
pub struct TextBuffer {
    bytes: Vec<u8>,
    // How many bytes at the front are written.
    len: usize,
}

impl Model for TextBuffer {
    ghost use Rattle.std.specs.Prelude.{◌≤◌, length, take};
    ghost use Rattle.trace_lines.specs.text.WrittenText.{WrittenText, written_code};

    ghost Value = { WrittenText };

    ghost coded = { written_code };

    ghost view = { λ b. record { items = take b.len b.bytes.items } };

    ghost invariant = { λ b. b.len ≤ length b.bytes.items };
}

impl TextBuffer {
    /// Nothing is written yet.
    pub fn new(alloc: Global) -> TextBuffer
        ensures { result.items ≡ [] }
    {
        TextBuffer {
            bytes: Vec::new(alloc),
            len: 0,
        }
    }

    /// How many bytes are written.
    pub fn len(&self) -> usize
        ensures { result ≡ length self.now.items }
    {
        self.len
    }

    /// What is written.
    pub fn as_slice(&self) -> &[u8]
        ensures { result.now ≡ self.now.items }
    {
        &self.bytes.as_slice()[..self.len]
    }

    /// Begins anew, in the same room.
    pub fn clear(&mut self)
        ensures { self.new.items ≡ [] }
    {
        self.len = 0;
    }

    /// What is written, as a list of its own.
    pub fn into_vec(self) -> Vec<u8>
        ensures { result.items ≡ self.items }
    {
        let TextBuffer { mut bytes, len } = self;
        bytes.truncate(len);
        bytes
    }

    /// Adds bytes.
    #[inline(always)]
    pub fn extend_from_slice(&mut self, other: &[u8]) -> Result<(), AllocError>
        ensures { OnOk result (self.new.items ≡ self.old.items ++ other.now) }
    {
        make_room(&mut self.bytes, self.len, other.len())?;
        self.len = put(self.bytes.as_mut_slice(), self.len, other);
        Ok(())
    }

    /// Adds bytes, and others behind them.
    #[inline(always)]
    pub fn extend_from_two(&mut self, front: &[u8], other: &[u8]) -> Result<(), AllocError>
        ensures { OnOk result (self.new.items ≡ self.old.items ++ (front.now ++ other.now)) }
    {
        make_room(&mut self.bytes, self.len, front.len() + other.len())?;
        let room = self.bytes.as_mut_slice();
        let start = put(room, self.len, front);
        self.len = put(room, start, other);
        Ok(())
    }

    /// Adds bytes, and a text in quotes behind them.
    #[inline(always)]
    #[tactic(auto, using(crate::proofs::texts::AddsLemmas::quoted_put))]
    pub fn add_quoted(&mut self, front: &[u8], text: &[u8]) -> Result<(), AllocError>
        ensures { OnOk result (self.new.items ≡ self.old.items ++ (front.now ++ 34 ∷ (text.now ++ 34 ∷ []))) }
    {
        let count = front.len().saturating_add(text.len() + 2);
        make_room(&mut self.bytes, self.len, count)?;
        let room = self.bytes.as_mut_slice();
        let quote = put(room, self.len, front);
        let start = put(room, quote, b"\"");
        let close = put(room, start, text);
        self.len = put(room, close, b"\"");
        Ok(())
    }

    /// Adds a byte.
    #[inline(always)]
    pub fn push(&mut self, byte: u8) -> Result<(), AllocError>
        ensures { OnOk result (self.new.items ≡ self.old.items ++ byte ∷ []) }
    {
        make_room(&mut self.bytes, self.len, 1)?;
        self.len = put(self.bytes.as_mut_slice(), self.len, &[byte]);
        Ok(())
    }
}

// Puts bytes behind the first `len`, and tells how many these are then.
#[inline(always)]
fn put(room: &mut [u8], len: usize, other: &[u8]) -> usize
    requires { len + length other.now ≤ length room.old }
    ensures front { take result room.new ≡ take len room.old ++ other.now }
    ensures len { length room.new ≡ length room.old }
    ensures end { result ≡ len + length other.now }
{
    let end = len + other.len();
    room[len..end].copy_from_slice(other);
    end
}

// Makes room for so many bytes behind what is written.
#[inline(always)]
fn make_room(bytes: &mut Vec<u8>, len: usize, count: usize) -> Result<(), AllocError>
    requires { len ≤ length bytes.old.items }
    ensures front { take len bytes.new.items ≡ take len bytes.old.items }
    ensures stays { len ≤ length bytes.new.items }
    ensures room { OnOk result (len + count ≤ length bytes.new.items) }
{
    if count <= bytes.len() - len {
        return Ok(());
    }
    grow(bytes, len, count)
}

#[cold]
#[inline(never)]
fn grow(bytes: &mut Vec<u8>, len: usize, count: usize) -> Result<(), AllocError>
    requires { len ≤ length bytes.old.items }
    ensures front { take len bytes.new.items ≡ take len bytes.old.items }
    ensures stays { len ≤ length bytes.new.items }
    ensures room { OnOk result (len + count ≤ length bytes.new.items) }
{
    while bytes.len() - len < count {
        bytes.extend_from_slice(&ZEROS)?;
    }
    Ok(())
}
