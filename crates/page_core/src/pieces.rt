// An arena of pieces, which only grows.
ghost use Rattle.std.specs.Prelude.{◌≡◌, [], List, ℕ, IfOk, OnOk, ◌++◌};
ghost use Rattle.page_core.specs.Pieces.{text_at, texts_of, Keeps, HasText};

use crate::piece::Piece;
use crate::spelling::spell;
use idx_core::OutOfMemory;
use std::alloc::Global;

/// Pieces of text. A piece is named by its number; a number that is not there stands for no bytes.
#[derive(Drop)]
pub struct Pieces {
    alloc: Global,
    pieces: Vec<Piece>,
}

impl Pieces {
    /// No pieces.
    pub fn new(alloc: Global) -> Pieces
        ensures { texts_of result ≡ [] }
    {
        Pieces {
            alloc,
            pieces: Vec::new(alloc),
        }
    }

    /// A new piece with these bytes, by its number. Errors: want of memory.
    pub fn bytes(&mut self, bytes: Vec<u8>) -> Result<u64, OutOfMemory>
        ensures keeps { OnOk result (Keeps self.old self.new) }
        ensures stands { IfOk result (λ piece. HasText self.new piece bytes.items) }
    {
        let number = self.pieces.len() as u64;
        self.pieces.push(Piece::Bytes(bytes))?;
        Ok(number)
    }

    /// A new piece, by its number: the first of two pieces, and the second behind it. Errors: want of memory.
    pub fn joined(&mut self, first: u64, second: u64) -> Result<u64, OutOfMemory>
        ensures keeps { OnOk result (Keeps self.old self.new) }
        ensures stands { IfOk result (λ piece. (s t : List ℕ) → HasText self.old first s → HasText self.old second t →
            HasText self.new piece (s ++ t)) }
    {
        let number = self.pieces.len() as u64;
        self.pieces.push(Piece::Joined(first, second))?;
        Ok(number)
    }

    /// The text of a piece, in time by its length and the number of pieces in it, however deep these nest. Errors: want
    /// of memory.
    pub fn text(&self, piece: u64) -> Result<Vec<u8>, OutOfMemory>
        ensures { IfOk result (λ text. text.items ≡ text_at self.now piece) }
    {
        let text = spell(self.alloc, &self.pieces, piece)?;
        Ok(text)
    }
}
