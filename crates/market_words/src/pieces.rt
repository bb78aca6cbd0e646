//! The pieces of a text that is cut at a byte.

ghost use Rattle.std.specs.Prelude.{◌≡◌, [], ◌∷◌, ◌==◌, slice_index_or, position, MatchOption, MatchResult};
ghost use Rattle.market_words.specs.Words.{pieces};
ghost use Rattle.market_words.specs.Words.{pieces_left};

use crate::faults::WordFault;
use std::marker::Model;

/// What stands in front of the first byte c of a text, and what stands behind it where there is one.
#[tactic(auto, using(crate::proofs::Cutting::cut_there, crate::proofs::Cutting::cut_nowhere))]
pub fn cut(text: &[u8], c: u8) -> (&[u8], Option<&[u8]>)
    ensures { pieces c text.now ≡ result.0.now ∷ pieces_left c result.1 }
{
    match first(text, c) {
        Some(place) => (&text[..place], Some(&text[place + 1..])),
        None => (text, None),
    }
}

// The place of the first byte c.
fn first(text: &[u8], c: u8) -> Option<usize>
    ensures { result ≡ position (λ byte. byte == c) text.now }
{
    text.iter().position(|byte| *byte == c)
}

/// The pieces of a text, cut at each byte c, that are left to read. Contracts see the list of them.
#[derive(Drop)]
pub struct Pieces<'a> {
    cut_at: u8,
    rest: Option<&'a [u8]>,
}

impl<'a> Model for Pieces<'a> {
    ghost use Rattle.std.specs.Prelude.{ℕ, List};

    ghost Value = { List (List ℕ) };

    ghost use Rattle.market_words.specs.Words.{pieces_left};

    ghost view = { λ pieces. pieces_left pieces.cut_at pieces.rest };
}

impl<'a> Pieces<'a> {
    /// All pieces of a text.
    pub fn new(text: &'a [u8], cut_at: u8) -> Pieces<'a>
        ensures { result ≡ pieces cut_at text.now }
    {
        Pieces {
            cut_at,
            rest: Some(text),
        }
    }

    /// The next piece, if one is left.
    pub fn next(&mut self) -> Option<&'a [u8]>
        ensures { MatchOption result ((self.old ≡ [])
            × (self.new ≡ [])) (λ piece. self.old ≡ piece.now ∷ self.new) }
    {
        let (piece, behind) = cut(self.rest?, self.cut_at);
        self.rest = behind;
        Some(piece)
    }

    /// The next piece, where the form has one.
    pub fn take(&mut self) -> Result<&'a [u8], WordFault>
        ensures { MatchResult result (λ piece. self.old ≡ piece.now ∷ self.new) (λ fault. (self.old ≡ [])
            × (fault ≡ WordFault.Field)) }
    {
        self.next().ok_or(WordFault::Field)
    }

    /// The end, where the form has it.
    pub fn end(&mut self) -> Result<(), WordFault>
        ensures { MatchResult result (λ _. self.old
            ≡ []) (λ fault. (self.old ≡ slice_index_or self.old 0 [] ∷ self.new)
            × (fault ≡ WordFault.Field)) }
    {
        match self.next() {
            None => Ok(()),
            Some(_) => Err(WordFault::Field),
        }
    }
}
