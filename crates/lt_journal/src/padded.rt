ghost use Rattle.std.specs.Prelude.{◌≡◌, ◌≤◌, ◌+◌, ◌++◌, [], ◌∷◌, IfSome};

use crate::page::Page;
use std::marker::Model;

/// Words at the front of a block of one size, with a line end behind them. They are written without asking how
/// long they are: the whole block is, and then the page is cut.
#[derive(Debug, Drop)]
pub(crate) struct Padded {
    block: [u8; 32],
    len: usize,
}

impl Model for Padded {
    ghost use Rattle.std.specs.Prelude.{◌≡◌, ◌<◌, ◌+◌, ◌++◌, [], ◌∷◌, List, ℕ, take};

    ghost Value = { List ℕ };

    ghost view = { λ p. take p.len p.block };

    ghost invariant = { λ p. (p.len < 32) × (take (p.len + 1) p.block ≡ take p.len p.block ++ 10 ∷ []) };
}

impl Padded {
    /// The words, if they are short enough.
    #[tactic(auto, using(crate::proofs::Blocks::front_kept, crate::proofs::Blocks::line_kept))]
    pub fn new(words: &[u8]) -> Option<Padded>
        ensures { IfSome result (λ p. p ≡ words.now) }
    {
        let len = words.len();
        if len >= 32 {
            return None;
        }
        let mut block = [0; 32];
        block[..len].copy_from_slice(words);
        block[len] = b'\n';
        Some(Padded { block, len })
    }

    /// Writes the words.
    #[inline(always)]
    pub fn write(&self, page: &mut Page)
        requires { 32 ≤ page.old.room }
        ensures text { page.new.text ≡ page.old.text ++ self.now }
        ensures room { page.old.room ≤ page.new.room + 32 }
    {
        page.put_front(&self.block, self.len);
    }

    /// Writes the words with a line end.
    #[inline(always)]
    pub fn write_line(&self, page: &mut Page)
        requires { 32 ≤ page.old.room }
        ensures { page.new.text ≡ page.old.text ++ self.now ++ 10 ∷ [] }
    {
        page.put_front(&self.block, self.len + 1);
    }
}
