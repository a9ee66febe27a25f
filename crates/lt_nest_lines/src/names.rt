ghost use Rattle.std.specs.Prelude.{◌≡◌, ◌<◌, ◌++◌, [], ◌∷◌, length, OnOk, OnErr, IfSome};
ghost use Rattle.lt_nest_lines.specs.Input.{place_of};
ghost use Rattle.lt_nest_lines.specs.Tags.{tag_of, IsNoneBefore};
ghost use Rattle.lt_nest_lines.specs.Play.{name_at};
ghost use Rattle.lt_nest_lines.specs.declared.limits.TheConstants.{MAX_TRANSACTIONS};

use crate::name::{Name, name_at};
use std::alloc::{AllocError, Global};
use std::marker::Model;

/// Names in order. A word is looked for among those from the first place of its tag on.
#[derive(Drop)]
pub(crate) struct Names {
    names: Vec<Name>,
    // For each tag a place before which no name has it.
    firsts: [u16; 1024],
}

impl Model for Names {
    ghost use Rattle.std.specs.Prelude.{ℕ, List};
    ghost use Rattle.lt_nest_lines.specs.Tags.{AreFirsts};

    ghost Value = { List (List ℕ) };

    ghost view = { λ n. n.names.items };

    ghost invariant = { λ n. AreFirsts n.firsts n.names.items };
}

impl Names {
    /// No name.
    #[tactic(auto, using(crate::proofs::Tags::no_firsts))]
    pub fn new(alloc: Global) -> Names
        ensures { result ≡ [] }
    {
        Names {
            names: Vec::new(alloc),
            firsts: [u16::MAX; 1024],
        }
    }

    /// How many names there are.
    pub fn len(&self) -> usize
        ensures { result ≡ length self.now }
    {
        self.names.len()
    }

    /// The name at this place; empty where there is none.
    pub fn name(&self, k: usize) -> &[u8]
        ensures { result.now ≡ name_at self.now k }
    {
        name_at(&self.names, k)
    }

    /// The place of the word.
    #[tactic(auto, using(crate::proofs::Tags::none_before))]
    pub fn place_of(&self, word: &[u8]) -> Option<usize>
        ensures place { result ≡ place_of self.now word.now }
        ensures within { IfSome result (λ k. k < length self.now) }
    {
        let first = self.firsts[tag(word)];
        place_from(&self.names, usize::from(first), word)
    }

    /// Adds a name.
    #[tactic(auto, using(crate::proofs::Tags::named))]
    pub fn push(&mut self, alloc: Global, name: &[u8]) -> Result<(), AllocError>
        requires few { length self.old < MAX_TRANSACTIONS }
        ensures pushed { OnOk result (self.new ≡ self.old ++ name.now ∷ []) }
        ensures unchanged { OnErr result (self.new ≡ self.old) }
    {
        let k = self.names.len() as u16;
        let made = Name::new(alloc, name)?;
        self.names.push(made)?;
        let tag = tag(name);
        self.firsts[tag] = self.firsts[tag].min(k);
        Ok(())
    }
}

// A number below 1024 by which most words differ.
#[tactic(auto, using(crate::proofs::Tags::tag_more), unfolding(crate::specs::Tags::tag_of))]
fn tag(word: &[u8]) -> usize
    ensures tag { result ≡ tag_of word.now }
    ensures within { result < 1024 }
{
    let mut tag = 0;
    for byte in word {
        tag = (tag * 81 + usize::from(*byte)) % 1024;
    }
    tag
}

// The place of the word, which none before the first has.
#[tactic(auto, using(crate::proofs::Tags::none_here, crate::proofs::Tags::found_nowhere))]
fn place_from(names: &[Name], first: usize, word: &[u8]) -> Option<usize>
    requires before { IsNoneBefore first names.now word.now }
    ensures place { result ≡ place_of names.now word.now }
    ensures within { IfSome result (λ k. k < length names.now) }
{
    let mut k = first;
    while k < names.len() {
        if names[k].is(word) {
            return Some(k);
        }
        k += 1;
    }
    None
}
