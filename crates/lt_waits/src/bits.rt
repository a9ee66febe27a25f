// Sets of clients, a bit for each.
ghost use Rattle.std.specs.Prelude.{◌≡◌, ◌<◌, ◌≤◌, ◌*◌, ℕ, true, false, length, replicate, IfOk, IfSome, IfNone};
ghost use Rattle.lt_waits.specs.Bits.{row_has, words_for, OtherWaitersStand};

use std::alloc::{AllocError, Global};
use std::marker::Model;

/// Some of so many clients.
#[derive(Drop)]
pub(crate) struct Bits {
    words: Vec<u64>,
}

impl Model for Bits {
    ghost use Rattle.std.specs.Prelude.{◌≤◌, ℕ, List, length};

    ghost Value = { List ℕ };

    ghost view = { λ b. b.words.items };

    ghost invariant = { λ b. length b.words.items ≤ 1024 };
}

impl Bits {
    /// None of so many clients.
    pub fn none(alloc: Global, clients: u16) -> Result<Bits, AllocError>
        ensures words { IfOk result (λ bits. length bits ≡ words_for clients) }
        ensures none { IfOk result (λ bits. (client : ℕ) → client < 64 * words_for clients → row_has bits client
            ≡ false) }
    {
        Bits::filled(alloc, clients, 0)
    }

    /// All of so many clients.
    pub fn all(alloc: Global, clients: u16) -> Result<Bits, AllocError>
        ensures words { IfOk result (λ bits. length bits ≡ words_for clients) }
        ensures all { IfOk result (λ bits. (client : ℕ) → client < 64 * words_for clients → row_has bits client
            ≡ true) }
    {
        Bits::filled(alloc, clients, u64::MAX)
    }

    // The same word for each 64 clients.
    fn filled(alloc: Global, clients: u16, word: u64) -> Result<Bits, AllocError>
        ensures words { IfOk result (λ bits. bits ≡ replicate (words_for clients) word) }
    {
        let words = vec![in alloc; word; usize::from(clients / 64) + 1]?;
        Ok(Bits { words })
    }

    /// The client is in the set now.
    pub fn insert(&mut self, client: u16)
        requires { client < 64 * length self.old }
        ensures words { length self.new ≡ length self.old }
        ensures own { row_has self.new client ≡ true }
        ensures others { OtherWaitersStand client self.old self.new }
    {
        self.words[usize::from(client / 64)] |= 1 << (client % 64);
    }

    /// The client isn't in the set now.
    pub fn remove(&mut self, client: u16)
        requires { client < 64 * length self.old }
        ensures words { length self.new ≡ length self.old }
        ensures own { row_has self.new client ≡ false }
        ensures others { OtherWaitersStand client self.old self.new }
    {
        self.words[usize::from(client / 64)] &= !(1 << (client % 64));
    }

    /// A client that is in this set and in the other one.
    pub fn common(&self, other: &Bits) -> Option<u16>
        requires { length self.now ≡ length other.now }
        ensures some { IfSome result (λ client. (client < 64 * length self.now) × (row_has self.now client ≡ true)
            × (row_has other.now client ≡ true)) }
        ensures none { IfNone result ((client : ℕ) → client < 64 * length self.now → row_has other.now client ≡ true
            → row_has self.now client ≡ false) }
    {
        first_common(&self.words, &other.words)
    }
}

// The first number that has its bit in the first words and in the others.
fn first_common(words: &[u64], others: &[u64]) -> Option<u16>
    requires same { length words.now ≡ length others.now }
    requires few { length words.now ≤ 1024 }
    ensures some { IfSome result (λ number. (number < 64 * length words.now) × (row_has words.now number ≡ true)
        × (row_has others.now number ≡ true)) }
    ensures none { IfNone result ((number : ℕ) → number < 64 * length words.now → row_has others.now number ≡ true
        → row_has words.now number ≡ false) }
{
    for word in 0..words.len() {
        let both = words[word] & others[word];
        if both != 0 {
            let number = 64 * word + both.trailing_zeros() as usize;
            return Some(number as u16);
        }
    }
    None
}
