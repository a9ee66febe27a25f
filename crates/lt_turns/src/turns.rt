ghost use Rattle.std.specs.Prelude.{◌≡◌, ◌<◌, None, ℕ, length, count_by, is_some, slice_index_or, slice_set, IfOk, if◌then◌else◌};
ghost use Rattle.lt_turns.specs.Turns.{IsFirst, IsNext};

use crate::places::{first_after_turn, first_of_all};
use crate::tree::{NO_TURN, first_after, player_of, rank_of, update};
use std::alloc::{AllocError, Global};
use std::marker::Model;

/// For each of a fixed number of players the number of its next turn, where it can act. The player with the least number
/// is the first one, and of two with the same number the lesser player.
pub struct Turns {
    numbers: Vec<Option<u64>>,
    // A tree over the players: node 1 is the root, nodes 2k and 2k + 1 stand below node k, and from the number of players
    // on each node is a player. Here is the rank of the first turn at or below each node, where its number is small
    // enough to have one.
    ranks: Vec<u64>,
    // How many players can act.
    count: u32,
}

impl Model for Turns {
    ghost use Rattle.std.specs.Prelude.{List, Option, ℕ};
    ghost use Rattle.lt_turns.specs.Turns.{IsTree};

    ghost Value = { List (Option ℕ) };

    ghost view = { λ t. t.numbers.items };

    ghost invariant = { λ t. IsTree t.numbers.items t.ranks.items t.count };
}

// Written out, so that all places which let the turns go call this.
impl Drop for Turns {
    fn drop(self) {
        let Turns {
            numbers,
            ranks,
            count: _,
        } = self;
        drop(numbers);
        drop(ranks);
    }
}

impl Turns {
    /// So many players, of which none can act.
    pub fn new(alloc: Global, players: u16) -> Result<Turns, AllocError>
        ensures players { IfOk result (λ turns. length turns ≡ players) }
        ensures none { IfOk result (λ turns. (player : ℕ) → slice_index_or turns player None ≡ None) }
    {
        let mut numbers = Vec::new(alloc);
        let mut ranks = Vec::new(alloc);
        for _ in 0..players {
            numbers.push(None)?;
            ranks.push(NO_TURN)?;
            ranks.push(NO_TURN)?;
        }
        Ok(Turns {
            numbers,
            ranks,
            count: 0,
        })
    }

    /// The number of the player's next turn, where it can act.
    pub fn number(&self, player: u16) -> Option<u64>
        requires { player < length self.now }
        ensures { result ≡ slice_index_or self.now player None }
    {
        self.numbers[usize::from(player)]
    }

    /// From now on the player has this number; with none it can't act.
    #[inline(always)]
    pub fn set(&mut self, player: u16, number: Option<u64>)
        requires { player < length self.old }
        ensures { self.new ≡ slice_set self.old player number }
    {
        let place = usize::from(player);
        self.count = self.count + one_if(number) - one_if(self.numbers[place]);
        self.numbers[place] = number;
        let leaf = self.numbers.len() + place;
        update(&mut self.ranks, leaf, rank_of(number, player));
    }

    /// The first player of those that can act.
    pub fn first(&self) -> Option<u16>
        ensures { IsFirst self.now result }
    {
        if self.numbers.is_empty() {
            return None;
        }
        match player_of(self.ranks[1]) {
            Some(player) => Some(player),
            None => first_of_all(&self.numbers),
        }
    }

    /// The first player of those that come after this one, which can act itself. Goes through all players.
    pub fn after(&self, player: u16) -> Option<u16>
        requires { player < length self.now }
        ensures { IsNext self.now player result }
    {
        let here = self.ranks[self.numbers.len() + usize::from(player)];
        if here == NO_TURN {
            return first_after_turn(&self.numbers, player);
        }
        match player_of(first_after(&self.ranks, here)) {
            Some(next) => Some(next),
            None => first_after_turn(&self.numbers, player),
        }
    }

    /// How many players can act.
    pub fn count(&self) -> u32
        ensures { result ≡ count_by is_some self.now }
    {
        self.count
    }
}

// 1 for a player that can act.
fn one_if(number: Option<u64>) -> u32
    ensures { result ≡ (if is_some number then 1 else 0) }
{
    match number {
        Some(_) => 1,
        None => 0,
    }
}
