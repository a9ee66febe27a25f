// Letters go from the list of those that wait into the rings.
ghost use Rattle.std.specs.Prelude.{◌≡◌, ◌<◌, ℕ, true, false, length, replicate, vec_len, IsTrue, IsFalse};
ghost use Rattle.lt_mail.specs.Passing.{is_tried, is_held, HasPlace, IsFullEnd, EndChanges, Looks, GivesOne, Passed};

use crate::lane::OutEnd;
use lt_desk::{Letter, Post};
use std::collections::VecDeque;

/// Gives the rings the letters that wait, in order, while they have places: all letters, or those to one node alone.
///
/// Once a ring had no place, the later letters to its node stay too.
#[tactic(auto, using(crate::proofs::FlushLemmas::none_waits))]
#[inline(always)]
pub(crate) fn pass(outs: &mut Vec<OutEnd>, waiting: &mut VecDeque<Post>, only: Option<u8>)
    ensures { Passed only outs.old.items waiting.old.items outs.new.items waiting.new.items }
{
    if !waiting.is_empty() {
        pass_waiting(outs, waiting, only);
    }
}

#[inline(never)]
fn pass_waiting(outs: &mut Vec<OutEnd>, waiting: &mut VecDeque<Post>, only: Option<u8>)
    ensures { Passed only outs.old.items waiting.old.items outs.new.items waiting.new.items }
{
    if waiting.len() == 1 {
        pass_one(outs, waiting, only);
    } else {
        pass_all(outs, waiting, only);
    }
}

// Most often no letter or one waits, and then the marks aren't made.
#[tactic(auto, using(crate::proofs::FlushLemmas::none_waits))]
fn pass_one(outs: &mut Vec<OutEnd>, waiting: &mut VecDeque<Post>, only: Option<u8>)
    requires { length waiting.old.items ≡ 1 }
    ensures { Passed only outs.old.items waiting.old.items outs.new.items waiting.new.items }
{
    let Some(post) = waiting.pop_front() else {
        return;
    };
    let to = usize::from(post.to);
    if !is_tried(only, post.to) {
        waiting.push_back_reserved(post);
    } else if can_give(outs, to, false) {
        give(outs, to, post.letter);
    } else {
        waiting.push_back_reserved(post);
    }
}

#[tactic(auto, using(crate::proofs::PassLemmas::first_passed, crate::proofs::FlushLemmas::all_passed))]
#[inline(never)]
fn pass_all(outs: &mut Vec<OutEnd>, waiting: &mut VecDeque<Post>, only: Option<u8>)
    ensures { Passed only outs.old.items waiting.old.items outs.new.items waiting.new.items }
{
    let mut held = [false; 256];
    let mut left = waiting.len();
    while left > 0 {
        left -= 1;
        let Some(post) = waiting.pop_front() else {
            return;
        };
        let to = usize::from(post.to);
        if !is_tried(only, post.to) {
            waiting.push_back_reserved(post);
        } else if can_give(outs, to, held[to]) {
            give(outs, to, post.letter);
        } else {
            held[to] = true;
            waiting.push_back_reserved(post);
        }
    }
}

fn is_tried(only: Option<u8>, to: u8) -> bool
    ensures { result ≡ is_tried only to }
{
    match only {
        None => true,
        Some(node) => node == to,
    }
}

// Whether the ring to the node has a place. It doesn't look where the node's letters are held back.
fn can_give(outs: &mut Vec<OutEnd>, to: usize, held: bool) -> bool
    ensures looked { EndChanges Looks outs.old.items outs.new.items to }
    ensures place { IsTrue result → HasPlace outs.new.items to }
    ensures free { IsTrue result → held ≡ false }
    ensures full { IsFalse result → held ≡ false → IsFullEnd outs.new.items to }
    ensures same { held ≡ true → outs.new.items ≡ outs.old.items }
{
    if held || to >= outs.len() {
        return false;
    }
    let end = &mut outs[to];
    end.has_place()
}

fn give(outs: &mut Vec<OutEnd>, to: usize, letter: Letter)
    requires { HasPlace outs.old.items to }
    ensures { EndChanges (GivesOne letter) outs.old.items outs.new.items to }
{
    let end = &mut outs[to];
    end.give(letter);
}
