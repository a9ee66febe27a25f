// The move that a runner shows.
ghost use Rattle.std.specs.Prelude.{◌≡◌, IfSome, IsTrue};
ghost use Rattle.lt_spec.specs.Plays.{can_act};
ghost use Rattle.lt_node.specs.NodeData.{state_of};
ghost use Rattle.lt_runner.specs.Choices.{has_time, may_act, may_take, first_client, act_choice, next_choice};
ghost use Rattle.lt_runner.specs.Kept.{RunnerInvariant};
ghost use Rattle.lt_desk.specs.LetterSeen.{letter_seen};

use crate::parts::Parts;
use lt_core::LAST_CLOCK;
use lt_desk::Letter;
use lt_node::Node;

/// The move that a runner shows.
#[derive(Clone, Copy, Debug, PartialEq, Eq)]
pub enum Choice {
    Nothing,
    /// The next command of this client.
    Act(u16),
    /// The letter in hand is taken.
    Take,
}

/// The move that this runner shows: the letter in hand, or where there is none or it doesn't fit, a client's command.
#[inline(always)]
pub(crate) fn choose(parts: &Parts) -> Choice
    requires { RunnerInvariant parts.now }
    ensures { result ≡ next_choice parts.now }
{
    match &parts.hand {
        Some(hand) if may_take(&parts.node, &hand.letter) => Choice::Take,
        _ if parts.idle => Choice::Nothing,
        _ => act_choice(&parts.node),
    }
}

#[inline(always)]
fn has_time(node: &Node) -> bool
    ensures { result ≡ has_time (state_of node.now) }
{
    node.clock() < LAST_CLOCK
}

#[tactic(auto, using(crate::proofs::ChoiceLemmas::fitting_set))]
fn may_take(node: &Node, letter: &Letter) -> bool
    ensures { result ≡ may_take node.now.script node.now.me (state_of node.now) (letter_seen letter.now) }
{
    has_time(node) && (node.fits(letter) && node.leaves_room_to_take(letter))
}

fn may_act(node: &Node, client: u16) -> bool
    requires { IsTrue (can_act node.now.script node.now.me (state_of node.now) client) }
    ensures { result ≡ may_act node.now.script (state_of node.now) client }
{
    has_time(node) && node.leaves_room_to_act(client)
}

// Most often no client can act, and then nothing else is asked.
fn act_choice(node: &Node) -> Choice
    ensures { result ≡ act_choice node.now.script node.now.me (state_of node.now) }
{
    match first_client(node) {
        Some(client) if may_act(node, client) => Choice::Act(client),
        _ => Choice::Nothing,
    }
}

#[tactic(auto, using(crate::proofs::ChoiceLemmas::least_is, crate::proofs::ChoiceLemmas::least_can))]
fn first_client(node: &Node) -> Option<u16>
    ensures first { result ≡ first_client node.now.script node.now.me (state_of node.now) }
    ensures can { IfSome result (λ client. IsTrue (can_act node.now.script node.now.me (state_of node.now) client)) }
{
    node.first_runnable()
}
