ghost use Rattle.std.specs.Prelude.{◌≡◌, ◌<◌, ◌^◌, length, IfSome, None, slice_get, option_map};
ghost use Rattle.lt_spec.specs.FixedOrder.{pick, takes, count_acts, next_act, act_after, act_turn};
ghost use Rattle.lt_world.specs.Fields.{IsRunnable, world_of};
ghost use Rattle.lt_world.specs.Choice.{choice_of};

use super::World;
use crate::choice::Choice;
use lt_modes::Step;

// The order of the enabled moves.
impl World {
    // The enabled move at place `k`.
    #[tactic(auto, using(crate::proofs::Picks::takes_before))]
    pub(super) fn turn_at(&self, k: u32) -> Option<Choice>
        ensures { result ≡ option_map choice_of (pick self.now.script (world_of self.now) k) }
    {
        if let Some(choice) = self.take_at(k) {
            return Some(choice);
        }
        // At the first place there is no take to be counted.
        let takes = if k > 0 { self.count_takes() } else { 0 };
        self.act_at(k - takes)
    }

    // The number of enabled takes.
    pub(super) fn count_takes(&self) -> u32
        ensures count { result ≡ length (takes self.now.script (world_of self.now)) }
        ensures few { result < 2 ^ 16 }
    {
        self.network.inboxes.count_takes()
    }

    // The number of clients that can act.
    pub(super) fn count_acts(&self) -> u32
        ensures count { result ≡ count_acts self.now.script (world_of self.now) }
        ensures few { result < 2 ^ 16 }
    {
        self.turns.count()
    }

    // The take at place `k`, by receiver and then by sender.
    fn take_at(&self, k: u32) -> Option<Choice>
        ensures { result ≡ option_map choice_of (slice_get (takes self.now.script (world_of self.now)) k) }
    {
        let take = self.network.inboxes.take_at(k)?;
        Some(Choice {
            node: take.receiver,
            step: Step::Take(take.sender),
        })
    }

    // The act at place `k`.
    fn act_at(&self, k: u32) -> Option<Choice>
        ensures { result ≡ option_map choice_of (option_map (act_turn self.now.script) (act_after self.now.script (world_of self.now) None k)) }
    {
        let client = self.client_at(k)?;
        Some(Choice {
            node: self.script.home(client),
            step: Step::Act(client),
        })
    }

    // The client that acts at place `k`.
    #[tactic(auto, using(crate::proofs::TurnOrder::act_after_next, crate::proofs::TurnOrder::act_after_none))]
    fn client_at(&self, k: u32) -> Option<u16>
        ensures client { result ≡ act_after self.now.script (world_of self.now) None k }
        ensures runnable { IfSome result (IsRunnable self.now) }
    {
        let mut earlier = None;
        let mut left = k;
        while left > 0 {
            match self.next_act(earlier) {
                Some(client) => earlier = Some(client),
                None => return None,
            }
            left -= 1;
        }
        self.next_act(earlier)
    }

    // The first runnable client after this one, or of all where there is none, in the order of moves.
    fn next_act(&self, earlier: Option<u16>) -> Option<u16>
        requires { IfSome earlier (IsRunnable self.now) }
        ensures next { result ≡ next_act self.now.script (world_of self.now) earlier }
        ensures runnable { IfSome result (IsRunnable self.now) }
    {
        match earlier {
            None => self.turns.first(),
            Some(client) => self.turns.after(client),
        }
    }
}
