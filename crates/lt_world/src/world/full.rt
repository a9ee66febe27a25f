ghost use Rattle.std.specs.Prelude.{◌≡◌, ◌<◌, ℕ, None, length, IsTrue, IsNone};
ghost use Rattle.lt_modes.specs.declared.moves.Step.{Step};
ghost use Rattle.lt_modes.specs.declared.moves.Step.TheVariants.{Act, Take};
ghost use Rattle.lt_lists.specs.Below.{any_below};
ghost use Rattle.lt_spec.specs.World.{is_enabled, is_at_rest, moves_of, can_move, is_full, full_node, EndsBy};
ghost use Rattle.lt_world.specs.Fields.{world_of};

use super::World;
use crate::choice::Choice;
use lt_modes::Step;
use lt_spec::Ending;

// Nodes that have made as many moves as they may.
impl World {
    /// The least node that has made as many moves as it may and has an enabled one.
    pub fn full(&self) -> Option<u8>
        ensures full { result ≡ full_node self.now.script self.now.limit self.now.run }
        ensures room { IsNone result → (q : ℕ) (step : Step) → IsTrue (is_enabled self.now.script (world_of self.now) q step) → moves_of q self.now.run < self.now.limit }
    {
        if self.most < self.limit {
            return None;
        }
        for node in 0..self.script.nodes() {
            if self.is_full(node) {
                return Some(node);
            }
        }
        None
    }

    /// How the run ends, which went on until `full` finds a node or no move is enabled.
    pub fn ending(&self) -> Ending
        requires { full_node self.now.script self.now.limit self.now.run ≡ None → IsTrue (is_at_rest self.now.script (world_of self.now)) }
        ensures { EndsBy self.now.limit result self.now.script self.now.run }
    {
        if let Some(node) = self.full() {
            return Ending::Cut { node };
        }
        if self.anyone_waits() {
            Ending::Stuck
        } else {
            Ending::Done
        }
    }

    fn is_full(&self, node: u8) -> bool
        requires { node < self.now.script.nodes }
        ensures { result ≡ is_full self.now.script self.now.limit self.now.run node }
    {
        self.moves[usize::from(node)] == self.limit && self.can_move(node)
    }

    // Whether the node can make a move.
    fn can_move(&self, node: u8) -> bool
        ensures { result ≡ can_move self.now.script (world_of self.now) node }
    {
        self.can_take(node) || self.can_act(node)
    }

    fn can_take(&self, node: u8) -> bool
        ensures { result ≡ any_below self.now.script.nodes (λ p. is_enabled self.now.script (world_of self.now) node (Take p)) }
    {
        for sender in 0..self.script.nodes() {
            let step = Step::Take(sender);
            if self.enabled(Choice { node, step }) {
                return true;
            }
        }
        false
    }

    fn can_act(&self, node: u8) -> bool
        ensures { result ≡ any_below (length self.now.script.clients) (λ client. is_enabled self.now.script (world_of self.now) node (Act client)) }
    {
        for client in 0..self.script.clients() {
            let step = Step::Act(client);
            if self.enabled(Choice { node, step }) {
                return true;
            }
        }
        false
    }
}
