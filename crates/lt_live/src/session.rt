// What a session does on its caller's thread.
ghost use Rattle.std.specs.Prelude.{◌≡◌, ◌+◌, ◌-◌, ◌≤◌, ◌<◌, ◌++◌, ◌∷◌, [], true, length, IfSome, IfNone, IfErr, IsOk, OnOk};
ghost use mathlib.Core.List.{IsPrefix};
ghost use Rattle.lt_modes.specs.declared.command.Command.TheVariants.{Withdraw};
ghost use Rattle.rtrb.specs.Ring.{known_free};
ghost use Rattle.lt_spec.specs.Script.{HasTargets, IsOfVersion, set_number};
ghost use Rattle.lt_live.specs.Words.{submitted, polled, known_replies, places, SameSession};

use crate::asking::may_ask;
use crate::ends::Session;
use crate::reply::Reply;
use lt_modes::Command;
use lt_script::Script;
use rtrb::PushError;

impl Session {
    /// The script without the commands.
    pub fn script(&self) -> &Script
        ensures { result.now ≡ self.now.script }
    {
        &self.script
    }

    /// The number of the set with this name.
    pub fn set(&self, name: &[u8]) -> Option<u32>
        ensures number { result ≡ set_number self.now.script name.now }
        ensures inside { IfSome result (λ set. set < length self.now.script.sets) }
    {
        self.script.set_number(name)
    }

    /// The client whose commands are submitted here.
    pub fn client(&self) -> u16
        ensures { result ≡ self.now.client }
    {
        self.client
    }

    /// How many commands may still be submitted here, of those that each session may submit in its life.
    pub fn left(&self) -> u64
        ensures left { result ≡ self.now.left }
        ensures share { length (submitted self.now) + result ≡ self.now.share }
    {
        self.left
    }

    /// How many commands were submitted here so far.
    pub fn submitted(&self) -> u64
        ensures { result ≡ length (submitted self.now) }
    {
        self.share - self.left
    }

    /// How many commands that were submitted here have no polled reply yet. A reply that came and wasn't polled doesn't count.
    pub fn unanswered(&self) -> u64
        ensures { result ≡ length (submitted self.now) - length (polled self.now) }
    {
        (self.share - self.left).saturating_sub(self.answered)
    }

    /// Whether the command may be submitted here: all that it names is of the script and of its version, and the client whose
    /// locks it drops, or whose ask it gives up, is of the same node as this one. Only a script of version 3 has `withdraw`.
    #[tactic(auto, using(crate::proofs::TurnParts::has_targets, crate::proofs::TurnParts::has_modes, crate::proofs::TurnParts::asks))]
    pub fn may_submit(&self, command: Command) -> bool
        ensures targets { result ≡ true → HasTargets self.now.script.sets self.now.script.clients self.now.client command }
        ensures modes { result ≡ true → IsOfVersion self.now.script.version command }
        ensures all { HasTargets self.now.script.sets self.now.script.clients self.now.client command → IsOfVersion self.now.script.version command → result ≡ true }
    {
        may_ask(&self.script, self.client, command)
    }

    /// Submits the next command of the client. Where the ring has no place for it, it comes back: the session looks at the
    /// ring before it says so.
    #[tactic(auto, using(crate::proofs::InHand::one_more, crate::proofs::InHand::no_more))]
    pub fn submit(&mut self, command: Command) -> Result<(), Command>
        requires left { 0 < self.old.left }
        requires targets { HasTargets self.old.script.sets self.old.script.clients self.old.client command }
        requires modes { IsOfVersion self.old.script.version command }
        ensures ok { OnOk result ((submitted self.new ≡ submitted self.old ++ command ∷ []) × (self.new.left + 1 ≡ self.old.left)) }
        ensures back { IfErr result (λ back. (back ≡ command) × (submitted self.new ≡ submitted self.old) × (self.new.left ≡ self.old.left)) }
        ensures full { IfErr result (λ back. places self.old ≤ length (submitted self.old)) }
        ensures no_place { IfErr result (λ back. known_free self.new.commands ≡ 0) }
        ensures place { 0 < known_free self.old.commands → IsOk result }
        ensures replies { (polled self.new ≡ polled self.old) × (known_replies self.new ≡ known_replies self.old) }
        ensures same { SameSession self.old self.new }
    {
        match self.commands.push(command) {
            Ok(()) => {
                self.left -= 1;
                Ok(())
            }
            Err(PushError::Full(back)) => Err(back),
        }
    }

    /// Submits that the client gives up what it waits for in this set. It keeps its locks.
    ///
    /// While it waits there, this is the one command that a client may make; in another set it comes after the wait.
    pub fn withdraw(&mut self, set: u32) -> Result<(), Command>
        requires left { 0 < self.old.left }
        requires set { set < length self.old.script.sets }
        requires version { self.old.script.version ≡ 3 }
        ensures ok { OnOk result ((submitted self.new ≡ submitted self.old ++ Withdraw self.old.client set ∷ []) × (self.new.left + 1 ≡ self.old.left)) }
        ensures back { IfErr result (λ back. (back ≡ Withdraw self.old.client set) × (submitted self.new ≡ submitted self.old) × (self.new.left ≡ self.old.left)) }
        ensures full { IfErr result (λ back. places self.old ≤ length (submitted self.old)) }
        ensures no_place { IfErr result (λ back. known_free self.new.commands ≡ 0) }
        ensures place { 0 < known_free self.old.commands → IsOk result }
        ensures replies { (polled self.new ≡ polled self.old) × (known_replies self.new ≡ known_replies self.old) }
        ensures same { SameSession self.old self.new }
    {
        let client = self.client;
        self.submit(Command::Withdraw { client, set })
    }

    /// The next reply, which is that to the first command that has none yet. None only where none is known here.
    pub fn poll(&mut self) -> Option<Reply>
        ensures some { IfSome result (λ reply. (polled self.new ≡ polled self.old ++ reply ∷ []) × IsPrefix (known_replies self.old) (reply ∷ known_replies self.new)) }
        ensures none { IfNone result ((polled self.new ≡ polled self.old) × (known_replies self.old ≡ []) × (known_replies self.new ≡ [])) }
        ensures commands { (submitted self.new ≡ submitted self.old) × (self.new.left ≡ self.old.left) }
        ensures same { SameSession self.old self.new }
    {
        let reply = self.replies.pop().ok()?;
        if self.answered < self.share {
            self.answered += 1;
        }
        Some(reply)
    }
}
