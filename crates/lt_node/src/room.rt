// Memory for a move, before it is made: in the sets that it touches.
ghost use Rattle.std.specs.Prelude.{◌≡◌, ◌≢◌, ◌+◌, ◌≤◌, ◌<◌, ◌^◌, ℕ, length, IfOk, IsOk, IsTrue, OnOk, Some};
ghost use Rattle.lt_modes.specs.Fits.{fits, numbers_of};
ghost use Rattle.lt_spec.specs.NodeMove.{home, has_command, related};
ghost use Rattle.lt_spec.specs.declared.limits.TheConstants.{MAX_CLIENTS, MAX_NODES, MAX_SETS_OF_SERVICE};
ghost use Rattle.lt_desk.specs.LetterSeen.{letter_seen, body_seen, asks_in};
ghost use Rattle.lt_core.specs.Bound.{brought};
ghost use Rattle.lt_core.specs.CoreData.{HasMemory};
ghost use Rattle.lt_node.specs.NodeData.{SameNode, RoomToTake, RoomForLetter, HasFewAsks, state_of, most_sent};
ghost use Rattle.lt_node.specs.Sets.{SameSets, core_in};
ghost use Rattle.lt_node.specs.Touched.{LeavesMark, RoomToAct, HaveFewAsks, HaveMemory, leaves_room_to_act, leaves_room_to_take, touched_sets, named_set, sent_by};

use crate::family::first_related;
use crate::node::Node;
use crate::sets::Sets;
use lt_desk::{Body, Letter, Out};
use lt_modes::Command;
use lt_script::Script;
use std::alloc::AllocError;

impl Node {
    /// Makes room for the client's next command.
    #[inline(always)]
    pub fn reserve(&mut self, client: u16, out: &mut Out) -> Result<(), AllocError>
        requires client { client < length self.old.script.clients }
        requires home { home self.old.script client ≡ self.old.me }
        requires left { IsTrue (has_command self.old.script (state_of self.old) client) }
        requires within { IsTrue (leaves_room_to_act self.old.script (state_of self.old) client) }
        ensures node { SameNode self.old self.new }
        ensures out { (out.new.posts ≡ out.old.posts) × (out.new.events ≡ out.old.events) }
        ensures room { OnOk result (RoomToAct client self.new out.new) }
        ensures full { RoomToAct client self.old out.old → IsOk result }
        ensures same { RoomToAct client self.old out.old → out.new ≡ out.old }
    {
        let command = self.clients[usize::from(client)].upcoming();
        let touched = reserve_touched(&mut self.sets, self.script.kept(), command)?;
        let sent = touched + 1;
        out.reserve(sent, sent)
    }

    /// Makes room to take the letter, in its set and in the desk that it brings.
    pub fn reserve_for(&mut self, letter: &mut Letter, out: &mut Out) -> Result<(), AllocError>
        requires fits { IsTrue (fits (numbers_of self.old.script) self.old.me self.old.clock
            ((state_of self.old).set letter.old.set) (letter_seen letter.old)) }
        requires within { IsTrue (leaves_room_to_take (state_of self.old) (letter_seen letter.old)) }
        ensures node { SameNode self.old self.new }
        ensures letter { letter_seen letter.new ≡ letter_seen letter.old }
        ensures out { (out.new.posts ≡ out.old.posts) × (out.new.events ≡ out.old.events) }
        ensures room { OnOk result (RoomToTake self.new letter.new out.new) }
        ensures full { RoomToTake self.old letter.old out.old → IsOk result }
        ensures same { RoomToTake self.old letter.old out.old → out.new ≡ out.old }
    {
        reserve_for(&mut self.sets, letter, out)
    }
}

// Makes room in each set that the command touches, also for a mark, and says how many letters, and event lines, they
// may send.
fn reserve_touched(sets: &mut Sets, script: &Script, command: Command) -> Result<u32, AllocError>
    requires named { named_set command < length script.now.sets }
    requires count { length sets.old.cores ≡ length script.now.sets }
    requires few_sets { length script.now.sets ≤ MAX_SETS_OF_SERVICE }
    requires few { HaveFewAsks sets.old (touched_sets script.now command) }
    ensures same { SameSets sets.old sets.new }
    ensures room { OnOk result (HaveMemory sets.new (touched_sets script.now command)) }
    ensures mark { OnOk result (LeavesMark (core_in sets.new) (Some command)) }
    ensures sent { IfOk result (λ sent. sent ≡ sent_by sets.new (touched_sets script.now command)) }
    ensures small { IfOk result (λ sent. sent + 1 < 2 ^ 32) }
    ensures full { HaveMemory sets.old (touched_sets script.now command)
        → LeavesMark (core_in sets.old) (Some command) → IsOk result }
{
    match command {
        Command::Lock { set, .. }
        | Command::Try { set, .. }
        | Command::Unlock { set, .. }
        | Command::Change { set, .. } => reserve_set(sets, set),
        Command::DropAll { set, .. } => reserve_family(sets, script, set),
        Command::Withdraw { set, .. } => reserve_marked(sets, set),
    }
}

// The same in the set of a `withdraw`, with a place for the mark.
fn reserve_marked(sets: &mut Sets, set: u32) -> Result<u32, AllocError>
    requires set { set < length sets.old.cores }
    requires few { HasFewAsks (core_in sets.old set) }
    ensures same { SameSets sets.old sets.new }
    ensures room { OnOk result (HasMemory 0 (core_in sets.new set)) }
    ensures mark { OnOk result (1 ≤ (core_in sets.new set).mark_room) }
    ensures sent { IfOk result (λ sent. sent ≡ most_sent (core_in sets.new set)) }
    ensures small { IfOk result (λ sent. sent ≤ MAX_CLIENTS + MAX_NODES + 3) }
    ensures full { HasMemory 0 (core_in sets.old set) → 1 ≤ (core_in sets.old set).mark_room → IsOk result }
{
    sets.reserve_mark(set)?;
    reserve_set(sets, set)
}

// The same in the family of a set.
fn reserve_family(sets: &mut Sets, script: &Script, set: u32) -> Result<u32, AllocError>
    requires set { set < length script.now.sets }
    requires count { length sets.old.cores ≡ length script.now.sets }
    requires few_sets { length script.now.sets ≤ MAX_SETS_OF_SERVICE }
    requires few { HaveFewAsks sets.old (related script.now set) }
    ensures same { SameSets sets.old sets.new }
    ensures room { OnOk result (HaveMemory sets.new (related script.now set)) }
    ensures sent { IfOk result (λ sent. sent ≡ sent_by sets.new (related script.now set)) }
    ensures small { IfOk result (λ sent. sent + 1 < 2 ^ 32) }
    ensures full { HaveMemory sets.old (related script.now set) → IsOk result }
{
    let mut sent = 0;
    let mut next = Some(first_related(script, set));
    while let Some(k) = next {
        sent += reserve_set(sets, k)?;
        next = script.next_related(k);
    }
    Ok(sent)
}

// The same in one set.
fn reserve_set(sets: &mut Sets, set: u32) -> Result<u32, AllocError>
    requires set { set < length sets.old.cores }
    requires few { HasFewAsks (core_in sets.old set) }
    ensures same { SameSets sets.old sets.new }
    ensures others { (other : ℕ) → other ≢ set → core_in sets.new other ≡ core_in sets.old other }
    ensures room { OnOk result (HasMemory 0 (core_in sets.new set)) }
    ensures sent { IfOk result (λ sent. sent ≡ most_sent (core_in sets.new set)) }
    ensures small { IfOk result (λ sent. sent ≤ MAX_CLIENTS + MAX_NODES + 3) }
    ensures mark { (core_in sets.old set).mark_room ≤ (core_in sets.new set).mark_room }
    ensures full { HasMemory 0 (core_in sets.old set) → IsOk result }
{
    sets.reserve(set)?;
    Ok(sets.core(set).most_sent() + 2)
}

// Makes room in the letter's set, and in the desk that it brings, to take the letter.
fn reserve_for(sets: &mut Sets, letter: &mut Letter, out: &mut Out) -> Result<(), AllocError>
    requires set { letter.old.set < length sets.old.cores }
    requires few { HasFewAsks (core_in sets.old letter.old.set) }
    requires asks { asks_in letter.old.body ≤ MAX_CLIENTS }
    ensures sets { SameSets sets.old sets.new }
    ensures letter { letter_seen letter.new ≡ letter_seen letter.old }
    ensures out { (out.new.posts ≡ out.old.posts) × (out.new.events ≡ out.old.events) }
    ensures room { OnOk result (RoomForLetter (core_in sets.new letter.new.set) letter.new out.new) }
    ensures full { RoomForLetter (core_in sets.old letter.old.set) letter.old out.old → IsOk result }
    ensures same { RoomForLetter (core_in sets.old letter.old.set) letter.old out.old → out.new ≡ out.old }
{
    let set = letter.set;
    sets.reserve_for(set, letter)?;
    let sent = sent_for(sets, set, &letter.body);
    out.reserve(sent, sent)
}

// How many letters, and event lines, the set may send when it takes a letter with this body.
fn sent_for(sets: &Sets, set: u32, body: &Body) -> u32
    requires set { set < length sets.now.cores }
    requires few { HasFewAsks (core_in sets.now set) }
    requires asks { asks_in body.now ≤ MAX_CLIENTS }
    ensures { result ≡ most_sent (core_in sets.now set) + brought (body_seen body.now) }
{
    sets.core(set).most_sent() + 2 + brought(body)
}

// How many asks and nodes come with what the letter says.
fn brought(body: &Body) -> u32
    requires { asks_in body.now + MAX_NODES < 2 ^ 32 }
    ensures brought { result ≡ brought (body_seen body.now) }
    ensures within { result ≤ asks_in body.now + MAX_NODES }
{
    match body {
        Body::Token(desk) => desk.len() + u32::from(desk.nodes()),
        _ => 0,
    }
}
