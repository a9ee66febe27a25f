// All sets of a node. One that was never touched takes four bytes.
ghost use Rattle.std.specs.Prelude.{◌≡◌, ◌≢◌, ◌≤◌, ◌<◌, ◌+◌, ℕ, IfOk, IsOk, OnOk, length, slice_index_or};
ghost use Rattle.lt_modes.specs.Waiting.{waits};
ghost use Rattle.lt_modes.specs.Taking.{take};
ghost use Rattle.lt_lists.specs.Below.{any_below};
ghost use Rattle.lt_spec.specs.declared.limits.TheConstants.{MAX_CLIENTS};
ghost use Rattle.lt_desk.specs.LetterSeen.{letter_seen, asks_in, RoomIn};
ghost use Rattle.lt_desk.specs.DeskData.{FitsOut};
ghost use Rattle.lt_core.specs.Bound.{RoomToSend};
ghost use Rattle.lt_core.specs.CoreData.{HasMemory, HasRoom, RoomForBody, waiting_here, answer_of, move_of};
ghost use Rattle.lt_node.specs.NodeData.{HasFewAsks, IsSetReady, ending, first_core, most_sent};
ghost use Rattle.lt_node.specs.Sets.{AreSetsOf, IsTouched, SameSets, SetDoes, core_in};

use crate::counts::{wait_less, wait_more, zeros};
use crate::ending::end;
use lt_core::{Answer, Core, SetCommand};
use lt_desk::{Letter, Out};
use lt_modes::Stamp;
use lt_script::Script;
use std::alloc::{AllocError, Global};
use std::marker::Model;

/// All sets of a node.
#[derive(Drop)]
pub(crate) struct Sets {
    nodes: u8,
    clients: u16,
    me: u8,
    // Answers for each set that was never touched.
    first: Core,
    // For each set 0, or one more than the place of its core.
    places: Vec<u32>,
    // What is kept for the sets that were touched.
    cores: Vec<Core>,
    // In how many sets each client waits.
    waiting: Vec<u32>,
}

impl Model for Sets {
    ghost use Rattle.lt_node.specs.Sets.{SetsData, AreStored, cores_by};

    ghost Value = { SetsData };

    ghost view = { λ s. record {
      nodes = s.nodes;
      me = s.me;
      places = s.places.items;
      cores = cores_by s.nodes s.me s.places.items s.cores.items;
    } };

    ghost invariant = { λ s. AreStored s.nodes s.me s.first s.places.items s.cores.items s.waiting.items };
}

impl Sets {
    /// The sets at the start of the script, at a node.
    pub(crate) fn new(alloc: Global, script: &Script, node: u8) -> Result<Sets, AllocError>
        ensures sets { IfOk result (AreSetsOf script.now node) }
        ensures first { IfOk result (λ sets. (s : ℕ) → core_in sets s ≡ first_core script.now node s) }
    {
        let nodes = script.nodes();
        let clients = script.clients();
        let places = zeros(alloc, script.sets() as usize)?;
        let waiting = zeros(alloc, usize::from(clients))?;
        let first = Core::new(alloc, nodes, clients, node, 0)?;
        Ok(Sets {
            nodes,
            clients,
            me: node,
            first,
            places,
            cores: Vec::new(alloc),
            waiting,
        })
    }

    /// The number of sets.
    pub(crate) fn count(&self) -> u32
        ensures { result ≡ length self.now.cores }
    {
        self.places.len() as u32
    }

    /// What is kept for the set. One core answers for all sets that were never touched: its number is none of theirs.
    pub(crate) fn core(&self, set: u32) -> &Core
        requires { set < length self.now.cores }
        ensures state { result.now.state ≡ (core_in self.now set).state }
        ensures node { result.now.node ≡ self.now.me }
    {
        let place = self.places[set as usize];
        if place == 0 {
            &self.first
        } else {
            &self.cores[place as usize - 1]
        }
    }

    /// Whether an ask of the client is unanswered, and not given up, in some set.
    pub(crate) fn waits(&self, client: u16) -> bool
        ensures { result ≡ any_below (length self.now.cores) (λ s. waits (core_in self.now s).state client) }
    {
        let place = usize::from(client);
        if place < self.waiting.len() {
            self.waiting[place] != 0
        } else {
            self.waits_in_some(client)
        }
    }

    // The same for a number that isn't one of the script's clients.
    fn waits_in_some(&self, client: u16) -> bool
        ensures { result ≡ any_below (length self.now.cores) (λ s. waits (core_in self.now s).state client) }
    {
        for set in 0..self.count() {
            if self.core(set).waits(client) {
                return true;
            }
        }
        false
    }

    /// Makes a core for the set, where it has none.
    #[inline(always)]
    pub(crate) fn touch(&mut self, set: u32) -> Result<(), AllocError>
        requires { set < length self.old.cores }
        ensures same { SameSets self.old self.new }
        ensures others { (other : ℕ) → other ≢ set → core_in self.new other ≡ core_in self.old other }
        ensures touched { OnOk result (IsTouched self.new set) }
        ensures full { HasMemory 0 (core_in self.old set) → IsOk result }
        ensures had { HasMemory 0 (core_in self.old set) → self.new ≡ self.old }
        ensures mark { (core_in self.old set).mark_room ≤ (core_in self.new set).mark_room }
    {
        if self.places[set as usize] != 0 {
            return Ok(());
        }
        self.make(set)
    }

    // The same where it has none.
    #[inline(never)]
    fn make(&mut self, set: u32) -> Result<(), AllocError>
        requires set { set < length self.old.cores }
        requires untouched { slice_index_or self.old.places set 0 ≡ 0 }
        ensures same { SameSets self.old self.new }
        ensures others { (other : ℕ) → other ≢ set → core_in self.new other ≡ core_in self.old other }
        ensures touched { OnOk result (IsTouched self.new set) }
        ensures mark { (core_in self.old set).mark_room ≤ (core_in self.new set).mark_room }
    {
        self.cores.reserve(1)?;
        let alloc = *self.cores.allocator();
        let core = Core::new(alloc, self.nodes, self.clients, self.me, set)?;
        self.cores.push_reserved(core);
        self.places[set as usize] = self.cores.len() as u32;
        Ok(())
    }

    /// Makes room in the set for one move that takes no letter.
    pub(crate) fn reserve(&mut self, set: u32) -> Result<(), AllocError>
        requires set { set < length self.old.cores }
        requires few { HasFewAsks (core_in self.old set) }
        ensures same { SameSets self.old self.new }
        ensures others { (other : ℕ) → other ≢ set → core_in self.new other ≡ core_in self.old other }
        ensures room { OnOk result (HasMemory 0 (core_in self.new set)) }
        ensures mark { (core_in self.old set).mark_room ≤ (core_in self.new set).mark_room }
        ensures full { HasMemory 0 (core_in self.old set) → IsOk result }
    {
        self.touch(set)?;
        let place = place_of(&self.places, set);
        self.cores[place].reserve()
    }

    /// Makes room in the set for a mark, which a `withdraw` may leave there.
    pub(crate) fn reserve_mark(&mut self, set: u32) -> Result<(), AllocError>
        requires set { set < length self.old.cores }
        ensures same { SameSets self.old self.new }
        ensures others { (other : ℕ) → other ≢ set → core_in self.new other ≡ core_in self.old other }
        ensures room { OnOk result (1 ≤ (core_in self.new set).mark_room) }
        ensures kept { HasMemory 0 (core_in self.old set) → HasMemory 0 (core_in self.new set) }
        ensures full { HasMemory 0 (core_in self.old set) → 1 ≤ (core_in self.old set).mark_room → IsOk result }
    {
        self.touch(set)?;
        let place = place_of(&self.places, set);
        self.cores[place].reserve_mark()
    }

    /// Makes room in the set, and in the desk that the letter brings, for the move that takes the letter.
    pub(crate) fn reserve_for(&mut self, set: u32, letter: &mut Letter) -> Result<(), AllocError>
        requires set { set < length self.old.cores }
        requires few { HasFewAsks (core_in self.old set) }
        requires asks { asks_in letter.old.body ≤ MAX_CLIENTS }
        ensures same { SameSets self.old self.new }
        ensures others { (other : ℕ) → other ≢ set → core_in self.new other ≡ core_in self.old other }
        ensures letter { letter_seen letter.new ≡ letter_seen letter.old }
        ensures room { OnOk result (HasMemory (asks_in letter.new.body) (core_in self.new set)) }
        ensures desk { OnOk result
            (RoomIn (waiting_here (core_in self.new set).state + asks_in letter.new.body + 2) letter.new.body) }
        ensures full { HasMemory (asks_in letter.old.body) (core_in self.old set)
            → RoomIn (waiting_here (core_in self.old set).state + asks_in letter.old.body + 2) letter.old.body
            → IsOk result }
    {
        self.touch(set)?;
        let place = place_of(&self.places, set);
        self.cores[place].reserve_for(letter)
    }

    /// A client's command: one move of the set.
    #[inline(always)]
    pub(crate) fn act(
        &mut self,
        set: u32,
        client: u16,
        command: SetCommand,
        stamp: Stamp,
        out: &mut Out,
    ) -> Answer
        requires set { set < length self.old.cores }
        requires node { stamp.node ≡ self.old.me }
        requires ready { IsSetReady client command stamp.clock (core_in self.old set) out.old }
        ensures answer { result ≡ answer_of stamp.node client command (core_in self.old set).state }
        ensures does { SetDoes set (move_of stamp client command set (core_in self.old set).state)
            self.old out.old self.new out.new }
    {
        let place = place_of(&self.places, set);
        let core = &mut self.cores[place];
        wait_less(&mut self.waiting, core.asks(), core.gone());
        let answer = core.act(client, command, stamp, out);
        wait_more(&mut self.waiting, core.asks(), core.gone());
        answer
    }

    /// Takes a letter: one move of its set.
    #[inline(always)]
    pub(crate) fn take(&mut self, letter: Letter, stamp: Stamp, out: &mut Out)
        requires set { letter.set < length self.old.cores }
        requires node { stamp.node ≡ self.old.me }
        requires room { HasRoom 2 stamp.clock (core_in self.old letter.set) }
        requires desk { RoomForBody stamp.clock (core_in self.old letter.set) letter.body }
        requires fits { FitsOut (take stamp (letter_seen letter) (core_in self.old letter.set).state) out.old }
        ensures does { SetDoes letter.set (take stamp (letter_seen letter) (core_in self.old letter.set).state)
            self.old out.old self.new out.new }
    {
        let place = place_of(&self.places, letter.set);
        let core = &mut self.cores[place];
        wait_less(&mut self.waiting, core.asks(), core.gone());
        core.take(letter, stamp, out);
        wait_more(&mut self.waiting, core.asks(), core.gone());
    }

    /// Ends the move in the set; where a client is given, its locks there go first.
    pub(crate) fn end(&mut self, set: u32, dropped: Option<u16>, stamp: Stamp, out: &mut Out)
        requires set { set < length self.old.cores }
        requires node { stamp.node ≡ self.old.me }
        requires room { HasRoom 2 stamp.clock (core_in self.old set) }
        requires send { RoomToSend (most_sent (core_in self.old set)) out.old }
        ensures does { SetDoes set (ending dropped stamp set (core_in self.old set).state)
            self.old out.old self.new out.new }
        ensures send { (more : ℕ) → RoomToSend (most_sent (core_in self.old set) + more) out.old → RoomToSend more out.new }
    {
        let place = place_of(&self.places, set);
        let core = &mut self.cores[place];
        wait_less(&mut self.waiting, core.asks(), core.gone());
        end(core, dropped, stamp, out);
        wait_more(&mut self.waiting, core.asks(), core.gone());
    }
}

// The place of the set's core.
fn place_of(places: &Vec<u32>, set: u32) -> usize
    requires inside { set < length places.now.items }
    requires touched { 0 < slice_index_or places.now.items set 0 }
    ensures { result + 1 ≡ slice_index_or places.now.items set 0 }
{
    places[set as usize] as usize - 1
}
