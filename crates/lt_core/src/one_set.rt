// The core: what a node keeps for one set, made at the start, with memory taken before a move.
ghost use Rattle.std.specs.Prelude.{◌≡◌, ◌+◌, ◌≤◌, ◌<◌, ◌^◌, length, map, filter_map, IfOk, IsOk, OnOk, is_some};
ghost use Rattle.lt_modes.specs.State.{first_state, post_of};
ghost use Rattle.lt_modes.specs.Modes.{locks_of};
ghost use Rattle.lt_modes.specs.Serving.{queue_of};
ghost use Rattle.lt_modes.specs.Waiting.{waits};
ghost use Rattle.lt_modes.specs.Fits.{has_client, parked_asks, ask_if};
ghost use Rattle.lt_desk.specs.LetterSeen.{letter_seen, post_seen, body_seen, parked_seen, asks_in, RoomIn, places_in, body_spare};
ghost use Rattle.lt_core.specs.CoreData.{HasMemory, KeepsRoom, waiting_here, tells_by};
ghost use Rattle.lt_core.specs.Steps.{ask_count, is_ask_of};

use crate::fits::{has_later, parks_later};
use crate::keeping::count_parked;
use crate::marks::Marks;
use lt_desk::{Body, Desk, Letter, Parked, Post};
use lt_held::Held;
use lt_link::Links;
use lt_modes::{Link, ModeSet, Stamp};
use lt_table::{Pending, Unanswered};
use std::alloc::{AllocError, Global};
use std::collections::VecDeque;
use std::marker::Model;

/// One lock set at one node.
pub struct Core {
    pub(crate) set: u32,
    pub(crate) held: Held,
    // The modes that the desk knows of, or was told, as those of this node.
    pub(crate) charge: ModeSet,
    // The modes of the last freeze, and its number.
    pub(crate) frozen: ModeSet,
    pub(crate) number: u64,
    // Where the desk is believed to be, and which node this is.
    pub(crate) links: Links,
    pub(crate) pending: Unanswered,
    // The asks and tells that wait for the token, in order.
    pub(crate) parked: VecDeque<Parked>,
    pub(crate) desk: Option<Desk>,
    // What the next tell of this node takes its stamps in.
    pub(crate) spare: Option<Box<Pending>>,
    // The clients whose unanswered ask here was given up.
    pub(crate) marks: Marks,
}

impl Model for Core {
    ghost use Rattle.std.specs.Prelude.{◌-◌, map};
    ghost use Rattle.std.specs.VecDeque.{deque_len, deque_capacity};
    ghost use Rattle.lt_desk.specs.LetterSeen.{parked_seen};
    ghost use Rattle.lt_core.specs.CoreData.{CoreData, desk_seen, room_by, tells_by};

    ghost Value = { CoreData };

    ghost view = { λ c. record {
      node = c.links.me;
      set = c.set;
      state = record {
        held = c.held.rows;
        charge = c.charge;
        frozen = c.frozen;
        number = c.number;
        firm = c.links.firm;
        hoped = c.links.hoped;
        pending = c.pending;
        parked = map parked_seen c.parked.items;
        desk = desk_seen c.desk;
        gone = c.marks.clients;
      };
      room = room_by c.desk c.held.spare;
      row_room = c.held.spare;
      parked_room = deque_capacity c.parked - deque_len c.parked;
      tell_room = tells_by c.spare;
      mark_room = c.marks.room;
    } };
}

// Written out, so that all places which let a core go call this.
impl Drop for Core {
    fn drop(self) {
        let Core {
            set: _,
            held,
            charge: _,
            frozen: _,
            number: _,
            links: _,
            pending,
            parked,
            desk,
            spare,
            marks,
        } = self;
        drop(held);
        drop(pending);
        drop(parked);
        drop(desk);
        drop(spare);
        drop(marks);
    }
}

impl Core {
    /// What a node keeps for a set at the start: node 0 has the desk.
    pub fn new(
        alloc: Global,
        nodes: u8,
        clients: u16,
        node: u8,
        set: u32,
    ) -> Result<Core, AllocError>
        requires { nodes ≤ 64 }
        ensures state { IfOk result (λ core. core.state ≡ first_state nodes node) }
        ensures place { IfOk result (λ core. (core.node ≡ node) × (core.set ≡ set)) }
    {
        let desk = if node == 0 {
            Some(Desk::new(alloc, nodes, clients)?)
        } else {
            None
        };
        Ok(Core {
            set,
            held: Held::new(alloc),
            charge: ModeSet::empty(),
            frozen: ModeSet::empty(),
            number: 0,
            links: Links::new(node),
            pending: Unanswered::new(alloc)?,
            parked: VecDeque::new(alloc),
            desk,
            spare: None,
            marks: Marks::new(alloc),
        })
    }

    /// Makes room for one move that takes no letter.
    pub fn reserve(&mut self) -> Result<(), AllocError>
        requires few { waiting_here self.old.state + 2 < 2 ^ 32 }
        ensures state { self.new.state ≡ self.old.state }
        ensures place { (self.new.node ≡ self.old.node) × (self.new.set ≡ self.old.set) }
        ensures room { OnOk result (HasMemory 0 self.new) }
        ensures kept { KeepsRoom self.old self.new }
        ensures full { HasMemory 0 self.old → IsOk result }
    {
        self.reserve_with(0)
    }

    /// Makes room for the move that takes the letter, here and in the desk that it brings.
    pub fn reserve_for(&mut self, letter: &mut Letter) -> Result<(), AllocError>
        requires few { waiting_here self.old.state + asks_in letter.old.body + 2 < 2 ^ 32 }
        ensures state { self.new.state ≡ self.old.state }
        ensures place { (self.new.node ≡ self.old.node) × (self.new.set ≡ self.old.set) }
        ensures letter { letter_seen letter.new ≡ letter_seen letter.old }
        ensures room { OnOk result (HasMemory (asks_in letter.new.body) self.new) }
        ensures desk { OnOk result (RoomIn (waiting_here self.new.state + asks_in letter.new.body + 2) letter.new.body) }
        ensures kept { KeepsRoom self.old self.new }
        ensures desk_kept { (places_in letter.old.body ≤ places_in letter.new.body) × (body_spare letter.old.body ≤ body_spare letter.new.body) }
        ensures full { HasMemory (asks_in letter.old.body) self.old
            → RoomIn (waiting_here self.old.state + asks_in letter.old.body + 2) letter.old.body → IsOk result }
    {
        let brought = letter.asks();
        let asks = self.waiting() + brought + 2;
        self.reserve_with(brought)?;
        letter.reserve(asks)?;
        Ok(())
    }

    // Makes room for one move, to which a letter brings so many asks.
    #[inline(always)]
    fn reserve_with(&mut self, brought: u32) -> Result<(), AllocError>
        requires few { waiting_here self.old.state + brought + 2 < 2 ^ 32 }
        ensures state { self.new.state ≡ self.old.state }
        ensures place { (self.new.node ≡ self.old.node) × (self.new.set ≡ self.old.set) }
        ensures room { OnOk result (HasMemory brought self.new) }
        ensures kept { KeepsRoom self.old self.new }
        ensures full { HasMemory brought self.old → IsOk result }
    {
        let asks = self.waiting() + brought + 2;
        self.held.reserve(asks)?;
        if self.parked.capacity() - self.parked.len() < 2 {
            self.parked.reserve(2)?;
        }
        reserve_box(*self.parked.allocator(), &mut self.spare)?;
        match &mut self.desk {
            Some(desk) => desk.reserve_for(asks),
            None => Ok(()),
        }
    }

    /// How many asks wait here, in the queue and for the token.
    pub fn waiting(&self) -> u32
        requires { waiting_here self.now.state < 2 ^ 32 }
        ensures { result ≡ waiting_here self.now.state }
    {
        self.queue_len() + count_parked(&self.parked) as u32
    }

    pub fn has_desk(&self) -> bool
        ensures { result ≡ is_some self.now.state.desk }
    {
        self.desk.is_some()
    }

    /// How many locks the client holds.
    pub fn held_count(&self, client: u16) -> u64
        ensures { result ≡ locks_of self.now.state.held client }
    {
        self.held.locks_of(client)
    }

    /// Whether an ask of the client is unanswered, and wasn't given up.
    pub fn waits(&self, client: u16) -> bool
        ensures { result ≡ waits self.now.state client }
    {
        self.pending.has_client(client) && !self.marks.has(client)
    }

    /// Whether an ask of the client is unanswered, given up or not.
    pub fn has_ask(&self, client: u16) -> bool
        ensures { result ≡ has_client client self.now.state.pending }
    {
        self.pending.has_client(client)
    }

    /// Whether an ask of the client waits here for the token.
    pub fn parks(&self, client: u16) -> bool
        ensures { result ≡ has_client client (parked_asks self.now.state) }
    {
        parks_later(&self.parked, 0, client)
    }

    /// Whether an ask of the client is in the queue of the desk here.
    pub fn queues(&self, client: u16) -> bool
        ensures { result ≡ has_client client (queue_of self.now.state) }
    {
        match &self.desk {
            Some(desk) => has_later(desk, 0, client),
            None => false,
        }
    }

    pub(crate) fn firm(&self) -> Link
        ensures { result ≡ self.now.state.firm }
    {
        let (node, epoch) = self.links.firm();
        Link { node, epoch }
    }

    /// A letter from here to a node.
    pub(crate) fn post(&self, to: u8, body: Body, stamp: Stamp) -> Post
        ensures { post_seen result ≡ post_of self.now.set stamp self.now.state to (body_seen body) }
    {
        let letter = Letter {
            stamp,
            set: self.set,
            link: self.firm(),
            body,
        };
        Post { to, letter }
    }
}

// Makes the box where there is none.
fn reserve_box(alloc: Global, spare: &mut Option<Box<Pending>>) -> Result<(), AllocError>
    ensures room { OnOk result (1 ≤ tells_by spare.new) }
    ensures kept { tells_by spare.old ≤ tells_by spare.new }
    ensures full { 1 ≤ tells_by spare.old → IsOk result }
{
    if spare.is_none() {
        *spare = Some(Box::new(alloc, Pending::new())?);
    }
    Ok(())
}

// How many asks it is.
pub(crate) fn asks_of(item: &Parked) -> u32
    ensures { result ≡ ask_count (parked_seen item.now) }
{
    match item {
        Parked::Ask(_) => 1,
        Parked::Tell(_) => 0,
    }
}

// Whether it is an ask of the client.
pub(crate) fn is_of(item: &Parked, client: u16) -> bool
    ensures { result ≡ is_ask_of client (parked_seen item.now) }
{
    match item {
        Parked::Ask(ask) => ask.client == client,
        Parked::Tell(_) => false,
    }
}
