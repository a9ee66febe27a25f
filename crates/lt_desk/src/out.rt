ghost use Rattle.std.specs.Prelude.{◌≡◌, ◌+◌, ◌≤◌, ◌<◌, [], ◌∷◌, ◌++◌, length, IsOk, OnOk, MatchOption};
ghost use Rattle.std.specs.VecDeque.{deque_capacity};
ghost use Rattle.lt_desk.specs.LetterSeen.{post_seen};

use crate::letter::Post;
use lt_modes::Event;
use std::alloc::{AllocError, Global};
use std::collections::VecDeque;
use std::marker::Model;

/// What a move sends out: letters and event lines, in order.
pub struct Out {
    posts: VecDeque<Post>,
    events: VecDeque<Event>,
}

impl Model for Out {
    ghost use Rattle.std.specs.Prelude.{map};
    ghost use Rattle.std.specs.VecDeque.{deque_capacity};
    ghost use Rattle.lt_desk.specs.LetterSeen.{post_seen};
    ghost use Rattle.lt_desk.specs.DeskData.{OutData};

    ghost Value = { OutData };

    ghost view = { λ o. record {
      posts = map post_seen o.posts.items;
      events = o.events.items;
      post_room = deque_capacity o.posts;
      event_room = deque_capacity o.events;
    } };
}

// Written out, so that all places which let what is sent and told go call this.
impl Drop for Out {
    fn drop(self) {
        let Out { posts, events } = self;
        drop(posts);
        drop(events);
    }
}

impl Out {
    pub fn new(alloc: Global) -> Out
        ensures { (result.posts ≡ []) × (result.events ≡ []) }
    {
        Out {
            posts: VecDeque::new(alloc),
            events: VecDeque::new(alloc),
        }
    }

    /// Makes room for so many further letters and event lines. Where the room is there, nothing changes. If memory runs
    /// out, there may be more room for letters than before.
    #[inline(always)]
    pub fn reserve(&mut self, letters: u32, events: u32) -> Result<(), AllocError>
        ensures posts { self.new.posts ≡ self.old.posts }
        ensures events { self.new.events ≡ self.old.events }
        ensures post_room { OnOk result (length self.old.posts + letters ≤ self.new.post_room) }
        ensures event_room { OnOk result (length self.old.events + events ≤ self.new.event_room) }
        ensures kept { (self.old.post_room ≤ self.new.post_room) × (self.old.event_room ≤ self.new.event_room) }
        ensures full { length self.old.posts + letters ≤ self.old.post_room → length self.old.events + events ≤ self.old.event_room → IsOk result }
        ensures same { length self.old.posts + letters ≤ self.old.post_room → length self.old.events + events ≤ self.old.event_room → self.new ≡ self.old }
    {
        make_room(&mut self.posts, letters as usize)?;
        make_room(&mut self.events, events as usize)
    }

    /// How many letters it has room for in all.
    pub fn post_room(&self) -> usize
        ensures room { result ≡ self.now.post_room }
        ensures within { length self.now.posts ≤ self.now.post_room }
    {
        self.posts.capacity()
    }

    /// How many event lines it has room for in all.
    pub fn event_room(&self) -> usize
        ensures room { result ≡ self.now.event_room }
        ensures within { length self.now.events ≤ self.now.event_room }
    {
        self.events.capacity()
    }

    /// No more is here than there is room for.
    pub fn is_within(&self)
        ensures posts { length self.now.posts ≤ self.now.post_room }
        ensures events { length self.now.events ≤ self.now.event_room }
    {
        let _ = &self.posts;
        let _ = &self.events;
    }

    pub fn push_letter(&mut self, post: Post)
        requires { length self.old.posts < self.old.post_room }
        ensures { self.new ≡ record self.old { posts = self.old.posts ++ post_seen post ∷ [] } }
    {
        self.posts.push_back_reserved(post);
    }

    pub fn push_event(&mut self, event: Event)
        requires { length self.old.events < self.old.event_room }
        ensures { self.new ≡ record self.old { events = self.old.events ++ event ∷ [] } }
    {
        self.events.push_back_reserved(event);
    }

    /// Hands out the first letter.
    pub fn next_letter(&mut self) -> Option<Post>
        ensures first { MatchOption result ((self.old.posts ≡ []) × (self.new ≡ self.old)) (λ post. self.old.posts ≡ post_seen post ∷ self.new.posts) }
        ensures rest { self.new ≡ record self.old { posts = self.new.posts } }
    {
        self.posts.pop_front()
    }

    /// Hands out the first event line.
    pub fn next_event(&mut self) -> Option<Event>
        ensures first { MatchOption result ((self.old.events ≡ []) × (self.new ≡ self.old)) (λ event. self.old.events ≡ event ∷ self.new.events) }
        ensures rest { self.new ≡ record self.old { events = self.new.events } }
    {
        self.events.pop_front()
    }
}

// Makes room for so many further items. Where the room is there, nothing changes. Where there are no items, the list is
// made anew, so that no memory is copied that no item was in.
#[inline(always)]
fn make_room<T: Drop>(items: &mut VecDeque<T>, further: usize) -> Result<(), AllocError>
    ensures items { items.new.items ≡ items.old.items }
    ensures kept { deque_capacity items.old ≤ deque_capacity items.new }
    ensures room { OnOk result (length items.old.items + further ≤ deque_capacity items.new) }
    ensures full { length items.old.items + further ≤ deque_capacity items.old → IsOk result }
    ensures same { length items.old.items + further ≤ deque_capacity items.old → deque_capacity items.new ≡ deque_capacity items.old }
{
    if further <= items.capacity() - items.len() {
        return Ok(());
    }
    grow(items, further)
}

// Makes room where there is too little.
#[cold]
#[inline(never)]
fn grow<T: Drop>(items: &mut VecDeque<T>, further: usize) -> Result<(), AllocError>
    ensures items { items.new.items ≡ items.old.items }
    ensures kept { deque_capacity items.old ≤ deque_capacity items.new }
    ensures room { OnOk result (length items.old.items + further ≤ deque_capacity items.new) }
{
    if !items.is_empty() {
        return items.reserve(further);
    }
    let places = further.max(items.capacity().saturating_mul(2));
    *items = VecDeque::with_capacity(*items.allocator(), places)?;
    Ok(())
}
