// The calls on a node in a process of its own.
ghost use Rattle.std.specs.Prelude.{◌≡◌, ◌≢◌, None, Some, IsSome};
ghost use Rattle.lt_live_c.specs.declared.code.TheConstants.{OK};
ghost use Rattle.lt_live_c.specs.NodeCalls.{HandleOpenedNode, AtNode, HandleFinishesNode, HandleNotFinishedNode, StandsForNode, NodeNotFinished};
ghost use Rattle.lt_live_c.specs.Nodes.{NodeOpenRefused, SendsFrames, Receives, TellsPending};

use crate::boxes::{put, room, take};
use crate::carrying;
use crate::code::{NO_MEMORY, WRONG_HANDLE};
use crate::content::Content;
use crate::handle::Handle;
use crate::journal::Journal;
use crate::node::Node;
use std::alloc::Global;
use std::mem::replace;

/// Opens one node of the script: `opened` stands for it, and for the sessions of its clients.
#[unsafe(no_mangle)]
#[tactic(auto, using(crate::proofs::Unopened::node_no_memory))]
pub extern "C" fn lockrun_node_open(
    alloc: Global,
    text: &[u8],
    node: u32,
    key: &[u8],
    start: u64,
    limit: u64,
    places: u32,
    opened: &mut Handle,
) -> u32
    ensures opened { result ≡ OK → HandleOpenedNode text.now node key.now start limit places opened.new.value }
    ensures keeps { result ≢ OK → opened.new.value ≡ opened.old.value }
    ensures refused { result ≢ OK → NodeOpenRefused result text.now node limit places }
{
    let made = match Node::open(alloc, text, node, key, start, limit, places) {
        Ok(made) => made,
        Err(code) => return code,
    };
    let Ok(room) = room(alloc) else {
        return NO_MEMORY;
    };
    put(room, Content::Node(made), opened)
}

/// Puts the next frame for a node at the front of the buffer, where it has room.
#[unsafe(no_mangle)]
pub extern "C" fn lockrun_send(
    alloc: Global,
    node: &mut Handle,
    to: u32,
    buffer: &mut [u8],
    length: &mut usize,
) -> u32
    ensures some { IsSome node.old.value → IsSome node.new.value }
    ensures sends { AtNode result to (SendsFrames result to length.old length.new buffer.old buffer.new)
        node.old.value node.new.value }
{
    let Some(mut inside) = take(alloc, node) else {
        return WRONG_HANDLE;
    };
    let code = carrying::send(&mut inside, to, buffer, length);
    *node = Handle::of(inside);
    code
}

/// Takes in the letters of a node whose frames stand at the front of the bytes, as far as these are whole.
#[unsafe(no_mangle)]
pub extern "C" fn lockrun_receive(
    alloc: Global,
    node: &mut Handle,
    from: u32,
    bytes: &[u8],
    used: &mut usize,
) -> u32
    ensures some { IsSome node.old.value → IsSome node.new.value }
    ensures receives { AtNode result from (Receives result from used.old used.new bytes.now) node.old.value
        node.new.value }
{
    let Some(mut inside) = take(alloc, node) else {
        return WRONG_HANDLE;
    };
    let code = carrying::receive(&mut inside, alloc, from, bytes, used);
    *node = Handle::of(inside);
    code
}

/// Tells whether a letter waits to be carried to a node.
#[unsafe(no_mangle)]
pub extern "C" fn lockrun_pending(alloc: Global, node: &mut Handle, to: u32) -> u32
    ensures some { IsSome node.old.value → IsSome node.new.value }
    ensures tells { AtNode result to (TellsPending result to) node.old.value node.new.value }
{
    let Some(mut inside) = take(alloc, node) else {
        return WRONG_HANDLE;
    };
    let code = carrying::pending(&mut inside, to);
    *node = Handle::of(inside);
    code
}

/// Ends the node: `journal` stands for the moves that it made. Without memory, or where it has forgotten moves or
/// commands, all is dropped.
#[unsafe(no_mangle)]
pub extern "C" fn lockrun_node_finish(alloc: Global, node: &mut Handle, journal: &mut Handle) -> u32
    ensures journal { result ≡ OK → HandleFinishesNode node.old.value journal.new.value }
    ensures gone { result ≢ WRONG_HANDLE → node.new.value ≡ None }
    ensures wrong { result ≡ WRONG_HANDLE → node.new.value ≡ node.old.value }
    ensures keeps { result ≢ OK → journal.new.value ≡ journal.old.value }
    ensures refused { result ≢ OK → HandleNotFinishedNode result node.old.value }
{
    let Some(room) = take(alloc, node) else {
        return WRONG_HANDLE;
    };
    if !room.is_node() {
        *node = Handle::of(room);
        return WRONG_HANDLE;
    }
    finish_in(alloc, room, journal)
}

// The node in the box ends, and the handle stands for its journal then.
fn finish_in(alloc: Global, mut room: Box<Content>, journal: &mut Handle) -> u32
    requires { StandsForNode room.value }
    ensures journal { result ≡ OK → HandleFinishesNode (Some room.value) journal.new.value }
    ensures right { result ≢ WRONG_HANDLE }
    ensures keeps { result ≢ OK → journal.new.value ≡ journal.old.value }
    ensures refused { result ≢ OK → NodeNotFinished result room.value }
{
    let content = replace(&mut *room, Content::Journal(Journal::empty(alloc)));
    match content.journal_of_node(alloc) {
        Ok(made) => put(room, made, journal),
        Err(code) => code,
    }
}
