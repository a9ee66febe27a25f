// What the calls that carry letters do with what a handle stands for.
ghost use Rattle.std.specs.Prelude.{◌≡◌, ◌<◌, [], IfErr, OnOk, length};
ghost use Rattle.lt_apart.specs.Remote.{nodes};
ghost use Rattle.lt_live_c.specs.NodeCalls.{OnNode};
ghost use Rattle.lt_live_c.specs.Nodes.{IsPeer, SendsFrames, Receives, TellsPending, GivesFrame, HasNoFrame, GoesToBuffer};

use crate::code::{BAD_ARGUMENT, FULL, MISFIT, NOTHING, OK, WRONG_HANDLE};
use crate::content::Content;
use crate::node::Node;
use crate::wire_code::{number_of_error, number_of_fault};
use lt_apart::Remote;
use std::alloc::Global;

/// Puts the next frame for a node at the front of the buffer, where it has room.
pub fn send(content: &mut Content, to: u32, buffer: &mut [u8], length: &mut usize) -> u32
    ensures { OnNode result to (SendsFrames result to length.old length.new buffer.old buffer.new) content.old
        content.new }
{
    match content {
        Content::Node(node) => match node.peer(to) {
            Some(peer) => node.send(peer, buffer, length),
            None => BAD_ARGUMENT,
        },
        _ => WRONG_HANDLE,
    }
}

/// Takes in the letters of a node whose frames stand at the front of the bytes.
pub fn receive(
    content: &mut Content,
    alloc: Global,
    from: u32,
    bytes: &[u8],
    used: &mut usize,
) -> u32
    ensures { OnNode result from (Receives result from used.old used.new bytes.now) content.old content.new }
{
    match content {
        Content::Node(node) => match node.peer(from) {
            Some(peer) => node.receive(alloc, peer, bytes, used),
            None => BAD_ARGUMENT,
        },
        _ => WRONG_HANDLE,
    }
}

/// Whether something waits to be sent to a node.
pub fn pending(content: &mut Content, to: u32) -> u32
    ensures { OnNode result to (TellsPending result to) content.old content.new }
{
    match content {
        Content::Node(node) => match node.peer(to) {
            Some(peer) => node.pending(peer),
            None => BAD_ARGUMENT,
        },
        _ => WRONG_HANDLE,
    }
}

impl Node {
    fn send(&mut self, to: u8, buffer: &mut [u8], length: &mut usize) -> u32
        requires { IsPeer self.old to }
        ensures { SendsFrames result to length.old length.new buffer.old buffer.new self.old self.new }
    {
        let frame = &mut self.ready[usize::from(to)];
        if let Err(code) = next_frame(&mut self.remote, to, frame) {
            return code;
        }
        hand_over(frame, buffer, length)
    }

    fn receive(&mut self, alloc: Global, from: u8, bytes: &[u8], used: &mut usize) -> u32
        requires { IsPeer self.old from }
        ensures { Receives result from used.old used.new bytes.now self.old self.new }
    {
        if self.remote.misfit().is_some() {
            return MISFIT;
        }
        let refused = match self.remote.bring_in(alloc, from, bytes) {
            Ok(size) => {
                *used = size;
                return OK;
            }
            Err(refused) => refused,
        };
        *used = refused.used;
        number_of_fault(refused.fault)
    }

    fn pending(&mut self, to: u8) -> u32
        requires { IsPeer self.old to }
        ensures { TellsPending result to self.old self.new }
    {
        let waits = self.remote.pending(to);
        if waits || !self.ready[usize::from(to)].is_empty() {
            return OK;
        }
        NOTHING
    }
}

// The frame that found no room, or else the next one.
fn next_frame(remote: &mut Remote, to: u8, frame: &mut Vec<u8>) -> Result<(), u32>
    requires peer { to < nodes remote.old }
    ensures gives { GivesFrame to frame.old.items frame.new.items remote.old remote.new }
    ensures some { OnOk result (0 < length frame.new.items) }
    ensures none { IfErr result (λ code. (frame.new.items ≡ []) × HasNoFrame code to remote.new) }
{
    if !frame.is_empty() {
        return Ok(());
    }
    match remote.take_out(to, 1, frame) {
        Ok(0) => Err(NOTHING),
        Ok(_) => Ok(()),
        Err(error) => Err(number_of_error(error)),
    }
}

// The frame goes to the front of the buffer, where it has room.
fn hand_over(frame: &mut Vec<u8>, buffer: &mut [u8], length: &mut usize) -> u32
    ensures { GoesToBuffer result length.new frame.old.items frame.new.items buffer.old buffer.new }
{
    let size = frame.len();
    *length = size;
    if size > buffer.len() {
        return FULL;
    }
    buffer[..size].copy_from_slice(frame);
    frame.clear();
    OK
}
