// One node of a script, opened, asked for sessions and ended.
ghost use Rattle.std.specs.Prelude.{◌≡◌, ◌<◌, ◌≤◌, ◌≢◌, ℕ, [], IfOk, IfErr, IfSome, IfNone, OnOk, true, length, slice_get, drop, Some, None, Ok};
ghost use Rattle.lt_runner.specs.Kept.{HasAll};
ghost use Rattle.lt_live_c.specs.NodeCalls.{IsJournalOfOwnNode};
ghost use Rattle.lt_spec.specs.declared.moves.TheConstants.{MAX_MOVES_OF_SERVICE};
ghost use Rattle.lt_spec.specs.declared.limits.TheConstants.{MAX_COMMANDS};
ghost use Rattle.lt_live.specs.Stations.{most_share};
ghost use Rattle.lt_live_c.specs.Opening.{fits_for_c};
ghost use Rattle.lt_live_c.specs.Nodes.{IsOpenedNode, NodeOpenRefused, IsPeer, TakesOwnSession, IsNodeStart, NoFrameWaits};

use crate::code::{BAD_ARGUMENT, NO_MEMORY};
use crate::journal::Journal;
use crate::node::Node;
use crate::service::{fits, script_of};
use lt_apart::{NodeJournal, Remote};
use lt_frames::service_number;
use lt_live::{Session, most_share};
use lt_script::Script;
use std::alloc::{AllocError, Global};

impl Node {
    /// The node of the script that the text denotes, whose commands are left out.
    #[tactic(auto, using(crate::proofs::Unopened::node_unread, crate::proofs::Unopened::node_no_memory))]
    pub fn open(
        alloc: Global,
        text: &[u8],
        node: u32,
        key: &[u8],
        start: u64,
        limit: u64,
        places: u32,
    ) -> Result<Node, u32>
        ensures opened { IfOk result (λ n. IsOpenedNode text.now node key.now start limit places n) }
        ensures refused { IfErr result (λ code. NodeOpenRefused code text.now node limit places) }
        ensures fits { OnOk result (fits_for_c text.now limit places ≡ true) }
    {
        if !fits(text, limit, places) {
            return Err(BAD_ARGUMENT);
        }
        let script = script_of(alloc, text)?;
        if node >= u32::from(script.nodes()) {
            return Err(BAD_ARGUMENT);
        }
        let service = service_number(text, start);
        match Node::start(alloc, &script, node as u8, service, key, limit, places) {
            Ok(node) => Ok(node),
            Err(_) => Err(NO_MEMORY),
        }
    }

    fn start(
        alloc: Global,
        script: &Script,
        node: u8,
        service: u64,
        key: &[u8],
        limit: u64,
        places: u32,
    ) -> Result<Node, AllocError>
        requires node { node < script.now.nodes }
        requires limit { (0 < limit) × (limit ≤ MAX_MOVES_OF_SERVICE) }
        requires places { (0 < places) × (places ≤ MAX_COMMANDS) }
        ensures { IfOk result (IsNodeStart script.now node service key.now limit places) }
    {
        let bare = script.without_commands(alloc)?;
        let ready = no_frames(alloc, bare.nodes())?;
        let share = most_share(&bare);
        let (remote, sessions) = Remote::open(
            alloc, &bare, node, service, key, limit, places, share,
        )?;
        Ok(Node {
            remote,
            sessions,
            ready,
        })
    }

    /// The number, where it is that of another node of the script.
    pub fn peer(&self, node: u32) -> Option<u8>
        ensures some { IfSome result (λ peer. (peer ≡ node) × IsPeer self.now node) }
        ensures none { IfNone result (IsPeer self.now node → ⊥) }
    {
        if node >= u32::from(self.remote.nodes()) || node == u32::from(self.remote.node()) {
            return None;
        }
        Some(node as u8)
    }

    /// The next session of the node's clients, if one is left.
    pub fn next_session(&mut self) -> Option<Session>
        ensures some { IfSome result (λ session. TakesOwnSession session self.old self.new) }
        ensures none { IfNone result ((self.new ≡ self.old) × (self.old.sessions ≡ [])) }
    {
        if self.sessions.is_empty() {
            None
        } else {
            Some(self.sessions.remove(0))
        }
    }

    /// The journal of the moves that this node made, if it has forgotten none of them and no command.
    pub fn into_journal(self, alloc: Global) -> Result<Option<Journal>, AllocError>
        ensures journal { IfOk result (λ made. IfSome made (λ journal. IsJournalOfOwnNode self journal)) }
        ensures forgotten { result ≡ Ok None → HasAll self.remote.station.runner → ⊥ }
    {
        match self.into_remote().into_journal(alloc)? {
            Some(NodeJournal { script, moves }) => Ok(Some(Journal {
                script,
                text: moves,
                held: 0,
                waiting: 0,
            })),
            None => Ok(None),
        }
    }
}

// An empty frame for each node.
fn no_frames(alloc: Global, nodes: u8) -> Result<Vec<Vec<u8>>, AllocError>
    ensures count { IfOk result (λ frames. length frames.items ≡ nodes) }
    ensures empty { IfOk result (λ frames. NoFrameWaits frames.items) }
{
    let mut frames = Vec::with_capacity(alloc, usize::from(nodes))?;
    for _ in 0..nodes {
        frames.push(Vec::new(alloc))?;
    }
    Ok(frames)
}
