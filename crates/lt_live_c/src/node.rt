// One node of a script in this process.
ghost use Rattle.std.specs.Prelude.{◌≡◌};

use lt_apart::Remote;
use lt_live::Session;
use std::marker::Model;

/// A node whose letters go out and come in as bytes, the sessions of its clients that weren't taken yet, and for each
/// node the bytes of a frame that was given out for it and found no room.
pub struct Node {
    pub(crate) remote: Remote,
    pub(crate) sessions: Vec<Session>,
    pub(crate) ready: Vec<Vec<u8>>,
}

impl Model for Node {
    ghost use Rattle.std.specs.Prelude.{◌≡◌, length};
    ghost use Rattle.lt_apart.specs.Remote.{nodes};
    ghost use Rattle.lt_live_c.specs.OwnNode.{OwnNode};

    ghost Value = { OwnNode };

    ghost view = { λ n. record { remote = n.remote; sessions = n.sessions.items; ready = n.ready.items } };

    ghost invariant = { λ n. length n.ready.items ≡ nodes n.remote };
}

// Written out, so that all places which let a node go call this.
impl Drop for Node {
    fn drop(self) {
        let Node {
            remote,
            sessions,
            ready,
        } = self;
        drop(remote);
        drop(sessions);
        drop(ready);
    }
}

impl Node {
    /// The node alone; its sessions that weren't taken are dropped.
    pub fn into_remote(self) -> Remote
        ensures { result ≡ self.remote }
    {
        let Node {
            remote,
            sessions,
            ready,
        } = self;
        drop(sessions);
        drop(ready);
        remote
    }
}
