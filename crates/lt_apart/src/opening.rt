// A node that is opened.
ghost use Rattle.std.specs.Prelude.{◌≡◌, ◌<◌, ◌≤◌, [], IfOk};
ghost use Rattle.lt_spec.specs.declared.moves.TheConstants.{MAX_MOVES_OF_SERVICE};
ghost use Rattle.lt_spec.specs.declared.limits.TheConstants.{MAX_COMMANDS};
ghost use Rattle.lt_live.specs.Stations.{most_share};
ghost use Rattle.lt_apart.specs.Remote.{IsOpenRemote};

use crate::ends::{Ends, no_letters};
use crate::remote::Remote;
use lt_live::{LETTER_PLACES, Session, open_node};
use lt_mail::open_star;
use lt_script::Script;
use std::alloc::{AllocError, Global};

impl Remote {
    /// One node of the script in this process, and a session for each of its clients, in order.
    ///
    /// All nodes of one service are opened with the same script, and under the same number and the same key, each in
    /// one process; a node that is opened anew opens another service. The node makes up to `limit` moves. A session's
    /// rings of commands and of replies have `places` places each, and it may submit `share` commands in its life.
    pub fn open(
        alloc: Global,
        script: &Script,
        node: u8,
        service: u64,
        key: &[u8],
        limit: u64,
        places: u32,
        share: u64,
    ) -> Result<(Remote, Vec<Session>), AllocError>
        requires commands { script.now.commands ≡ [] }
        requires node { node < script.now.nodes }
        requires limit { (0 < limit) × (limit ≤ MAX_MOVES_OF_SERVICE) }
        requires places { (0 < places) × (places ≤ MAX_COMMANDS) }
        requires share { share ≤ most_share script.now }
        ensures { IfOk result (λ opened. IsOpenRemote script.now node service key.now limit places share opened.0
            opened.1.items) }
    {
        let nodes = script.nodes();
        let (mail, far) = open_star(alloc, nodes, node, LETTER_PLACES)?;
        let ends = Ends {
            far,
            given: no_letters(alloc, nodes)?,
            brought: no_letters(alloc, nodes)?,
        };
        let key = Vec::from_slice(alloc, key)?;
        let (station, sessions) = open_node(alloc, script, node, mail, limit, places, share)?;
        let remote = Remote {
            service,
            key,
            station,
            ends,
        };
        Ok((remote, sessions))
    }
}
