ghost use Rattle.std.specs.Prelude.{◌≡◌, ◌<◌, ◌+◌, ◌/◌, false};
ghost use Rattle.lt_threads.specs.Visits.{no_visits, after_move, after_refused, after_vain, MayVisit, HaveRoom};
ghost use Rattle.lt_threads.specs.declared.outlook.TheConstants.{FEW_WORKERS, NODES_PER_WORKER};

use crate::visits::Visits;

/// The workers among few nodes, and for how many nodes there is one more.
const FEW_WORKERS: u8 = 3;

const NODES_PER_WORKER: u8 = 32;

// A visit for a command is short if it made fewer moves than this and a letter was sent.
const SHORT: u64 = 16;

// After so many short visits a worker that may leave gives its nodes up to the others.
const MOST_SHORT: u32 = 4;

/// What a worker knows of the nodes, a bit each, and where it looks next.
///
/// It is chosen for speed alone: letters come before commands, and commands at one node before those at the next, so that a
/// token stays where its clients are.
#[derive(Clone, Copy)]
pub(crate) struct Outlook {
    // The node from which on it looks for the next one with mail.
    at: u8,
    // It doesn't leave for short visits.
    stays: bool,
    // The nodes that its runners sent letters to.
    mail: u64,
    // The nodes that may have another move.
    acts: u64,
    // The nodes that have made as many moves as they may.
    full: u64,
    // Whether the node that it looks at has mail.
    by_mail: bool,
    // For each node those that sent it letters since it was claimed last.
    senders: [u64; 64],
    // Letters of all nodes are looked for: by the worker that stays, after as many visits as there are nodes, none of
    // which made a move.
    wide: bool,
    // The nodes with mail that another worker had when they were claimed, and that weren't claimed since.
    owed: u64,
    // Short visits.
    short: u32,
    pub(crate) visits: Visits,
}

impl Outlook {
    pub(crate) fn new(at: u8) -> Outlook
        ensures { result.visits ≡ no_visits }
    {
        Outlook {
            at,
            stays: at == 0,
            mail: 0,
            acts: u64::MAX,
            full: 0,
            by_mail: false,
            senders: [0; 64],
            wide: false,
            owed: 0,
            short: 0,
            visits: Visits::none(),
        }
    }

    /// Whether the worker has tried often enough, or is in the way of the others. While another worker has a node with
    /// its mail, it ends for neither.
    pub(crate) fn is_over(&self, count: u8, patience: u32) -> bool
        ensures { result ≡ false → MayVisit count patience self.now.visits }
    {
        !self.visits.may_go_on(count, patience)
            || self.owed == 0 && (self.visits.vain >= 2 * u64::from(count) || self.leaves())
    }

    // Whether its visits for commands were short too often. It first sees to its mail.
    fn leaves(&self) -> bool {
        !self.stays && self.short >= MOST_SHORT && self.mail == 0
    }

    /// The next of so many nodes.
    pub(crate) fn next(&mut self, count: u8) -> u8
        requires { 0 < count }
        ensures node { result < count }
        ensures visits { self.new.visits ≡ self.old.visits }
    {
        self.by_mail = self.mail != 0;
        self.wide = self.stays && self.visits.vain >= u64::from(count);
        if self.acts & first_bits(count) == 0 {
            self.acts = !self.full | self.owed;
        }
        let node = if self.by_mail {
            first_from(self.mail, self.at, count)
        } else {
            first_from(self.acts, 0, count)
        };
        self.mail &= !bit(node);
        self.acts &= !bit(node);
        self.at = if node + 1 < count { node + 1 } else { 0 };
        node
    }

    /// Whether it looks at the node for letters alone.
    pub(crate) fn is_by_mail(&self) -> bool {
        self.by_mail
    }

    /// The nodes whose letters it looks for at this node: those that this worker knows to have sent it some, or all.
    pub(crate) fn senders_of(&self, node: u8) -> u64 {
        if self.wide {
            u64::MAX
        } else {
            self.senders[usize::from(node % 64)]
        }
    }

    /// Another worker has the node.
    pub(crate) fn note_refusal(&mut self, node: u8)
        requires { HaveRoom self.old.visits }
        ensures { self.new.visits ≡ after_refused self.old.visits }
    {
        self.visits.note_refusal();
        if self.by_mail {
            self.acts |= bit(node);
            self.owed |= bit(node);
        }
    }

    /// The worker has the node.
    pub(crate) fn note_claim(&mut self, node: u8)
        ensures { self.new.visits ≡ self.old.visits }
    {
        self.owed &= !bit(node);
        self.senders[usize::from(node % 64)] = 0;
    }

    /// The node made so many moves and sent letters to the nodes that were reached; by `more` a client there may be able
    /// to act.
    pub(crate) fn note_moves(&mut self, node: u8, moves: u64, reached: u64, more: bool)
        requires { HaveRoom self.old.visits }
        ensures { self.new.visits ≡ after_move self.old.visits }
    {
        if !self.by_mail && moves < SHORT && reached != 0 {
            self.short = self.short.saturating_add(1);
        }
        self.visits.note_move();
        self.mail |= reached;
        if more {
            self.acts |= bit(node);
        }
        add_sender(&mut self.senders, reached, node);
    }

    /// The node made no move.
    pub(crate) fn note_no_move(&mut self)
        requires { HaveRoom self.old.visits }
        ensures { self.new.visits ≡ after_vain self.old.visits }
    {
        self.visits.note_vain();
    }

    /// The node has made as many moves as it may.
    pub(crate) fn note_full(&mut self, node: u8)
        ensures { self.new.visits ≡ self.old.visits }
    {
        self.full |= bit(node);
        self.acts &= !bit(node);
    }
}

/// How many workers share so many nodes at most: more of them get into each other's way.
pub(crate) fn most_workers(count: u8) -> u8
    ensures { result ≡ FEW_WORKERS + count / NODES_PER_WORKER }
{
    FEW_WORKERS + count / NODES_PER_WORKER
}

// The nodes that were reached have letters of this one.
fn add_sender(senders: &mut [u64; 64], reached: u64, node: u8) {
    let mut left = reached;
    while left != 0 {
        senders[(left.trailing_zeros() % 64) as usize] |= bit(node);
        left &= left - 1;
    }
}

fn bit(node: u8) -> u64 {
    1 << (node % 64)
}

// The bits of so many nodes.
fn first_bits(count: u8) -> u64 {
    if count < 64 {
        !(u64::MAX << count)
    } else {
        u64::MAX
    }
}

// The first of these nodes from `at` on, round all; some node where there is none.
fn first_from(nodes: u64, at: u8, count: u8) -> u8
    requires { 0 < count }
    ensures { result < count }
{
    let later = nodes & (u64::MAX << (at % 64)) & first_bits(count);
    let found = if later == 0 { nodes } else { later };
    let first = found.trailing_zeros();
    if first < u32::from(count) {
        first as u8
    } else {
        0
    }
}
