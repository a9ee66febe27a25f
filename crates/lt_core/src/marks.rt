// The marks of clients whose unanswered ask was given up.
ghost use Rattle.std.specs.Prelude.{◌≡◌, ◌≤◌, ◌==◌, ◌∷◌, [], OnOk, IsOk};
ghost use Rattle.std.specs.List.{list_any};
ghost use Rattle.lt_modes.specs.Serving.{without_gone};

use std::alloc::{AllocError, Global};
use std::marker::Model;

/// The clients whose unanswered ask in a set was given up. Most often there is none, and then this takes no memory.
#[derive(Drop)]
pub(crate) struct Marks {
    clients: Vec<u16>,
}

impl Model for Marks {
    ghost use Rattle.std.specs.Prelude.{◌-◌, vec_len, vec_capacity};
    ghost use Rattle.lt_core.specs.CoreData.{MarksData};

    ghost Value = { MarksData };

    ghost view = { λ m. record { clients = m.clients.items; room = vec_capacity m.clients - vec_len m.clients } };
}

impl Marks {
    /// No mark.
    pub(crate) fn new(alloc: Global) -> Marks
        ensures { result.clients ≡ [] }
    {
        Marks {
            clients: Vec::new(alloc),
        }
    }

    /// Makes room for one mark more.
    pub(crate) fn reserve(&mut self) -> Result<(), AllocError>
        ensures clients { self.new.clients ≡ self.old.clients }
        ensures room { OnOk result (1 ≤ self.new.room) }
        ensures kept { self.old.room ≤ self.new.room }
        ensures full { 1 ≤ self.old.room → IsOk result }
    {
        self.clients.reserve(1)
    }

    /// The marked clients, the last one that was marked first.
    #[inline(always)]
    pub(crate) fn clients(&self) -> &[u16]
        ensures { result.now ≡ self.now.clients }
    {
        self.clients.as_slice()
    }

    /// Whether the client is marked.
    #[inline(always)]
    pub(crate) fn has(&self, client: u16) -> bool
        ensures { result ≡ list_any (λ other. other == client) self.now.clients }
    {
        !self.clients.is_empty() && self.finds(client)
    }

    // The same where some client is marked.
    #[inline(never)]
    fn finds(&self, client: u16) -> bool
        ensures { result ≡ list_any (λ other. other == client) self.now.clients }
    {
        self.clients.iter().any(|other| *other == client)
    }

    /// Marks the client.
    pub(crate) fn add(&mut self, client: u16)
        requires { 1 ≤ self.old.room }
        ensures { self.new.clients ≡ client ∷ self.old.clients }
    {
        match self.clients.insert(0, client) {
            Ok(()) => {}
            Err(_) => unreachable!(),
        }
    }

    /// The client is marked no more.
    pub(crate) fn remove(&mut self, client: u16)
        ensures { self.new.clients ≡ without_gone self.old.clients client }
    {
        self.clients.retain(|other| *other != client);
    }
}
