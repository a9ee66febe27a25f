ghost use Rattle.std.specs.Prelude.{◌≡◌, ◌≤◌, length};
ghost use Rattle.lt_spec.specs.declared.limits.TheConstants.{MAX_NAME};

use crate::index::Named;
use crate::name::Name;
use std::marker::Model;

/// A lock set as a script declares it.
#[derive(Drop)]
pub struct SetDecl {
    name: Name,
    family: u32,
}

impl Model for SetDecl {
    ghost use Rattle.lt_modes.specs.Script.{SetData};

    ghost Value = { SetData };

    ghost view = { λ d. record { name = d.name; family = d.family } };
}

impl Named for SetDecl {
    ghost name_of = { λ x. x.name };

    fn name(&self) -> &[u8] {
        self.name.bytes()
    }

    fn copy(&self) -> SetDecl {
        SetDecl {
            name: self.name.copy(),
            family: self.family,
        }
    }
}

impl SetDecl {
    pub fn new(name: &[u8], family: u32) -> SetDecl
        requires { length name.now ≤ MAX_NAME }
        ensures { result ≡ record { name = name.now; family = family } }
    {
        SetDecl {
            name: Name::of(name),
            family,
        }
    }

    /// The number of the first set of the set's family.
    pub fn family(&self) -> u32
        ensures { result ≡ self.now.family }
    {
        self.family
    }
}

/// A client as a script declares it.
#[derive(Drop)]
pub struct ClientDecl {
    name: Name,
    node: u8,
}

impl Model for ClientDecl {
    ghost use Rattle.lt_modes.specs.Script.{ClientData};

    ghost Value = { ClientData };

    ghost view = { λ d. record { name = d.name; node = d.node } };
}

impl Named for ClientDecl {
    ghost name_of = { λ x. x.name };

    fn name(&self) -> &[u8] {
        self.name.bytes()
    }

    fn copy(&self) -> ClientDecl {
        ClientDecl {
            name: self.name.copy(),
            node: self.node,
        }
    }
}

impl ClientDecl {
    pub fn new(name: &[u8], node: u8) -> ClientDecl
        requires { length name.now ≤ MAX_NAME }
        ensures { result ≡ record { name = name.now; node = node } }
    {
        ClientDecl {
            name: Name::of(name),
            node,
        }
    }

    pub fn node(&self) -> u8
        ensures { result ≡ self.now.node }
    {
        self.node
    }
}
