// Sets that are asked for by name.
ghost use Rattle.std.specs.Prelude.{◌≡◌, None, IfOk, IfSome, OnErr, false, true};
ghost use Rattle.lt_spec.specs.Script.{set_number, IsFamilyOfNext};
ghost use Rattle.lt_script.specs.Index.{hash_of};
ghost use Rattle.lt_script.specs.ByName.{has_parent, family_with, new_set, set_by_name, after_name};

use crate::index::hash;
use crate::name::is_name;
use crate::script::Script;
use lt_spec::MAX_SETS_OF_SERVICE;
use std::alloc::AllocError;

/// What a name comes to that a set is asked for by.
#[derive(Clone, Copy, Debug, PartialEq, Eq)]
pub enum SetByName {
    /// The number of the set that has the name.
    Set(u32),
    /// It is no name.
    NoName,
    /// A client has the name.
    IsClient,
    /// The parent is no set of the script.
    NoParent,
    /// There are as many sets as a service may have.
    TooMany,
}

impl Script {
    /// The set with this name, the same one each time. If there is none, it is added as the last one, in the family of
    /// its parent or in one of its own.
    pub fn set_by_name(&mut self, name: &[u8], parent: Option<u32>) -> Result<SetByName, AllocError>
        ensures told { IfOk result (λ told. told ≡ set_by_name self.old name.now parent) }
        ensures script { IfOk result (λ told. self.new ≡ after_name self.old name.now parent told) }
        ensures same { OnErr result (self.new ≡ self.old) }
    {
        let hash = hash(name);
        match self.set_hashed(name, hash) {
            Some(set) => Ok(SetByName::Set(set)),
            None => self.new_set(name, hash, parent),
        }
    }

    // A set with a name that no set has, and which has this hash.
    fn new_set(
        &mut self,
        name: &[u8],
        hash: u32,
        parent: Option<u32>,
    ) -> Result<SetByName, AllocError>
        requires none { set_number self.old name.now ≡ None }
        requires hash { hash ≡ hash_of name.now }
        ensures told { IfOk result (λ told. told ≡ new_set self.old name.now parent) }
        ensures script { IfOk result (λ told. self.new ≡ after_name self.old name.now parent told) }
        ensures same { OnErr result (self.new ≡ self.old) }
    {
        if !is_name(name) {
            return Ok(SetByName::NoName);
        }
        if self.client_hashed(name, hash).is_some() {
            return Ok(SetByName::IsClient);
        }
        let Some(family) = self.family_with(parent) else {
            return Ok(SetByName::NoParent);
        };
        let set = self.sets();
        if set >= MAX_SETS_OF_SERVICE {
            return Ok(SetByName::TooMany);
        }
        self.add_set_hashed(name, hash, family)?;
        Ok(SetByName::Set(set))
    }

    // The family of a further set with this parent, if that is one of the script.
    fn family_with(&self, parent: Option<u32>) -> Option<u32>
        ensures some { IfSome result (λ family. (has_parent self.now parent ≡ true)
            × (family ≡ family_with self.now parent) × IsFamilyOfNext self.now.sets family) }
        ensures none { result ≡ None → has_parent self.now parent ≡ false }
    {
        match parent {
            None => Some(self.sets()),
            Some(set) if set < self.sets() => Some(self.family(set)),
            Some(_) => None,
        }
    }
}
