// Sets and clients by their names.
ghost use Rattle.std.specs.Prelude.{◌≡◌, ◌<◌, length, IfSome};
ghost use Rattle.lt_spec.specs.Script.{set_number, client_number, is_declared};
ghost use Rattle.lt_script.specs.Index.{hash_of};

use crate::index::hash;
use crate::script::Script;

impl Script {
    /// The set with this name.
    #[inline(always)]
    pub fn set_number(&self, name: &[u8]) -> Option<u32>
        ensures number { result ≡ set_number self.now name.now }
        ensures inside { IfSome result (λ set. set < length self.now.sets) }
    {
        self.set_hashed(name, hash(name))
    }

    /// The client with this name.
    #[inline(always)]
    pub fn client_number(&self, name: &[u8]) -> Option<u16>
        ensures number { result ≡ client_number self.now name.now }
        ensures inside { IfSome result (λ client. client < length self.now.clients) }
    {
        self.client_hashed(name, hash(name))
    }

    /// Whether a set or a client has this name.
    pub fn is_declared(&self, name: &[u8]) -> bool
        ensures { result ≡ is_declared self.now name.now }
    {
        let hash = hash(name);
        self.set_hashed(name, hash).is_some() || self.client_hashed(name, hash).is_some()
    }

    /// The set with this name, which has this hash.
    #[inline(always)]
    pub(crate) fn set_hashed(&self, name: &[u8], hash: u32) -> Option<u32>
        requires { hash ≡ hash_of name.now }
        ensures number { result ≡ set_number self.now name.now }
        ensures inside { IfSome result (λ set. set < length self.now.sets) }
    {
        self.parts.sets.place(name, hash)
    }

    /// The client with this name, which has this hash.
    #[inline(always)]
    pub(crate) fn client_hashed(&self, name: &[u8], hash: u32) -> Option<u16>
        requires { hash ≡ hash_of name.now }
        ensures number { result ≡ client_number self.now name.now }
        ensures inside { IfSome result (λ client. client < length self.now.clients) }
    {
        match self.parts.clients.place(name, hash) {
            Some(client) => Some(client as u16),
            None => None,
        }
    }
}
