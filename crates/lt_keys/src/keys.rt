// The set of a key.
ghost use Rattle.std.specs.Prelude.{◌≡◌, ◌<◌, ◌+◌, ◌*◌, ◌%◌, nat_le};
ghost use Rattle.sha2.specs.Sha256.{sha256};
ghost use Rattle.lt_spec.specs.declared.limits.TheConstants.{MAX_SETS_OF_SERVICE};
ghost use Rattle.lt_keys.specs.Keys.{key_number, family_key, place_in_family, least_members, has_key_sets, key_set};

use lt_spec::MAX_SETS_OF_SERVICE;
use sha2::{Digest, Sha256};

/// The number of the set of a key, where the sets of so many families with so many members each stand behind `first`
/// other ones: without a parent the root of its family, and else another member of the family of its parent.
///
/// None where there is no such set: without families, without members, with the root alone where there is a parent, or
/// where there are more sets than a service may have.
pub fn key_set(first: u32, families: u32, members: u32, parent: &[u8], key: &[u8]) -> Option<u32>
    ensures { result ≡ key_set first families members parent.now key.now }
{
    if !has_key_sets(first, families, members, parent) {
        return None;
    }
    let family = remainder(family_key(parent, key), families);
    let place = place_in_family(members, parent, key);
    Some(first + (family * members + place))
}

fn has_key_sets(first: u32, families: u32, members: u32, parent: &[u8]) -> bool
    ensures { result ≡ has_key_sets first families members parent.now }
{
    0 < families && least_members(parent) < members && fit(first, families, members)
}

// How many members a family has at least beside those that such a key may have.
fn least_members(parent: &[u8]) -> u32
    ensures { result ≡ least_members parent.now }
{
    if parent.is_empty() { 0 } else { 1 }
}

fn fit(first: u32, families: u32, members: u32) -> bool
    ensures { result ≡ nat_le (first + members * families) MAX_SETS_OF_SERVICE }
{
    u64::from(first) + u64::from(members) * u64::from(families) <= u64::from(MAX_SETS_OF_SERVICE)
}

// The key that the family is chosen by.
fn family_key<'a>(parent: &'a [u8], key: &'a [u8]) -> &'a [u8]
    ensures { result.now ≡ family_key parent.now key.now }
{
    if parent.is_empty() { key } else { parent }
}

fn place_in_family(members: u32, parent: &[u8], key: &[u8]) -> u32
    requires { least_members parent.now < members }
    ensures value { result ≡ place_in_family members parent.now key.now }
    ensures inside { result < members }
{
    if parent.is_empty() {
        return 0;
    }
    1 + remainder(key, members - 1)
}

// The key's number, cut down to one below this.
fn remainder(key: &[u8], below: u32) -> u32
    requires { 0 < below }
    ensures value { result ≡ key_number key.now % below }
    ensures below { result < below }
{
    (key_number(key) % u64::from(below)) as u32
}

fn key_number(key: &[u8]) -> u64
    ensures { result ≡ key_number key.now }
{
    let digest = digest_of(key);
    u64::from_be_bytes([
        digest[0], digest[1], digest[2], digest[3], digest[4], digest[5], digest[6], digest[7],
    ])
}

fn digest_of(key: &[u8]) -> [u8; 32]
    ensures { result ≡ sha256 key.now }
{
    let mut hasher = Sha256::new();
    hasher.update(key);
    hasher.finalize()
}
