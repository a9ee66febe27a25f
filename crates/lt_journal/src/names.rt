ghost use Rattle.std.specs.Prelude.{◌≡◌, slice_get};
ghost use Rattle.lt_modes.specs.Script.{set_name, client_name};

use lt_script::Script;

/// The name of the set with this number, or the empty name where the script has no such set.
pub fn set_name(script: &Script, set: u32) -> &[u8]
    ensures { result.now ≡ set_name script.now set }
{
    if set < script.sets() {
        script.set_name(set)
    } else {
        &[]
    }
}

/// The name of the client with this number, or the empty name where the script has no such client.
pub fn client_name(script: &Script, client: u16) -> &[u8]
    ensures { result.now ≡ client_name script.now client }
{
    if client < script.clients() {
        script.client_name(client)
    } else {
        &[]
    }
}
