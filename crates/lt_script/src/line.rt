ghost use Rattle.std.specs.Prelude.{◌≡◌, ◌<◌, None, Some, true, length, IfSome, IsTrue};
ghost use Rattle.lt_modes.specs.Modes.{mode_of};
ghost use Rattle.lt_modes.specs.FiveModes.{is_of_version};
ghost use Rattle.lt_script.specs.Forms.{form_seen, asked_seen, is_asked_in, NodesForm, SetForm, SetWithForm, ClientForm, CommandForm, ChangeWords, DropWords, WithdrawWords};
ghost use Rattle.lt_spec.specs.Script.{client_number};
ghost use Rattle.lt_script.specs.OneMode.{verb_words};
ghost use Rattle.lt_script.specs.Faults.{form_fault, mode_in};
ghost use Rattle.lt_script.specs.Steps.{Resolves, FindsSetAndMode, FindsNeighbour};

use crate::fault::Fault;
use crate::form::{CommandWords, Form};
use crate::limits::{most_clients, most_nodes};
use crate::name::is_name;
use crate::one_mode::{Verb, command_of};
use crate::script::Script;
use lt_modes::{Command, Mode};
use lt_spec::{MAX_CLIENTS_OF_NODE, MAX_COMMANDS, MAX_SETS};
use lt_text::number;

/// The first fault of a line where the line `nodes` was not before it.
pub fn fault_before_nodes(version: u8, form: Form<'_>) -> Option<Fault>
    ensures { result ≡ form_fault version None (form_seen form.entry) }
{
    match form {
        Form::Nodes { nodes } => first_nodes_fault(version, nodes),
        Form::Client { node, .. } if number(node).is_none() => Some(Fault::Number),
        _ => Some(Fault::Nodes),
    }
}

fn first_nodes_fault(version: u8, nodes: &[u8]) -> Option<Fault>
    ensures { result ≡ form_fault version None (NodesForm nodes.now) }
{
    match number(nodes) {
        None | Some(0) => Some(Fault::Number),
        Some(nodes) if nodes > u32::from(most_nodes(version)) => Some(Fault::Limit),
        Some(_) => None,
    }
}

/// The fault of a further line `nodes`.
pub fn later_nodes_fault(_script: &Script, nodes: &[u8]) -> Fault
    ensures { form_fault _script.now.version (Some _script.now) (NodesForm nodes.now) ≡ Some result }
{
    match number(nodes) {
        None | Some(0) => Fault::Number,
        Some(_) => Fault::Nodes,
    }
}

/// The first fault of a line that declares a set.
pub fn set_fault(script: &Script, name: &[u8]) -> Option<Fault>
    ensures { form_fault script.now.version (Some script.now) (SetForm name.now) ≡ result }
{
    if !is_name(name) {
        Some(Fault::Name)
    } else if script.is_declared(name) {
        Some(Fault::Repeated)
    } else if script.sets() >= MAX_SETS {
        Some(Fault::Limit)
    } else {
        None
    }
}

/// The first fault of a line that declares a set in the family of another one.
pub fn set_with_fault(script: &Script, name: &[u8], relative: &[u8]) -> Option<Fault>
    ensures { form_fault script.now.version (Some script.now) (SetWithForm name.now relative.now) ≡ result }
{
    if !is_name(name) {
        Some(Fault::Name)
    } else if script.is_declared(name) {
        Some(Fault::Repeated)
    } else if script.set_number(relative).is_none() {
        Some(Fault::Unknown)
    } else if script.sets() >= MAX_SETS {
        Some(Fault::Limit)
    } else {
        None
    }
}

/// The first fault of a line that declares a client.
pub fn client_fault(script: &Script, name: &[u8], node: &[u8]) -> Option<Fault>
    ensures { form_fault script.now.version (Some script.now) (ClientForm name.now node.now) ≡ result }
{
    let Some(node) = number(node) else {
        return Some(Fault::Number);
    };
    if node >= u32::from(script.nodes()) {
        Some(Fault::Number)
    } else if !is_name(name) {
        Some(Fault::Name)
    } else if script.is_declared(name) {
        Some(Fault::Repeated)
    } else if script.clients() >= most_clients(script.version())
        || script.load(node as u8) >= MAX_CLIENTS_OF_NODE
    {
        Some(Fault::Limit)
    } else {
        None
    }
}

/// The client and the command of a line, by the numbers of what it names, or the line's first fault.
pub fn request_of(
    script: &Script,
    client: &[u8],
    asked: CommandWords<'_>,
) -> Result<(u16, Command), Fault>
    requires { is_asked_in script.now.version (asked_seen asked) ≡ true }
    ensures { Resolves script.now (CommandForm client.now (asked_seen asked.entry)) result }
{
    let Some(number) = script.client_number(client) else {
        return Err(Fault::Unknown);
    };
    match asked {
        CommandWords::Lock { set, mode } => {
            request_with(script, client, number, Verb::Lock, set, mode)
        }
        CommandWords::Try { set, mode } => {
            request_with(script, client, number, Verb::Try, set, mode)
        }
        CommandWords::Unlock { set, mode } => {
            request_with(script, client, number, Verb::Unlock, set, mode)
        }
        CommandWords::Change {
            set,
            gives_up,
            mode,
        } => change(script, client, number, set, gives_up, mode),
        CommandWords::Drop { client: other, set } => {
            drop_all(script, client, number, other, set)
        }
        CommandWords::Withdraw { client: other, set } => {
            withdraw(script, client, number, other, set)
        }
    }
}

// The same of a line with this verb, a set and a mode; `_name` is the client's.
fn request_with(
    script: &Script,
    _name: &[u8],
    client: u16,
    verb: Verb,
    set: &[u8],
    mode: &[u8],
) -> Result<(u16, Command), Fault>
    requires client { client_number script.now _name.now ≡ Some client }
    requires inside { client < length script.now.clients }
    ensures { Resolves script.now (CommandForm _name.now (verb_words verb set.now mode.now)) result }
{
    match set_and_mode(script, set, mode) {
        Ok((set, mode)) => Ok((client, command_of(verb, set, mode))),
        Err(fault) => Err(fault),
    }
}

// The same of a line `change`; `_name` is the client's.
fn change(
    script: &Script,
    _name: &[u8],
    client: u16,
    set: &[u8],
    gives_up: &[u8],
    mode: &[u8],
) -> Result<(u16, Command), Fault>
    requires client { client_number script.now _name.now ≡ Some client }
    requires inside { client < length script.now.clients }
    ensures { Resolves script.now
        (CommandForm _name.now (ChangeWords set.now gives_up.now mode.now)) result }
{
    let (set, gives_up) = set_and_mode(script, set, gives_up)?;
    let Some(mode) = mode_in(script.version(), mode) else {
        return Err(Fault::Mode);
    };
    let command = Command::Change {
        set,
        gives_up,
        mode,
    };
    Ok((client, command))
}

// The same of a line `drop`; `_name` is the client's.
fn drop_all(
    script: &Script,
    _name: &[u8],
    client: u16,
    other: &[u8],
    set: &[u8],
) -> Result<(u16, Command), Fault>
    requires client { client_number script.now _name.now ≡ Some client }
    requires inside { client < length script.now.clients }
    ensures { Resolves script.now (CommandForm _name.now (DropWords other.now set.now)) result }
{
    match client_and_set(script, client, other, set) {
        Ok((other, set)) => Ok((client, Command::DropAll { client: other, set })),
        Err(fault) => Err(fault),
    }
}

// The same of a line `withdraw`; `_name` is the client's.
fn withdraw(
    script: &Script,
    _name: &[u8],
    client: u16,
    other: &[u8],
    set: &[u8],
) -> Result<(u16, Command), Fault>
    requires client { client_number script.now _name.now ≡ Some client }
    requires inside { client < length script.now.clients }
    requires version { script.now.version ≡ 3 }
    ensures { Resolves script.now (CommandForm _name.now (WithdrawWords other.now set.now)) result }
{
    match client_and_set(script, client, other, set) {
        Ok((other, set)) => Ok((client, Command::Withdraw { client: other, set })),
        Err(fault) => Err(fault),
    }
}

// The set and the mode with these names, or the first fault of a command that names them.
fn set_and_mode(script: &Script, set: &[u8], mode: &[u8]) -> Result<(u32, Mode), Fault>
    ensures { FindsSetAndMode script.now set.now mode.now result }
{
    let Some(set) = script.set_number(set) else {
        return Err(Fault::Unknown);
    };
    if script.commands() >= u64::from(MAX_COMMANDS) {
        return Err(Fault::Limit);
    }
    let Some(mode) = mode_in(script.version(), mode) else {
        return Err(Fault::Mode);
    };
    Ok((set, mode))
}

// The client and the set with these names, or the first fault of a command by which this client drops that one's
// locks, or gives up its ask.
fn client_and_set(
    script: &Script,
    client: u16,
    other: &[u8],
    set: &[u8],
) -> Result<(u16, u32), Fault>
    requires { client < length script.now.clients }
    ensures { FindsNeighbour script.now client other.now set.now result }
{
    let Some(other) = script.client_number(other) else {
        return Err(Fault::Unknown);
    };
    let Some(set) = script.set_number(set) else {
        return Err(Fault::Unknown);
    };
    if script.commands() >= u64::from(MAX_COMMANDS) {
        Err(Fault::Limit)
    } else if script.home(other) != script.home(client) {
        Err(Fault::Node)
    } else {
        Ok((other, set))
    }
}

// The mode of this version with this word.
fn mode_in(version: u8, word: &[u8]) -> Option<Mode>
    ensures mode { result ≡ mode_in version word.now }
    ensures own { IfSome result (λ mode. (mode_of word.now ≡ Some mode) × IsTrue (is_of_version version mode)) }
{
    let Some(mode) = Mode::from_word(word) else {
        return None;
    };
    if version != 1 || mode.is_of_five() {
        Some(mode)
    } else {
        None
    }
}
