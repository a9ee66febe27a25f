ghost use Rattle.std.specs.Prelude.{◌≡◌, ◌<◌, ◌≤◌, ◌∷◌, [], length, IfOk, IsTrue};
ghost use Rattle.lt_modes.specs.FiveModes.{is_of_five, is_of_version};
ghost use Rattle.lt_modes.specs.declared.mode.Mode.TheVariants.{Upgrade, Write};
ghost use Rattle.lt_modes.specs.declared.command.Command.TheVariants.{Lock, Change};
ghost use Rattle.lt_gen.specs.Generator.{draw_of, drawn_mode, drawn_beside, group_of, group_by, third_by, set_of, group_commands, IsGroupOf, IsOnSameNode, NamesBeside};

use crate::draws::Draws;
use lt_modes::{Command, MODES, Mode};
use std::alloc::{AllocError, Global};

/// The number of sets of a generated script.
pub const SETS: u32 = 4;

/// The version of a script, and how many nodes and clients it has.
#[derive(Clone, Copy, Debug, PartialEq, Eq)]
pub struct Sizes {
    pub version: u8,
    pub nodes: u8,
    pub clients: u16,
}

/// What a client does before another one's turn: it holds at most one lock, and gives it up.
#[derive(Clone, Copy, Debug, PartialEq, Eq)]
pub enum Group {
    /// One command alone, where no more is left.
    Last,
    Lock { set: u32, mode: Mode },
    Try { set: u32, mode: Mode },
    /// An upgrade lock that is given up as it is.
    Upgrade { set: u32 },
    /// An upgrade lock that is changed to write.
    Change { set: u32 },
    /// A lock that the client waits for no longer than until its next move.
    GiveUp { client: u16, set: u32, mode: Mode },
    /// An upgrade lock that is changed to write; the client drops the one that it holds then, since the change may be
    /// given up by another client.
    Release { client: u16, set: u32 },
    /// What a client waits for is given up.
    Withdraw { client: u16, set: u32 },
}

impl Group {
    /// The next group of the client, where so many commands are left to be made.
    pub fn drawn(draws: &mut Draws, sizes: Sizes, client: u16, left: u32) -> Group
        requires some_node { 0 < sizes.nodes }
        requires inside { client < sizes.clients }
        ensures value { (result, draws.new) ≡ group_of sizes client left draws.old }
        ensures set { set_of result < SETS }
        ensures version { IsGroupOf sizes.version result }
        ensures beside { NamesBeside sizes client result }
        ensures few { 0 < left → length (group_commands result) ≤ left }
    {
        if left == 1 {
            return Group::Last;
        }
        let set = draws.draw(SETS);
        match sizes.version {
            3 => Group::drawn_in_third(draws, sizes, client, left, set),
            version => Group::drawn_before(draws, version, left, set),
        }
    }

    // The next group on the set in a script of version 1 or 2.
    fn drawn_before(draws: &mut Draws, version: u8, left: u32, set: u32) -> Group
        ensures { (result, draws.new) ≡ group_by version left set (draw_of 4 draws.old).0 (draw_of 4 draws.old).1 }
    {
        match draws.draw(4) {
            0 | 1 => Group::Lock {
                set,
                mode: drawn_mode(draws, version),
            },
            2 if left >= 3 => Group::Change { set },
            2 => Group::Upgrade { set },
            _ => Group::Try {
                set,
                mode: drawn_mode(draws, version),
            },
        }
    }

    // The next group of the client on the set in a script of version 3.
    fn drawn_in_third(draws: &mut Draws, sizes: Sizes, client: u16, left: u32, set: u32) -> Group
        requires some_node { 0 < sizes.nodes }
        requires inside { client < sizes.clients }
        ensures { (result, draws.new) ≡ third_by sizes client left set (draw_of 8 draws.old).0 (draw_of 8 draws.old).1 }
    {
        match draws.draw(8) {
            0 | 1 | 2 | 3 => Group::Lock {
                set,
                mode: drawn_mode(draws, 3),
            },
            4 if left >= 3 => Group::Release { client, set },
            4 => Group::Upgrade { set },
            5 => Group::Try {
                set,
                mode: drawn_mode(draws, 3),
            },
            6 if left >= 3 => Group::GiveUp {
                client,
                set,
                mode: drawn_mode(draws, 3),
            },
            6 => Group::Lock {
                set,
                mode: drawn_mode(draws, 3),
            },
            _ => Group::Withdraw {
                client: drawn_beside(draws, sizes, client),
                set,
            },
        }
    }

    /// The commands that the client makes, in order.
    pub fn commands(self, alloc: Global) -> Result<Vec<Command>, AllocError>
        ensures { IfOk result (λ commands. commands.items ≡ group_commands self) }
    {
        match self {
            Group::Last => {
                let mode = Mode::Read;
                Vec::from_slice(alloc, &[Command::Unlock { set: 0, mode }])
            }
            Group::Lock { set, mode } => Vec::from_slice(
                alloc,
                &[Command::Lock { set, mode }, Command::Unlock { set, mode }],
            ),
            Group::Try { set, mode } => Vec::from_slice(
                alloc,
                &[Command::Try { set, mode }, Command::Unlock { set, mode }],
            ),
            Group::Upgrade { set } => {
                let mode = Mode::Upgrade;
                Vec::from_slice(
                    alloc,
                    &[Command::Lock { set, mode }, Command::Unlock { set, mode }],
                )
            }
            Group::Change { set } => {
                let mode = Mode::Write;
                changed(alloc, set, Command::Unlock { set, mode })
            }
            Group::GiveUp { client, set, mode } => Vec::from_slice(
                alloc,
                &[
                    Command::Lock { set, mode },
                    Command::Withdraw { client, set },
                    Command::Unlock { set, mode },
                ],
            ),
            Group::Release { client, set } => changed(alloc, set, Command::DropAll { client, set }),
            Group::Withdraw { client, set } => {
                Vec::from_slice(alloc, &[Command::Withdraw { client, set }])
            }
        }
    }
}

// An upgrade lock that is changed to write, and a last command.
fn changed(alloc: Global, set: u32, last: Command) -> Result<Vec<Command>, AllocError>
    ensures { IfOk result (λ commands. commands.items ≡ Lock set Upgrade ∷ Change set Upgrade Write ∷ last ∷ []) }
{
    let gives_up = Mode::Upgrade;
    let mode = Mode::Write;
    Vec::from_slice(
        alloc,
        &[
            Command::Lock {
                set,
                mode: gives_up,
            },
            Command::Change {
                set,
                gives_up,
                mode,
            },
            last,
        ],
    )
}

// One of the modes of the version.
fn drawn_mode(draws: &mut Draws, version: u8) -> Mode
    ensures value { (result, draws.new) ≡ drawn_mode version draws.old }
    ensures of_version { IsTrue (is_of_version version result) }
{
    if version == 1 {
        drawn_of_five(draws)
    } else {
        MODES[draws.draw(6) as usize]
    }
}

fn drawn_of_five(draws: &mut Draws) -> Mode
    ensures value { (result, draws.new) ≡ drawn_mode 1 draws.old }
    ensures five { IsTrue (is_of_five result) }
{
    let mode = MODES[draws.draw(5) as usize];
    if mode.is_of_five() {
        mode
    } else {
        // The last but one of all modes is the one that version 1 lacks, and `write` comes after it.
        Mode::Write
    }
}

// One of the clients on the client's node, which may be the client itself.
fn drawn_beside(draws: &mut Draws, sizes: Sizes, client: u16) -> u16
    requires some_node { 0 < sizes.nodes }
    requires inside { client < sizes.clients }
    ensures value { (result, draws.new) ≡ drawn_beside sizes client draws.old }
    ensures beside { IsOnSameNode sizes client result }
{
    let nodes = u32::from(sizes.nodes);
    let first = u32::from(client) % nodes;
    let later = (u32::from(sizes.clients) - 1 - first) / nodes;
    (first + draws.draw(later + 1) * nodes) as u16
}
