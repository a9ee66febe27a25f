/// The most nodes of a script.
pub const MAX_NODES: u8 = 64;

/// The most nodes of a script of version 1.
pub const MAX_NODES_OF_FIRST: u8 = 16;

/// The most sets that the text of a script has.
pub const MAX_SETS: u32 = 8;

/// The most sets of a service.
pub const MAX_SETS_OF_SERVICE: u32 = 65_536;

/// The most clients of a script.
pub const MAX_CLIENTS: u16 = 1024;

/// The most clients of a script of version 1.
pub const MAX_CLIENTS_OF_FIRST: u16 = 64;

/// The most clients of a script of version 2.
pub const MAX_CLIENTS_OF_SECOND: u16 = 256;

/// The most clients on one node.
pub const MAX_CLIENTS_OF_NODE: u16 = 16;

/// The most commands that the text of a script has, those of all clients together.
pub const MAX_COMMANDS: u32 = 4096;

/// The most commands that a service is asked for in all its life, those of all clients together.
pub const MAX_COMMANDS_OF_SERVICE: u64 = 1 << 59;

/// The most bytes of a name.
pub const MAX_NAME: usize = 32;

/// The most bytes of a line that isn't skipped, without its line end.
pub const MAX_LINE: usize = 200;
