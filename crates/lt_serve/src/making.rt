ghost use Rattle.std.specs.Prelude.{◌≡◌, true, IfOk};
ghost use Rattle.lt_gen.specs.Generator.{script_of};
ghost use Rattle.lt_gen.specs.Sizes.{can_make};
ghost use Rattle.lt_serve.specs.TopCall.{Prints};

use crate::made::Made;
use crate::status::Status;
use lt_merge::Run;
use lt_script::print;
use std::alloc::{AllocError, Global};

/// The script of this version that is made from the seed, as text.
pub(crate) fn printed(
    alloc: Global,
    version: u8,
    nodes: u8,
    clients: u16,
    commands: u32,
    seed: u64,
) -> Result<Made, AllocError>
    requires possible { can_make version nodes clients commands ≡ true }
    ensures { IfOk result (λ made. Prints (script_of version nodes clients commands seed)
        made.ending made.run.entries made.text.items) }
{
    let script = lt_gen::script(alloc, version, nodes, clients, commands, seed)?;
    let text = print(alloc, &script)?;
    Ok(Made {
        ending: Status::Done,
        run: Run::new(alloc),
        text,
    })
}
