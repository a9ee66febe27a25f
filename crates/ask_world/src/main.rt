//! Replays a journal and asks the world at its end: an example of how to call lt_checker and lt_world.
//!
//! It reads a script and a journal from standard input, as `lockrun check` does, and prints how many moves were made
//! and which clients wait for which.
#![tactic(auto)]

ghost use Rattle.std.specs.Prelude.{◌≡◌, ◌<◌, length};

use anyhow::{Result, bail};
use lt_checker::{EndedRun, check_input};
use lt_io::ReaderSource;
use std::io::Print;
use std::str;

// Prints for which other clients this one waits.
fn print_waits<R: Print>(rt: &R, ended: &EndedRun, client: u16) -> Result<()>
    requires world { ended.now.world.script ≡ ended.now.script }
    requires client { client < length ended.now.script.clients }
{
    let name = str::from_utf8(ended.script.client_name(client))?;
    for other in 0..ended.script.clients() {
        if ended.world.waits_for(client, other) {
            println!(rt;
                "{name} waits for {}",
                str::from_utf8(ended.script.client_name(other))?
            )?;
        }
    }
    Ok(())
}

fn main(rt: HostRuntime) -> Result<()> {
    let Ok(ended) = check_input(rt.alloc(), &mut ReaderSource::new(rt.stdin())) else {
        bail!("this isn't a script with the journal of a run of it");
    };
    println!(rt; "{} moves", ended.world.run().len())?;
    for client in 0..ended.script.clients() {
        print_waits(&rt, &ended, client)?;
    }
    Ok(())
}
