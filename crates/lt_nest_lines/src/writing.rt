ghost use Rattle.std.specs.Prelude.{◌≡◌, ◌≤◌, ◌++◌, [], All, length, IfOk, OnOk};
ghost use Rattle.lt_nest_lines.specs.Input.{AsksWithin};
ghost use Rattle.lt_nest_lines.specs.Written.{after_orders, orders_text, report_text};
ghost use Rattle.lt_nest_lines.specs.declared.limits.TheConstants.{MAX_LINES};

use crate::closing::push_closing;
use crate::input::Input;
use crate::order::Order;
use crate::play::Play;
use std::alloc::{AllocError, Global};

/// Follows the orders one after the other, and writes a line of each and of each grant, and the closing lines.
pub fn report(alloc: Global, input: &Input) -> Result<Vec<u8>, AllocError>
    ensures { IfOk result (λ text. text.items ≡ report_text input.now) }
{
    let mut out = Vec::new(alloc);
    push_report(alloc, &mut out, input)?;
    Ok(out)
}

fn push_report(alloc: Global, out: &mut Vec<u8>, input: &Input) -> Result<(), AllocError>
    ensures { OnOk result (out.new.items ≡ out.old.items ++ report_text input.now) }
{
    let mut play = Play::new(alloc, input.sets())?;
    follow_all(&mut play, input, input.orders(), out)?;
    push_closing(out, input, &play)
}

// Follows these orders.
fn follow_all(
    play: &mut Play,
    input: &Input,
    orders: &[Order],
    out: &mut Vec<u8>,
) -> Result<(), AllocError>
    requires within { All (AsksWithin (length play.old.nest.sets)) orders.now }
    requires few { length orders.now ≤ MAX_LINES }
    requires asked { play.old.nest.asked ≡ 0 }
    requires begun { play.old.nest.transactions ≡ [] }
    ensures state { OnOk result (play.new ≡ after_orders play.old orders.now) }
    ensures sets { OnOk result (length play.new.nest.sets ≡ length play.old.nest.sets) }
    ensures text { OnOk result (out.new.items ≡ out.old.items ++ orders_text input.now play.old orders.now) }
{
    for order in orders {
        play.follow(input, *order, out)?;
    }
    Ok(())
}
