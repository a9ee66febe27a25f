//! Which moves of a world are enabled, and which of them stands first in the fixed order.
#![tactic(auto)]

mod laws;

pub use laws::law_order;
