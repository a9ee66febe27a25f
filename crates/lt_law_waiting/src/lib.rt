//! Who waits for whom at rest: the graph of the clients that wait for clients, its rings, and whose lock keeps them where
//! there is none.
#![tactic(auto)]

mod laws;

pub use laws::{law_report_rows, law_reports, law_rings, law_void_waits, law_waiting};
