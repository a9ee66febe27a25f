//! Who waits for whom at the end of a run: as a graph of clients, with the clients that wait in a ring and where a walk from
//! client to client ends; as a report that tells both; and at the command line, where a script and a journal come in and the
//! report goes out.
#![tactic(auto)]

mod answer;
mod arguments;
mod asking;
mod behind;
mod bits;
mod edge;
mod edge_lines;
mod graph;
mod laws;
mod lines;
mod locking;
mod reasons;
mod reporting;
mod rings;
mod saying;
mod search;
mod serving;
mod shortest;
mod tallied;
mod voids;
mod waiters;
mod waits;

pub use answer::Answer;
pub use arguments::program;
pub use edge::Edge;
pub use graph::WaitGraph;
pub use laws::{law_behind, law_edges};
pub use lines::report_of;
pub use reporting::report;
pub use saying::why;
pub use serving::serve;
