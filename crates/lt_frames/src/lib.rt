//! Letters on their way between nodes that lie in different processes: each in a frame that says for whom it is and
//! ends with a seal.
#![tactic(auto)]

mod fault;
mod frame;
mod head;
mod laws;
mod reading;
mod seal;
mod service;
mod writing;

pub use fault::{FrameError, FrameFault, WriteError};
pub use frame::{Frame, HEAD, MAX_LETTER, SEAL, VERSION, Wire};
pub use laws::law_frames;
pub use reading::read_frame;
pub use service::service_number;
pub use writing::write_frame;
