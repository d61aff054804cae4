//! What a server asks of its surroundings beside bytes: the time, and chance. And gates, which are
//! told where it stands in its work.
#![tactic(auto)]

mod clock;
mod coming;
mod entropy;
mod gate;

pub use clock::{Clock, FixedClock};
pub use entropy::{Entropy, ListEntropy};
pub use gate::{Gate, OpenGate};
