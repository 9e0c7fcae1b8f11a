// The second storey of the engine: what is due and what it takes. Closure, static check, guarded tick, and one step of a trace, over words.
// It is named by crates of the engine alone.
#![tactic(auto)]

pub mod chosen;
pub mod following;
pub mod guard;
pub mod inhibition;
pub mod ready;
pub mod reasons;
pub mod step;
