// The first storey of the engine: one event and one minute. It is named by crates of the engine alone.
#![tactic(auto)]

pub mod acting;
pub mod blocking;
pub mod derived;
pub mod effect;
pub mod event_set;
pub mod events;
pub mod happen;
pub mod holding;
pub mod laid;
pub mod links;
pub mod margin;
pub mod marking_words;
pub mod table_words;
pub mod time;
