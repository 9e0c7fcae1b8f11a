// The bench's wire: what a call is given and what it answers, as bytes. Decoded values go over it whole, judged or not. A number's lowest byte
// comes first.
// A table is 261 words of 8 bytes. A relation is a word: kind, left, right and bounded, a byte each, and the time; behind the relations come
// controllable, causable, events, count and firm. A record of a marking is 16 bytes: age, deadline, then happened, included, pending and bounded,
// a byte each, and the count; behind the records comes events, 8 bytes.
#![tactic(auto)]

pub mod answer;
pub mod call;
pub mod frame;
pub mod images;
pub mod list;
pub mod payload;
mod results;
mod values;
