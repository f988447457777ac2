// decoder.rs: what stands in a payload and can be read without a store: offset tables as far as their starts and the bounds
// of their entries, the rows of Global and Func, Producer, and where a string, a constant or a body stands.
#![tactic(auto)]

pub mod places;
pub mod rows;
pub mod starts;
