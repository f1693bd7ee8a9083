// A layer over any trackside that counts how often each point is thrown.
#![tactic(auto)]

mod calls;
mod throws;

pub use throws::Counter;
