// What is read off a track that keeps its own state: the refusals in their order, and the way that fits.
#![tactic(auto)]

mod motions;
mod standing;
mod ways;

pub use motions::{
    TRAINS, clear_refusal, fits, is_clear, point_refusal, settle_refusal, signal_refusal,
    train_refusal,
};
pub use standing::Standing;
pub use ways::{governor, halts, is_stop, way_out};
