//! Any interleaving of calls of provider and connector, over the bytes that they exchange, is a run of the model.
#![tactic(auto)]

mod laws;

pub use laws::{
    calls_are_steps, programs_are_traces, several_exchanges_are_steps, traces_are_runs,
    traces_are_runs_among, traces_through_resets_are_runs, typed_traces_are_runs,
};
