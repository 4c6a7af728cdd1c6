//! Histories of the whole core, and exchanges of the closed world, that are written down: on them the definitions of
//! `gate_law` and `world_law` are computed.
//!
//! There is nothing to call, and no crate stands on this one: it shows which batches `gate_law` accepts, and which it
//! refuses.
#![tactic(auto)]
