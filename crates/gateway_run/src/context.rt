//! What the threads of a day share.

use desk::Shared;
use desk_rings::DeskName;
use gateway_log::LinkStates;
use gateway_watch::StatusBoard;
use std::alloc::Global;
use std::hash::RandomState;
use std::sync::atomic::AtomicBool;

/// How many clients and ports a gateway has, and which port each client is on.
#[derive(Drop)]
pub(crate) struct Layout {
    pub(crate) clients: u16,
    pub(crate) ports: u16,
    /// Of each client, in the order of the settings, the number of its port, from 1.
    pub(crate) ports_of: Vec<u16>,
}

/// What the threads of a day share: the system, the desk, how its links stand, and whether the day is over.
#[derive(Drop)]
pub(crate) struct Context<'a, K: DeskName, R> {
    pub(crate) rt: &'a R,
    pub(crate) alloc: Global,
    pub(crate) shared: &'a Shared<K, RandomState>,
    pub(crate) layout: &'a Layout,
    pub(crate) states: &'a LinkStates,
    /// Set once no further link is to be opened.
    pub(crate) is_over: &'a AtomicBool,
    /// Where how all stand is put for whoever looks.
    pub(crate) board: &'a StatusBoard,
}
