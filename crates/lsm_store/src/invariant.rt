//! Facts that a store's lock keeps.

use std::marker::Brand;

/// A fact of the state that a store keeps beyond the state's own law: it holds whenever the lock is
/// free. Who makes the store says which one, and a program can pick it at a call, by `Brand`, when
/// the state is there.
pub trait Invariant: Send + Sync {
    ghost use Rattle.lsm_state.specs.Held.{Held};

    ghost keeps: { Held → Type 0 };
}

impl Invariant for Brand {
    ghost keeps = { λ _. Unit {0} };
}

/// No fact beyond the law of every state.
#[derive(Clone, Copy, Debug)]
pub struct Lawful;

impl Invariant for Lawful {
    ghost keeps = { λ _. Unit {0} };
}
