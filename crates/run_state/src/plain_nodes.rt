//! A plain node, as a run keeps it and as the rows read it.

use grid_model::HeldRead;
use score_base::{Ident, Members, Record};
use std::marker::Model;

/// A node as its acts leave it, with its records in a list: the plainest node that meets the rows.
#[derive(Drop, Debug)]
pub struct PlainNode {
    /// The records that stand, in the order of time.
    pub records: Members<Record>,
    /// The record that was being written when the node stopped.
    pub doubt: Option<Record>,
    /// The clock.
    pub next: Ident,
    /// The held reads, in the order of their arrival.
    pub held: Members<HeldRead>,
    /// Whether the node is up.
    pub up: bool,
}

impl Model for PlainNode {
    ghost use Rattle.std.specs.Prelude.{reverse};
    ghost use Rattle.grid_model.specs.Nodes.{Node};

    ghost Value = { Node };

    ghost view = { λ p. record { journal = reverse p.records; doubt = p.doubt; next = p.next; held = p.held; up = p.up } };
}
