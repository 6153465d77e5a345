//! Numbers with a range of their own: nodes, transactions, identifiers, values.
ghost use Rattle.std.specs.Prelude.{◌≡◌, ◌≤◌, ◌↔◌, IsSome, IfSome};

use std::marker::Model;

/// A node of the cluster, from 1 to 16. Contracts see its number.
#[derive(Clone, Copy, Debug, PartialEq, Eq, PartialOrd, Ord, Hash)]
pub struct NodeId {
    pub number: u8,
}

impl Model for NodeId {
    ghost use Rattle.std.specs.Prelude.{ℕ, ◌≤◌};

    ghost Value = { ℕ };

    ghost view = { λ n. n.number };

    ghost invariant = { λ n. (1 ≤ n.number) × (n.number ≤ 16) };

    ghost inverse = { λ v. record { number = v } };
}

impl NodeId {
    /// The node of this number; `None` exactly where the number is not from 1 to 16.
    pub fn new(number: u64) -> Option<NodeId>
        ensures some { IsSome result ↔ ((1 ≤ number) × (number ≤ 16)) }
        ensures value { IfSome result (λ n. n ≡ number) }
    {
        if number >= 1 && number <= 16 {
            Some(NodeId {
                number: number as u8,
            })
        } else {
            None
        }
    }

    /// Its number, from 1 to 16.
    pub fn get(self) -> u8
        ensures value { result ≡ self }
        ensures least { 1 ≤ result }
        ensures most { result ≤ 16 }
    {
        self.number
    }
}

/// The number of a transaction, from 1 to 65,535. Contracts see it as that number.
#[derive(Clone, Copy, Debug, PartialEq, Eq, PartialOrd, Ord, Hash)]
pub struct TxId {
    pub number: u16,
}

impl Model for TxId {
    ghost use Rattle.std.specs.Prelude.{ℕ, ◌≤◌};

    ghost Value = { ℕ };

    ghost view = { λ t. t.number };

    ghost invariant = { λ t. 1 ≤ t.number };

    ghost inverse = { λ v. record { number = v } };
}

impl TxId {
    /// The transaction of this number; `None` exactly where the number is not from 1 to 65,535.
    pub fn new(number: u64) -> Option<TxId>
        ensures some { IsSome result ↔ ((1 ≤ number) × (number ≤ 65535)) }
        ensures value { IfSome result (λ t. t ≡ number) }
    {
        if number >= 1 && number <= 65535 {
            Some(TxId {
                number: number as u16,
            })
        } else {
            None
        }
    }

    /// Its number, from 1 to 65,535.
    pub fn get(self) -> u16
        ensures value { result ≡ self }
        ensures least { 1 ≤ result }
        ensures most { result ≤ 65535 }
    {
        self.number
    }
}

/// An identifier, by which versions are dated. Contracts see its number.
#[derive(Clone, Copy, Debug, PartialEq, Eq, PartialOrd, Ord, Hash)]
pub struct Ident(pub u64);

impl Model for Ident {
    ghost use Rattle.std.specs.Prelude.{ℕ};

    ghost Value = { ℕ };

    ghost view = { λ i. i.0 };

    ghost inverse = { λ v. record { 0 = v } };
}

/// The value of a key. Arithmetic on it is modulo 2^64. Contracts see its number.
#[derive(Clone, Copy, Debug, PartialEq, Eq, PartialOrd, Ord, Hash)]
pub struct Value(pub u64);

impl Model for Value {
    ghost use Rattle.std.specs.Prelude.{ℕ};

    ghost Value = { ℕ };

    ghost view = { λ v. v.0 };

    ghost inverse = { λ v. record { 0 = v } };
}
