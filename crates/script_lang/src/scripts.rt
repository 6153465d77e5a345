ghost use Rattle.std.specs.Prelude.{◌≡◌, ◌<◌, ◌≤◌, ◌∷◌, ◌++◌, [], length, IsTrue, OnOk, OnErr};

use crate::exprs::Expr;
use crate::limits::MAX_OPS;
use score_base::{Key, Members, Memory, NodeId, TryCopy, TxId};
use std::alloc::Global;
use std::marker::Model;

/// One operation of a script.
#[derive(Drop, Debug)]
pub enum Op {
    /// Reads the key.
    Read(Key),
    /// Writes the value of the expression to the key.
    Write(Key, Expr),
}

impl TryCopy for Op {
    fn copy(&self) -> Result<Op, Memory> {
        match self {
            Op::Read(key) => Ok(Op::Read(*key)),
            Op::Write(key, expr) => Ok(Op::Write(*key, expr.copy()?)),
        }
    }
}

/// The operations of a script.
pub type OpList = Members<Op>;

/// A transaction's script: 1 to 32 operations, numbered from 1, whose expressions have at most 16
/// steps and name only keys that an earlier read of the script names.
#[derive(Drop, Debug)]
pub struct Script {
    pub number: TxId,
    pub home: NodeId,
    /// The session that it belongs to, or 0 for none.
    pub session: u16,
    pub ops: OpList,
}

impl Model for Script {
    ghost use Rattle.script_lang.specs.Scripts.{ScriptData, IsBody};

    ghost Value = { ScriptData };

    ghost view = { λ s. record { number = s.number; home = s.home; session = s.session; ops = s.ops } };

    ghost invariant = { λ s. IsBody s.ops };
}

impl Script {
    ghost use Rattle.script_lang.specs.Scripts.{IsBody};

    /// Its operations, in order: 1 to 32 of them.
    pub fn ops(&self) -> &[Op]
        ensures value { result.now ≡ self.now.ops }
        ensures body { IsBody result.now }
    {
        self.ops.as_slice()
    }
}

impl TryCopy for Script {
    fn copy(&self) -> Result<Script, Memory> {
        Ok(Script {
            number: self.number,
            home: self.home,
            session: self.session,
            ops: self.ops.copy()?,
        })
    }
}

/// A script that is being read: what a [`Script`] is, but that it may have no operation yet.
#[derive(Drop, Debug)]
pub struct ScriptDraft {
    number: TxId,
    home: NodeId,
    session: u16,
    ops: OpList,
}

impl Model for ScriptDraft {
    ghost use Rattle.script_lang.specs.Scripts.{ScriptData, IsFront};

    ghost Value = { ScriptData };

    ghost view = { λ s. record { number = s.number; home = s.home; session = s.session; ops = s.ops } };

    ghost invariant = { λ s. IsFront s.ops };
}

impl ScriptDraft {
    ghost use Rattle.script_lang.specs.Exprs.{is_expr_among};
    ghost use Rattle.script_lang.specs.Reads.{known_keys};
    ghost use Rattle.script_lang.specs.Scripts.{IsFront};

    /// No operation yet.
    pub fn new(alloc: Global, number: TxId, home: NodeId, session: u16) -> ScriptDraft
        ensures { result ≡ record { number = number; home = home; session = session; ops = [] } }
    {
        ScriptDraft {
            number,
            home,
            session,
            ops: OpList::new(alloc),
        }
    }

    /// Its number.
    pub fn number(&self) -> TxId
        ensures { result ≡ self.now.number }
    {
        self.number
    }

    /// How many operations there are, at most 32.
    pub fn len(&self) -> usize
        ensures value { result ≡ length self.now.ops }
        ensures most { result ≤ MAX_OPS }
    {
        self.ops.len()
    }

    /// The operations so far.
    pub fn ops(&self) -> &[Op]
        ensures value { result.now ≡ self.now.ops }
        ensures front { IsFront result.now }
    {
        self.ops.as_slice()
    }

    /// Adds a read as the last operation. After [`Memory`] the draft is as before.
    pub fn push_read(&mut self, key: Key) -> Result<(), Memory>
        requires { length self.old.ops < MAX_OPS }
        ensures ok { OnOk result (self.new ≡ record self.old { ops = self.old.ops ++ Op.Read key ∷ [] }) }
        ensures err { OnErr result (self.new ≡ self.old) }
    {
        self.ops.push(Op::Read(key))
    }

    /// Adds a write as the last operation, of an expression over the keys that the operations before
    /// it have read. After [`Memory`] the draft is as before.
    pub fn push_write(&mut self, key: Key, expr: Expr) -> Result<(), Memory>
        requires room { length self.old.ops < MAX_OPS }
        requires known { IsTrue (is_expr_among (known_keys self.old.ops) expr) }
        ensures ok { OnOk result (self.new ≡ record self.old { ops = self.old.ops ++ Op.Write key expr ∷ [] }) }
        ensures err { OnErr result (self.new ≡ self.old) }
    {
        self.ops.push(Op::Write(key, expr))
    }

    /// The script, once it has an operation.
    pub fn finish(self) -> Script
        requires { 1 ≤ length self.ops }
        ensures { result ≡ self }
    {
        let ScriptDraft {
            number,
            home,
            session,
            ops,
        } = self;
        Script {
            number,
            home,
            session,
            ops,
        }
    }
}
