//! What the program is given: a cluster, scripts, and a schedule of items.
ghost use Rattle.std.specs.Prelude.{◌≡◌};

use crate::items::{Item, ItemList};
use placement::Cluster;
use score_base::{Members, Memory, TryCopy};
use script_lang::Script;
use std::marker::Model;

/// The scripts of a document.
pub type ScriptList = Members<Script>;

/// A document: a cluster, at most 4,096 scripts of distinct numbers, whose homes are nodes of the
/// cluster and which name, with the initial values, at most 4,096 distinct keys, and a schedule of at
/// most 50,000 events, whose items name only scripts and nodes of the document. In contracts it is the
/// record `DocumentData` of its parts, and all that the laws ask of a document holds of each.
#[derive(Drop, Debug)]
pub struct Document {
    pub cluster: Cluster,
    pub scripts: ScriptList,
    pub items: ItemList,
}

impl Model for Document {
    ghost use Rattle.grid_model.specs.Documents.{DocumentData, IsOne};

    ghost Value = { DocumentData };

    ghost view = { λ d. record { cluster = d.cluster; scripts = d.scripts; items = d.items } };

    ghost invariant = { λ d. IsOne (record { cluster = d.cluster; scripts = d.scripts; items = d.items }) };
}

impl Document {
    ghost use Rattle.grid_model.specs.Documents.{IsOne};

    /// Its scripts, in the order of the document.
    pub fn scripts(&self) -> &[Script]
        ensures value { result.now ≡ self.now.scripts }
        ensures one { IsOne self.now }
    {
        self.scripts.as_slice()
    }

    /// Its schedule.
    pub fn items(&self) -> &[Item]
        ensures value { result.now ≡ self.now.items }
        ensures one { IsOne self.now }
    {
        self.items.as_slice()
    }

    /// Its cluster.
    pub fn cluster(&self) -> &Cluster
        ensures value { result.now ≡ self.now.cluster }
        ensures one { IsOne self.now }
    {
        &self.cluster
    }
}

impl TryCopy for Document {
    fn copy(&self) -> Result<Document, Memory> {
        Ok(Document {
            cluster: self.cluster.copy()?,
            scripts: self.scripts.copy()?,
            items: self.items.copy()?,
        })
    }
}
