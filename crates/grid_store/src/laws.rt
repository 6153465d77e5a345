//! What else the room for a record of the home is room for.

ghost use Rattle.std.specs.Prelude.{List};
ghost use Rattle.score_base.specs.declared.ids.NodeId.{NodeId};
ghost use Rattle.score_base.specs.declared.ids.TxId.{TxId};
ghost use Rattle.score_base.specs.declared.ids.Ident.{Ident};
ghost use Rattle.score_base.specs.declared.records.Record.TheVariants as record';
ghost use Rattle.grid_store.specs.Given.{Room, HasRoom};

/// Where there is room for a Decided or a Closed record, there is room for each Decided and for each
/// Closed, whatever its fields.
pub fn law_home_room()
    ensures decided { (t u : TxId) (f g : Ident) (parts others : List NodeId) (room : Room) →
        HasRoom (record'.Decided t f parts) room →
        HasRoom (record'.Decided u g others) room × HasRoom (record'.Closed u) room }
    ensures closed { (t u : TxId) (g : Ident) (others : List NodeId) (room : Room) →
        HasRoom (record'.Closed t) room →
        HasRoom (record'.Decided u g others) room × HasRoom (record'.Closed u) room }
{}
