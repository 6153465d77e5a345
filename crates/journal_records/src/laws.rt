//! A record has one spelling.
ghost use Rattle.std.specs.Prelude.{◌≡◌, ◌≤◌, ℕ, List, Some, length};
ghost use Rattle.score_base.specs.declared.records.Record.{Record};
ghost use Rattle.score_fields.specs.Spelling.{IsBytes};
ghost use Rattle.journal_records.specs.Records.{CanEncode, record_bytes, IsRecord, decode_of};

/// A record has one spelling: `decode_of` finds each record in its spelling, and finds a record in
/// no other bytes. Each record may be encoded. No spelling has more than 2,407 bytes.
pub fn law_record_spelling()
    ensures reads { (r : Record) → IsRecord r → decode_of (record_bytes r) ≡ Some r }
    ensures writes { (body : List ℕ) (r : Record) → IsBytes body → decode_of body ≡ Some r → body ≡ record_bytes r }
    ensures fits { (body : List ℕ) (r : Record) → IsBytes body → decode_of body ≡ Some r → IsRecord r }
    ensures encodable { (r : Record) → IsRecord r → CanEncode r }
    ensures small { (r : Record) → IsRecord r → length (record_bytes r) ≤ 2407 }
{}
