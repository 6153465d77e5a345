//! What a compaction keeps of a journal says the same.
ghost use Rattle.std.specs.Prelude.{◌≡◌, ℕ, true, List, ◌∷◌, ◌++◌};
ghost use Rattle.score_base.specs.declared.ids.TxId.{TxId};
ghost use Rattle.score_base.specs.declared.keys.Key.{Key};
ghost use Rattle.score_base.specs.declared.records.Record.{Record};
ghost use Rattle.placement.specs.Clusters.{ClusterData};
ghost use Rattle.journal_words.specs.Journals.{
  all_fit,
  applied,
  commit_id,
  ended,
  fits,
  floor,
  holder,
  home_of,
  is_clear,
  is_locking,
  newer,
  newest,
  pending,
  pendings,
  prepared_of,
  undone,
  version_at,
};
ghost use Rattle.journal_words.specs.Small.{small, small_in_time, is_last_ceiling_highest, AreAlike};

/// Records may be made small before others come behind them. Each word over one journal that a
/// participant or a home asks answers alike on a journal and on its Small: the floor where no Ceiling is
/// above the last one, and so where each record fits those before it; then each record of Small fits
/// too. Of the decisions, those that are not closed are the same. A Decided that is closed is gone, so
/// `decision`, `is_closed` and `times_decided` are no such words.
pub fn law_small()
    ensures more { (b r : List Record) → small (b ++ small r) ≡ small (b ++ r) }
    ensures in_time { (a b : List Record) → small_in_time (small_in_time a ++ b) ≡ small_in_time (a ++ b) }
    ensures prepared { (t : TxId) (r : List Record) → prepared_of t (small r) ≡ prepared_of t r }
    ensures home { (t : TxId) (r : List Record) → home_of t (small r) ≡ home_of t r }
    ensures pending { (t : TxId) (r : List Record) → pending t (small r) ≡ pending t r }
    ensures pendings { (r : List Record) → pendings (small r) ≡ pendings r }
    ensures clear { (s : ℕ) (r : List Record) → is_clear s (small r) ≡ is_clear s r }
    ensures ended { (t : TxId) (r : List Record) → ended t (small r) ≡ ended t r }
    ensures applied { (r : List Record) → applied (small r) ≡ applied r }
    ensures commit_id { (r : List Record) → commit_id (small r) ≡ commit_id r }
    ensures version { (r : List Record) (k : Key) (start s : ℕ) →
        version_at (small r) k start s ≡ version_at r k start s }
    ensures newest { (r : List Record) (k : Key) → newest (small r) k ≡ newest r k }
    ensures locking { (u : TxId) (r : List Record) → is_locking u (small r) ≡ is_locking u r }
    ensures holder { (r : List Record) (t : TxId) (reads : List Key) (writes : List (Key × ℕ)) →
        holder (small r) t reads writes ≡ holder r t reads writes }
    ensures newer { (r : List Record) (ks : List Key) (sid : ℕ) → newer (small r) ks sid ≡ newer r ks sid }
    ensures undone { (t : TxId) (r : List Record) → undone t (small r) ≡ undone t r }
    ensures floor { (r : List Record) → is_last_ceiling_highest r ≡ true → floor (small r) ≡ floor r }
    ensures highest { (c : ClusterData) (n : ℕ) (r : List Record) →
        all_fit c n r ≡ true → is_last_ceiling_highest r ≡ true }
    ensures fit { (c : ClusterData) (n : ℕ) (r : List Record) → all_fit c n r ≡ true → all_fit c n (small r) ≡ true }
{}

/// A journal whose last Ceiling is the highest and its Small are alike, and so are two such journals
/// with the same Small. Alike journals stay alike behind one record more, and the same records fit them.
pub fn law_alike()
    ensures small { (r : List Record) → is_last_ceiling_highest r ≡ true → AreAlike (small r) r }
    ensures same_small { (r s : List Record) →
        is_last_ceiling_highest r ≡ true → is_last_ceiling_highest s ≡ true → small r ≡ small s → AreAlike r s }
    ensures more { (x : Record) (r s : List Record) → AreAlike r s → AreAlike (x ∷ r) (x ∷ s) }
    ensures fits { (c : ClusterData) (n : ℕ) (r s : List Record) → AreAlike r s → (x : Record) →
        fits c n r x ≡ fits c n s x }
{}
