//! Laws of expressions: when they can be evaluated, and how they and scripts are spelled.
ghost use Rattle.std.specs.Prelude.{◌≡◌, ◌≤◌, ℕ, List, Ok, true, IsTrue};
ghost use Rattle.score_base.specs.declared.keys.Key.{Key};
ghost use Rattle.script_lang.specs.declared.exprs.Expr.{Expr};
ghost use Rattle.std.specs.List.{list_all};
ghost use Rattle.std.specs.FinMap as map;
ghost use Rattle.script_lang.specs.Exprs.{is_expr_among};
ghost use Rattle.script_lang.specs.Values.{ReadValues, has_each_key};
ghost use Rattle.script_lang.specs.ExprWords.{expr_of};
ghost use Rattle.script_lang.specs.Scripts.{ScriptData};
ghost use Rattle.script_lang.specs.ScriptLines.{script_of_text, script_within};
ghost use Rattle.script_lang.specs.Spelling.{expr_words, is_plain_expr, script_text};

use crate::limits::MAX_OPS;

/// An expression has one spelling. Its words are read as it where its keys are known and its steps
/// are at most 16, and whatever is read as it is its words.
pub fn law_expr_spelling()
    ensures reads { (known : List Key) (e : Expr) → IsTrue (is_expr_among known e) → IsTrue (is_plain_expr e)
        → expr_of known (expr_words e) ≡ Ok e }
    ensures writes { (known : List Key) (ws : List (List ℕ)) (e : Expr) → expr_of known ws ≡ Ok e → ws ≡ expr_words e }
    ensures known { (known : List Key) (ws : List (List ℕ)) (e : Expr) → expr_of known ws ≡ Ok e → IsTrue (is_expr_among known e) }
    ensures plain { (known : List Key) (ws : List (List ℕ)) (e : Expr) → expr_of known ws ≡ Ok e → IsTrue (is_plain_expr e) }
{}

/// Whatever is read as a script is the text of the script.
pub fn law_script_spelling()
    ensures { (nodes : ℕ) (text : List ℕ) (s : ScriptData) → script_of_text nodes text ≡ Ok s → text ≡ script_text s }
{}

/// Whatever a text may name at most, that is no less than a script's operations can be: it spells the
/// same script, or has the same fault. So no script alone is refused for the number of its keys.
pub fn law_key_limit()
    ensures { (most nodes : ℕ) (text : List ℕ) → MAX_OPS ≤ most → script_within most nodes text ≡ script_of_text nodes text }
{}

/// An expression over some keys can be evaluated where each of them has a value.
pub fn law_known_keys()
    ensures { (reads : ReadValues) (known : List Key) (e : Expr) → IsTrue (list_all (map.contains_key reads) known)
        → IsTrue (is_expr_among known e) → IsTrue (has_each_key reads e) }
{}
