//! The lines of a script.
ghost use Rattle.std.specs.Prelude.{◌≡◌, ◌++◌, OnOk, OnErr};
ghost use Rattle.std.specs.List.{flat_map};
ghost use Rattle.history_print.specs.Acts.{behind_space, spaced, line};
ghost use Rattle.script_lang.specs.Spelling.{atom_word, step_words, expr_words, op_words, session_words, tx_words, script_words, script_text};

use history_print::{put_count, put_key, put_node, put_tx, put_value, put_word};
use score_base::{Memory, put_bytes};
use script_lang::{Atom, Expr, Op, Script, Step};

fn put_atom(out: &mut Vec<u8>, atom: &Atom) -> Result<(), Memory>
    ensures { OnOk result (out.new.items ≡ out.old.items ++ behind_space (atom_word atom.now)) }
{
    match atom {
        Atom::Number(value) => put_value(out, *value),
        Atom::Key(key) => put_key(out, key),
    }
}

fn put_step(out: &mut Vec<u8>, step: &Step) -> Result<(), Memory>
    ensures { OnOk result (out.new.items ≡ out.old.items ++ spaced (step_words step.now)) }
{
    match step {
        Step::Add(atom) => {
            put_word(out, b"+")?;
            put_atom(out, atom)
        }
        Step::Sub(atom) => {
            put_word(out, b"-")?;
            put_atom(out, atom)
        }
        Step::Mul(atom) => {
            put_word(out, b"*")?;
            put_atom(out, atom)
        }
        Step::Min(atom) => {
            put_word(out, b"min")?;
            put_atom(out, atom)
        }
        Step::Max(atom) => {
            put_word(out, b"max")?;
            put_atom(out, atom)
        }
        Step::Pick(one, other) => {
            put_word(out, b"pick")?;
            put_atom(out, one)?;
            put_atom(out, other)
        }
    }
}

fn put_steps(out: &mut Vec<u8>, steps: &[Step]) -> Result<(), Memory>
    ensures { OnOk result (out.new.items ≡ out.old.items ++ spaced (flat_map step_words steps.now)) }
{
    for step in steps {
        put_step(out, step)?;
    }
    Ok(())
}

fn put_expr(out: &mut Vec<u8>, expr: &Expr) -> Result<(), Memory>
    ensures { OnOk result (out.new.items ≡ out.old.items ++ spaced (expr_words expr.now)) }
{
    put_atom(out, &expr.first)?;
    put_steps(out, expr.steps.as_slice())
}

fn put_op(out: &mut Vec<u8>, op: &Op) -> Result<(), Memory>
    ensures { OnOk result (out.new.items ≡ out.old.items ++ line (op_words op.now)) }
{
    match op {
        Op::Read(key) => {
            put_bytes(out, b"read")?;
            put_key(out, key)?;
        }
        Op::Write(key, expr) => {
            put_bytes(out, b"write")?;
            put_key(out, key)?;
            put_expr(out, expr)?;
        }
    }
    put_bytes(out, b"\n")
}

fn put_ops(out: &mut Vec<u8>, ops: &[Op]) -> Result<(), Memory>
    ensures { OnOk result (out.new.items ≡ out.old.items ++ flat_map (λ o. line (op_words o)) ops.now) }
{
    for op in ops {
        put_op(out, op)?;
    }
    Ok(())
}

fn put_session(out: &mut Vec<u8>, session: u16) -> Result<(), Memory>
    ensures { OnOk result (out.new.items ≡ out.old.items ++ spaced (session_words session)) }
{
    if session == 0 {
        return Ok(());
    }
    put_word(out, b"session")?;
    put_count(out, session as u64)
}

fn put_first_line(out: &mut Vec<u8>, script: &Script) -> Result<(), Memory>
    ensures { OnOk result (out.new.items ≡ out.old.items ++ line (tx_words script.now)) }
{
    put_bytes(out, b"tx")?;
    put_tx(out, script.number)?;
    put_node(out, script.home)?;
    put_session(out, script.session)?;
    put_bytes(out, b"\n")
}

/// Appends the text of a script.
pub fn put_script(out: &mut Vec<u8>, script: &Script) -> Result<(), Memory>
    ensures { OnOk result (out.new.items ≡ out.old.items ++ script_text script.now) }
{
    put_first_line(out, script)?;
    put_ops(out, script.ops())?;
    put_bytes(out, b"end\n")
}

/// Appends the text of a script. After [`Memory`] `out` is as before.
pub fn print_script(script: &Script, out: &mut Vec<u8>) -> Result<(), Memory>
    ensures ok { OnOk result (out.new.items ≡ out.old.items ++ script_text script.now) }
    ensures err { OnErr result (out.new.items ≡ out.old.items) }
{
    let mut text = Vec::new(*out.allocator());
    put_script(&mut text, script)?;
    put_bytes(out, text.as_slice())
}
