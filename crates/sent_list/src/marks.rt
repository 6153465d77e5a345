//! The marks of the messages that are gone.
ghost use Rattle.std.specs.Prelude.{◌≡◌, ◌+◌, drop};
ghost use Rattle.sent_list.specs.SentLists.{is_marked, marked, passed};

/// Whether message `m` is marked.
pub fn is_marked(marks: &[bool], m: u32) -> bool
    ensures { result ≡ is_marked marks.now m }
{
    if m == 0 {
        return false;
    }
    match marks.get(m as usize - 1) {
        None => false,
        Some(mark) => *mark,
    }
}

/// Marks message `m`, where there is one.
pub fn mark(marks: &mut Vec<bool>, m: u32)
    ensures { marks.new.items ≡ marked m marks.old.items }
{
    if m != 0 && m as usize <= marks.len() {
        marks[m as usize - 1] = true;
    }
}

/// How many are marked from the first on, where the first `from` are.
pub fn passed(marks: &[bool], from: usize) -> usize
    requires { passed marks.now ≡ from + passed (drop from marks.now) }
    ensures { result ≡ passed marks.now }
{
    let mut at = from;
    while at < marks.len() && marks[at] {
        at += 1;
    }
    at
}
