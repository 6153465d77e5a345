//! Bytes and marks of a disk in memory: put, lengthened, garbled, marked.
ghost use Rattle.std.specs.Prelude.{◌≡◌, ◌≤◌, ◌+◌, ℕ, ◌||◌, ◌<◌, false, if◌then◌else◌, slice_index, length, vec_len, vec_capacity, max};
ghost use Rattle.score_disk.specs.Files.{put_at, covers};
ghost use Rattle.score_disk.specs.Copies.{is_marked};

/// Puts the bytes at a place, over those that are there and past the end. It takes no memory.
pub(crate) fn put_bytes(items: &mut Vec<u8>, at: usize, bytes: &[u8])
    requires within { at ≤ vec_len items.old }
    requires room { at + length bytes.now ≤ vec_capacity items.old }
    ensures items { items.new.items ≡ put_at items.old.items at bytes.now }
    ensures len { vec_len items.new ≡ max (vec_len items.old) (at + length bytes.now) }
    ensures capacity { vec_capacity items.old ≤ vec_capacity items.new }
{
    let over = (items.len() - at).min(bytes.len());
    let (first, rest) = bytes.split_at(over);
    items[at..at + over].copy_from_slice(first);
    items.extend_from_slice(rest).unwrap();
}

/// Makes the items those of a slice. It takes no memory.
pub(crate) fn replace(items: &mut Vec<u8>, by: &[u8])
    requires room { length by.now ≤ vec_capacity items.old }
    ensures items { items.new.items ≡ by.now }
    ensures capacity { vec_capacity items.old ≤ vec_capacity items.new }
{
    items.clear();
    items.extend_from_slice(by).unwrap();
}

/// Makes the bytes at least `len` long, with this byte behind them. It takes no memory.
pub(crate) fn lengthen(bytes: &mut Vec<u8>, len: usize, byte: u8)
    requires room { len ≤ vec_capacity bytes.old }
    ensures len { vec_len bytes.new ≡ max (vec_len bytes.old) len }
    ensures same { (i : ℕ) → i < vec_len bytes.old → slice_index bytes.new.items i ≡ slice_index bytes.old.items i }
    ensures capacity { vec_capacity bytes.old ≤ vec_capacity bytes.new }
{
    for _ in 0..len.saturating_sub(bytes.len()) {
        bytes.push(byte).unwrap();
    }
}

/// Puts one byte at each marked place.
pub(crate) fn garble(bytes: &mut Vec<u8>, marks: &[bool], byte: u8)
    ensures len { vec_len bytes.new ≡ vec_len bytes.old }
    ensures each { (i : ℕ) → i < vec_len bytes.old
        → slice_index bytes.new.items i ≡ (if is_marked marks.now i then byte else slice_index bytes.old.items i) }
    ensures capacity { vec_capacity bytes.new ≡ vec_capacity bytes.old }
{
    for i in 0..bytes.len() {
        if i < marks.len() && marks[i] {
            bytes[i] = byte;
        }
    }
}

/// Marks `n` places from `at` on, and makes marks up to there. It takes no memory.
pub(crate) fn mark(marks: &mut Vec<bool>, at: usize, n: usize)
    requires within { at ≤ vec_len marks.old }
    requires room { at + n ≤ vec_capacity marks.old }
    ensures marked { (i : ℕ) → is_marked marks.new.items i ≡ (is_marked marks.old.items i || covers at n i) }
    ensures len { vec_len marks.new ≡ max (vec_len marks.old) (at + n) }
    ensures capacity { vec_capacity marks.old ≤ vec_capacity marks.new }
{
    for i in at..at + n {
        if i < marks.len() {
            marks[i] = true;
        } else {
            marks.push(true).unwrap();
        }
    }
}

/// Makes `n` marks, none of them set. It takes no memory.
pub(crate) fn unmark(marks: &mut Vec<bool>, n: usize)
    requires room { n ≤ vec_capacity marks.old }
    ensures none { (i : ℕ) → is_marked marks.new.items i ≡ false }
    ensures len { vec_len marks.new ≡ n }
    ensures capacity { vec_capacity marks.old ≤ vec_capacity marks.new }
{
    marks.clear();
    for _ in 0..n {
        marks.push(false).unwrap();
    }
}
