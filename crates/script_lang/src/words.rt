//! The words of a line, read from left to right.
ghost use Rattle.std.specs.Prelude.{◌≡◌, ◌==◌, ◌≤◌, map, IfOk};
ghost use Rattle.std.specs.List.{slice_split, list_all};
ghost use Rattle.script_lang.specs.Reading.{Gives, is_word, word_at, end_at, number_at, in_range};
ghost use Rattle.script_lang.specs.Words.{node_of, key_of, tx_of, begins_with_digit, is_printed};

use crate::limits::{MAX_NODES, MAX_TX};
use crate::whys::{LineEnd, Why};
use score_base::{Key, NodeId, TxId, number};
use std::alloc::{AllocError, Global};
use std::marker::Model;

/// How many nodes there are, at most 16; 0 where that was not read. Contracts see the number.
#[derive(Clone, Copy, Debug, PartialEq, Eq)]
pub struct NodeCount {
    number: u8,
}

impl Model for NodeCount {
    ghost use Rattle.std.specs.Prelude.{ℕ, ◌≤◌};
    ghost use Rattle.script_lang.specs.declared.limits.TheConstants.{MAX_NODES};

    ghost Value = { ℕ };

    ghost view = { λ c. c.number };

    ghost invariant = { λ c. c.number ≤ MAX_NODES };

    ghost inverse = { λ n. record { number = n } };
}

impl NodeCount {
    /// So many nodes.
    pub fn new(number: u64) -> NodeCount
        requires { number ≤ MAX_NODES }
        ensures { result ≡ number }
    {
        NodeCount {
            number: number as u8,
        }
    }

    /// How many.
    pub fn get(self) -> u8
        ensures value { result ≡ self }
        ensures most { result ≤ MAX_NODES }
    {
        self.number
    }
}

/// The pieces of a text between separators, empty pieces too.
pub fn pieces(alloc: Global, text: &[u8], separator: u8) -> Result<Vec<&[u8]>, AllocError>
    ensures { IfOk result (λ v. map (λ l. l.now) v.items ≡ slice_split (λ b. b == separator) text.now) }
{
    text.split(|b| *b == separator).collect(alloc)
}

/// Whether the word has these bytes.
pub fn is_word(word: &[u8], bytes: &[u8]) -> bool
    ensures { result ≡ is_word word.now bytes.now }
{
    word == bytes
}

/// The first word, and those behind it; why 10 where there is none.
pub fn word_at<'a, 'b>(words: &'a [&'b [u8]]) -> Result<(&'b [u8], &'a [&'b [u8]]), LineEnd>
    ensures { Gives (λ x. (x.0.now, map (λ w. w.now) x.1.now)) result (word_at (map (λ w. w.now) words.now)) }
{
    match words {
        [] => Err(LineEnd::Why(Why::Missing)),
        [first, rest @ ..] => Ok((first, rest)),
    }
}

/// The end of the line; why 1 where a word is left.
pub fn end_at(words: &[&[u8]]) -> Result<(), LineEnd>
    ensures { Gives (λ x. x) result (end_at (map (λ w. w.now) words.now)) }
{
    if words.is_empty() {
        Ok(())
    } else {
        Err(LineEnd::Why(Why::Word))
    }
}

/// A number as the first word, and the words behind it; why 10 or 2.
#[tactic(auto, unfolding(crate::specs::Reading::number_at))]
pub fn number_at<'a, 'b>(words: &'a [&'b [u8]]) -> Result<(u64, &'a [&'b [u8]]), LineEnd>
    ensures { Gives (λ x. (x.0, map (λ w. w.now) x.1.now)) result (number_at (map (λ w. w.now) words.now)) }
{
    let (word, rest) = word_at(words)?;
    match number(word) {
        None => Err(LineEnd::Why(Why::Number)),
        Some(n) => Ok((n, rest)),
    }
}

/// A number in its range; why 9 outside it.
pub fn in_range(low: u64, high: u64, n: u64) -> Result<u64, LineEnd>
    ensures value { Gives (λ n. n) result (in_range low high n) }
    ensures most { IfOk result (λ m. m ≤ high) }
{
    if low <= n && n <= high {
        Ok(n)
    } else {
        Err(LineEnd::Why(Why::Limit))
    }
}

/// A node of the cluster; why 3 where the word is none.
pub fn node_of(nodes: NodeCount, word: &[u8]) -> Result<NodeId, LineEnd>
    ensures { Gives (λ n. n) result (node_of nodes word.now) }
{
    match word {
        [b'n', digits @ ..] => match number(digits) {
            Some(n) => {
                if 1 <= n && n <= nodes.get() as u64 {
                    Ok(NodeId { number: n as u8 })
                } else {
                    Err(LineEnd::Why(Why::Node))
                }
            }
            None => Err(LineEnd::Why(Why::Node)),
        },
        _ => Err(LineEnd::Why(Why::Node)),
    }
}

/// A key; why 5 where the word is none.
pub fn key_of(word: &[u8]) -> Result<Key, LineEnd>
    ensures { Gives (λ k. k) result (key_of word.now) }
{
    match Key::new(word) {
        Some(key) => Ok(key),
        None => Err(LineEnd::Why(Why::Key)),
    }
}

/// The number of a transaction, from 1 to 65,535; why 6 where the word is none.
pub fn tx_of(word: &[u8]) -> Result<TxId, LineEnd>
    ensures { Gives (λ t. t) result (tx_of word.now) }
{
    match number(word) {
        Some(t) => {
            if 1 <= t && t <= MAX_TX as u64 {
                Ok(TxId { number: t as u16 })
            } else {
                Err(LineEnd::Why(Why::Transaction))
            }
        }
        None => Err(LineEnd::Why(Why::Transaction)),
    }
}

/// Whether the first byte is a digit.
pub fn begins_with_digit(word: &[u8]) -> bool
    ensures { result ≡ begins_with_digit word.now }
{
    match word {
        [] => false,
        [first, ..] => first.is_ascii_digit(),
    }
}

/// Whether each byte is from the space to the tilde.
pub fn are_printed(line: &[u8]) -> bool
    ensures { result ≡ list_all is_printed line.now }
{
    line.iter().all(|b| 32 <= *b && *b <= 126)
}
