//! Tables of fields into bytes and out of them.

ghost use Rattle.std.specs.Prelude.{◌≡◌, ℕ, ◌+◌, ◌-◌, ◌≤◌, ◌<◌, ◌++◌, List, ◌∷◌, [], length, map, drop, All, Some, option_map, IfSome, IfNone, IsSomeAnd, OnOk, OnErr, vec_len, vec_capacity};
ghost use Rattle.score_fields.specs.declared.fields.Datum.TheVariants.{Span};
ghost use Rattle.score_fields.specs.Reading.{first_within, first_eight, first_tx, first_key};
ghost use Rattle.score_fields.specs.Fields.{Meaning, Number, meaning, as_number, as_key, placed, IsWithin, Fits, number_bytes, field_bytes, AllFit, fields_bytes, layout_bytes, data_at, IsTaken, datum_from, data_from};

use crate::choices::{past_ballot, past_date, past_outcome};
use crate::fields::{Datum, Field, Layout, Taken};
use crate::front;
use crate::lists::{past_keys, past_nodes, past_writes};
use crate::room::{make_room, put, put_byte, put_eight, put_key, put_two};
use score_base::{Key, Memory};

fn byte(low: u8, high: u8, bytes: &[u8], at: usize) -> Option<(Datum, usize)>
    requires { at ≤ length bytes.now }
    ensures { result ≡ placed at bytes.now (as_number (first_within low high (drop at bytes.now))) }
{
    let (n, rest) = front::within(low, high, &bytes[at..])?;
    Some((Datum::Number(n as u64), bytes.len() - rest.len()))
}

fn eight(bytes: &[u8], at: usize) -> Option<(Datum, usize)>
    requires { at ≤ length bytes.now }
    ensures { result ≡ placed at bytes.now (as_number (first_eight (drop at bytes.now))) }
{
    let (n, rest) = front::eight(&bytes[at..])?;
    Some((Datum::Number(n), bytes.len() - rest.len()))
}

fn tx(bytes: &[u8], at: usize) -> Option<(Datum, usize)>
    requires { at ≤ length bytes.now }
    ensures { result ≡ placed at bytes.now (as_number (first_tx (drop at bytes.now))) }
{
    let (n, rest) = front::tx(&bytes[at..])?;
    Some((Datum::Number(n as u64), bytes.len() - rest.len()))
}

fn key(bytes: &[u8], at: usize) -> Option<(Datum, usize)>
    requires { at ≤ length bytes.now }
    ensures { result ≡ placed at bytes.now (as_key (first_key (drop at bytes.now))) }
{
    let (text, rest) = front::key(&bytes[at..])?;
    let key = Key::new(text)?;
    Some((Datum::Key(key), bytes.len() - rest.len()))
}

fn span(bytes: &[u8], at: usize, rest: &[u8]) -> Option<(Datum, usize)>
    requires { length rest.now ≤ length bytes.now }
    ensures { result ≡ Some (Span at (length bytes.now - length rest.now), length bytes.now - length rest.now) }
{
    let after = bytes.len() - rest.len();
    Some((Datum::Span(at, after), after))
}

impl Field {
    /// The datum of this field that stands at a place of the bytes, and the place behind it.
    #[tactic(auto, using(crate::proofs::Places::span_is), unfolding(crate::specs::Fields::first_field))]
    fn take(self, bytes: &[u8], at: usize) -> Option<(Datum, usize)>
        requires { at ≤ length bytes.now }
        ensures { result ≡ datum_from self at bytes.now }
    {
        let from = &bytes[at..];
        match self {
            Field::U8 => byte(0, 255, bytes, at),
            Field::U64 => eight(bytes, at),
            Field::Op => byte(1, 32, bytes, at),
            Field::Tx => tx(bytes, at),
            Field::Node => byte(1, 16, bytes, at),
            Field::Key => key(bytes, at),
            Field::Nodes => span(bytes, at, past_nodes(from)?),
            Field::Keys => span(bytes, at, past_keys(from)?),
            Field::Writes => span(bytes, at, past_writes(from)?),
            Field::Outcome => span(bytes, at, past_outcome(from)?),
            Field::Ballot => span(bytes, at, past_ballot(from)?),
            Field::Date => span(bytes, at, past_date(from)?),
        }
    }

    /// How many bytes the spelling of a datum has.
    #[tactic(auto, using(crate::proofs::Lengths::lengths))]
    fn len(self, datum: &Datum, source: &[u8]) -> usize
        requires fits { Fits self (meaning source.now datum.now) }
        requires within { IsWithin source.now datum.now }
        ensures { result ≡ length (field_bytes self (meaning source.now datum.now)) }
    {
        match datum {
            Datum::Number(_) => match self {
                Field::U64 => 8,
                Field::Tx => 2,
                _ => 1,
            },
            Datum::Key(key) => 1 + key.bytes().len(),
            Datum::Span(start, end) => *end - *start,
        }
    }

    /// Puts a number last, where there is room.
    #[tactic(auto, using(crate::proofs::Lengths::lengths))]
    fn put_number(self, n: u64, out: &mut Vec<u8>)
        requires fits { Fits self (Number n) }
        requires room { vec_len out.old + length (number_bytes self n) ≤ vec_capacity out.old }
        ensures items { out.new.items ≡ out.old.items ++ number_bytes self n }
        ensures capacity { vec_capacity out.old ≤ vec_capacity out.new }
    {
        match self {
            Field::U64 => put_eight(out, n),
            Field::Tx => put_two(out, n as u16),
            _ => put_byte(out, n as u8),
        }
    }

    /// Puts the spelling of a datum last, where there is room.
    fn put(self, datum: &Datum, source: &[u8], out: &mut Vec<u8>)
        requires fits { Fits self (meaning source.now datum.now) }
        requires within { IsWithin source.now datum.now }
        requires room { vec_len out.old + length (field_bytes self (meaning source.now datum.now)) ≤ vec_capacity out.old }
        ensures items { out.new.items ≡ out.old.items ++ field_bytes self (meaning source.now datum.now) }
        ensures capacity { vec_capacity out.old ≤ vec_capacity out.new }
    {
        match datum {
            Datum::Number(n) => self.put_number(*n, out),
            Datum::Key(key) => put_key(out, key),
            Datum::Span(start, end) => put(out, &source[*start..*end]),
        }
    }
}

impl<const N: usize> Layout<N> {
    fn len(&self, values: &[Datum], source: &[u8]) -> usize
        requires eight { N ≤ 8 }
        requires fits { AllFit self.now.fields (map (meaning source.now) values.now) }
        requires within { All (IsWithin source.now) values.now }
        ensures { result ≡ length (layout_bytes self.now.tag self.now.fields (map (meaning source.now) values.now)) }
    {
        let mut len = 1;
        for (i, field) in self.fields.iter().enumerate() {
            len += field.len(&values[i], source);
        }
        len
    }

    /// Appends the tag and the fields. After [`Memory`] `out` is as before, and it had no room for them.
    ///
    /// There is a value for each field, of its kind and in its range, and each span lies in `source` and
    /// is there the spelling of such a value. There are at most 8 fields.
    pub fn put(&self, values: &[Datum], source: &[u8], out: &mut Vec<u8>) -> Result<(), Memory>
        requires eight { N ≤ 8 }
        requires fits { AllFit self.now.fields (map (meaning source.now) values.now) }
        requires within { All (IsWithin source.now) values.now }
        ensures ok { OnOk result (out.new.items
            ≡ out.old.items ++ layout_bytes self.now.tag self.now.fields (map (meaning source.now) values.now)) }
        ensures err { OnErr result (out.new.items ≡ out.old.items) }
        ensures capacity { vec_capacity out.old ≤ vec_capacity out.new }
        ensures full { OnErr result (vec_capacity out.old < vec_len out.old
            + length (layout_bytes self.now.tag self.now.fields (map (meaning source.now) values.now))) }
    {
        make_room(out, self.len(values, source))?;
        put_byte(out, self.tag);
        for (i, field) in self.fields.iter().enumerate() {
            field.put(&values[i], source, out);
        }
        Ok(())
    }

    fn data(&self, bytes: &[u8]) -> Option<([Datum; N], usize)>
        requires { 1 ≤ length bytes.now }
        ensures { option_map (λ x. (x.0, x.1)) result ≡ data_from self.now.fields 1 bytes.now }
    {
        let mut values = [Datum::Number(0); N];
        let mut at = 1;
        for (i, field) in self.fields.iter().enumerate() {
            let (datum, after) = field.take(bytes, at)?;
            values[i] = datum;
            at = after;
        }
        Some((values, at))
    }

    /// Takes the spelling of this layout that stands first: a datum for each field, each span where its
    /// bytes stand. `None` exactly where no front of the bytes is a spelling of this layout. What follows
    /// the spelling changes nothing, and no memory is taken. There are at most 8 fields.
    pub fn take(&self, bytes: &[u8]) -> Option<Taken<N>>
        requires { N ≤ 8 }

        // What is taken is spelled so.
        ensures taken { IfSome result (λ t. IsTaken self.now.tag self.now.fields bytes.now t.values t.used) }

        // What is spelled so is taken, whatever follows.
        ensures again { (ms : List Meaning) (rest : List ℕ) → AllFit self.now.fields ms → bytes.now ≡ layout_bytes self.now.tag self.now.fields ms ++ rest
            → IsSomeAnd result (λ t. (t.values ≡ data_at 1 self.now.fields ms) × (t.used ≡ length (layout_bytes self.now.tag self.now.fields ms))) }
        ensures none { IfNone result ((ms : List Meaning) (rest : List ℕ) → AllFit self.now.fields ms
            → bytes.now ≡ layout_bytes self.now.tag self.now.fields ms ++ rest → ⊥) }
    {
        let [tag, ..] = bytes else {
            return None;
        };
        if *tag != self.tag {
            return None;
        }
        let (values, used) = self.data(bytes)?;
        Some(Taken { values, used })
    }
}
