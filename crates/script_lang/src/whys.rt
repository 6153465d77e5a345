//! Where and why a text is at fault.
use score_base::Memory;
use std::alloc::AllocError;

/// The first line at fault, counted from 1, and why.
#[derive(Clone, Copy, Debug, PartialEq, Eq)]
pub struct At {
    pub line: usize,
    pub why: u8,
}

/// Why no script was read.
#[derive(Clone, Copy, Debug, PartialEq, Eq)]
pub enum ScriptEnd {
    /// The text is no script.
    Bad(At),
    /// No memory was found.
    Memory,
}

/// Why a line is refused.
#[derive(Clone, Copy, Debug, PartialEq, Eq)]
pub enum Why {
    /// A first word that cannot stand there, an operator that is none, or a word too many.
    Word,
    /// No number.
    Number,
    /// No node of the cluster.
    Node,
    /// Not the next partition.
    Partition,
    /// No key.
    Key,
    /// No transaction.
    Transaction,
    /// A key that was not read before.
    Unread,
    /// A repeat.
    Repeat,
    /// Past a limit.
    Limit,
    /// A word too few, or an end that comes too early.
    Missing,
    /// A byte that is not printed.
    Byte,
    /// An item that is not read yet.
    Unbuilt,
}

impl Why {
    ghost use Rattle.std.specs.Prelude.{◌≡◌};
    ghost use Rattle.script_lang.specs.Whys.{number_of};

    /// The number by which a text's reader is told.
    pub fn number(self) -> u8
        ensures { result ≡ number_of self }
    {
        match self {
            Why::Word => 1,
            Why::Number => 2,
            Why::Node => 3,
            Why::Partition => 4,
            Why::Key => 5,
            Why::Transaction => 6,
            Why::Unread => 7,
            Why::Repeat => 8,
            Why::Limit => 9,
            Why::Missing => 10,
            Why::Byte => 11,
            Why::Unbuilt => 12,
        }
    }
}

/// Why a line was not read.
#[derive(Clone, Copy, Debug, PartialEq, Eq)]
pub enum LineEnd {
    /// It is at fault.
    Why(Why),
    /// No memory was found.
    Memory,
}

impl From<Memory> for LineEnd {
    ghost use Rattle.std.specs.Prelude.{◌≡◌};
    ghost use Rattle.script_lang.specs.declared.whys.LineEnd.TheVariants as ends;

    ghost from_gives = { λ _ e. e ≡ ends.Memory };

    fn from(_e: Memory) -> LineEnd {
        LineEnd::Memory
    }
}

impl From<AllocError> for LineEnd {
    ghost use Rattle.std.specs.Prelude.{◌≡◌};
    ghost use Rattle.script_lang.specs.declared.whys.LineEnd.TheVariants as ends;

    ghost from_gives = { λ _ e. e ≡ ends.Memory };

    fn from(_e: AllocError) -> LineEnd {
        LineEnd::Memory
    }
}
