//! What a source and a sink of bytes promise, whatever stands behind them.
ghost use Rattle.std.specs.Prelude.{◌≡◌, ◌<◌, ℕ, List, Option, IfOk, IsSome, length};
ghost use Rattle.std.specs.Io.{ReadsAtMost, WritesAtMost};
ghost use Rattle.std.specs.Io.KnownBytes.{ReadConsumes, WriteAppends};
ghost use Rattle.score_base.specs.Faults.{HasCause};

use score_base::Failed;

/// A source of bytes that counts its faults. The count never falls. A source that tells its bytes goes
/// on telling them.
pub trait Source: Drop {
    /// The bytes left, where the source tells them.
    ghost left: { Self → Option (List ℕ) };

    /// The count of faults.
    ghost faults: { Self → ℕ };

    /// Moves the next bytes into the front of `buf`, and answers how many. For a nonempty `buf` that
    /// is 0 exactly at the end of input. It answers [`Failed`] only where the count rose in this call;
    /// then the bytes left are as before, and nothing is said of `buf`.
    fn read(&mut self, buf: &mut [u8]) -> Result<usize, Failed>
        ensures bound { ReadsAtMost result buf.new }
        ensures bytes { ReadConsumes (left self.old) (left self.new) result buf.new }
        ensures tells { IsSome (left self.old) → IsSome (left self.new) }
        ensures cause { HasCause (faults self.old) (faults self.new) result };
}

/// A sink of bytes that counts its faults. The count never falls. A sink that tells its bytes goes on
/// telling them.
pub trait Sink: Drop {
    /// The bytes held, where the sink tells them.
    ghost held: { Self → Option (List ℕ) };

    /// The count of faults.
    ghost faults: { Self → ℕ };

    /// Appends the first bytes of these, and answers how many: at least one where there is one. It
    /// answers [`Failed`] only where the count rose in this call; then nothing is appended.
    fn write(&mut self, bytes: &[u8]) -> Result<usize, Failed>
        ensures bound { WritesAtMost result bytes.now }
        ensures some { IfOk result (λ n. 0 < length bytes.now → 0 < n) }
        ensures bytes { WriteAppends (held self.old) (held self.new) result bytes.now }
        ensures tells { IsSome (held self.old) → IsSome (held self.new) }
        ensures cause { HasCause (faults self.old) (faults self.new) result };
}
