//! What an adapter over std's reader or writer adds to it: a count of faults, and another try where a
//! call was interrupted. It adds no byte and loses none.
ghost use Rattle.std.specs.Prelude.{◌≡◌, ◌<◌, length, IfOk};
ghost use Rattle.std.specs.Io.{ReadsAtMost, WritesAtMost};
ghost use Rattle.std.specs.Io.KnownBytes.{ReadConsumes, WriteAppends};
ghost use Rattle.score_base.specs.Faults.{HasCause};
ghost use Rattle.score_io.specs.InMemory.{CountsFaults};

use crate::traits::{Sink, Source};
use score_base::Failed;
use std::io::{ErrorKind, Read, Write};
use std::marker::Model;

/// How often a call that is interrupted is tried, before it counts as a fault.
const TRIES: u8 = 100;

/// A source over a reader. It tells the bytes that its reader tells: those of a slice or a buffer, and
/// none of a standard stream.
#[derive(Drop)]
pub struct StdSource<R> {
    reader: R,
    faults: u64,
}

impl<R> Model for StdSource<R> {
    ghost use Rattle.score_io.specs.Adapters.{Adapted};

    ghost Value = { Adapted R };

    ghost view = { λ s. record { inner = s.reader; faults = s.faults } };
}

impl<R> StdSource<R> {
    /// A source over this reader, of count 0.
    pub fn new(reader: R) -> StdSource<R>
        ensures inner { result.inner ≡ reader }
        ensures faults { result.faults ≡ 0 }
    {
        StdSource { reader, faults: 0 }
    }
}

impl<R: Read + Drop> Source for StdSource<R> {
    ghost left = { λ s. R.remaining s.inner };

    ghost faults = { λ s. s.faults };

    /// A reader that is interrupted is asked again, `TRIES` times in all.
    fn read(&mut self, buf: &mut [u8]) -> Result<usize, Failed>
        ensures bound { ReadsAtMost result buf.new }
        ensures bytes { ReadConsumes (R.remaining self.old.inner) (R.remaining self.new.inner) result buf.new }
        ensures faults { CountsFaults self.old.faults self.new.faults result }
        ensures cause { HasCause self.old.faults self.new.faults result }
    {
        for _ in 0..TRIES {
            match self.reader.read(buf) {
                Ok(n) => return Ok(n),
                Err(e) => {
                    if e.kind() != ErrorKind::Interrupted {
                        break;
                    }
                }
            }
        }
        self.faults = self.faults.saturating_add(1);
        Err(Failed)
    }
}

/// A sink over a writer. It tells the bytes that its writer tells: those of a buffer, and none of a
/// standard stream.
#[derive(Drop)]
pub struct StdSink<W> {
    writer: W,
    faults: u64,
}

impl<W> Model for StdSink<W> {
    ghost use Rattle.score_io.specs.Adapters.{Adapted};

    ghost Value = { Adapted W };

    ghost view = { λ s. record { inner = s.writer; faults = s.faults } };
}

impl<W> StdSink<W> {
    /// A sink over this writer, of count 0.
    pub fn new(writer: W) -> StdSink<W>
        ensures inner { result.inner ≡ writer }
        ensures faults { result.faults ≡ 0 }
    {
        StdSink { writer, faults: 0 }
    }
}

impl<W: Write + Drop> Sink for StdSink<W> {
    ghost held = { λ s. W.contents s.inner };

    ghost faults = { λ s. s.faults };

    /// A writer that is interrupted is asked again, `TRIES` times in all. One that takes nothing of
    /// a nonempty piece is at fault.
    fn write(&mut self, bytes: &[u8]) -> Result<usize, Failed>
        ensures bound { WritesAtMost result bytes.now }
        ensures some { IfOk result (λ n. 0 < length bytes.now → 0 < n) }
        ensures bytes { WriteAppends (W.contents self.old.inner) (W.contents self.new.inner) result bytes.now }
        ensures faults { CountsFaults self.old.faults self.new.faults result }
        ensures cause { HasCause self.old.faults self.new.faults result }
    {
        for _ in 0..TRIES {
            match self.writer.write(bytes) {
                Ok(n) => {
                    if n > 0 || bytes.is_empty() {
                        return Ok(n);
                    }
                    break;
                }
                Err(e) => {
                    if e.kind() != ErrorKind::Interrupted {
                        break;
                    }
                }
            }
        }
        self.faults = self.faults.saturating_add(1);
        Err(Failed)
    }
}

#[cfg(test)]
mod tests {
    use super::*;
    use crate::whole::{ReadEnd, WriteFault, read_all, write_all};
    use std::alloc::Global;
    use std::io;
    use std::test::Fail;

    /// Interrupted a number of times; then it is at its end, and takes nothing.
    #[derive(Drop)]
    struct Stutter {
        times: u8,
    }

    impl Read for Stutter {
        fn read(&mut self, _buf: &mut [u8]) -> io::Result<usize> {
            if self.times == 0 {
                return Ok(0);
            }
            self.times -= 1;
            Err(ErrorKind::Interrupted.into())
        }
    }

    impl Write for Stutter {
        fn write(&mut self, _bytes: &[u8]) -> io::Result<usize> {
            if self.times == 0 {
                return Ok(0);
            }
            self.times -= 1;
            Err(ErrorKind::Interrupted.into())
        }

        fn flush(&mut self) -> io::Result<()> {
            Ok(())
        }
    }

    /// A slice that is read through an adapter comes whole.
    #[tactic(auto, using(crate::proofs::Streams::whole_told))]
    fn through_a_source(alloc: Global, bytes: &[u8]) -> Result<Vec<u8>, ReadEnd>
        ensures { IfOk result (λ v. v.items ≡ bytes.now) }
    {
        let mut source = StdSource::new(bytes);
        read_all(alloc, &mut source, bytes.len())
    }

    /// What is written through an adapter stands in its buffer.
    fn through_a_sink(alloc: Global, bytes: &[u8]) -> Result<Vec<u8>, WriteFault>
        ensures { IfOk result (λ v. v.items ≡ bytes.now) }
    {
        let mut sink = StdSink::new(Vec::new(alloc));
        match write_all(&mut sink, bytes) {
            Ok(()) => Ok(sink.writer),
            Err(e) => Err(e),
        }
    }

    #[test]
    fn reads_to_the_end(rt: HostRuntime) -> Result<(), Fail> {
        let bytes = b"schedule\n".as_slice();
        assert_eq!(rt; through_a_source(rt.alloc(), bytes)?.as_slice(), bytes);
        let mut late = StdSource::new(Stutter { times: 99 });
        assert!(rt; read_all(rt.alloc(), &mut late, 100)?.is_empty());
        let mut never = StdSource::new(Stutter { times: 100 });
        assert!(rt; read_all(rt.alloc(), &mut never, 100) == Err(ReadEnd::ReadFault));
        Ok(())
    }

    #[test]
    fn writes_all(rt: HostRuntime) -> Result<(), Fail> {
        let bytes = b"summary\n".as_slice();
        assert_eq!(rt; through_a_sink(rt.alloc(), bytes)?.as_slice(), bytes);
        let mut full = StdSink::new(Stutter { times: 0 });
        assert!(rt; write_all(&mut full, b"summary\n") == Err(WriteFault));
        assert_eq!(rt; full.faults, 1);
        Ok(())
    }
}
