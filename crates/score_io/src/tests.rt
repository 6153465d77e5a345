//! Whole reads and writes over memory: what comes, what is held, and which calls fail.

use super::*;
use std::test::Fail;

#[test]
fn bytes_in_and_out(rt: HostRuntime) -> Result<(), Fail> {
    let text = b"nodes 2\nschedule\n";
    let mut source = MemSource::new(text.to_vec(rt.alloc())?, Vec::new(rt.alloc()));
    let bytes = read_all(rt.alloc(), &mut source, 17)?;
    assert_eq!(rt; bytes.as_slice(), text.as_slice());
    let mut sink = MemSink::new(rt.alloc(), Vec::new(rt.alloc()));
    write_all(&mut sink, b"up n1 none\n")?;
    write_all(&mut sink, b"summary\n")?;
    assert_eq!(rt; sink.bytes(), b"up n1 none\nsummary\n".as_slice());
    Ok(())
}

#[test]
fn one_byte_more_is_too_long(rt: HostRuntime) -> Result<(), Fail> {
    let mut source = MemSource::new(b"schedule\n".to_vec(rt.alloc())?, Vec::new(rt.alloc()));
    assert!(rt; read_all(rt.alloc(), &mut source, 8) == Err(ReadEnd::TooLong));
    let mut long = MemSource::new(vec![in rt.alloc(); 7u8; 10000]?, Vec::new(rt.alloc()));
    assert_eq!(rt; read_all(rt.alloc(), &mut long, 10000)?.len(), 10000);
    Ok(())
}

#[test]
fn usage_and_faults(rt: HostRuntime) -> Result<(), Fail> {
    let mut source = MemSource::new(
        b"schedule\n".to_vec(rt.alloc())?,
        [1u64].to_vec(rt.alloc())?,
    );
    assert!(rt; read_all(rt.alloc(), &mut source, 100) == Err(ReadEnd::ReadFault));
    assert_eq!(rt; read_all(rt.alloc(), &mut source, 100)?.len(), 9);
    let mut sink = MemSink::new(rt.alloc(), [1u64, 3].to_vec(rt.alloc())?);
    assert!(rt; write_all(&mut sink, b"usage\n") == Err(WriteFault));
    assert!(rt; sink.bytes().is_empty());
    write_all(&mut sink, b"usage\n")?;
    assert!(rt; write_all(&mut sink, b"usage\n") == Err(WriteFault));
    assert_eq!(rt; sink.bytes(), b"usage\n".as_slice());
    Ok(())
}
