//! Disks in memory: reads, faults, fuses and crash images.
ghost use Rattle.std.specs.Prelude.{◌≤◌, IfOk, length};

use super::*;
use std::alloc::Global;
use std::test::Fail;

/// A disk with `abcd` settled, whose calls of these numbers fail; the settling takes calls 1 and 2.
fn abcd(alloc: Global, fails: &[u64]) -> Result<MemDisk, Fail>
    ensures { IfOk result (λ disk. 4 ≤ length disk.bytes.items) }
{
    let mut disk = MemDisk::new(alloc, fails.to_vec(alloc)?);
    disk.room(4)?;
    disk.write(0, b"abcd")?;
    disk.sync()?;
    disk.room(8)?;
    if disk.bytes().len() < 4 {
        return Err(Fail::new("abcd is not there"));
    }
    Ok(disk)
}

#[test]
fn calls_of_a_disk_in_memory(rt: HostRuntime) -> Result<(), Fail> {
    let mut disk = abcd(rt.alloc(), &[])?;
    assert_eq!(rt; disk.len()?, 4);
    disk.room(2)?;
    disk.write(3, b"XY")?;
    assert_eq!(rt; disk.bytes(), b"abcXY".as_slice());
    let mut two = [0u8; 2];
    disk.read(2, &mut two)?;
    assert_eq!(rt; two, [b'c', b'X']);
    disk.cut(1)?;
    disk.sync()?;
    assert_eq!(rt; disk.len()?, 1);
    assert_eq!(rt; disk.bytes(), b"a".as_slice());
    Ok(())
}

#[test]
fn failing_calls_of_a_disk_in_memory(rt: HostRuntime) -> Result<(), Fail> {
    let mut disk = abcd(rt.alloc(), &[3, 4, 6])?;
    disk.room(2)?;
    assert!(rt; disk.write(4, b"e").is_err());
    assert_eq!(rt; disk.bytes(), b"abcde".as_slice());
    assert!(rt; disk.sync().is_err());
    disk.room(1)?;
    disk.write(0, b"f")?;
    assert_eq!(rt; disk.bytes(), b"fbcde".as_slice());
    assert!(rt; disk.cut(0).is_err());
    assert_eq!(rt; disk.len()?, 0);
    disk.crash(0);
    assert_eq!(rt; disk.bytes(), b"abcd".as_slice());
    Ok(())
}

/// What is left of `abcXY` over `abcd`, and of `a` over `abcd`.
fn left_by(alloc: Global, how: u64) -> Result<(MemDisk, MemDisk), Fail> {
    let mut longer = abcd(alloc, &[])?;
    longer.room(2)?;
    longer.write(3, b"XY")?;
    longer.crash(how);
    let mut shorter = abcd(alloc, &[])?;
    shorter.cut(1)?;
    shorter.crash(how);
    Ok((longer, shorter))
}

#[test]
fn images_of_a_disk_in_memory(rt: HostRuntime) -> Result<(), Fail> {
    let (longer, shorter) = left_by(rt.alloc(), 0)?;
    assert_eq!(rt; longer.bytes(), b"abcd".as_slice());
    assert_eq!(rt; shorter.bytes(), b"abcd".as_slice());
    let (longer, shorter) = left_by(rt.alloc(), 1)?;
    assert_eq!(rt; longer.bytes(), b"abcXY".as_slice());
    assert_eq!(rt; shorter.bytes(), b"a".as_slice());
    let (longer, shorter) = left_by(rt.alloc(), 2)?;
    assert_eq!(rt; longer.bytes(), b"abc\0\0".as_slice());
    assert_eq!(rt; shorter.bytes(), b"a\0\0\0".as_slice());
    let (longer, shorter) = left_by(rt.alloc(), 5)?;
    assert_eq!(rt; longer.bytes(), b"abc\x01\x01".as_slice());
    assert_eq!(rt; shorter.bytes(), b"a\x01\x01\x01".as_slice());
    let (longer, _) = left_by(rt.alloc(), 3 * 257 + 2)?;
    assert_eq!(rt; longer.bytes(), b"abc\x01\x01".as_slice());
    Ok(())
}

#[test]
fn a_fuse_stops_a_sync(rt: HostRuntime) -> Result<(), Fail> {
    let mut disk = Fused::new(abcd(rt.alloc(), &[])?);
    disk.arm(2);
    let mut one = [0u8; 1];
    disk.read(0, &mut one)?;
    disk.room(1)?;
    disk.write(0, b"e")?;
    assert!(rt; !disk.stopped());
    assert!(rt; disk.sync().is_err());
    assert!(rt; disk.stopped());
    assert!(rt; disk.read(0, &mut []).is_err());
    assert!(rt; disk.len().is_err());
    disk.room(1)?;
    assert!(rt; disk.write(0, b"f").is_err());
    disk.crash(0);
    assert!(rt; !disk.stopped());
    assert_eq!(rt; disk.len()?, 4);
    disk.room(1)?;
    disk.write(0, b"g")?;
    disk.sync()?;
    assert_eq!(rt; disk.into_disk().bytes(), b"gbcd".as_slice());
    Ok(())
}

#[test]
fn a_stopped_write_is_passed_on(rt: HostRuntime) -> Result<(), Fail> {
    let mut disk = Fused::new(abcd(rt.alloc(), &[])?);
    disk.arm(1);
    disk.room(1)?;
    assert!(rt; disk.write(0, b"e").is_err());
    assert!(rt; disk.cut(0).is_err());
    disk.disarm();
    assert_eq!(rt; disk.len()?, 4);
    assert_eq!(rt; disk.into_disk().bytes(), b"ebcd".as_slice());
    Ok(())
}
