//! The words of worked rows.
use super::*;

/// The words of a line, read with ample memory.
fn says(rt: &HostRuntime, line: &str) -> Option<Result<Command, NoCommand>> {
    let mut words: Vec<String> = Vec::new(rt.alloc());
    for word in line.split(' ') {
        words.push(String::from_str(rt.alloc(), word).ok()?).ok()?;
    }
    Some(command_of(rt.alloc(), words.as_slice()))
}

fn drills(rt: &HostRuntime, line: &str, seed: u64, size: u64) -> bool {
    says(rt, line) == Some(Ok(Command::Drill { seed, size }))
}

fn refuses(rt: &HostRuntime, line: &str) -> bool {
    says(rt, line) == Some(Err(NoCommand::Usage))
}

#[test]
fn commands(rt: HostRuntime) {
    assert!(rt; says(&rt, "run") == Some(Ok(Command::Run)));
    assert!(rt; drills(&rt, "drill --seed 7 --size 9", 7, 9));
    assert!(rt; drills(&rt, "drill --size=1000 --seed 0", 0, 1000));
    assert!(rt; drills(&rt, "drill --seed=0 --size=1", 0, 1));
    assert!(rt;
        drills(
            &rt,
            "drill --size 1 --seed=18446744073709551615",
            18446744073709551615,
            1
        )
    );
}

#[test]
fn no_words(rt: HostRuntime) {
    let words: Vec<String> = Vec::new(rt.alloc());
    assert!(rt; command_of(rt.alloc(), words.as_slice()) == Err(NoCommand::Usage));
}

// Options: one is missing, one stands twice, one is another.
#[test]
fn options_refused(rt: HostRuntime) {
    assert!(rt; refuses(&rt, "drill"));
    assert!(rt; refuses(&rt, "drill --size 1"));
    assert!(rt; refuses(&rt, "drill --seed 7 --size"));
    assert!(rt; refuses(&rt, "drill --seed 0 --seed 0 --size 1"));
    assert!(rt; refuses(&rt, "drill --seed 7 --siz 9"));
    assert!(rt; refuses(&rt, "drill --seed 7 --size 9 now"));
    assert!(rt; refuses(&rt, "drill 7 9"));
}

// Values: no number of one spelling, or out of range.
#[test]
fn values_refused(rt: HostRuntime) {
    assert!(rt; refuses(&rt, "drill --seed 0 --size 0"));
    assert!(rt; refuses(&rt, "drill --seed 0 --size 1001"));
    assert!(rt; refuses(&rt, "drill --seed -7 --size 9"));
    assert!(rt; refuses(&rt, "drill --seed=-7 --size 9"));
    assert!(rt; refuses(&rt, "drill --seed 07 --size 9"));
    assert!(rt; refuses(&rt, "drill --seed= --size 9"));
    assert!(rt; refuses(&rt, "drill --seed=18446744073709551616 --size 9"));
}

// Words that `clap` would answer otherwise.
#[test]
fn others_refused(rt: HostRuntime) {
    assert!(rt; refuses(&rt, "run run"));
    assert!(rt; refuses(&rt, "run --"));
    assert!(rt; refuses(&rt, "-- run"));
    assert!(rt; refuses(&rt, "drill --seed 7 --size 9 --"));
    assert!(rt; refuses(&rt, "--help"));
    assert!(rt; refuses(&rt, "help"));
    assert!(rt; refuses(&rt, "drill --help"));
    assert!(rt; refuses(&rt, "ru"));
    assert!(rt; refuses(&rt, "Run"));
}
