//! Lists of words that are a command, and lists that are none.

use super::*;
use std::alloc::Global;
use std::test::Fail;

// What the words ask for, which are parted by blanks.
fn command_of(alloc: Global, line: &str) -> Result<Option<Command>, Fail> {
    let mut words = Words::new(alloc);
    for word in line.split(' ') {
        words.push(word)?;
    }
    Ok(words.command())
}

#[test]
fn reads_commands(rt: HostRuntime) -> Result<(), Fail> {
    let run = |seed, budget| Some(Command::RunSerial { seed, budget });
    for (line, command) in [
        ("run --serial 0", run(0, 200_000)),
        ("run --serial=0", run(0, 200_000)),
        ("run --serial 4294967295 --budget 1", run(4_294_967_295, 1)),
        ("run --budget=50 --serial=0", run(0, 50)),
        (
            "run --budget 2000000 --serial 0000000007",
            run(7, 2_000_000),
        ),
        ("run --serial 1 --budget=0000000002", run(1, 2)),
        ("check", Some(Command::Check)),
        ("clauses", Some(Command::Clauses)),
    ] {
        assert_eq!(rt; command_of(rt.alloc(), line)?, command, "of {line}");
    }
    Ok(())
}

#[test]
fn refuses_other_words(rt: HostRuntime) -> Result<(), Fail> {
    assert_eq!(rt; Words::new(rt.alloc()).command(), None);
    for line in [
        "",
        "run",
        "run --serial",
        "run --serial=",
        "run --serial one",
        "run --serial +1",
        "run --serial -1",
        "run --serial 4294967296",
        "run --serial 00000000001",
        "run --serial 0 --serial 0",
        "run --serial 0 0",
        "run --serial 0 --budget",
        "run --serial 0 --budget 0",
        "run --serial 0 --budget 2000001",
        "run --serial 0 --budget 5 --budget 6",
        "run --budget 5",
        "run --serial --budget 5",
        "run --seri 0",
        "run --serial 0 --budget 5 6",
        "run -- --serial 0",
        "run --serial 0 --",
        "run --help",
        "check --serial 0",
        "check check",
        "clauses --",
        "code",
        "help",
        "-h",
        "--help",
        "--version",
        "Run --serial 0",
        "run --Serial 0",
    ] {
        assert_eq!(rt; command_of(rt.alloc(), line)?, None, "of {line}");
    }
    Ok(())
}
