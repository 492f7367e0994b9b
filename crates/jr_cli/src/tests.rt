//! The worked runs, from bytes to bytes, and what each status prints.

use super::*;
use jr_base::{Action, Finish};
use jr_command::Words;
use jr_io::{MemSink, MemSource};
use jr_journal::{Entry, RunRecord};
use std::alloc::Global;
use std::process::Abort;
use std::test::Fail;

const SEVEN: &str = "class A { public static void main(String[] args) { System.out.println(7); } }";

const SEVEN_REPORT: &str =
    "out 1: 7\nfinish Finished\nsteps 4, guests 1, verdicts 0, violations 0, uncaught 0\n";

/// Twice a field, which is to be positive.
const TWICE: &str = "class A {
  static int n = 2;
  //@ requires x > 0;
  static int twice(int x) { return x + x; }
  public static void main(String[] args) {
    System.out.println(twice(n));
  }
}
";

const TWICE_REPORT: &str =
    "out 1: 4\nfinish Finished\nsteps 7, guests 1, verdicts 1, violations 0, uncaught 0\n";

const SERIAL: [&str; 3] = ["run", "--serial", "0"];

const USAGE: &str = "usage: jmlrac run --serial SEED [--budget N] < SOURCE
       jmlrac check < SOURCE
       jmlrac clauses < SOURCE
";

// A call over memory, whose read and write of those numbers fail, and what it wrote.
fn call(
    alloc: Global,
    texts: &[&str],
    source: &[u8],
    read_failing: u32,
    write_failing: u32,
) -> Result<(Ended, MemSink), Fail> {
    let mut words = Words::new(alloc);
    for text in texts {
        words.push(text)?;
    }
    let bytes = source.to_vec(alloc)?;
    let mut source = MemSource::new(bytes, vec![in alloc; read_failing]?);
    let store = Vec::with_capacity(alloc, 4_096)?;
    let mut sink = MemSink::new(store, vec![in alloc; write_failing]?);
    let ended = jmlrac_quiet(alloc, &words, &mut source, &mut sink);
    Ok((ended, sink))
}

// With ample memory a call ends so, and writes this.
fn check<R: Abort + Alloc<A = Global>>(
    rt: &R,
    texts: &[&str],
    source: &[u8],
    failing: (u32, u32),
    status: u8,
    written: &str,
) -> Result<Ended, Fail> {
    let (ended, sink) = call(rt.alloc(), texts, source, failing.0, failing.1)?;
    assert_eq!(rt; ended.status, status, "at {written}");
    assert_eq!(rt; sink.written(), written.as_bytes());
    Ok(ended)
}

#[test]
fn runs_a_class_that_prints(rt: HostRuntime) -> Result<(), Fail> {
    let ended = check(&rt, &SERIAL, SEVEN.as_bytes(), (0, 0), 0, SEVEN_REPORT)?;
    let Some(run) = ended.run else {
        return Err(Fail::from("no run"));
    };
    assert_eq!(rt; run.finish, Finish::Finished);
    assert_eq!(rt; run.opening.budget, 200_000);
    assert_eq!(rt; run.journal.len(), 4);
    Ok(())
}

#[test]
fn judges_a_call(rt: HostRuntime) -> Result<(), Fail> {
    check(&rt, &SERIAL, TWICE.as_bytes(), (0, 0), 0, TWICE_REPORT)?;
    let zero = "class A {
  static int n = 0;
  //@ requires x > 0;
  static int twice(int x) { return x + x; }
  public static void main(String[] args) {
    System.out.println(twice(n));
  }
}
";
    let report = "out 1: 0
violation 1: requires False at 3:7, guest 1, step 2
finish Finished
steps 7, guests 1, verdicts 1, violations 1, uncaught 0
";
    check(&rt, &SERIAL, zero.as_bytes(), (0, 0), 1, report)?;
    let ended = check(&rt, &SERIAL, TWICE.as_bytes(), (0, 2), 5, "out 1: 4\n")?;
    let Some(run) = ended.run else {
        return Err(Fail::from("no run"));
    };
    assert_eq!(rt; (run.journal.len(), run.finish), (8, Finish::Finished));
    Ok(())
}

#[test]
fn runs_methods_over_fields(rt: HostRuntime) -> Result<(), Fail> {
    for (source, status, written) in [
        (
            "class A { static int n = 2; static int twice(int x) { return x + x; }
             public static void main(String[] args) { System.out.println(twice(n)); } }",
            0,
            "out 1: 4\nfinish Finished\nsteps 7, guests 1, verdicts 0, violations 0, uncaught 0\n",
        ),
        (
            "class A { static int n; static void set(int x) { n = x; } static int get() { return n; }
             public static void main(String[] args) { set(7); System.out.println(get() - -1); } }",
            0,
            "out 1: 8\nfinish Finished\nsteps 10, guests 1, verdicts 0, violations 0, uncaught 0\n",
        ),
        (
            "class A { static int n = -3; static void set(int x) { n = x; } static int get() { return n; }
             public static void main(String[] args) { System.out.println(n); set(7); System.out.println(get()); } }",
            0,
            "out 1: -3\nout 1: 7\nfinish Finished\nsteps 12, guests 1, verdicts 0, violations 0, uncaught 0\n",
        ),
        (
            "class A { static int n = 2147483647;
             public static void main(String[] args) { System.out.println(n + 1); System.out.println(0 - n - 2); } }",
            0,
            "out 1: -2147483648\nout 1: 2147483647\nfinish Finished\nsteps 7, guests 1, verdicts 0, violations 0, uncaught 0\n",
        ),
        (
            "class A { static int f(int x) { x = x + 1; return x; } /* a comment */
             public static void main(String[] args) { System.out.println(f(f(1) + f(2))); } }",
            0,
            "out 1: 6\nfinish Finished\nsteps 10, guests 1, verdicts 0, violations 0, uncaught 0\n",
        ),
    ] {
        check(&rt, &SERIAL, source.as_bytes(), (0, 0), status, written)?;
    }
    Ok(())
}

#[test]
fn judges_each_clause_at_each_call(rt: HostRuntime) -> Result<(), Fail> {
    for (source, status, written) in [
        (
            "class A {
  static int n;
  static void set(int x) { n = x; }
  //@ requires n == 1; requires n != 1;
  //@ requires n < x; requires n <= x; requires n > x; requires n >= x;
  //@ requires 0 == 0; requires 0 == 0; requires 0 == 0; requires 0 == 0; requires 0 == 0;
  //@ requires 0 == 0; requires 0 == 0; requires 0 == 0; requires 0 == 0;
  //@ requires n + x == 2;
  static void f(int x) { }
  public static void main(String[] args) { f(1); set(1); f(1); }
}
",
            1,
            "violation 1: requires False at 4:7, guest 1, step 1
violation 2: requires False at 5:40, guest 1, step 1
violation 3: requires False at 5:56, guest 1, step 1
violation 4: requires False at 8:7, guest 1, step 1
violation 5: requires False at 4:24, guest 1, step 6
violation 6: requires False at 5:7, guest 1, step 6
violation 7: requires False at 5:40, guest 1, step 6
finish Finished
steps 10, guests 1, verdicts 32, violations 7, uncaught 0
",
        ),
        (
            "class A {
  static int least = -2147483647;
  //@ requires least - 1 < 2147483647; requires least - 1 - 1 == 2147483647;
  //@ requires 2147483647 > x; requires 2147483647 + 1 <= x; requires x - 1 > x;
  static void f(int x) { }
  public static void main(String[] args) { f(least - 1); }
}
",
            0,
            "finish Finished\nsteps 6, guests 1, verdicts 5, violations 0, uncaught 0\n",
        ),
    ] {
        check(&rt, &SERIAL, source.as_bytes(), (0, 0), status, written)?;
    }
    Ok(())
}

#[test]
fn stops_at_the_budget(rt: HostRuntime) -> Result<(), Fail> {
    let mut source = String::new(rt.alloc());
    source.push_str("class A { static void m0() { }\n")?;
    for below in 0..16 {
        let n = below + 1;
        write!(source, "static void m{n}() {{ m{below}(); m{below}(); }}\n")?;
    }
    source.push_str("public static void main(String[] args) { m16(); } }")?;
    check(
        &rt,
        &SERIAL,
        source.as_bytes(),
        (0, 0),
        6,
        "finish Budget 200000\nsteps 200000, guests 1, verdicts 0, violations 0, uncaught 0\n",
    )?;
    Ok(())
}

// The actions of a run, in words.
fn words_of_actions(alloc: Global, run: &RunRecord) -> Result<String, Fail> {
    let mut words = String::new(alloc);
    for at in 0..run.journal.len() {
        if let Entry::Step { action, reply, .. } = run.journal.entry(at) {
            match action {
                Action::Call { method, args, .. } => {
                    write!(words, "call {} {:?}; ", method.0, args.as_slice())?;
                }
                Action::Leave { method, how } => write!(words, "leave {} {how:?}; ", method.0)?,
                Action::Get(cell) => write!(words, "get {} {reply:?}; ", cell.slot)?,
                Action::Put(cell, value) => write!(words, "put {} {value:?}; ", cell.slot)?,
                Action::Print(parts) => write!(words, "print {:?}; ", parts.as_slice())?,
                Action::End(how) => write!(words, "end {how:?}")?,
                _ => words.push_str("other; ")?,
            }
        }
    }
    Ok(words)
}

#[test]
fn evaluates_from_left_to_right(rt: HostRuntime) -> Result<(), Fail> {
    let source = "class A { static int b = 5; static int c = 3;
        static int g(int x) { c = x; return x - 1; }
        static int f(int x, int y, int z) { return x; }
        public static void main(String[] args) { b = f(c, g(b), c + b); } }";
    let report = "finish Finished\nsteps 13, guests 1, verdicts 0, violations 0, uncaught 0\n";
    let ended = check(&rt, &SERIAL, source.as_bytes(), (0, 0), 0, report)?;
    let Some(run) = ended.run else {
        return Err(Fail::from("no run"));
    };
    let words = words_of_actions(rt.alloc(), &run)?;
    let expected = "call 2 []; get 1 Value(Int(3)); get 0 Value(Int(5)); call 0 [Int(5)]; \
        put 1 Int(5); leave 0 Normal(Some(Int(4))); get 1 Value(Int(5)); get 0 Value(Int(5)); \
        call 1 [Int(3), Int(4), Int(10)]; leave 1 Normal(Some(Int(3))); put 0 Int(3); \
        leave 2 Normal(None); end Normal";
    assert_eq!(rt; words.as_str(), expected);
    Ok(())
}

// A front, so many opening signs, a middle, as many closing ones, and a back.
fn nested(
    alloc: Global,
    front: &str,
    signs: (u8, u8),
    count: u32,
    middle: &str,
    back: &str,
) -> Result<Vec<u8>, Fail> {
    let mut text = Vec::new(alloc);
    text.extend_from_slice(front.as_bytes())?;
    for _ in 0..count {
        text.push(signs.0)?;
    }
    text.extend_from_slice(middle.as_bytes())?;
    for _ in 0..count {
        text.push(signs.1)?;
    }
    text.extend_from_slice(back.as_bytes())?;
    Ok(text)
}

#[test]
fn refuses_deep_sources(rt: HostRuntime) -> Result<(), Fail> {
    let body = "class A { public static void main(String[] a) ";
    let sum = "class A { static int f() { return ";
    let clause = "class A { /*@ requires ";
    let method = "; @*/ static void f() { } }";
    for (front, signs, count, middle, back, status, written) in [
        (
            body,
            (b'{', b'}'),
            130,
            "",
            " }",
            0,
            "accepted: classes 1, methods 1, clauses 0\n",
        ),
        (
            body,
            (b'{', b'}'),
            131,
            "",
            " }",
            3,
            "refused TooDeep at 1:177\n",
        ),
        (sum, (b'(', b')'), 127, "1", "; } }", 3, "refused NoMain\n"),
        (
            sum,
            (b'(', b')'),
            128,
            "1",
            "; } }",
            3,
            "refused TooDeep at 1:163\n",
        ),
        (
            clause,
            (b'(', b')'),
            128,
            "true",
            method,
            3,
            "refused NoMain\n",
        ),
        (
            clause,
            (b'(', b')'),
            129,
            "true",
            method,
            3,
            "refused TooDeep at 1:153\n",
        ),
        (
            sum,
            (b'(', b')'),
            500_000,
            "1",
            "; } }",
            3,
            "refused TooDeep at 1:163\n",
        ),
    ] {
        let source = nested(rt.alloc(), front, signs, count, middle, back)?;
        check(&rt, &["check"], source.as_slice(), (0, 0), status, written)?;
    }
    Ok(())
}

#[test]
fn refuses_a_source_that_is_too_long(rt: HostRuntime) -> Result<(), Fail> {
    let mut blanks = vec![in rt.alloc(); b' '; 1_048_576]?;
    check(
        &rt,
        &SERIAL,
        blanks.as_slice(),
        (0, 0),
        3,
        "refused NoMain\n",
    )?;
    blanks.push(b' ')?;
    check(
        &rt,
        &SERIAL,
        blanks.as_slice(),
        (0, 0),
        3,
        "refused TooLong\n",
    )?;
    Ok(())
}

#[test]
fn answers_other_words_with_the_usage(rt: HostRuntime) -> Result<(), Fail> {
    check(&rt, &[], SEVEN.as_bytes(), (0, 0), 2, USAGE)?;
    check(&rt, &["run"], SEVEN.as_bytes(), (0, 0), 2, USAGE)?;
    check(&rt, &["check", "check"], SEVEN.as_bytes(), (0, 0), 2, USAGE)?;
    check(
        &rt,
        &["run", "--serial", "one"],
        SEVEN.as_bytes(),
        (0, 0),
        2,
        USAGE,
    )?;
    check(
        &rt,
        &["run", "--serial", "0", "0"],
        SEVEN.as_bytes(),
        (0, 0),
        2,
        USAGE,
    )?;
    Ok(())
}

#[test]
fn answers_faults(rt: HostRuntime) -> Result<(), Fail> {
    let seven = SEVEN.as_bytes();
    let ended = check(&rt, &SERIAL, seven, (1, 0), 4, "read fault\n")?;
    assert!(rt; ended.run.is_none());
    check(&rt, &SERIAL, seven, (2, 0), 4, "read fault\n")?;
    check(&rt, &SERIAL, seven, (1, 1), 5, "")?;
    check(&rt, &["run"], seven, (0, 1), 5, "")?;
    for (failing, written) in [
        (1, ""),
        (2, "out 1: 7\n"),
        (3, "out 1: 7\nfinish Finished\n"),
    ] {
        let ended = check(&rt, &SERIAL, seven, (0, failing), 5, written)?;
        let Some(run) = ended.run else {
            return Err(Fail::from("no run"));
        };
        assert_eq!(rt; run.journal.len(), 4);
        assert_eq!(rt; run.finish, Finish::Finished);
    }
    Ok(())
}
