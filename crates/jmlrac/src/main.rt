//! The program: real words, standard input and standard output, and the status as the process's own.
//! Its part is to hand them to the top call; what a terminal, file or pipe held is no clause of it.
#![tactic(auto)]

ghost use Rattle.std.specs.Prelude.{◌≡◌, ◌≢◌, [], IfSome, IsSome, IsSomeAnd};
ghost use Rattle.jr_io.specs.Faults.{Rose};
ghost use Rattle.jr_io.specs.StdSink.{held_back};
ghost use Rattle.jr_command.specs.Command.{line};
ghost use Rattle.jr_cli.specs.Commands.{IsRun};
ghost use Rattle.jr_cli.specs.Ends.{IsStatus};
ghost use Rattle.jr_cli.specs.Texts.{run_status};

use jr_base::Memory;
use jr_cli::{Ended, jmlrac_quiet};
use jr_command::Words;
use jr_io::{Piece, Sink, Source, StdSink, StdSource};
use std::alloc::Global;
use std::env;
use std::io::{ErrorKind, Write};
use std::process::ExitCode;
use std::rt::Runtime;

/// The status where a write failed.
const WRITE_FAULT: u8 = 5;

/// The status where there was no memory.
const OUT_OF_MEMORY: u8 = 7;

fn main(rt: HostRuntime) -> ExitCode {
    match run_real(&rt) {
        Ok(ended) => ExitCode::from(ended.status),
        Err(Memory) => {
            let _ = println!(rt; "out of memory");
            ExitCode::from(OUT_OF_MEMORY)
        }
    }
}

// The run of the real words, source and sink.
fn run_real(rt: &HostRuntime) -> Result<Ended, Memory> {
    let words = words_of(rt)?;
    let mut source = StdSource::new(rt.stdin());
    let mut sink = StdSink::new(rt.alloc(), rt.stdout())?;
    Ok(run(rt.alloc(), &words, &mut source, &mut sink))
}

// Hands the words, the source and the sink to the top call, and all that was written on to the writer. The answer is
// that of the call, but with the status of a failed write where this last write failed.
fn run<S: Source, W: Write + Drop>(
    alloc: Global,
    words: &Words,
    source: &mut S,
    sink: &mut StdSink<W>,
) -> Ended
    // A run that is returned is right, and the status is its own, as that of a refusal is, unless a write failed.
    ensures headline { IfSome result.run (λ run. IsSomeAnd (line words.now) (λ command. IsRun command run)) }
    ensures status_of_run { IfSome result.run (λ run. IsStatus result.status (run_status run.finish run.journal.entries)) }
    ensures ran { result.status ≢ 0 → result.status ≢ 2 → result.status ≢ 3 → result.status ≢ 4 → result.status ≢ 5 → result.status ≢ 7 → IsSome result.run }
    ensures refused { IfSome result.refusal (λ refusal. IsStatus result.status 3) }
    // 5 where a write failed, the last one too. Else nothing is held back.
    ensures write_fault { result.status ≡ 5 → Rose (⟦<StdSink<W> as Sink>⟧.faults sink.old) (⟦<StdSink<W> as Sink>⟧.faults sink.new) }
    ensures whole { result.status ≢ 5 → held_back sink.new ≡ [] }
{
    let mut ended = jmlrac_quiet(alloc, words, source, sink);
    if let Piece::WriteFault = sink.finish() {
        ended.status = WRITE_FAULT;
    }
    ended
}

// The words after the program's name.
fn words_of(rt: &HostRuntime) -> Result<Words, Memory> {
    let mut words = Words::new(rt.alloc());
    let all = match env::args(rt) {
        Ok(all) => all,
        // A word that isn't UTF-8: no command has one, nor is no word at all a command.
        Err(error) if error.kind() == ErrorKind::InvalidData => return Ok(words),
        Err(_) => return Err(Memory),
    };
    for word in all.skip(1) {
        words.push(word.as_str())?;
    }
    Ok(words)
}
