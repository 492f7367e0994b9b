//! The top call that waits for nobody.

ghost use Rattle.std.specs.Prelude.{◌≡◌, ◌≢◌, ◌⊎◌, ◌+◌, ◌<◌, ℕ, List, true, false, IsSome, IsNone, IfSome, IsSomeAnd, None, Some};
ghost use Rattle.jr_io.specs.Faults.{Rose};
ghost use Rattle.jr_base.specs.declared.refusal.Refusal.TheVariants as refusals;
ghost use Rattle.jr_program.specs.Programs.{Program};
ghost use Rattle.jr_program.specs.UnitViews.{program_of};
ghost use Rattle.jr_command.specs.Command.{line};
ghost use Rattle.jr_command.specs.declared.command.Command as commands;
ghost use Rattle.jr_cli.specs.Causes.{IsOf};
ghost use Rattle.jr_cli.specs.Commands.{may_do, IsRun};
ghost use Rattle.jr_cli.specs.Sources.{Spells};
ghost use Rattle.jr_cli.specs.Ends.{Ends, IsStatus, IsWritten, IsPlain, IsRefusal, IsListing, Does, HadNoMemory};
ghost use Rattle.jr_cli.specs.Texts.{report_text, run_status};

use crate::ended::{Ended, tell};
use crate::outcome::outcome_of;
use jr_base::Finish;
use jr_command::Words;
use jr_io::{Sink, Source};
use std::alloc::Global;

/// Does what the words ask for: reads the source, runs the program that it spells or tells of it, and writes the
/// report or the listing. It waits for nobody, and returns.
pub fn jmlrac_quiet<S: Source, K: Sink>(
    alloc: Global,
    words: &Words,
    source: &mut S,
    sink: &mut K,
) -> Ended
    // A run that is returned is right: its history is legal, each clause due was judged once, with its value
    // on the heap of its step, and its finish is the true one; and it is the run of the serial rule for the words' budget
    // and seed. Its program is the one that the source spells, and what is written is its report.
    ensures headline { IfSome result.run (λ run. IsSomeAnd (line words.now) (λ command. IsRun command run)) }
    ensures accepted { IfSome result.run (λ run. IsOf
        (record { left = S.left source.old; taken_before = S.taken source.old; taken = S.taken source.new; ended = S.ended source.new })
        (program_of run.opening.unit)) }
    ensures report { IfSome result.run (λ run. IsWritten
        (record { before = K.written sink.old; now = K.written sink.new })
        result.status (report_text run)) }

    // 0 and 1 of a run that finished, 6 to 9 of the others; and these but 0 and 7 of a run alone.
    ensures status_of_run { IfSome result.run (λ run. IsStatus result.status (run_status run.finish run.journal.entries)) }
    ensures ran { result.status ≢ 0 → result.status ≢ 2 → result.status ≢ 3 → result.status ≢ 4 → result.status ≢ 5 → result.status ≢ 7 → IsSome result.run }

    // 0 with no run where the command told of the program that the source spells.
    ensures listed { result.status ≡ 0 → result.run ≡ None → IsSomeAnd (line words.now) (λ command. IsListing command
        (record { left = S.left source.old; taken_before = S.taken source.old; taken = S.taken source.new; ended = S.ended source.new })
        (record { before = K.written sink.old; now = K.written sink.new })
        result) }

    // A command does its work on a source that was read to its end and spells a program, refuses one whose program can't be
    // run yet, and one that spells none, unless there was no memory.
    ensures complete { (command : commands.Command) → line words.now ≡ Some command → S.ended source.new ≡ true →
        (bytes : List ℕ) → S.left source.old ≡ Some bytes → (program : Program) → Spells bytes program → may_do command program ≡ true →
        Does command program (record { before = K.written sink.old; now = K.written sink.new }) result ⊎ HadNoMemory result }
    ensures not_built { (command : commands.Command) → line words.now ≡ Some command → S.ended source.new ≡ true →
        (bytes : List ℕ) → S.left source.old ≡ Some bytes → (program : Program) → Spells bytes program → may_do command program ≡ false →
        (result.refusal ≡ Some refusals.NotBuilt) ⊎ HadNoMemory result }
    ensures refused_complete { IsSome (line words.now) → S.ended source.new ≡ true → (bytes : List ℕ) → S.left source.old ≡ Some bytes →
        ((program : Program) → Spells bytes program → ⊥) → IsSome result.refusal ⊎ HadNoMemory result }

    // 2 where the words are no command: then nothing is read.
    ensures usage { result.status ≡ 2 → line words.now ≡ None }
    ensures usage_only { IsNone (line words.now) → IsPlain result 2 }
    ensures unread { IsNone (line words.now) → source.new ≡ source.old }

    // 3 where the source is refused, for a cause.
    ensures refused { IfSome result.refusal (λ refusal. IsSomeAnd (line words.now) (λ command. IsRefusal command
        (record { left = S.left source.old; taken_before = S.taken source.old; taken = S.taken source.new; ended = S.ended source.new })
        (record { before = K.written sink.old; now = K.written sink.new })
        result refusal)) }
    ensures refused_status { IfSome result.refusal (λ refusal. IsStatus result.status 3) }
    ensures refused_only { result.status ≡ 3 → IsSome result.refusal }
    ensures too_long { S.taken source.old + 1048576 < S.taken source.new → result.refusal ≡ Some refusals.TooLong }

    // 4 where the source has a fault.
    ensures read_fault { result.status ≡ 4 → Rose (S.faults source.old) (S.faults source.new) }
    ensures read_fault_only { S.faults source.new ≢ S.faults source.old → IsPlain result 4 }

    // 5 where the sink has one, whatever it was that was written.
    ensures write_fault { result.status ≡ 5 → Rose (K.faults sink.old) (K.faults sink.new) }
    ensures no_write_fault { result.status ≢ 5 → K.faults sink.new ≡ K.faults sink.old }

    // 7 where there was no memory, before the work or as a run's finish.
    ensures memory { result.status ≡ 7 → IfSome result.run (λ run. run.finish ≡ Finish.Memory) × (result.refusal ≡ None) }

    // All of it: what came of the call has its cause, and is what was told.
    ensures ends { Ends (line words.now)
        (record { left = S.left source.old; taken_before = S.taken source.old; taken = S.taken source.new; ended = S.ended source.new })
        (record { before = S.faults source.old; now = S.faults source.new })
        (record { before = K.written sink.old; now = K.written sink.new })
        (record { before = K.faults sink.old; now = K.faults sink.new })
        result }
{
    let outcome = outcome_of(alloc, words, source);
    tell(outcome, sink)
}
