//! The top call: a command from the words and the bytes that come in to the bytes that go out.

ghost use Rattle.std.specs.Prelude.{◌≡◌, ◌≢◌, ◌≤◌, ◌<◌, ◌↔◌, ◌⊎◌, ℕ, List, [], Option, Some, None, Ok, Err};
ghost use Rattle.std.specs.Prelude.{IsTrue, IsSome, IfOk, MatchResult, map, length, string_bytes};
ghost use Rattle.market_edges.specs.Counts.{raised_by, Rose};
ghost use Rattle.market_events.specs.declared.requests.Request.{Request};
ghost use Rattle.market_texts.specs.declared.workload.WorkRule.{WorkRule};
ghost use Rattle.market.specs.declared.statuses.InputRule.{InputRule};
ghost use Rattle.market.specs.Output.{Appends, AppendsPart, sequential_output};
ghost use Rattle.market.specs.Runs.{TellsBad};
ghost use Rattle.market.specs.Statuses.{has_read_all, writes_nothing, input_rule_of};
ghost use Rattle.market.specs.Words.{command_of};
ghost use Rattle.market.specs.Workload.{workload_of};

use crate::answers::run_text;
use crate::input::{InputEnd, MOST_BYTES, read_input};
use crate::output::write_output;
use crate::statuses::{InputRule, Status};
use crate::words::Command;
use crate::workload::{WorkFault, read_workload};
use market_edges::{Failed, Shelf, Sink, Source};
use std::alloc::Global;
use std::thread::Threads;

/// Does what the words ask for. `run SEED 0` reads a workload, answers its requests one after the other, and
/// writes an answer line for each and four lines that count.
pub fn market<R: Threads + Sync, S: Source, K: Sink, D: Shelf>(
    _rt: &R,
    alloc: Global,
    words: &[String],
    input: &mut S,
    output: &mut K,
    _shelf: &mut D,
) -> Status
    // Done: the input was read to its end, and the sink grew by exactly the output of its requests.
    ensures done { result ≡ Status.Done → (bytes : List ℕ) → S.left input.old ≡ Some bytes
        → (requests : List Request) × (workload_of bytes ≡ Ok requests)
        × Appends (K.written output.old) (K.written output.new) (sequential_output requests) }

    // Usage: exactly where the words are of no form, and nothing was read.
    ensures usage { (result ≡ Status.Usage) ↔ (command_of (map (λ word. string_bytes word) words.now)
        ≡ None) }
    ensures usage_reads_nothing { result ≡ Status.Usage → input.new ≡ input.old }

    // ReadFault: exactly where the source's count of faults rose.
    ensures read_fault { result ≡ Status.ReadFault → Rose (S.faults input.old) (S.faults input.new) }
    ensures no_read_fault { result ≢ Status.ReadFault → S.faults input.new ≡ S.faults input.old }

    // InputTooLong: exactly where one byte too many was taken, and where the source tells, where it has too
    // many.
    ensures too_long { result ≡ Status.InputTooLong
        → S.taken input.new ≡ raised_by (S.taken input.old) 67_108_865 }
    ensures too_long_told { result ≡ Status.InputTooLong → (bytes : List ℕ) → S.left input.old ≡ Some bytes
        → 67_108_864 < length bytes }
    ensures not_too_long { result ≢ Status.InputTooLong → result ≢ Status.OutOfMemory
        → (n : ℕ) × (n ≤ 67_108_864) × (S.taken input.new ≡ raised_by (S.taken input.old) n) }

    // Done, BadInput and WriteFault: the whole input was read, and it is not too long.
    ensures read_all { IsTrue (has_read_all result) → (bytes : List ℕ) → S.left input.old ≡ Some bytes
        → S.left input.new ≡ Some [] }
    ensures within { IsTrue (has_read_all result) → (bytes : List ℕ) → S.left input.old ≡ Some bytes
        → length bytes ≤ 67_108_864 }

    // BadInput: exactly where a record breaks a rule, which is the first that does, and the first that it
    // breaks.
    ensures bad_input { (n : ℕ) (rule : InputRule) → result ≡ Status.BadInput n rule → (bytes : List ℕ)
        → S.left input.old ≡ Some bytes
        → (broken : WorkRule) × (workload_of bytes ≡ Err (n, broken)) × (rule ≡ input_rule_of broken) }

    // WriteFault: exactly where the sink's count of faults rose. The sink grew by a proper prefix of the
    // output.
    ensures write_fault { result ≡ Status.WriteFault → Rose (K.faults output.old) (K.faults output.new) }
    ensures no_write_fault { result ≢ Status.WriteFault → K.faults output.new ≡ K.faults output.old }
    ensures write_fault_part { result ≡ Status.WriteFault → (bytes : List ℕ) → S.left input.old ≡ Some bytes
        → (requests : List Request) × (workload_of bytes ≡ Ok requests)
        × AppendsPart (K.written output.old) (K.written output.new) (sequential_output requests) }

    // All other answers: nothing was written.
    ensures unwritten { IsTrue (writes_nothing result) → output.new ≡ output.old }

    // Words of a form, a valid input within the limit and no rise of a count give Done, or want of memory.
    ensures complete { IsSome (command_of (map (λ word. string_bytes word) words.now))
        → (bytes : List ℕ) → S.left input.old ≡ Some bytes → length bytes ≤ 67_108_864
        → (requests : List Request) → workload_of bytes ≡ Ok requests
        → ¬ (Rose (S.faults input.old) (S.faults input.new))
        → ¬ (Rose (K.faults output.old) (K.faults output.new))
        → (result ≡ Status.Done) ⊎ (result ≡ Status.OutOfMemory) }

    // The shelf is not used.
    ensures shelf { _shelf.new ≡ _shelf.old }
{
    match Command::from_words(words) {
        None => Status::Usage,
        Some(Command::Run(_)) => run(alloc, input, output),
    }
}

// A run, from the bytes that come in to the bytes that go out.
fn run<S: Source, K: Sink>(alloc: Global, input: &mut S, output: &mut K) -> Status
    ensures no_usage { result ≢ Status.Usage }
    ensures done { result ≡ Status.Done → (bytes : List ℕ) → S.left input.old ≡ Some bytes
        → (requests : List Request) × (workload_of bytes ≡ Ok requests)
        × Appends (K.written output.old) (K.written output.new) (sequential_output requests) }
    ensures read_fault { result ≡ Status.ReadFault → Rose (S.faults input.old) (S.faults input.new) }
    ensures no_read_fault { result ≢ Status.ReadFault → S.faults input.new ≡ S.faults input.old }
    ensures too_long { result ≡ Status.InputTooLong
        → S.taken input.new ≡ raised_by (S.taken input.old) 67_108_865 }
    ensures too_long_told { result ≡ Status.InputTooLong → (bytes : List ℕ) → S.left input.old ≡ Some bytes
        → 67_108_864 < length bytes }
    ensures not_too_long { result ≢ Status.InputTooLong → result ≢ Status.OutOfMemory
        → (n : ℕ) × (n ≤ 67_108_864) × (S.taken input.new ≡ raised_by (S.taken input.old) n) }
    ensures read_all { IsTrue (has_read_all result) → (bytes : List ℕ) → S.left input.old ≡ Some bytes
        → S.left input.new ≡ Some [] }
    ensures within { IsTrue (has_read_all result) → (bytes : List ℕ) → S.left input.old ≡ Some bytes
        → length bytes ≤ 67_108_864 }
    ensures bad_input { (n : ℕ) (rule : InputRule) → result ≡ Status.BadInput n rule → (bytes : List ℕ)
        → S.left input.old ≡ Some bytes
        → (broken : WorkRule) × (workload_of bytes ≡ Err (n, broken)) × (rule ≡ input_rule_of broken) }
    ensures write_fault { result ≡ Status.WriteFault → Rose (K.faults output.old) (K.faults output.new) }
    ensures no_write_fault { result ≢ Status.WriteFault → K.faults output.new ≡ K.faults output.old }
    ensures write_fault_part { result ≡ Status.WriteFault → (bytes : List ℕ) → S.left input.old ≡ Some bytes
        → (requests : List Request) × (workload_of bytes ≡ Ok requests)
        × AppendsPart (K.written output.old) (K.written output.new) (sequential_output requests) }
    ensures unwritten { IsTrue (writes_nothing result) → output.new ≡ output.old }
{
    match read_input(alloc, input) {
        Ok(bytes) => answer(alloc, &bytes, output),
        Err(InputEnd::Fault) => Status::ReadFault,
        Err(InputEnd::TooLong) => Status::InputTooLong,
        Err(InputEnd::OutOfMemory) => Status::OutOfMemory,
    }
}

// A run on these bytes.
fn answer<K: Sink>(alloc: Global, bytes: &[u8], output: &mut K) -> Status
    requires { length bytes.now ≤ MOST_BYTES }
    ensures only { IsTrue (has_read_all result) ⊎ (result ≡ Status.OutOfMemory) }
    ensures done { result ≡ Status.Done → (requests : List Request) × (workload_of bytes.now ≡ Ok requests)
        × Appends (K.written output.old) (K.written output.new) (sequential_output requests) }
    ensures bad_input { (n : ℕ) (rule : InputRule) → result ≡ Status.BadInput n rule
        → (broken : WorkRule) × (workload_of bytes.now ≡ Err (n, broken)) × (rule ≡ input_rule_of broken) }
    ensures write_fault { result ≡ Status.WriteFault → Rose (K.faults output.old) (K.faults output.new) }
    ensures no_write_fault { result ≢ Status.WriteFault → K.faults output.new ≡ K.faults output.old }
    ensures write_fault_part { result ≡ Status.WriteFault
        → (requests : List Request) × (workload_of bytes.now ≡ Ok requests)
        × AppendsPart (K.written output.old) (K.written output.new) (sequential_output requests) }
    ensures unwritten { IsTrue (writes_nothing result) → output.new ≡ output.old }
{
    match text_of(alloc, bytes) {
        Ok(text) => match write_output(output, &text) {
            Ok(()) => Status::Done,
            Err(Failed) => Status::WriteFault,
        },
        Err(status) => status,
    }
}

// The output for these bytes, or why there is none.
fn text_of(alloc: Global, bytes: &[u8]) -> Result<Vec<u8>, Status>
    requires { length bytes.now ≤ MOST_BYTES }
    ensures { MatchResult result (λ text. (requests : List Request) × (workload_of bytes.now ≡ Ok requests)
        × (text.items ≡ sequential_output requests))
        (TellsBad (workload_of bytes.now)) }
{
    let requests = match read_workload(alloc, bytes) {
        Ok(requests) => requests,
        Err(WorkFault::Line(n, rule)) => return Err(Status::BadInput(n, InputRule::of_work(rule))),
        Err(WorkFault::OutOfMemory) => return Err(Status::OutOfMemory),
    };
    match run_text(alloc, &requests) {
        Ok(text) => Ok(text),
        Err(_) => Err(Status::OutOfMemory),
    }
}
