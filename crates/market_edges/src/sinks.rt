//! Sinks of bytes.

ghost use Rattle.std.specs.Prelude.{◌≡◌, ℕ, ◌≤◌, ◌<◌, List, [], ◌++◌, length, take, Option, Some, None};
ghost use Rattle.std.specs.Prelude.{option_map, Ok, Err, IfOk, OnOk, OnErr, IsErr, IsTrue};
ghost use Rattle.std.specs.Io.KnownBytes.{WriteAppends};
ghost use Rattle.market_edges.specs.Counts.{count_end, raised_by, Rose, is_listed};
ghost use Rattle.market_edges.specs.Sinks.{SinkState};

use crate::faults::{Failed, is_call_listed};
use std::alloc::Global;
use std::io;
use std::io::Write;
use std::marker::Model;

/// What bytes are written to. `faults` counts faults and stands still at 18,446,744,073,709,551,615.
/// `written` is the bytes that were written, where the sink tells.
pub trait Sink {
    ghost faults: { Self → ℕ };

    ghost written: { Self → Option (List ℕ) };

    /// Writes bytes from the front of `piece` and answers how many. It answers 0 for a piece that is not
    /// empty only where the faults rose. After `Failed` the sink is as before but for its faults, and the
    /// call may be made again. No other call changes the faults.
    fn write(&mut self, piece: &[u8]) -> Result<usize, Failed>
        ensures within { IfOk result (λ n. n ≤ length piece.now) }
        ensures appends { IfOk result (λ n. written self.new
            ≡ option_map (λ bytes. bytes ++ take n piece.now) (written self.old)) }
        ensures stuck { IfOk result (λ n. n ≡ 0 → 0 < length piece.now
            → Rose (faults self.old) (faults self.new)) }
        ensures moved { IfOk result (λ n. 0 < n → faults self.new ≡ faults self.old) }
        ensures no_bytes { length piece.now ≡ 0 → OnOk result (faults self.new ≡ faults self.old) }
        ensures failed { OnErr result (Rose (faults self.old) (faults self.new)) }
        ensures unchanged { OnErr result (written self.new ≡ written self.old) }
        ensures never_falls { faults self.old ≤ faults self.new }
        ensures stands_still { faults self.old ≤ count_end → faults self.new ≤ count_end };
}

/// A sink in memory: it takes each piece whole, and fails at chosen calls and where memory is missing.
/// Contracts see a `SinkState`.
#[derive(Debug, Drop)]
pub struct MemorySink {
    bytes: Vec<u8>,
    failing: Vec<u32>,
    calls: u64,
    faults: u64,
}

impl Model for MemorySink {
    ghost use Rattle.market_edges.specs.Sinks.{SinkState};

    ghost Value = { SinkState };

    ghost view = { λ s. record {
      written = s.bytes.items;
      failing = s.failing.items;
      calls = s.calls;
      faults = s.faults;
    } };
}

impl MemorySink {
    /// A sink with no bytes. The calls of `failing`, counted from 1 over the sink's life, fail.
    pub fn new(alloc: Global, failing: Vec<u32>) -> MemorySink
        ensures { result ≡ record { written = []; failing = failing.items; calls = 0; faults = 0 } }
    {
        MemorySink {
            bytes: Vec::new(alloc),
            failing,
            calls: 0,
            faults: 0,
        }
    }

    /// The bytes that were written.
    pub fn bytes(&self) -> &[u8]
        ensures { result.now ≡ self.now.written }
    {
        self.bytes.as_slice()
    }
}

impl Sink for MemorySink {
    ghost faults = { λ s. s.faults };

    ghost written = { λ s. Some s.written };

    /// Fails at the calls that are listed, and at others only where memory is missing.
    fn write(&mut self, piece: &[u8]) -> Result<usize, Failed>
        ensures fails { IsTrue (is_listed self.old.failing (raised_by self.old.calls 1)) → IsErr result }
        ensures whole { IfOk result (λ n. n ≡ length piece.now) }
        ensures ok { IfOk result (λ _. self.new ≡ record self.old {
          written = self.old.written ++ piece.now;
          calls = raised_by self.old.calls 1;
        }) }
        ensures err { OnErr result (self.new ≡ record self.old {
          calls = raised_by self.old.calls 1;
          faults = raised_by self.old.faults 1;
        }) }
        ensures never_falls { self.old.faults ≤ self.new.faults }
    {
        self.calls = self.calls.saturating_add(1);
        if is_call_listed(&self.failing, self.calls)
            || self.bytes.extend_from_slice(piece).is_err()
        {
            self.faults = self.faults.saturating_add(1);
            return Err(Failed);
        }
        Ok(piece.len())
    }
}

/// A sink over a writer of std, which is to buffer nothing: the sink never flushes. One write is one call of
/// the writer. Each error of the writer is a fault, and so is a write of nothing where there was something.
/// It tells nothing of its bytes; contracts see its writer and its faults.
#[derive(Drop)]
pub struct StdSink<W> {
    writer: W,
    faults: u64,
}

impl<W> Model for StdSink<W> {
    ghost use Rattle.market_edges.specs.Sinks.{WriterState};

    ghost Value = { WriterState W };

    ghost view = { λ s. record { writer = s.writer; faults = s.faults } };
}

impl<W> StdSink<W> {
    /// A sink of bytes for the writer.
    pub fn new(writer: W) -> StdSink<W>
        ensures { result ≡ record { writer = writer; faults = 0 } }
    {
        StdSink { writer, faults: 0 }
    }

    // Counts what one call of the writer gave for so many bytes, and hands it on.
    fn count(&mut self, given: io::Result<usize>, asked: usize) -> Result<usize, Failed>
        ensures ok { IfOk given (λ n. result ≡ Ok n) }
        ensures err { OnErr given (IsErr result) }
        ensures moved { IfOk given (λ n. 0 < n → self.new ≡ self.old) }
        ensures no_bytes { asked ≡ 0 → OnOk given (self.new ≡ self.old) }
        ensures stuck { IfOk given (λ n. n ≡ 0 → 0 < asked
            → self.new ≡ record self.old { faults = raised_by self.old.faults 1 }) }
        ensures failed { OnErr given (self.new ≡ record self.old { faults = raised_by self.old.faults 1 }) }
    {
        match given {
            Ok(n) => {
                if n == 0 && asked > 0 {
                    self.faults = self.faults.saturating_add(1);
                }
                Ok(n)
            }
            Err(_) => {
                self.faults = self.faults.saturating_add(1);
                Err(Failed)
            }
        }
    }
}

impl<W: Write> Sink for StdSink<W> {
    ghost faults = { λ s. s.faults };

    ghost written = { λ _. None };

    /// Hands on what one call of the writer gives, and counts one fault for an error of it, and for 0 where
    /// there was something to write.
    fn write(&mut self, piece: &[u8]) -> Result<usize, Failed>
        ensures within { IfOk result (λ n. n ≤ length piece.now) }
        ensures handed_on { WriteAppends (W.contents self.old.writer) (W.contents self.new.writer)
            result piece.now }
        ensures moved { IfOk result (λ n. 0 < n → self.new.faults ≡ self.old.faults) }
        ensures no_bytes { length piece.now ≡ 0 → OnOk result (self.new.faults ≡ self.old.faults) }
        ensures stuck { IfOk result (λ n. n ≡ 0 → 0 < length piece.now
            → self.new.faults ≡ raised_by self.old.faults 1) }
        ensures failed { OnErr result (self.new.faults ≡ raised_by self.old.faults 1) }
        ensures never_falls { self.old.faults ≤ self.new.faults }
        ensures stands_still { self.old.faults ≤ count_end → self.new.faults ≤ count_end }
    {
        let given = self.writer.write(piece);
        self.count(given, piece.len())
    }
}
