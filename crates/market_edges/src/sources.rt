//! Sources of bytes.

ghost use Rattle.std.specs.Prelude.{◌≡◌, ℕ, ◌≤◌, ◌<◌, List, [], length, take, drop, min, Option, Some, None};
ghost use Rattle.std.specs.Prelude.{option_map, IfSome, IfOk, OnOk, OnErr, IsErr, is_err};
ghost use Rattle.std.specs.Io.KnownBytes.{ReadConsumes};
ghost use Rattle.market_edges.specs.Counts.{count_end, raised_by, Rose, is_listed};
ghost use Rattle.market_edges.specs.Sources.{SourceState};

use crate::faults::{Failed, is_call_listed};
use std::io;
use std::io::Read;
use std::marker::Model;

/// What bytes are read from. `faults` counts faults and `taken` the bytes that were taken; each count stands
/// still at 18,446,744,073,709,551,615. `left` is the bytes that are left, where the source tells.
pub trait Source {
    ghost faults: { Self → ℕ };

    ghost taken: { Self → ℕ };

    ghost left: { Self → Option (List ℕ) };

    /// Takes the next bytes into the front of `room` and answers how many; the rest of `room` may change too.
    /// 0 is the end, but for an empty `room`. After `Failed` the source is as before but for its faults, and
    /// the call may be made again. No other call changes the faults.
    fn read(&mut self, room: &mut [u8]) -> Result<usize, Failed>
        ensures within { IfOk result (λ n. n ≤ length room.old) }
        ensures taken { IfOk result (λ n. taken self.new ≡ raised_by (taken self.old) n) }
        ensures there { IfOk result (λ n. IfSome (left self.old) (λ bytes. n ≤ length bytes)) }
        ensures bytes { IfOk result (λ n. IfSome (left self.old) (λ bytes. take n room.new ≡ take n bytes)) }
        ensures rest { IfOk result (λ n. left self.new ≡ option_map (drop n) (left self.old)) }
        ensures end { IfOk result (λ n. n ≡ 0 → 0 < length room.old
            → IfSome (left self.old) (λ bytes. bytes ≡ [])) }
        ensures calm { OnOk result (faults self.new ≡ faults self.old) }
        ensures failed { OnErr result (Rose (faults self.old) (faults self.new)) }
        ensures takes_nothing { OnErr result (taken self.new ≡ taken self.old) }
        ensures keeps_left { OnErr result (left self.new ≡ left self.old) }
        ensures never_falls { faults self.old ≤ faults self.new }
        ensures stands_still { faults self.old ≤ count_end → faults self.new ≤ count_end };
}

/// A source in memory: it gives its bytes in pieces and fails at chosen calls. Contracts see a `SourceState`.
#[derive(Debug, Drop)]
pub struct MemorySource {
    bytes: Vec<u8>,
    place: usize,
    piece: usize,
    failing: Vec<u32>,
    calls: u64,
    faults: u64,
}

impl Model for MemorySource {
    ghost use Rattle.std.specs.Prelude.{◌≤◌, ◌<◌, length, drop};
    ghost use Rattle.market_edges.specs.Sources.{SourceState};

    ghost Value = { SourceState };

    ghost view = { λ s. record {
      left = drop s.place s.bytes.items;
      piece = s.piece;
      failing = s.failing.items;
      calls = s.calls;
      taken = s.place;
      faults = s.faults;
    } };

    ghost invariant = { λ s. (s.place ≤ length s.bytes.items) × (0 < s.piece) };
}

impl MemorySource {
    /// A source of these bytes. One read gives `piece` bytes at most. The calls of `failing`, counted from 1
    /// over the source's life, fail.
    pub fn new(bytes: Vec<u8>, piece: usize, failing: Vec<u32>) -> MemorySource
        requires { 1 ≤ piece }
        ensures { result
            ≡ record {
              left = bytes.items;
              piece = piece;
              failing = failing.items;
              calls = 0;
              taken = 0;
              faults = 0;
            } }
    {
        MemorySource {
            bytes,
            place: 0,
            piece,
            failing,
            calls: 0,
            faults: 0,
        }
    }
}

impl Source for MemorySource {
    ghost faults = { λ s. s.faults };

    ghost taken = { λ s. s.taken };

    ghost left = { λ s. Some s.left };

    /// Fails exactly at the calls that are listed, and else gives as much as the piece, the room and the
    /// bytes allow.
    fn read(&mut self, room: &mut [u8]) -> Result<usize, Failed>
        ensures fails { is_err result ≡ is_listed self.old.failing (raised_by self.old.calls 1) }
        ensures gives { IfOk result (λ n. n
            ≡ min self.old.piece (min (length room.old) (length self.old.left))) }
        ensures bytes { IfOk result (λ n. take n room.new ≡ take n self.old.left) }
        ensures end { IfOk result (λ n. n ≡ 0 → 0 < length room.old → self.old.left ≡ []) }
        ensures ok { IfOk result (λ n. self.new ≡ record self.old {
          left = drop n self.old.left;
          taken = raised_by self.old.taken n;
          calls = raised_by self.old.calls 1;
        }) }
        ensures err { OnErr result (self.new ≡ record self.old {
          calls = raised_by self.old.calls 1;
          faults = raised_by self.old.faults 1;
        }) }
        ensures never_falls { self.old.faults ≤ self.new.faults }
    {
        self.calls = self.calls.saturating_add(1);
        if is_call_listed(&self.failing, self.calls) {
            self.faults = self.faults.saturating_add(1);
            return Err(Failed);
        }
        let left = &self.bytes[self.place..];
        let n = self.piece.min(room.len().min(left.len()));
        room[..n].copy_from_slice(&left[..n]);
        self.place += n;
        Ok(n)
    }
}

/// A source over a reader of std. One read is one call of the reader, and each error of it is a fault. It
/// tells nothing of its bytes; contracts see its reader and its counts.
#[derive(Drop)]
pub struct StdSource<R> {
    reader: R,
    taken: u64,
    faults: u64,
}

impl<R> Model for StdSource<R> {
    ghost use Rattle.market_edges.specs.Sources.{ReaderState};

    ghost Value = { ReaderState R };

    ghost view = { λ s. record { reader = s.reader; taken = s.taken; faults = s.faults } };
}

impl<R> StdSource<R> {
    /// A source of the bytes that the reader gives.
    pub fn new(reader: R) -> StdSource<R>
        ensures { result ≡ record { reader = reader; taken = 0; faults = 0 } }
    {
        StdSource {
            reader,
            taken: 0,
            faults: 0,
        }
    }

    // Counts what one call of the reader gave, and hands it on.
    fn count(&mut self, given: io::Result<usize>) -> Result<usize, Failed>
        ensures ok { IfOk given (λ n. result ≡ Ok n) }
        ensures err { OnErr given (IsErr result) }
        ensures taken { IfOk given (λ n. self.new ≡ record self.old { taken = raised_by self.old.taken n }) }
        ensures failed { OnErr given (self.new ≡ record self.old { faults = raised_by self.old.faults 1 }) }
    {
        match given {
            Ok(n) => {
                self.taken = self.taken.saturating_add(n as u64);
                Ok(n)
            }
            Err(_) => {
                self.faults = self.faults.saturating_add(1);
                Err(Failed)
            }
        }
    }
}

impl<R: Read> Source for StdSource<R> {
    ghost faults = { λ s. s.faults };

    ghost taken = { λ s. s.taken };

    ghost left = { λ _. None };

    /// Hands on what one call of the reader gives, and counts one fault for an error of it.
    fn read(&mut self, room: &mut [u8]) -> Result<usize, Failed>
        ensures within { IfOk result (λ n. n ≤ length room.old) }
        ensures handed_on { ReadConsumes (R.remaining self.old.reader) (R.remaining self.new.reader)
            result room.new }
        ensures taken { IfOk result (λ n. self.new.taken ≡ raised_by self.old.taken n) }
        ensures takes_nothing { OnErr result (self.new.taken ≡ self.old.taken) }
        ensures calm { OnOk result (self.new.faults ≡ self.old.faults) }
        ensures failed { OnErr result (self.new.faults ≡ raised_by self.old.faults 1) }
        ensures never_falls { self.old.faults ≤ self.new.faults }
        ensures stands_still { self.old.faults ≤ count_end → self.new.faults ≤ count_end }
    {
        let given = self.reader.read(room);
        self.count(given)
    }
}
