//! The bytes of an input, taken in bounded pieces.

ghost use Rattle.std.specs.Prelude.{◌≡◌, ◌≢◌, ◌≤◌, ◌<◌, ◌+◌, ◌++◌, ℕ, List, [], true, false, Some, Ok, Err};
ghost use Rattle.std.specs.Prelude.{IfOk, OnOk, length, vec_len};
ghost use Rattle.market_edges.specs.Counts.{raised_by, Rose};
ghost use Rattle.market.specs.Input.{Takes};

use market_edges::Source;
use std::alloc::{AllocError, Global};

/// The most bytes that an input may have.
pub const MOST_BYTES: usize = 67_108_864;

// The most bytes that one read asks for.
const PIECE: usize = 65_536;

/// Why an input was not read to its end.
#[derive(Clone, Copy, Debug, PartialEq, Eq)]
pub enum InputEnd {
    /// The source failed.
    Fault,
    /// One byte more than an input may have was taken.
    TooLong,
    OutOfMemory,
}

/// All bytes of a source, of which at most one more is taken than an input may have.
pub fn read_input<S: Source>(alloc: Global, input: &mut S) -> Result<Vec<u8>, InputEnd>
    ensures takes_all { IfOk result (λ bytes. Takes (S.left input.old) (S.left input.new) bytes.items) }
    ensures at_end { OnOk result ((all : List ℕ) → S.left input.new ≡ Some all → all ≡ []) }
    ensures within { IfOk result (λ bytes. vec_len bytes ≤ MOST_BYTES) }
    ensures too_long { result ≡ Err InputEnd.TooLong → (bytes : List ℕ) × (length bytes ≡ MOST_BYTES + 1)
        × (S.taken input.new ≡ raised_by (S.taken input.old) (MOST_BYTES + 1))
        × Takes (S.left input.old) (S.left input.new) bytes }
    ensures fault { result ≡ Err InputEnd.Fault → Rose (S.faults input.old) (S.faults input.new) }
    ensures no_fault { result ≢ Err InputEnd.Fault → S.faults input.new ≡ S.faults input.old }
    ensures few { result ≢ Err InputEnd.TooLong → result ≢ Err InputEnd.OutOfMemory
        → (n : ℕ) × (n ≤ MOST_BYTES) × (S.taken input.new ≡ raised_by (S.taken input.old) n) }
    ensures never_falls { S.faults input.old ≤ S.faults input.new }
{
    let mut room = zeros(alloc, PIECE).map_err(|_| InputEnd::OutOfMemory)?;
    let mut bytes = Vec::new(alloc);
    while bytes.len() <= MOST_BYTES {
        if !read_piece(input, &mut room, &mut bytes)? {
            return Ok(bytes);
        }
    }
    Err(InputEnd::TooLong)
}

fn zeros(alloc: Global, size: usize) -> Result<Vec<u8>, AllocError>
    ensures { IfOk result (λ room. vec_len room ≡ size) }
{
    vec![in alloc; 0u8; size]
}

// Takes the next piece, unless the source is at its end: whether it took one.
fn read_piece<S: Source>(
    input: &mut S,
    room: &mut [u8],
    bytes: &mut Vec<u8>,
) -> Result<bool, InputEnd>
    requires room { 0 < length room.old }
    requires within { vec_len bytes.old ≤ MOST_BYTES }
    ensures piece { OnOk result ((piece : List ℕ) × (bytes.new.items ≡ bytes.old.items ++ piece)
        × (S.taken input.new ≡ raised_by (S.taken input.old) (length piece))
        × Takes (S.left input.old) (S.left input.new) piece) }
    ensures more { result ≡ Ok true → vec_len bytes.old < vec_len bytes.new }
    ensures at_end { result ≡ Ok false
        → (vec_len bytes.new ≡ vec_len bytes.old)
        × ((all : List ℕ) → S.left input.new ≡ Some all → all ≡ []) }
    ensures within { vec_len bytes.new ≤ MOST_BYTES + 1 }
    ensures no_end { result ≢ Err InputEnd.TooLong }
    ensures fault { result ≡ Err InputEnd.Fault → Rose (S.faults input.old) (S.faults input.new) }
    ensures no_fault { result ≢ Err InputEnd.Fault → S.faults input.new ≡ S.faults input.old }
    ensures takes_nothing { result ≡ Err InputEnd.Fault → S.taken input.new ≡ S.taken input.old }
    ensures never_falls { S.faults input.old ≤ S.faults input.new }
{
    let most = room.len().min(MOST_BYTES + 1 - bytes.len());
    let count = input.read(&mut room[..most]).map_err(|_| InputEnd::Fault)?;
    bytes
        .extend_from_slice(&room[..count])
        .map_err(|_| InputEnd::OutOfMemory)?;
    Ok(count > 0)
}
