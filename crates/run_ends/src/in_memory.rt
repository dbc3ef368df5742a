//! Sources and sinks in memory, whose calls fail where they are told to.

ghost use Rattle.std.specs.Prelude.{◌≡◌, ◌≤◌, ◌<◌, ◌-◌, ◌↔◌, [], ◌++◌, length, take, drop, vec_len, vec_capacity, Some, Contains, IsTrue, IsErr, IfOk, OnOk, OnErr};
ghost use Rattle.run_ends.specs.InMemory.{counted, piece_len, FailsToWrite};

use crate::{Sink, Source};
use map_types::{Bytes, Failed, NoMemory, Numbers};
use std::alloc::Global;
use std::marker::Model;

/// Bytes in memory, read from their front in pieces. Calls are numbered from 0, those that fail too.
#[derive(Drop)]
pub struct MemSource {
    bytes: Bytes,
    position: usize,
    failing_calls: Numbers,
    piece_limit: u32,
    next_call: u64,
    faults: u64,
}

impl Model for MemSource {
    ghost use Rattle.std.specs.Prelude.{◌≤◌, drop, length};
    ghost use Rattle.run_ends.specs.InMemory.{SourceState};

    ghost Value = { SourceState };

    ghost view = { λ s. record {
      left = drop s.position s.bytes;
      failing = s.failing_calls;
      piece_limit = s.piece_limit;
      next_call = s.next_call;
      faults = s.faults;
    } };

    ghost invariant = { λ s. (1 ≤ s.piece_limit) × (s.position ≤ length s.bytes) };
}

impl MemSource {
    /// A source of these bytes, in pieces of at most `piece_limit` bytes, which is at least 1. Its calls with the
    /// listed numbers fail. It takes no memory.
    pub fn of(bytes: Bytes, failing_calls: Numbers, piece_limit: u32) -> MemSource
        requires { 1 ≤ piece_limit }
        ensures { result
            ≡ record {
              left = bytes;
              failing = failing_calls;
              piece_limit = piece_limit;
              next_call
                  = 0;
              faults = 0;
            } }
    {
        MemSource {
            bytes,
            position: 0,
            failing_calls,
            piece_limit,
            next_call: 0,
            faults: 0,
        }
    }

    /// The bytes that are left.
    pub fn left(&self) -> &[u8]
        ensures { result.now ≡ self.now.left }
    {
        &self.bytes.as_slice()[self.position..]
    }

    /// How many calls failed. The count stands still at 2^64 - 1.
    pub fn faults(&self) -> u64
        ensures { result ≡ self.now.faults }
    {
        self.faults
    }
}

impl Source for MemSource {
    ghost left = { λ s. Some s.left };

    ghost faults = { λ s. s.faults };

    /// Takes the next bytes into the front of the buffer, and answers how many. A call that is listed fails, and no
    /// other.
    fn read(&mut self, buf: &mut [u8]) -> Result<usize, Failed>
        ensures fails { IsErr result ↔ Contains self.old.failing self.old.next_call }
        ensures count { IfOk result (λ n. n
            ≡ piece_len (length buf.old) self.old.piece_limit (length self.old.left)) }
        ensures copied { IfOk result (λ n. buf.new ≡ take n self.old.left ++ drop n buf.old) }
        ensures ok { IfOk result (λ n. self.new ≡ record self.old {
          left = drop n self.old.left;
          next_call = counted self.old.next_call;
        }) }
        ensures failed { OnErr result (self.new ≡ record self.old {
          next_call = counted self.old.next_call;
          faults = counted self.old.faults;
        }) }
        ensures same { OnErr result (buf.new ≡ buf.old) }
        ensures takes_some { 1 ≤ self.old.piece_limit }
        ensures never_falls { self.old.faults ≤ self.new.faults }
    {
        let fails = is_listed(self.failing_calls.as_slice(), self.next_call);
        count_call(fails, &mut self.next_call, &mut self.faults)?;
        let left = &self.bytes.as_slice()[self.position..];
        let count = copy_prefix(buf, left, self.piece_limit as usize);
        self.position += count;
        Ok(count)
    }
}

/// Bytes that are written into memory, in pieces. Calls are numbered from 0, writes and flushes together, and those
/// that fail too.
#[derive(Drop)]
pub struct MemSink {
    bytes: Vec<u8>,
    flushed: usize,
    failing_calls: Numbers,
    piece_limit: u32,
    room: u32,
    next_call: u64,
    faults: u64,
}

impl Model for MemSink {
    ghost use Rattle.std.specs.Prelude.{length, vec_capacity};
    ghost use Rattle.run_ends.specs.InMemory.{SinkState, KeepsToRoom};

    ghost Value = { SinkState };

    ghost view = { λ s. record {
      written = s.bytes.items;
      flushed = s.flushed;
      failing = s.failing_calls;
      piece_limit = s.piece_limit;
      room = s.room;
      next_call = s.next_call;
      faults = s.faults;
    } };

    ghost invariant = { λ s. KeepsToRoom s.piece_limit s.flushed (length s.bytes.items) s.room
        (vec_capacity s.bytes) };
}

impl MemSink {
    /// A sink for at most `room` bytes, in pieces of at most `piece_limit` bytes, which is at least 1. Its calls with
    /// the listed numbers fail. The memory for the room is taken here, so that no call fails for want of it.
    pub fn of(
        alloc: Global,
        failing_calls: Numbers,
        piece_limit: u32,
        room: u32,
    ) -> Result<MemSink, NoMemory>
        requires { 1 ≤ piece_limit }
        ensures { IfOk result (λ sink. sink ≡ record {
          written = [];
          flushed = 0;
          failing = failing_calls;
          piece_limit = piece_limit;
          room = room;
          next_call = 0;
          faults = 0;
        }) }
    {
        let bytes = Vec::with_capacity(alloc, room as usize)?;
        Ok(MemSink {
            bytes,
            flushed: 0,
            failing_calls,
            piece_limit,
            room,
            next_call: 0,
            faults: 0,
        })
    }

    /// The bytes that were written.
    pub fn written(&self) -> &[u8]
        ensures { result.now ≡ self.now.written }
    {
        self.bytes.as_slice()
    }

    /// How many of the bytes that were written are flushed.
    pub fn flushed(&self) -> usize
        ensures { result ≡ self.now.flushed }
    {
        self.flushed
    }

    /// How many calls failed. The count stands still at 2^64 - 1.
    pub fn faults(&self) -> u64
        ensures { result ≡ self.now.faults }
    {
        self.faults
    }
}

impl Sink for MemSink {
    ghost written = { λ s. Some (record { bytes = s.written; flushed = s.flushed }) };

    ghost faults = { λ s. s.faults };

    /// Writes a prefix of the piece, and answers how many bytes. A call that is listed fails, and a write of some bytes
    /// where the room is used up, and no other.
    fn write(&mut self, piece: &[u8]) -> Result<usize, Failed>
        ensures fails { IsErr result ↔ FailsToWrite self.old piece.now }
        ensures count { IfOk result (λ n. n ≡ piece_len (length piece.now) self.old.piece_limit
            (self.old.room - length self.old.written)) }
        ensures ok { IfOk result (λ n. self.new ≡ record self.old {
          written = self.old.written ++ take n piece.now;
          next_call = counted self.old.next_call;
        }) }
        ensures failed { OnErr result (self.new ≡ record self.old {
          next_call = counted self.old.next_call;
          faults = counted self.old.faults;
        }) }
        ensures takes_some { 1 ≤ self.old.piece_limit }
        ensures never_falls { self.old.faults ≤ self.new.faults }
        ensures within_room { length self.new.written ≤ self.new.room }
    {
        let room = self.room as usize;
        let fails = is_listed(self.failing_calls.as_slice(), self.next_call)
            || (!piece.is_empty() && self.bytes.len() == room);
        count_call(fails, &mut self.next_call, &mut self.faults)?;
        Ok(append_prefix(&mut self.bytes, piece, self.piece_limit as usize, room))
    }

    /// Leaves all that was written flushed. A call that is listed fails, and no other.
    fn flush(&mut self) -> Result<(), Failed>
        ensures fails { IsErr result ↔ Contains self.old.failing self.old.next_call }
        ensures ok { OnOk result (self.new ≡ record self.old {
          flushed = length self.old.written;
          next_call = counted self.old.next_call;
        }) }
        ensures failed { OnErr result (self.new ≡ record self.old {
          next_call = counted self.old.next_call;
          faults = counted self.old.faults;
        }) }
        ensures never_falls { self.old.faults ≤ self.new.faults }
    {
        let fails = is_listed(self.failing_calls.as_slice(), self.next_call);
        count_call(fails, &mut self.next_call, &mut self.faults)?;
        self.flushed = self.bytes.len();
        Ok(())
    }
}

/// Counts a call, and a failure where it fails. Both counts stand still at 2^64 - 1.
fn count_call(fails: bool, next_call: &mut u64, faults: &mut u64) -> Result<(), Failed>
    ensures call { next_call.new ≡ counted next_call.old }
    ensures fails { IsErr result ↔ IsTrue fails }
    ensures ok { OnOk result (faults.new ≡ faults.old) }
    ensures failed { OnErr result (faults.new ≡ counted faults.old) }
    ensures never_falls { faults.old ≤ faults.new }
{
    *next_call = next_call.saturating_add(1);
    if fails {
        *faults = faults.saturating_add(1);
        return Err(Failed);
    }
    Ok(())
}

/// Whether a call's number is among those.
fn is_listed(numbers: &[u32], call: u64) -> bool
    ensures { IsTrue result ↔ Contains numbers.now call }
{
    numbers.iter().any(|number| u64::from(*number) == call)
}

/// Copies a prefix of the bytes to the front of the buffer, and answers how many.
fn copy_prefix(buf: &mut [u8], bytes: &[u8], limit: usize) -> usize
    ensures count { result ≡ piece_len (length buf.old) limit (length bytes.now) }
    ensures copied { buf.new ≡ take result bytes.now ++ drop result buf.old }
{
    let count = buf.len().min(limit).min(bytes.len());
    buf[..count].copy_from_slice(&bytes[..count]);
    count
}

/// Puts a prefix of the piece at the end of the bytes, and answers how many bytes it is.
fn append_prefix(bytes: &mut Vec<u8>, piece: &[u8], limit: usize, room: usize) -> usize
    requires written { vec_len bytes.old ≤ room }
    requires room { room ≤ vec_capacity bytes.old }
    ensures count { result ≡ piece_len (length piece.now) limit (room - vec_len bytes.old) }
    ensures items { bytes.new.items ≡ bytes.old.items ++ take result piece.now }
    ensures capacity { vec_capacity bytes.old ≤ vec_capacity bytes.new }
{
    let count = piece.len().min(limit).min(room - bytes.len());
    bytes.extend_from_slice(&piece[..count]).unwrap();
    count
}
