//! Sinks of bytes, and writing bytes whole.

ghost use Rattle.std.specs.Prelude.{◌≡◌, ℕ, ◌<◌, ◌-◌, min, max, List, [], length, Option, None, Some, Ok, IfOk, OnOk, OnErr, IsErr, ◌↔◌, ◌⊎◌, Contains};
ghost use Rattle.std.specs.Io.{WritesAtMost};
ghost use Rattle.std.specs.Io.KnownBytes.{WriteAppends, Appends};
ghost use Rattle.tps_io.specs.Causes.{HasCause, one_more};
ghost use Rattle.tps_io.specs.Memory.{KeepsStore};
ghost use Rattle.tps_io.specs.Stream.{TellsAlike, AppendsFront};

use crate::source::Failed;
use std::alloc::{AllocError, Global};
use std::io::Write;
use std::marker::Model;

/// Where bytes go.
pub trait Sink {
    /// The bytes taken so far, in their order, where the sink tells them.
    ghost written: { Self → Option (List ℕ) };
    /// How many calls failed so far. The count never falls, and may stop at the last value of a `u64`.
    ghost faults: { Self → ℕ };

    /// Takes a prefix of the piece, and answers how many bytes: at least one, where the piece isn't
    /// empty. A call that fails takes none, and the count rises; it stays as it was where the call
    /// succeeds.
    fn write(&mut self, piece: &[u8]) -> Result<usize, Failed>
        ensures bound { WritesAtMost result piece.now }
        ensures some { IfOk result (λ n. 0 < length piece.now → 0 < n) }
        ensures bytes { WriteAppends (written self.old) (written self.new) result piece.now }
        ensures told { TellsAlike (written self.old) (written self.new) }
        ensures cause { HasCause (faults self.old) (faults self.new) result };
}

/// Writes all the bytes. Where a call of the sink failed, some prefix of them was written, and not all. It takes no
/// memory.
pub fn write_all<K: Sink>(sink: &mut K, bytes: &[u8]) -> Result<(), Failed>
    ensures ok { OnOk result (Appends (K.written sink.old) (K.written sink.new) bytes.now) }
    ensures err { OnErr result (AppendsFront (K.written sink.old) (K.written sink.new) bytes.now) }
    ensures told { TellsAlike (K.written sink.old) (K.written sink.new) }
    ensures cause { HasCause (K.faults sink.old) (K.faults sink.new) result }
{
    let mut rest = bytes;
    while !rest.is_empty() {
        let count = sink.write(rest)?;
        rest = &rest[count..];
    }
    Ok(())
}

/// A sink over a writer of std, as standard output. It tells no bytes.
#[derive(Drop)]
pub struct StdSink<W: Write + Drop> {
    inner: W,
    faults: u64,
}

impl<W: Write + Drop> Model for StdSink<W> {
    ghost use Rattle.tps_io.specs.Memory.{Counted};

    ghost Value = { Counted W };

    ghost view = { λ s. record { inner = s.inner; faults = s.faults } };
}

impl<W: Write + Drop> StdSink<W> {
    /// No call failed yet.
    pub fn new(inner: W) -> Self
        ensures { result ≡ record { inner = inner; faults = 0 } }
    {
        StdSink { inner, faults: 0 }
    }
}

impl<W: Write + Drop> Sink for StdSink<W> {
    ghost written = { λ _. None };

    ghost faults = { λ s. s.faults };

    /// Writes to the writer, and counts each error and each write that takes nothing of a piece that isn't empty.
    fn write(&mut self, piece: &[u8]) -> Result<usize, Failed>
        ensures bound { WritesAtMost result piece.now }
        ensures some { IfOk result (λ n. 0 < length piece.now → 0 < n) }
        ensures bytes { WriteAppends None None result piece.now }
        ensures told { TellsAlike None None }
        ensures cause { HasCause self.old.faults self.new.faults result }
        ensures counts { OnErr result (self.new.faults ≡ one_more self.old.faults) }
        ensures passes { WriteAppends (W.contents self.old.inner) (W.contents self.new.inner) result piece.now }
    {
        match self.inner.write(piece) {
            Ok(count) if count > 0 || piece.is_empty() => Ok(count),
            _ => {
                self.faults = self.faults.saturating_add(1);
                Err(Failed)
            }
        }
    }
}

/// A sink that takes each piece whole, keeps none of it, and never fails. It tells no bytes.
#[derive(Clone, Copy, Debug, Default)]
pub struct SureSink;

impl SureSink {
    /// A sink of no bytes yet.
    pub fn new() -> Self {
        SureSink
    }
}

impl Sink for SureSink {
    ghost written = { λ _. None };

    ghost faults = { λ _. 0 };

    /// Takes the whole piece.
    fn write(&mut self, piece: &[u8]) -> Result<usize, Failed>
        ensures bound { WritesAtMost result piece.now }
        ensures some { IfOk result (λ n. 0 < length piece.now → 0 < n) }
        ensures bytes { WriteAppends None None result piece.now }
        ensures told { TellsAlike None None }
        ensures cause { HasCause 0 0 result }
        ensures takes { result ≡ Ok (length piece.now) }
    {
        Ok(piece.len())
    }
}

/// A sink over memory with room for some bytes, which takes at most a piece a call, and of which some
/// calls fail.
#[derive(Drop)]
pub struct MemSink {
    bytes: Vec<u8>,
    piece: usize,
    room: usize,
    failing: Vec<u64>,
    calls: u64,
    faults: u64,
}

impl Model for MemSink {
    ghost use Rattle.std.specs.Prelude.{◌≤◌, ◌<◌, vec_len, vec_capacity};
    ghost use Rattle.tps_io.specs.Memory.{Store};

    ghost Value = { Store };

    ghost view = { λ s. record { written = s.bytes.items; piece = s.piece; room = s.room; failing = s.failing.items; calls = s.calls; faults = s.faults } };

    ghost invariant = { λ s. (s.room ≤ vec_capacity s.bytes) × (vec_len s.bytes ≤ s.room) × (0 < s.piece) };
}

impl MemSink {
    /// A sink with room for `room` bytes, for which it takes the memory here, that takes at most `piece`
    /// of them a call (at least 1). The calls whose numbers, from 1, are in `failing` fail.
    pub fn new(
        alloc: Global,
        piece: usize,
        room: usize,
        failing: Vec<u64>,
    ) -> Result<Self, AllocError>
        ensures { IfOk result (λ s. s ≡ record { written = []; piece = max piece 1; room = room; failing = failing.items; calls = 0; faults = 0 }) }
    {
        let bytes = Vec::with_capacity(alloc, room)?;
        Ok(MemSink {
            bytes,
            piece: piece.max(1),
            room,
            failing,
            calls: 0,
            faults: 0,
        })
    }

    /// What was written.
    pub fn bytes(&self) -> &[u8]
        ensures { result.now ≡ self.now.written }
    {
        &self.bytes
    }
}

impl Sink for MemSink {
    ghost written = { λ s. Some s.written };

    ghost faults = { λ s. s.faults };

    /// Takes what there is room for, up to a piece. The calls whose numbers are listed fail, and those
    /// with bytes to write where the room is used up; no others do. It takes no memory.
    fn write(&mut self, piece: &[u8]) -> Result<usize, Failed>
        ensures bound { WritesAtMost result piece.now }
        ensures some { IfOk result (λ n. 0 < length piece.now → 0 < n) }
        ensures bytes { WriteAppends (Some self.old.written) (Some self.new.written) result piece.now }
        ensures told { TellsAlike (Some self.old.written) (Some self.new.written) }
        ensures cause { HasCause self.old.faults self.new.faults result }
        ensures number { self.new.calls ≡ one_more self.old.calls }
        ensures fails { IsErr result ↔ (Contains self.old.failing self.new.calls ⊎ ((0 < length piece.now) × (length self.old.written ≡ self.old.room))) }
        ensures counts { OnErr result (self.new.faults ≡ one_more self.old.faults) }
        ensures takes { IfOk result (λ n. n ≡ min (min self.old.piece (length piece.now)) (self.old.room - length self.old.written)) }
        ensures keeps { KeepsStore self.old self.new }
    {
        self.calls = self.calls.saturating_add(1);
        let room = self.room - self.bytes.len();
        if self.failing.contains(&self.calls) || (!piece.is_empty() && room == 0) {
            self.faults = self.faults.saturating_add(1);
            return Err(Failed);
        }
        let count = self.piece.min(piece.len()).min(room);
        match self.bytes.extend_from_slice(&piece[..count]) {
            Ok(()) => Ok(count),
            Err(_) => unreachable!(),
        }
    }
}

#[cfg(test)]
mod tests {
    use super::*;
    use std::test::Fail;

    fn write_once<K: Sink>(sink: &mut K, piece: &[u8]) -> Result<usize, Failed> {
        sink.write(piece)
    }

    #[test]
    fn each_sink_writes_through_its_bound(rt: HostRuntime) -> Result<(), Fail> {
        let alloc = rt.alloc();

        let mut pieces = MemSink::new(alloc, 3, 5, Vec::new(alloc))?;
        assert_eq!(rt; write_once(&mut pieces, b"abcd"), Ok(3));
        assert_eq!(rt; write_once(&mut pieces, b""), Ok(0));
        assert_eq!(rt; write_once(&mut pieces, b"defg"), Ok(2));
        assert_eq!(rt; write_once(&mut pieces, b""), Ok(0));
        assert_eq!(rt; write_once(&mut pieces, b"fg"), Err(Failed));
        assert_eq!(rt; pieces.bytes(), b"abcde".as_slice());

        assert_eq!(rt; write_once(&mut SureSink::new(), b"abcd"), Ok(4));

        let mut writer = StdSink::new(Vec::new(alloc));
        assert_eq!(rt; write_once(&mut writer, b"xyz"), Ok(3));
        assert_eq!(rt; writer.inner.as_slice(), b"xyz".as_slice());
        Ok(())
    }

    #[test]
    fn a_piece_of_none_is_one_byte(rt: HostRuntime) -> Result<(), Fail> {
        let alloc = rt.alloc();
        let mut sink = MemSink::new(alloc, 0, 2, Vec::new(alloc))?;
        assert_eq!(rt; write_all(&mut sink, b"ab"), Ok(()));
        assert_eq!(rt; sink.bytes(), b"ab".as_slice());
        Ok(())
    }

    #[test]
    fn a_second_call_that_fails_leaves_a_front(rt: HostRuntime) -> Result<(), Fail> {
        let alloc = rt.alloc();
        let mut sink = MemSink::new(alloc, 3, 100, vec![in alloc; 2]?)?;
        assert_eq!(rt; write_all(&mut sink, b"abcdefgh"), Err(Failed));
        assert_eq!(rt; sink.bytes(), b"abc".as_slice());

        // The calls after it write on.
        assert_eq!(rt; write_all(&mut sink, b"defgh"), Ok(()));
        assert_eq!(rt; sink.bytes(), b"abcdefgh".as_slice());
        Ok(())
    }

    #[test]
    fn a_full_writer_fails(rt: HostRuntime) -> Result<(), Fail> {
        let alloc = rt.alloc();
        let mut sink = StdSink::new(Vec::new(alloc));
        assert_eq!(rt; write_all(&mut sink, b"a writer"), Ok(()));
        assert_eq!(rt; sink.inner.as_slice(), b"a writer".as_slice());

        let mut room = [0; 3];
        let mut full = StdSink::new(room.as_mut_slice());
        assert_eq!(rt; write_all(&mut full, b"abcd"), Err(Failed));
        assert_eq!(rt; full.faults, 1);
        Ok(())
    }
}
