//! Sources of bytes, and reading one to its end.

ghost use Rattle.std.specs.Prelude.{◌≡◌, ℕ, ◌<◌, ◌≤◌, ◌≢◌, List, length, IfOk, OnErr, Option, Some, None, Result, Ok, Err, IsErr, ◌↔◌, Contains, min, max, take, drop};
ghost use Rattle.std.specs.Io.{ReadsAtMost};
ghost use Rattle.std.specs.Io.KnownBytes.{ReadConsumes};
ghost use Rattle.tps_io.specs.Causes.{Rose, HasCause, one_more};
ghost use Rattle.tps_io.specs.Memory.{KeepsSupply};
ghost use Rattle.tps_io.specs.Stream.{TellsAlike, TakesAll, TakesFront, HeldMore};

use std::alloc::{AllocError, Global};
use std::io::Read;
use std::marker::Model;

/// A call of a source or a sink failed: its count of faults rose.
#[derive(Clone, Copy, Debug, PartialEq, Eq)]
pub struct Failed;

/// Where bytes come from.
pub trait Source {
    /// The bytes still to come, in their order, where the source tells them.
    ghost left: { Self → Option (List ℕ) };
    /// How many calls failed so far. The count never falls, and may stop at the last value of a `u64`.
    ghost faults: { Self → ℕ };

    /// Puts the next bytes at the front of the buffer, and answers how many: at most the buffer's
    /// length, and 0 for a buffer that isn't empty exactly where no byte is left. A call that fails
    /// takes none, and the count rises; it stays as it was where the call succeeds.
    fn read(&mut self, buf: &mut [u8]) -> Result<usize, Failed>
        ensures bound { ReadsAtMost result buf.new }
        ensures bytes { ReadConsumes (left self.old) (left self.new) result buf.new }
        ensures told { TellsAlike (left self.old) (left self.new) }
        ensures cause { HasCause (faults self.old) (faults self.new) result };
}

/// Why a source wasn't read to its end.
#[derive(Clone, Copy, Debug, PartialEq, Eq)]
pub enum ReadError {
    /// Memory ran out.
    Memory,
    /// A call of the source failed.
    Fault,
    /// The source has more bytes than were asked for.
    TooLong,
}

impl From<AllocError> for ReadError {
    ghost use Rattle.std.specs.Prelude.{◌≡◌};
    ghost use Rattle.tps_io.specs.declared.source.ReadError.TheVariants.{Memory};

    ghost from_gives = { λ _ e. e ≡ Memory };

    fn from(_: AllocError) -> Self {
        ReadError::Memory
    }
}

/// How many bytes `read_all` asks for at a time.
const BLOCK: usize = 8192;

/// All bytes of a source up to its end. `Fault` comes exactly where a call of the source failed, and
/// `TooLong` exactly where none did and the source has more than `max` bytes; `Memory` comes where
/// memory ran out. After an error the source has lost some prefix of its bytes.
pub fn read_all<S: Source>(alloc: Global, source: &mut S, max: u64) -> Result<Vec<u8>, ReadError>
    ensures all { IfOk result (λ v. TakesAll (S.left source.old) (S.left source.new) v.items) }
    ensures within { IfOk result (λ v. length v.items ≤ max) }
    ensures too_long { result ≡ Err ReadError.TooLong → HeldMore (S.left source.old) max }
    ensures fault { result ≡ Err ReadError.Fault → Rose (S.faults source.old) (S.faults source.new) }
    ensures calm { result ≢ Err ReadError.Fault → S.faults source.new ≡ S.faults source.old }

    // What holds of the source after each answer.
    ensures later { S.faults source.old ≤ S.faults source.new }
    ensures told { TellsAlike (S.left source.old) (S.left source.new) }
    ensures front { TakesFront (S.left source.old) (S.left source.new) }
{
    let mut bytes = Vec::new(alloc);
    let mut block = [0; BLOCK];
    loop {
        let Ok(count) = source.read(&mut block) else {
            return Err(ReadError::Fault);
        };
        if count == 0 {
            return Ok(bytes);
        }
        if count as u64 > max - bytes.len() as u64 {
            return Err(ReadError::TooLong);
        }
        bytes.extend_from_slice(&block[..count])?;
    }
}

/// A source over a reader of std, as standard input. It tells no bytes.
#[derive(Drop)]
pub struct StdSource<R: Read + Drop> {
    inner: R,
    faults: u64,
}

impl<R: Read + Drop> Model for StdSource<R> {
    ghost use Rattle.tps_io.specs.Memory.{Counted};

    ghost Value = { Counted R };

    ghost view = { λ s. record { inner = s.inner; faults = s.faults } };
}

impl<R: Read + Drop> StdSource<R> {
    /// No call failed yet.
    pub fn new(inner: R) -> Self
        ensures { result ≡ record { inner = inner; faults = 0 } }
    {
        StdSource { inner, faults: 0 }
    }
}

impl<R: Read + Drop> Source for StdSource<R> {
    ghost left = { λ _. None };

    ghost faults = { λ s. s.faults };

    /// Reads from the reader, and counts each error.
    fn read(&mut self, buf: &mut [u8]) -> Result<usize, Failed>
        ensures bound { ReadsAtMost result buf.new }
        ensures bytes { ReadConsumes None None result buf.new }
        ensures told { TellsAlike None None }
        ensures cause { HasCause self.old.faults self.new.faults result }
        ensures counts { OnErr result (self.new.faults ≡ one_more self.old.faults) }
        ensures passes { ReadConsumes (R.remaining self.old.inner) (R.remaining self.new.inner) result buf.new }
    {
        match self.inner.read(buf) {
            Ok(count) => Ok(count),
            Err(_) => {
                self.faults = self.faults.saturating_add(1);
                Err(Failed)
            }
        }
    }
}

/// A source over bytes in memory, which gives at most some bytes a call, and of which some calls fail.
#[derive(Drop)]
pub struct MemSource {
    bytes: Vec<u8>,
    at: usize,
    piece: usize,
    failing: Vec<u64>,
    calls: u64,
    faults: u64,
}

impl Model for MemSource {
    ghost use Rattle.std.specs.Prelude.{◌≤◌, ◌<◌, drop, length};
    ghost use Rattle.tps_io.specs.Memory.{Supply};

    ghost Value = { Supply };

    ghost view = { λ s. record { left = drop s.at s.bytes.items; piece = s.piece; failing = s.failing.items; calls = s.calls; faults = s.faults } };

    ghost invariant = { λ s. (s.at ≤ length s.bytes.items) × (0 < s.piece) };
}

impl MemSource {
    /// A source of these bytes that gives at most `piece` of them a call (at least 1). The calls whose
    /// numbers, from 1, are in `failing` fail.
    pub fn new(bytes: Vec<u8>, piece: usize, failing: Vec<u64>) -> Self
        ensures { result ≡ record { left = bytes.items; piece = max piece 1; failing = failing.items; calls = 0; faults = 0 } }
    {
        MemSource {
            bytes,
            at: 0,
            piece: piece.max(1),
            failing,
            calls: 0,
            faults: 0,
        }
    }
}

impl Source for MemSource {
    ghost left = { λ s. Some s.left };

    ghost faults = { λ s. s.faults };

    /// Gives what is left and fits, up to a piece. The calls whose numbers are listed fail, and no others.
    fn read(&mut self, buf: &mut [u8]) -> Result<usize, Failed>
        ensures bound { ReadsAtMost result buf.new }
        ensures bytes { ReadConsumes (Some self.old.left) (Some self.new.left) result buf.new }
        ensures told { TellsAlike (Some self.old.left) (Some self.new.left) }
        ensures cause { HasCause self.old.faults self.new.faults result }
        ensures number { self.new.calls ≡ one_more self.old.calls }
        ensures fails { IsErr result ↔ Contains self.old.failing self.new.calls }
        ensures counts { OnErr result (self.new.faults ≡ one_more self.old.faults) }
        ensures gives { IfOk result (λ n. n ≡ min (min self.old.piece (length buf.old)) (length self.old.left)) }
        ensures keeps { KeepsSupply self.old self.new }
    {
        self.calls = self.calls.saturating_add(1);
        if self.failing.contains(&self.calls) {
            self.faults = self.faults.saturating_add(1);
            return Err(Failed);
        }
        let count = give(&self.bytes, self.at, self.piece, buf);
        self.at += count;
        Ok(count)
    }
}

/// A source over bytes in memory that gives as many of them as the buffer takes, and never fails.
#[derive(Drop)]
pub struct SureSource {
    bytes: Vec<u8>,
    at: usize,
}

impl Model for SureSource {
    ghost use Rattle.std.specs.Prelude.{◌≤◌, ℕ, List, drop, length};

    ghost Value = { List ℕ };

    ghost view = { λ s. drop s.at s.bytes.items };

    ghost invariant = { λ s. s.at ≤ length s.bytes.items };
}

impl SureSource {
    /// A source of these bytes.
    pub fn new(bytes: Vec<u8>) -> Self
        ensures { result ≡ bytes.items }
    {
        SureSource { bytes, at: 0 }
    }
}

impl Source for SureSource {
    ghost left = { λ s. Some s };

    ghost faults = { λ _. 0 };

    /// Gives what is left and fits.
    fn read(&mut self, buf: &mut [u8]) -> Result<usize, Failed>
        ensures bound { ReadsAtMost result buf.new }
        ensures bytes { ReadConsumes (Some self.old) (Some self.new) result buf.new }
        ensures told { TellsAlike (Some self.old) (Some self.new) }
        ensures cause { HasCause 0 0 result }
        ensures gives { result ≡ Ok (min (length buf.old) (length self.old)) }
    {
        let count = give(&self.bytes, self.at, buf.len(), buf);
        self.at += count;
        Ok(count)
    }
}

/// Copies the bytes from a place on to the front of the buffer, as many as fit and at most so many,
/// and answers how many.
fn give(bytes: &[u8], at: usize, most: usize, buf: &mut [u8]) -> usize
    requires { at ≤ length bytes.now }
    ensures count { result ≡ min (min most (length buf.old)) (length (drop at bytes.now)) }
    ensures front { take result buf.new ≡ take result (drop at bytes.now) }
{
    let rest = &bytes[at..];
    let count = most.min(buf.len()).min(rest.len());
    buf[..count].copy_from_slice(&rest[..count]);
    count
}

#[cfg(test)]
mod tests {
    use super::*;
    use std::io;
    use std::io::ErrorKind;
    use std::test::Fail;

    /// A reader whose calls all fail.
    #[derive(Drop)]
    struct Broken;

    impl Read for Broken {
        fn read(&mut self, _: &mut [u8]) -> io::Result<usize> {
            Err(ErrorKind::Other.into())
        }
    }

    fn read_once<S: Source>(source: &mut S, buf: &mut [u8]) -> Result<usize, Failed> {
        source.read(buf)
    }

    #[test]
    fn each_source_reads_through_its_bound(rt: HostRuntime) -> Result<(), Fail> {
        let alloc = rt.alloc();
        let mut buf = [0; 4];

        let mut pieces = MemSource::new(b"abcdef".to_vec(alloc)?, 3, Vec::new(alloc));
        assert_eq!(rt; read_once(&mut pieces, &mut buf), Ok(3));
        assert_eq!(rt; buf, *b"abc\0");
        assert_eq!(rt; read_once(&mut pieces, &mut buf), Ok(3));
        assert_eq!(rt; read_once(&mut pieces, &mut buf), Ok(0));

        let mut sure = SureSource::new(b"abcdef".to_vec(alloc)?);
        assert_eq!(rt; read_once(&mut sure, &mut buf), Ok(4));
        assert_eq!(rt; buf, *b"abcd");
        assert_eq!(rt; read_once(&mut sure, &mut buf), Ok(2));

        let bytes: &[u8] = b"xyz";
        let mut reader = StdSource::new(bytes);
        assert_eq!(rt; read_once(&mut reader, &mut buf), Ok(3));
        assert_eq!(rt; buf, *b"xyzd");
        Ok(())
    }

    #[test]
    fn a_piece_of_none_is_one_byte(rt: HostRuntime) -> Result<(), Fail> {
        let alloc = rt.alloc();
        let mut source = MemSource::new(b"ab".to_vec(alloc)?, 0, Vec::new(alloc));
        assert_eq!(rt;
            read_all(alloc, &mut source, 2)?.as_slice(),
            b"ab".as_slice()
        );
        Ok(())
    }

    #[test]
    fn reads_up_to_the_limit(rt: HostRuntime) -> Result<(), Fail> {
        let alloc = rt.alloc();
        let text = vec![in alloc; 7; 20_000]?;
        for (max, fits) in [(19_999, false), (20_000, true), (20_001, true), (0, false)] {
            let mut source = SureSource::new(text.clone()?);
            match read_all(alloc, &mut source, max) {
                Ok(bytes) => assert!(rt; fits && bytes.as_slice() == text.as_slice(), "at {max}"),
                Err(error) => assert!(rt; !fits && error == ReadError::TooLong, "at {max}"),
            }
        }
        let mut empty = SureSource::new(Vec::new(alloc));
        assert!(rt; read_all(alloc, &mut empty, 0)?.is_empty());
        Ok(())
    }

    #[test]
    fn a_second_call_that_fails_ends_the_reading(rt: HostRuntime) -> Result<(), Fail> {
        let alloc = rt.alloc();
        let text = vec![in alloc; 7; 25]?;
        let mut source = MemSource::new(text, 10, vec![in alloc; 2]?);
        assert_eq!(rt;
            read_all(alloc, &mut source, 100).err(),
            Some(ReadError::Fault)
        );

        // What the first call gave is gone, and the rest can still be read.
        assert_eq!(rt; read_all(alloc, &mut source, 100)?.len(), 15);

        let mut broken = StdSource::new(Broken);
        assert_eq!(rt;
            read_all(alloc, &mut broken, 100).err(),
            Some(ReadError::Fault)
        );
        Ok(())
    }

    #[test]
    fn a_reader_is_read_whole(rt: HostRuntime) -> Result<(), Fail> {
        let alloc = rt.alloc();
        let bytes: &[u8] = b"a reader";
        assert_eq!(rt;
            read_all(alloc, &mut StdSource::new(bytes), 8)?.as_slice(),
            bytes
        );
        assert_eq!(rt;
            read_all(alloc, &mut StdSource::new(bytes), 7).err(),
            Some(ReadError::TooLong)
        );
        Ok(())
    }
}
