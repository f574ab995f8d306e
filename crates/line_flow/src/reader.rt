ghost use Rattle.std.specs.Prelude.{true, false, ◌≢◌, ◌^◌, Ok, Err, ◌≡◌, ◌≤◌, ◌<◌, ◌+◌, ◌∷◌, [], ◌++◌, ℕ, List, IsSome, OnOk, OnErr, IfOk, length, vec_len};
ghost use Rattle.ord_types.specs.Causes.{HasCause, Rose};
ghost use Rattle.ord_types.specs.Told.{told};
ghost use Rattle.line_flow.specs.Lines.{lines, IsUnbroken, first_length};

use memchr::memchr;
use ord_types::{Failed, Source};
use std::alloc::{AllocError, Global};

/// How many bytes are asked of a source at once.
const CHUNK: usize = 65536;

/// Reads a source line by line, each into the same buffer. A line feed ends a line; the last may lack it.
#[derive(Drop)]
pub struct LineReader {
    chunk: Vec<u8>,
    from: usize,
    to: usize,
    line: Vec<u8>,
    ghost in_order: { from ≤ to },
    ghost in_chunk: { to ≤ vec_len chunk },
    ghost has_room: { 0 < vec_len chunk },
}

/// What a reader came to.
#[derive(Clone, Copy, Debug, PartialEq, Eq)]
pub enum NextLine {
    /// The line is in the reader.
    Line,
    /// The source has come to its end.
    End,
    /// The line has more bytes than the limit.
    TooLong,
}

/// Why no line was read.
#[derive(Clone, Copy, Debug, PartialEq, Eq)]
pub enum LineFault {
    /// A read of the source failed.
    ReadFault,
    NoMemory,
}

/// What a piece of a line came to.
#[derive(Clone, Copy, Debug, PartialEq, Eq)]
enum Piece {
    /// A line feed ended it.
    Last,
    /// It is all that was read.
    Middle,
    /// With it the line would pass the limit.
    TooLong,
}

impl From<Failed> for LineFault {
    ghost use Rattle.line_flow.specs.declared.reader.LineFault.TheVariants.{ReadFault};

    ghost from_gives = { λ _ fault. fault ≡ ReadFault };

    fn from(_failed: Failed) -> LineFault {
        LineFault::ReadFault
    }
}

impl From<AllocError> for LineFault {
    ghost use Rattle.line_flow.specs.declared.reader.LineFault.TheVariants.{NoMemory};

    ghost from_gives = { λ _ fault. fault ≡ NoMemory };

    fn from(_error: AllocError) -> LineFault {
        LineFault::NoMemory
    }
}

impl LineReader {
    ghost use Rattle.line_flow.specs.Reader.{unread, ahead};

    /// A reader that has read nothing.
    pub fn new(alloc: Global) -> Result<LineReader, AllocError>
        ensures { IfOk result (λ reader. unread reader ≡ []) }
    {
        LineReader::with_chunk(alloc, CHUNK)
    }

    /// A reader that asks for at most so many bytes at once.
    fn with_chunk(alloc: Global, size: usize) -> Result<LineReader, AllocError>
        requires some { 0 < size }
        requires few { size ≤ 65536 }
        ensures { IfOk result (λ reader. unread reader ≡ []) }
    {
        Ok(LineReader {
            chunk: vec![in alloc; 0; size]?,
            from: 0,
            to: 0,
            line: Vec::new(alloc),
        })
    }

    /// The line that was read last.
    pub fn line(&self) -> &[u8]
        ensures { result.now ≡ self.now.line.items }
    {
        self.line.as_slice()
    }

    /// Reads on where nothing is unread.
    fn refill<S: Source>(&mut self, source: &mut S) -> Result<(), Failed>
        ensures tells { IsSome (S.left source.old) → IsSome (S.left source.new) }
        ensures same { IsSome (S.left source.old) →
            ahead self.new (S.left source.new) ≡ ahead self.old (S.left source.old) }
        ensures at_end { OnOk result (IsSome (S.left source.old) → self.new.from ≡ self.new.to → ahead self.new (S.left source.new) ≡ []) }
        ensures line { self.new.line.items ≡ self.old.line.items }
        ensures cause { HasCause (S.faults source.old) (S.faults source.new) result }
    {
        if self.from == self.to {
            self.from = 0;
            self.to = 0;
            self.to = source.read(self.chunk.as_mut_slice())?;
        }
        Ok(())
    }

    /// Moves what is unread to the line, up to a line feed, where the line keeps within the limit.
    fn cut(&mut self, limit: usize) -> Result<Piece, AllocError>
        requires some { self.old.from < self.old.to }
        requires within { length self.old.line.items ≤ limit }
        ensures last { result ≡ Ok Piece.Last → self.new.line.items ++ 10 ∷ unread self.new ≡ self.old.line.items ++ unread self.old }
        ensures whole { (result ≢ Ok Piece.Last) → self.new.line.items ++ unread self.new ≡ self.old.line.items ++ unread self.old }
        ensures none_left { result ≡ Ok Piece.Middle → unread self.new ≡ [] }
        ensures grows { result ≡ Ok Piece.Middle → length self.old.line.items < length self.new.line.items }
        ensures long { result ≡ Ok Piece.TooLong → IsUnbroken self.old.line.items → (more : List ℕ) → limit < first_length (lines (self.old.line.items ++ (unread self.old ++ more))) }
        ensures unbroken { IsUnbroken self.old.line.items → IsUnbroken self.new.line.items }
        ensures kept { length self.new.line.items ≤ limit }
    {
        let room = limit - self.line.len();
        let piece = &self.chunk[self.from..self.to];
        match memchr(b'\n', piece) {
            Some(at) => {
                if at > room {
                    return Ok(Piece::TooLong);
                }
                self.line.extend_from_slice(&piece[..at])?;
                self.from += at + 1;
                Ok(Piece::Last)
            }
            None => {
                if piece.len() > room {
                    return Ok(Piece::TooLong);
                }
                self.line.extend_from_slice(piece)?;
                self.from = self.to;
                Ok(Piece::Middle)
            }
        }
    }

    /// What the end of the source makes of the bytes before it.
    fn at_end(&self) -> NextLine
        ensures line { result ≡ NextLine.Line → 0 < length self.now.line.items }
        ensures end { result ≡ NextLine.End → self.now.line.items ≡ [] }
        ensures no_other { result ≢ NextLine.TooLong }
    {
        if self.line.is_empty() {
            NextLine::End
        } else {
            NextLine::Line
        }
    }

    /// Reads the next line, without its line feed, if it has at most `limit` bytes. Of a line no more
    /// than these are kept. Where no line was read, what was taken from the source stands in the reader.
    pub fn next_line<S: Source>(
        &mut self,
        source: &mut S,
        limit: usize,
    ) -> Result<NextLine, LineFault>
        requires { limit < 2 ^ 62 }
        ensures tells { IsSome (S.left source.old) → IsSome (S.left source.new) }

        // A line, the end of the source, and a line that is too long.
        ensures line { result ≡ Ok NextLine.Line → IsSome (S.left source.old) →
            lines (ahead self.old (S.left source.old)) ≡ self.new.line.items ∷ lines (ahead self.new (S.left source.new)) }
        ensures end { result ≡ Ok NextLine.End → IsSome (S.left source.old) → ahead self.old (S.left source.old) ≡ [] }
        ensures all_read { result ≡ Ok NextLine.End → IsSome (S.left source.old) → told (S.left source.new) ≡ [] }
        ensures long { result ≡ Ok NextLine.TooLong → IsSome (S.left source.old) →
            limit < first_length (lines (ahead self.old (S.left source.old))) }

        // What is kept.
        ensures kept { length self.new.line.items ≤ limit }
        ensures whole { (result ≢ Ok NextLine.Line) → IsSome (S.left source.old) →
            self.new.line.items ++ ahead self.new (S.left source.new) ≡ ahead self.old (S.left source.old) }

        // A fault of the source is counted there.
        ensures read_fault { result ≡ Err LineFault.ReadFault → Rose (S.faults source.old) (S.faults source.new) }
        ensures later { S.faults source.old ≤ S.faults source.new }
    {
        self.line.clear();
        'pieces: loop {
            self.refill(source)?;
            if self.from == self.to {
                return Ok(self.at_end());
            }
            match self.cut(limit)? {
                Piece::Last => return Ok(NextLine::Line),
                Piece::Middle => {}
                Piece::TooLong => return Ok(NextLine::TooLong),
            }
        }
    }
}

#[cfg(test)]
mod tests {
    use super::*;
    use ord_types::{Bytes, List, MemSource};
    use std::test::Fail;

    /// A source of this text, of which these calls fail.
    fn source(alloc: Global, text: &[u8], fails: &[u64]) -> Result<MemSource, Fail> {
        let mut calls = List::new(alloc);
        for call in fails {
            calls.push(*call)?;
        }
        Ok(MemSource::new(Bytes::from_slice(alloc, text)?, calls))
    }

    #[test]
    fn lines_in_tiny_pieces(rt: HostRuntime) -> Result<(), Fail> {
        for size in [1, 2, 3, 7, 64] {
            let mut source = source(rt.alloc(), b"abc\n\n#\nabcd\ne", &[])?;
            let mut reader = LineReader::with_chunk(rt.alloc(), size)?;
            for line in [b"abc".as_slice(), b"", b"#", b"abcd", b"e"] {
                let next = reader.next_line(&mut source, 4)?;
                assert_eq!(rt; next, NextLine::Line, "pieces of {size}");
                assert_eq!(rt; reader.line(), line, "pieces of {size}");
            }
            assert_eq!(rt; reader.next_line(&mut source, 4)?, NextLine::End);
            assert_eq!(rt; reader.next_line(&mut source, 4)?, NextLine::End);
        }
        Ok(())
    }

    #[test]
    fn long_lines(rt: HostRuntime) -> Result<(), Fail> {
        for text in [b"abcd\n".as_slice(), b"abcd", b"abcde", b"abcdefgh\n"] {
            let mut source = source(rt.alloc(), text, &[])?;
            let mut reader = LineReader::new(rt.alloc())?;
            assert_eq!(rt; reader.next_line(&mut source, 3)?, NextLine::TooLong);
        }
        Ok(())
    }

    #[test]
    fn failing_reads(rt: HostRuntime) -> Result<(), Fail> {
        for call in 1..5 {
            let mut source = source(rt.alloc(), b"a\nb\nc\n", &[call])?;
            let mut reader = LineReader::with_chunk(rt.alloc(), 2)?;
            for _ in 1..call {
                assert_eq!(rt; reader.next_line(&mut source, 9)?, NextLine::Line);
            }
            let failed = reader.next_line(&mut source, 9);
            assert_eq!(rt; failed, Err(LineFault::ReadFault), "call {call}");
        }
        Ok(())
    }
}
