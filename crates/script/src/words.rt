ghost use Rattle.std.specs.Prelude.{◌≡◌, ◌≤◌, ◌+◌, ◌^◌, ◌-◌, ◌∷◌, [], IsNone, IfNone, IfSome, IfOk, IfErr, None, length, nat_lt};
ghost use Rattle.script.specs.declared.command.Stop.TheVariants.{Malformed};
ghost use Rattle.script.specs.Words.{words_left};
ghost use Rattle.script.specs.Fields.{number_of, id_of, ticks_of, hex_of, payload_of, ids_of, given_ids_of, given_batch_of, byzantine_of, vote_kind_of, device_call_of, image_of, entry_of, ranges_of};
ghost use Rattle.script.specs.Grammar.{same_as, options_of};
ghost use Rattle.script.specs.Reading.{Reads, Gives, field, field_or, optional, no_more};

use crate::command::{Halt, Image, Options, Range, VoteKind, malformed};
use crate::fields::{
    batch, byzantine, device_call, entry, hex, id, ids, image, number, payload, ranges, ticks,
    vote_kind,
};
use memchr::memchr;
use ord_types::{Bytes, List, NoMemory};
use std::alloc::Global;

/// The words of a line, one after the other.
#[derive(Drop)]
pub struct Words<'a> {
    line: &'a [u8],
    from: usize,
}

impl<'a> Words<'a> {
    pub fn new(line: &'a [u8]) -> Words<'a>
        ensures line { result.line.now ≡ line.now }
        ensures from { result.from ≡ 0 }
    {
        Words { line, from: 0 }
    }

    /// The next word, and the place of its first byte.
    pub fn next(&mut self) -> Option<(usize, &'a [u8])>
        ensures line { self.new.line.now ≡ self.old.line.now }
        ensures none { IfNone result (words_left self.old.line.now self.old.from ≡ []) }
        ensures same { IfNone result (self.new.from ≡ self.old.from) }
        ensures some { IfSome result (λ word. words_left self.old.line.now self.old.from ≡ record { place = word.0; text = word.1.now } ∷ words_left self.new.line.now self.new.from) }
    {
        if self.line.len() < self.from {
            return None;
        }
        let place = self.from + 1;
        let rest = &self.line[self.from..];
        match memchr(b' ', rest) {
            Some(at) => {
                self.from += at + 1;
                Some((place, &rest[..at]))
            }
            None => {
                self.from = self.line.len() + 1;
                Some((place, rest))
            }
        }
    }

    /// The next word, which may not be missing.
    fn word(&mut self) -> Result<(usize, &'a [u8]), Halt>
        ensures line { self.new.line.now ≡ self.old.line.now }
        ensures missing { IfErr result (λ halt. (halt ≡ Halt.Stopped (Malformed (length self.old.line.now + 1))) × (words_left self.old.line.now self.old.from ≡ [])) }
        ensures found { IfOk result (λ word. words_left self.old.line.now self.old.from ≡ record { place = word.0; text = word.1.now } ∷ words_left self.new.line.now self.new.from) }
    {
        match self.next() {
            Some(word) => Ok(word),
            None => Err(malformed(self.line.len() + 1)),
        }
    }

    /// The same words once more.
    pub fn again(&self) -> Words<'a>
        ensures line { result.line.now ≡ self.now.line.now }
        ensures from { result.from ≡ self.now.from }
    {
        Words {
            line: self.line,
            from: self.from,
        }
    }

    /// A word that is this one.
    pub fn same(&mut self, wanted: &[u8]) -> Result<(), Halt>
        ensures line { self.new.line.now ≡ self.old.line.now }
        ensures reads { Reads result (words_left self.new.line.now self.new.from) (field (same_as wanted.now) (length self.old.line.now + 1) (words_left self.old.line.now self.old.from)) }
    {
        let (place, word) = self.word()?;
        if word == wanted {
            Ok(())
        } else {
            Err(malformed(place))
        }
    }

    /// An id.
    pub fn id(&mut self) -> Result<u32, Halt>
        ensures line { self.new.line.now ≡ self.old.line.now }
        ensures reads { Reads result (words_left self.new.line.now self.new.from) (field id_of (length self.old.line.now + 1) (words_left self.old.line.now self.old.from)) }
    {
        let (place, word) = self.word()?;
        match id(word) {
            Some(id) => Ok(id),
            None => Err(malformed(place)),
        }
    }

    /// A count of ticks, 1 where there is no word.
    pub fn ticks(&mut self) -> Result<u32, Halt>
        ensures line { self.new.line.now ≡ self.old.line.now }
        ensures reads { Reads result (words_left self.new.line.now self.new.from) (field_or 1 ticks_of (words_left self.old.line.now self.old.from)) }
    {
        let Some((place, word)) = self.next() else {
            return Ok(1);
        };
        match ticks(word) {
            Some(count) => Ok(count),
            None => Err(malformed(place)),
        }
    }

    /// A number below 2^32.
    pub fn u32(&mut self) -> Result<u32, Halt>
        ensures line { self.new.line.now ≡ self.old.line.now }
        ensures reads { Reads result (words_left self.new.line.now self.new.from) (field (number_of (2 ^ 32 - 1)) (length self.old.line.now + 1) (words_left self.old.line.now self.old.from)) }
    {
        let (place, word) = self.word()?;
        match number(word, u64::from(u32::MAX)) {
            Some(n) => Ok(n as u32),
            None => Err(malformed(place)),
        }
    }

    /// A number below 2^64.
    pub fn u64(&mut self) -> Result<u64, Halt>
        ensures line { self.new.line.now ≡ self.old.line.now }
        ensures reads { Reads result (words_left self.new.line.now self.new.from) (field (number_of (2 ^ 64 - 1)) (length self.old.line.now + 1) (words_left self.old.line.now self.old.from)) }
    {
        let (place, word) = self.word()?;
        match number(word, u64::MAX) {
            Some(n) => Ok(n),
            None => Err(malformed(place)),
        }
    }

    /// The number of an entry, a block or a view.
    pub fn entry(&mut self) -> Result<u64, Halt>
        ensures line { self.new.line.now ≡ self.old.line.now }
        ensures reads { Reads result (words_left self.new.line.now self.new.from) (field entry_of (length self.old.line.now + 1) (words_left self.old.line.now self.old.from)) }
    {
        let (place, word) = self.word()?;
        match entry(word) {
            Some(n) => Ok(n),
            None => Err(malformed(place)),
        }
    }

    /// Bytes in hex.
    pub fn hex(&mut self, alloc: Global) -> Result<Bytes, Halt>
        ensures line { self.new.line.now ≡ self.old.line.now }
        ensures reads { Reads result (words_left self.new.line.now self.new.from) (field hex_of (length self.old.line.now + 1) (words_left self.old.line.now self.old.from)) }
    {
        let (place, word) = self.word()?;
        match hex(alloc, word)? {
            Some(bytes) => Ok(bytes),
            None => Err(malformed(place)),
        }
    }

    /// The payload of a request in hex.
    pub fn payload(&mut self, alloc: Global) -> Result<Bytes, Halt>
        ensures line { self.new.line.now ≡ self.old.line.now }
        ensures reads { Reads result (words_left self.new.line.now self.new.from) (field payload_of (length self.old.line.now + 1) (words_left self.old.line.now self.old.from)) }
    {
        let (place, word) = self.word()?;
        match payload(alloc, word)? {
            Some(bytes) => Ok(bytes),
            None => Err(malformed(place)),
        }
    }

    /// Which vote.
    pub fn vote_kind(&mut self) -> Result<VoteKind, Halt>
        ensures line { self.new.line.now ≡ self.old.line.now }
        ensures reads { Reads result (words_left self.new.line.now self.new.from) (field vote_kind_of (length self.old.line.now + 1) (words_left self.old.line.now self.old.from)) }
    {
        let (place, word) = self.word()?;
        match vote_kind(word) {
            Some(kind) => Ok(kind),
            None => Err(malformed(place)),
        }
    }

    /// The place of a device call.
    pub fn device_call(&mut self) -> Result<u32, Halt>
        ensures line { self.new.line.now ≡ self.old.line.now }
        ensures reads { Reads result (words_left self.new.line.now self.new.from) (field device_call_of (length self.old.line.now + 1) (words_left self.old.line.now self.old.from)) }
    {
        let (place, word) = self.word()?;
        match device_call(word) {
            Some(call) => Ok(call),
            None => Err(malformed(place)),
        }
    }

    /// What a stop leaves of a disk.
    pub fn image(&mut self) -> Result<Image, Halt>
        ensures line { self.new.line.now ≡ self.old.line.now }
        ensures reads { Reads result (words_left self.new.line.now self.new.from) (field image_of (length self.old.line.now + 1) (words_left self.old.line.now self.old.from)) }
    {
        let (place, word) = self.word()?;
        match image(word) {
            Some(image) => Ok(image),
            None => Err(malformed(place)),
        }
    }

    /// Ids joined by commas.
    pub fn ids(&mut self, alloc: Global) -> Result<List<u32>, Halt>
        ensures line { self.new.line.now ≡ self.old.line.now }
        ensures reads { Reads result (words_left self.new.line.now self.new.from) (field ids_of (length self.old.line.now + 1) (words_left self.old.line.now self.old.from)) }
    {
        let (place, word) = self.word()?;
        match ids(alloc, word)? {
            Some(ids) => Ok(ids),
            None => Err(malformed(place)),
        }
    }

    /// Ids joined by commas, or none where there is no word.
    pub fn given_ids(&mut self, alloc: Global) -> Result<Option<List<u32>>, Halt>
        ensures line { self.new.line.now ≡ self.old.line.now }
        ensures reads { Reads result (words_left self.new.line.now self.new.from) (field_or None given_ids_of (words_left self.old.line.now self.old.from)) }
    {
        let Some((place, word)) = self.next() else {
            return Ok(None);
        };
        match ids(alloc, word)? {
            Some(ids) => Ok(Some(ids)),
            None => Err(malformed(place)),
        }
    }

    /// `batch=N` where the next word is that; another word stays.
    fn batch(&mut self) -> Option<u32>
        ensures line { self.new.line.now ≡ self.old.line.now }
        ensures reads { (result, words_left self.new.line.now self.new.from) ≡ optional None given_batch_of (words_left self.old.line.now self.old.from) }
    {
        let mut ahead = self.again();
        let (_, word) = ahead.next()?;
        let count = batch(word)?;
        self.from = ahead.from;
        Some(count)
    }

    /// `byz=IDS` where the next word is that; another word stays, and there are no ids.
    fn byzantine(&mut self, alloc: Global) -> Result<List<u32>, NoMemory>
        ensures line { self.new.line.now ≡ self.old.line.now }
        ensures reads { IfOk result (λ ids. (ids, words_left self.new.line.now self.new.from) ≡ optional [] byzantine_of (words_left self.old.line.now self.old.from)) }
    {
        let mut ahead = self.again();
        let Some((_, word)) = ahead.next() else {
            return Ok(List::new(alloc));
        };
        match byzantine(alloc, word)? {
            Some(ids) => {
                self.from = ahead.from;
                Ok(ids)
            }
            None => Ok(List::new(alloc)),
        }
    }

    /// The options of a genesis, in order; a word that is none of them stays.
    pub fn options(&mut self, alloc: Global) -> Result<Options, NoMemory>
        ensures line { self.new.line.now ≡ self.old.line.now }
        ensures reads { IfOk result (λ options. (options, words_left self.new.line.now self.new.from) ≡ options_of (words_left self.old.line.now self.old.from)) }
    {
        let batch = self.batch();
        let byzantine = self.byzantine(alloc)?;
        Ok(Options { batch, byzantine })
    }

    /// Ranges joined by commas.
    pub fn ranges(&mut self, alloc: Global) -> Result<List<Range>, Halt>
        ensures line { self.new.line.now ≡ self.old.line.now }
        ensures reads { Reads result (words_left self.new.line.now self.new.from) (field ranges_of (length self.old.line.now + 1) (words_left self.old.line.now self.old.from)) }
    {
        let (place, word) = self.word()?;
        match ranges(alloc, word)? {
            Some(ranges) => Ok(ranges),
            None => Err(malformed(place)),
        }
    }

    /// That no word is left.
    pub fn end(&mut self) -> Result<(), Halt>
        ensures { Gives (λ _. tt {0}) result (no_more (words_left self.old.line.now self.old.from)) }
    {
        match self.next() {
            None => Ok(()),
            Some((place, _)) => Err(malformed(place)),
        }
    }
}
