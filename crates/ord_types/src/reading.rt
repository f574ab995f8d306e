//! Reads values from the front of bytes.
ghost use Rattle.std.specs.Prelude.{◌≡◌, [], ◌^◌, ◌&&◌, nat_le, not};
ghost use Rattle.ord_types.specs.Faults.{Reads};
ghost use Rattle.ord_types.specs.Reading.{
  ascending_at,
  batch_at,
  block_at,
  cert_at,
  config_at,
  differing_at,
  header_at,
  ids_at,
  kind_meant,
  last_at,
  list_at,
  meant_at,
  meta_at,
  mode_meant,
  option_at,
  order_at,
  proof_at,
  report_at,
  request_at,
  request_kind_meant,
  requests_at,
  sig_at,
  sig_from_at,
  sigs_at,
  tested_at,
  vote_at,
  vote_below_at,
  votes_at,
};
ghost use Rattle.std.specs.Int.{w8, w32};
ghost use Rattle.ord_types.specs.Members.{is_in};

use crate::fault::Halt;
use crate::limits::{MOST_MEMBERS, MOST_NUMBER, MOST_PAYLOAD, MOST_REQUESTS};
use crate::lists::List;
use crate::reader::{Reader, bad};
use crate::values::{
    Batch, Block, Cert, Config, Header, Kind, Last, Meta, Mode, Proof, Report, ReqId, ReqKind,
    Request, Sig, Vote,
};
use std::alloc::Global;

impl<'a> Reader<'a> {
    fn kind(&mut self) -> Result<Kind, Halt>
        ensures { Reads result self.new (meant_at w8 kind_meant self.old) }
    {
        let left = self.left();
        match self.u8()? {
            1 => Ok(Kind::Raft),
            2 => Ok(Kind::Bft),
            _ => Err(bad(left)),
        }
    }

    fn mode(&mut self) -> Result<Mode, Halt>
        ensures { Reads result self.new (meant_at w8 mode_meant self.old) }
    {
        let left = self.left();
        match self.u8()? {
            0 => Ok(Mode::Normal),
            1 => Ok(Mode::Maintenance),
            _ => Err(bad(left)),
        }
    }

    fn request_kind(&mut self) -> Result<ReqKind, Halt>
        ensures { Reads result self.new (meant_at w8 request_kind_meant self.old) }
    {
        let left = self.left();
        match self.u8()? {
            1 => Ok(ReqKind::Ordinary),
            2 => Ok(ReqKind::Change),
            _ => Err(bad(left)),
        }
    }

    /// So many ids, each above the one before.
    fn ascending(&mut self, alloc: Global, count: u8) -> Result<List<u32>, Halt>
        ensures { Reads result self.new (ascending_at 1 count self.old) }
    {
        let mut ids = List::new(alloc);
        let mut least: u64 = 1;
        for _ in 0..count {
            let id = self.u32_from(least)?;
            ids.push(id)?;
            least = u64::from(id) + 1;
        }
        Ok(ids)
    }

    /// An id other than those seen before it.
    fn new_id(&mut self, seen: &[u32]) -> Result<u32, Halt>
        ensures { Reads result self.new (tested_at w32 (λ id. nat_le 1 id && not (is_in id seen.now)) self.old) }
    {
        let left = self.left();
        let id = self.u32()?;
        if 1 <= id && !seen.contains(&id) {
            Ok(id)
        } else {
            Err(bad(left))
        }
    }

    /// So many ids, each other than those before it.
    fn differing(&mut self, alloc: Global, count: u8) -> Result<List<u32>, Halt>
        ensures { Reads result self.new (differing_at [] count self.old) }
    {
        let mut ids = List::new(alloc);
        for _ in 0..count {
            let id = self.new_id(ids.as_slice())?;
            ids.push(id)?;
        }
        Ok(ids)
    }

    /// Ids in strictly ascending order, at least so many and at most 31.
    #[tactic(auto, unfolding(crate::specs::Reading::ids_at))]
    pub fn ids(&mut self, alloc: Global, fewest: u8) -> Result<List<u32>, Halt>
        ensures { Reads result self.new (ids_at fewest self.old) }
    {
        let count = self.u8_within(fewest, MOST_MEMBERS as u8)?;
        self.ascending(alloc, count)
    }

    /// Different ids in any order, at most 31.
    #[tactic(auto, unfolding(crate::specs::Reading::order_at))]
    pub fn order(&mut self, alloc: Global) -> Result<List<u32>, Halt>
        ensures { Reads result self.new (order_at self.old) }
    {
        let count = self.u8_up_to(MOST_MEMBERS as u8)?;
        self.differing(alloc, count)
    }

    #[tactic(auto, unfolding(crate::specs::Reading::batch_at))]
    fn batch(&mut self) -> Result<Batch, Halt>
        ensures { Reads result self.new (batch_at self.old) }
    {
        Ok(Batch {
            count: self.u32()?,
            preferred: self.u32()?,
            absolute: self.u32()?,
            wait: self.u32()?,
        })
    }

    /// A configuration.
    #[tactic(auto, unfolding(crate::specs::Reading::config_at))]
    pub fn config(&mut self, alloc: Global) -> Result<Config, Halt>
        ensures { Reads result self.new (config_at self.old) }
    {
        self.u8_within(1, 1)?;
        Ok(Config {
            number: self.number()?,
            kind: self.kind()?,
            mode: self.mode()?,
            members: self.ids(alloc, 1)?,
            batch: self.batch()?,
            rotation: self.u32()?,
        })
    }

    /// A signature whose signer is at least this.
    #[tactic(auto, unfolding(crate::specs::Reading::sig_from_at))]
    pub fn sig_from(&mut self, alloc: Global, least: u64) -> Result<Sig, Halt>
        ensures { Reads result self.new (sig_from_at least self.old) }
    {
        let signer = self.u32_from(least)?;
        let length = self.u16_up_to(2048)?;
        let bytes = self.bytes(alloc, usize::from(length))?;
        Ok(Sig { signer, bytes })
    }

    /// A signature, of at most 2,048 bytes.
    pub fn sig(&mut self, alloc: Global) -> Result<Sig, Halt>
        ensures { Reads result self.new (sig_at self.old) }
    {
        self.sig_from(alloc, 0)
    }

    /// So many signatures by strictly ascending signers.
    fn sigs(&mut self, alloc: Global, count: u8) -> Result<List<Sig>, Halt>
        ensures { Reads result self.new (sigs_at 0 count self.old) }
    {
        let mut sigs = List::new(alloc);
        let mut least: u64 = 0;
        for _ in 0..count {
            let sig = self.sig_from(alloc, least)?;
            least = u64::from(sig.signer) + 1;
            sigs.push(sig)?;
        }
        Ok(sigs)
    }

    /// A certificate, of at most 31 signatures.
    #[tactic(auto, unfolding(crate::specs::Reading::cert_at))]
    pub fn cert(&mut self, alloc: Global) -> Result<Cert, Halt>
        ensures { Reads result self.new (cert_at self.old) }
    {
        let view = self.number()?;
        let count = self.u8_up_to(MOST_MEMBERS as u8)?;
        let sigs = self.sigs(alloc, count)?;
        Ok(Cert { view, sigs })
    }

    /// A request, of a payload of at most 65,536 bytes.
    #[tactic(auto, unfolding(crate::specs::Reading::request_at))]
    pub fn request(&mut self, alloc: Global) -> Result<Request, Halt>
        ensures { Reads result self.new (request_at self.old) }
    {
        let kind = self.request_kind()?;
        let client = self.u32()?;
        let serial = self.u64()?;
        let length = self.u32_up_to(MOST_PAYLOAD as u32)?;
        let payload = self.bytes(alloc, length as usize)?;
        Ok(Request {
            kind,
            id: ReqId { client, serial },
            payload,
        })
    }

    /// So many requests.
    fn so_many_requests(&mut self, alloc: Global, count: u32) -> Result<List<Request>, Halt>
        ensures { Reads result self.new (list_at request_at count self.old) }
    {
        let mut requests = List::with_capacity(alloc, count as usize)?;
        for _ in 0..count {
            requests.push(self.request(alloc)?)?;
        }
        Ok(requests)
    }

    /// The requests of a block, at most 1,000.
    #[tactic(auto, unfolding(crate::specs::Reading::requests_at))]
    pub fn requests(&mut self, alloc: Global) -> Result<List<Request>, Halt>
        ensures { Reads result self.new (requests_at self.old) }
    {
        let count = self.u32_up_to(MOST_REQUESTS as u32)?;
        self.so_many_requests(alloc, count)
    }

    /// A meta.
    #[tactic(auto, unfolding(crate::specs::Reading::meta_at))]
    pub fn meta(&mut self, alloc: Global) -> Result<Meta, Halt>
        ensures { Reads result self.new (meta_at self.old) }
    {
        Ok(Meta {
            config: self.number()?,
            view: self.number()?,
            decided: self.number()?,
            blacklist: self.order(alloc)?,
            signers: self.ids(alloc, 0)?,
        })
    }

    /// A header, 104 bytes.
    #[tactic(auto, unfolding(crate::specs::Reading::header_at))]
    pub fn header(&mut self) -> Result<Header, Halt>
        ensures { Reads result self.new (header_at self.old) }
    {
        Ok(Header {
            number: self.number()?,
            previous: self.digest()?,
            content: self.digest()?,
            meta: self.digest()?,
        })
    }

    /// A block.
    #[tactic(auto, unfolding(crate::specs::Reading::block_at))]
    pub fn block(&mut self, alloc: Global) -> Result<Block, Halt>
        ensures { Reads result self.new (block_at self.old) }
    {
        Ok(Block {
            header: self.header()?,
            requests: self.requests(alloc)?,
            meta: self.meta(alloc)?,
        })
    }

    /// A block behind a flag, where there is one.
    #[tactic(auto, unfolding(crate::specs::Reading::option_at))]
    pub fn block_or_none(&mut self, alloc: Global) -> Result<Option<Block>, Halt>
        ensures { Reads result self.new (option_at block_at self.old) }
    {
        if self.flag()? {
            Ok(Some(self.block(alloc)?))
        } else {
            Ok(None)
        }
    }

    /// A certificate behind a flag, where there is one.
    #[tactic(auto, unfolding(crate::specs::Reading::option_at))]
    pub fn cert_or_none(&mut self, alloc: Global) -> Result<Option<Cert>, Halt>
        ensures { Reads result self.new (option_at cert_at self.old) }
    {
        if self.flag()? {
            Ok(Some(self.cert(alloc)?))
        } else {
            Ok(None)
        }
    }

    /// A proof.
    #[tactic(auto, unfolding(crate::specs::Reading::proof_at))]
    pub fn proof(&mut self, alloc: Global) -> Result<Proof, Halt>
        ensures { Reads result self.new (proof_at self.old) }
    {
        match self.cert_or_none(alloc)? {
            None => Ok(Proof::Raft),
            Some(cert) => Ok(Proof::Bft(cert)),
        }
    }

    /// A vote whose view is below the limit.
    #[tactic(auto, unfolding(crate::specs::Reading::vote_below_at))]
    fn vote_below(&mut self, limit: u64) -> Result<Vote, Halt>
        ensures { Reads result self.new (vote_below_at limit self.old) }
    {
        Ok(Vote {
            view: self.u64_below(limit)?,
            digest: self.digest()?,
        })
    }

    /// A vote.
    pub fn vote(&mut self) -> Result<Vote, Halt>
        ensures { Reads result self.new (vote_at self.old) }
    {
        self.vote_below(MOST_NUMBER + 1)
    }

    /// A vote behind a flag, where there is one.
    #[tactic(auto, unfolding(crate::specs::Reading::option_at))]
    pub fn vote_or_none(&mut self) -> Result<Option<Vote>, Halt>
        ensures { Reads result self.new (option_at vote_at self.old) }
    {
        if self.flag()? {
            Ok(Some(self.vote()?))
        } else {
            Ok(None)
        }
    }

    /// So many votes by strictly falling views.
    fn votes(&mut self, alloc: Global, count: u8) -> Result<List<Vote>, Halt>
        ensures { Reads result self.new (votes_at (2 ^ 62) count self.old) }
    {
        let mut votes = List::new(alloc);
        let mut limit = MOST_NUMBER + 1;
        for _ in 0..count {
            let vote = self.vote_below(limit)?;
            limit = vote.view;
            votes.push(vote)?;
        }
        Ok(votes)
    }

    #[tactic(auto, unfolding(crate::specs::Reading::last_at))]
    fn last(&mut self, alloc: Global) -> Result<Last, Halt>
        ensures { Reads result self.new (last_at self.old) }
    {
        Ok(Last {
            hash: self.digest()?,
            cert: self.cert(alloc)?,
        })
    }

    #[tactic(auto, unfolding(crate::specs::Reading::option_at))]
    fn last_or_none(&mut self, alloc: Global) -> Result<Option<Last>, Halt>
        ensures { Reads result self.new (option_at last_at self.old) }
    {
        if self.flag()? {
            Ok(Some(self.last(alloc)?))
        } else {
            Ok(None)
        }
    }

    /// A report, of at most 32 accepted votes.
    #[tactic(auto, unfolding(crate::specs::Reading::report_at))]
    pub fn report(&mut self, alloc: Global) -> Result<Report, Halt>
        ensures { Reads result self.new (report_at self.old) }
    {
        let height = self.number()?;
        let last = self.last_or_none(alloc)?;
        let prepared = self.vote_or_none()?;
        let count = self.u8_up_to(32)?;
        let accepted = self.votes(alloc, count)?;
        Ok(Report {
            height,
            last,
            prepared,
            accepted,
        })
    }
}
