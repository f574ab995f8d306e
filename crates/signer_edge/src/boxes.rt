ghost use Rattle.std.specs.Prelude.{◌≡◌, ◌<◌, ◌^◌, [], ◌∷◌, ◌++◌, length, Some, IfOk, OnOk, OnErr};
ghost use Rattle.std.specs.Int.{w64, to_be_bytes};
ghost use Rattle.signer_edge.specs.Seals.{SealsOne, is_sealed, statements_by};

use crate::seals::Seal;
use crate::signing::{SignFault, Signer, Verifier};
use ord_types::{Bytes, List, NoMemory, Sig};
use std::alloc::Global;
use std::marker::Model;

/// An ideal box: the list of who signed what. A signature is the place of its entry, and nobody can make
/// one up. Contracts see the list.
#[derive(Drop)]
pub struct SealBox {
    alloc: Global,
    seals: List<Seal>,
}

impl Model for SealBox {
    ghost use Rattle.std.specs.Prelude.{List};
    ghost use Rattle.signer_edge.specs.declared.seals.Seal.{Seal};

    ghost Value = { List Seal };

    ghost view = { λ a. a.seals };
}

impl SealBox {
    /// An empty box.
    pub fn new(alloc: Global) -> Result<SealBox, NoMemory>
        ensures { IfOk result (λ made. made ≡ []) }
    {
        Ok(SealBox {
            alloc,
            seals: List::new(alloc),
        })
    }

    /// The box with a signer at it.
    pub fn seat(self, id: u32) -> SealSeat
        ensures { result ≡ record { id = id; seals = self } }
    {
        SealSeat { id, seals: self }
    }

    /// Adds a seal at the end. The answer is its place, as eight bytes.
    fn add(&mut self, signer: u32, statement: &[u8]) -> Result<Bytes, NoMemory>
        ensures small { length self.old < 2 ^ 64 }
        ensures place { IfOk result (λ place. place ≡ to_be_bytes w64 (length self.old)) }
        ensures ok { OnOk result (
            self.new ≡ self.old ++ record { signer = signer; statement = statement.now } ∷ []
            ) }
        ensures err { OnErr result (self.new ≡ self.old) }
    {
        let place = self.seals.len() as u64;
        let bytes = Bytes::from_slice(self.alloc, &place.to_be_bytes())?;
        let statement = Bytes::from_slice(self.alloc, statement)?;
        self.seals.push(Seal { signer, statement })?;
        Ok(bytes)
    }

    /// Whether the signature names a seal of its signer on the statement.
    fn holds(&self, statement: &[u8], sig: &Sig) -> bool
        ensures { result ≡ is_sealed self.now statement.now sig.now }
    {
        let Ok(place) = <[u8; 8]>::try_from(sig.bytes.as_slice()) else {
            return false;
        };
        match self
            .seals
            .as_slice()
            .get(u64::from_be_bytes(place) as usize)
        {
            Some(seal) => seal.signer == sig.signer && seal.statement.as_slice() == statement,
            None => false,
        }
    }
}

/// A box and the one signer that may sign by it now. Contracts see the signer's `id` and the list `seals`.
#[derive(Drop)]
pub struct SealSeat {
    id: u32,
    seals: SealBox,
}

impl Model for SealSeat {
    ghost use Rattle.signer_edge.specs.Seals.{Seat};

    ghost Value = { Seat };

    ghost view = { λ a. record { id = a.id; seals = a.seals } };
}

impl SealSeat {
    /// How many seals the box has.
    pub fn sealed(&self) -> usize
        ensures { result ≡ length self.now.seals }
    {
        self.seals.seals.len()
    }

    /// The box.
    pub fn back(self) -> SealBox
        ensures { result ≡ self.seals }
    {
        self.seals
    }
}

impl Signer for SealSeat {
    ghost id_of = { λ seat. seat.id };

    ghost signed = { λ seat. Some (statements_by seat.id seat.seals) };

    ghost faults = { λ seat. 0 };

    ghost honours = { λ seat. is_sealed seat.seals };

    ghost sign_gives = { SealsOne };

    fn id(&self) -> u32 {
        self.id
    }

    fn sign(&mut self, statement: &[u8]) -> Result<Sig, SignFault> {
        let bytes = self.seals.add(self.id, statement)?;
        Ok(Sig {
            signer: self.id,
            bytes,
        })
    }
}

impl Verifier for SealSeat {
    ghost accepts = { λ seat. is_sealed seat.seals };

    fn verify(&self, statement: &[u8], sig: &Sig) -> bool {
        self.seals.holds(statement, sig)
    }
}
