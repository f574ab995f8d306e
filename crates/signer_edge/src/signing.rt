ghost use Rattle.std.specs.Prelude.{◌≡◌};
ghost use Rattle.signer_edge.specs.Accepts.{Accepts};

use ord_types::{NoMemory, Sig};

/// Why nothing was signed.
#[derive(Clone, Copy, Debug, PartialEq, Eq)]
pub enum SignFault {
    /// The device failed. The signer's count of faults says so too.
    Failed,
    NoMemory,
}

impl From<NoMemory> for SignFault {
    ghost use Rattle.std.specs.Prelude.{◌≡◌};
    ghost use Rattle.signer_edge.specs.declared.signing.SignFault.TheVariants.{NoMemory};

    ghost from_gives = { λ _ fault. fault ≡ NoMemory };

    fn from(_fault: NoMemory) -> SignFault {
        SignFault::NoMemory
    }
}

/// Signs for one member.
pub trait Signer {
    ghost use Rattle.std.specs.Prelude.{◌≡◌, ℕ, List, Option, Result};
    ghost use Rattle.ord_types.specs.declared.values.Sig.{Sig};
    ghost use Rattle.signer_edge.specs.Accepts.{Accepts};
    ghost use Rattle.signer_edge.specs.Signing.{
      HasSignCause,
      IfSigned,
      KeepsAccepted,
      OnNoMemory,
      signed_after,
    };
    ghost use Rattle.signer_edge.specs.declared.signing.SignFault.{SignFault};

    /// The member that it signs for.
    ghost id_of: { Self → ℕ };

    /// The statements signed so far, in order, where they are told.
    ghost signed: { Self → Option (List (List ℕ)) };

    /// How many calls failed so far. It stops at the last value of a u64.
    ghost faults: { Self → ℕ };

    /// Which signatures are accepted for their signer and the statement.
    ghost honours: { Self → Accepts };

    /// What a call may answer and leave: all that this kind of signer says of it.
    ghost sign_gives: { Self → List ℕ → Result Sig SignFault → Self → Type 0 };

    /// The member that it signs for.
    fn id(&self) -> u32
        ensures { result ≡ id_of self.now };

    /// Signs a statement. Where no memory is found, nothing changes.
    fn sign(&mut self, statement: &[u8]) -> Result<Sig, SignFault>
        ensures id { id_of self.new ≡ id_of self.old }
        ensures signature { IfSigned result (id_of self.old) (honours self.new) statement.now }
        ensures honoured { KeepsAccepted (honours self.old) (honours self.new) }
        ensures told { signed self.new ≡ signed_after result (signed self.old) statement.now }
        ensures cause { HasSignCause (faults self.old) (faults self.new) result }
        ensures no_memory { OnNoMemory result (self.new ≡ self.old) }
        ensures gives { sign_gives self.old statement.now result self.new };
}

/// Checks signatures.
pub trait Verifier {
    /// Which signatures are accepted for their signer and the statement.
    ghost accepts: { Self → Accepts };

    /// Whether the signature is accepted for its signer and the statement.
    fn verify(&self, statement: &[u8], sig: &Sig) -> bool
        ensures { result ≡ accepts self.now statement.now sig.now };
}
