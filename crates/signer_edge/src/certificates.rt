ghost use Rattle.std.specs.Prelude.{◌≡◌, ◌≤◌, ◌↔◌, ◌==◌, ℕ, length, map, is_ok, IsOk};
ghost use Rattle.std.specs.Result.{result_err};
ghost use Rattle.std.specs.List.{list_any};
ghost use Rattle.ord_types.specs.declared.values.Sig.{Sig};
ghost use Rattle.ord_types.specs.Members.{how_many_in};
ghost use Rattle.signer_edge.specs.Certificates.{
  IsCertificate,
  cert_refusal,
  is_good_cert,
  sigs_refusal,
  signers_in,
};

use crate::signing::Verifier;
use crate::statements::commit_statement;
use ord_types::{Cert, Config, Digest, List, Sig, quorum};

/// Why a certificate proves nothing.
#[derive(Clone, Copy, Debug, PartialEq, Eq)]
pub enum CertRefusal {
    /// A signer that isn't a member.
    Stranger(u32),
    /// The signer of a signature that isn't accepted.
    Bad(u32),
    /// How many members signed, and how many make a quorum.
    Few(u32, u32),
}

/// Whether the certificate proves the block of this number and hash under the configuration: every
/// signer is a member, every signature is accepted, and at least a quorum of members signed. The
/// refusal is the first that holds, by the order of the signatures.
pub fn check_cert<V: Verifier>(
    config: &Config,
    number: u64,
    hash: &Digest,
    cert: &Cert,
    verifier: &V,
) -> Result<(), CertRefusal>
    requires some { 1 ≤ length config.now.members }
    requires few { length config.now.members ≤ 31 }
    ensures refusal { let accepts = V.accepts verifier.now in
        result_err result ≡ cert_refusal accepts config.now number hash.now cert.now }
    ensures proves { let accepts = V.accepts verifier.now in
        IsOk result ↔ IsCertificate accepts config.now number hash.now cert.now }
    ensures good { let accepts = V.accepts verifier.now in
        is_ok result ≡ is_good_cert accepts config.now number hash.now cert.now }
{
    let statement = commit_statement(config.number, cert.view, number, hash);
    check_sigs(&config.members, &statement, &cert.sigs, verifier)?;
    let count = count_signers(&config.members, &cert.sigs);
    let enough = quorum(config.members.len() as u32);
    if count < enough {
        return Err(CertRefusal::Few(count, enough));
    }
    Ok(())
}

/// Whether each signature is a member's and accepted on the statement.
fn check_sigs<V: Verifier>(
    members: &List<u32>,
    statement: &[u8],
    sigs: &List<Sig>,
    verifier: &V,
) -> Result<(), CertRefusal>
    ensures { let accepts = V.accepts verifier.now in
        result_err result ≡ sigs_refusal accepts members.now statement.now sigs.now }
{
    for sig in sigs.as_slice() {
        if !members.as_slice().contains(&sig.signer) {
            return Err(CertRefusal::Stranger(sig.signer));
        }
        if !verifier.verify(statement, sig) {
            return Err(CertRefusal::Bad(sig.signer));
        }
    }
    Ok(())
}

/// How many members signed.
fn count_signers(members: &List<u32>, sigs: &List<Sig>) -> u32
    requires { length members.now ≤ 31 }
    ensures { result ≡ how_many_in (signers_in sigs.now) members.now }
{
    let mut count = 0;
    for member in members.as_slice() {
        if has_signed(sigs, *member) {
            count += 1;
        }
    }
    count
}

/// Whether one of the signatures is this signer's.
fn has_signed(sigs: &List<Sig>, signer: u32) -> bool
    ensures { result ≡ list_any (λ (sig : Sig). sig.signer == signer) sigs.now }
{
    sigs.as_slice().iter().any(|sig| sig.signer == signer)
}
