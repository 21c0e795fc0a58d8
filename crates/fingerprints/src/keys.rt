//! Keys and chains, each a SHA-256 digest (FIPS 180-4).
ghost use Rattle.std.specs.Prelude.{◌≡◌, IfOk};
ghost use Rattle.plan_core.specs.PlainPlan.{plan_of};
ghost use Rattle.plan_spelling.specs.Spelling.{HasPlanSpelling};
ghost use Rattle.fingerprints.specs.Keys.{program_key, data_key, chain, chain_start};

use plan_core::Plan;
use plan_spelling::spell;
use rows_core::{Digest, Memory};
use sha2::{Digest as Hasher, Sha256};
use std::alloc::Global;

/// The digest of the plan's spelling.
pub fn program_key(alloc: Global, plan: &Plan) -> Result<Digest, Memory>
    requires { HasPlanSpelling (plan_of plan.now) }
    ensures { IfOk result (λ key. key ≡ program_key (plan_of plan.now)) }
{
    let bytes = spell(alloc, plan)?;
    Ok(Digest {
        bytes: Sha256::digest(&bytes),
    })
}

/// The digest of a program key followed by chains: of each leaf of the plan the chain at the beginning of its
/// cut, and then the one at its end. It takes no memory.
pub fn data_key(program: &Digest, chains: &[Digest]) -> Digest
    ensures { result ≡ data_key program.now chains.now }
{
    let mut hasher = Sha256::new();
    hasher.update(&program.bytes);
    for chain in chains {
        hasher.update(&chain.bytes);
    }
    Digest {
        bytes: hasher.finalize(),
    }
}

/// The chain of a stream with one extent more: the digest of the chain before it followed by the digest of
/// this extent. It takes no memory.
pub fn chain(before: &Digest, extent: &Digest) -> Digest
    ensures { result ≡ chain before.now extent.now }
{
    let mut hasher = Sha256::new();
    hasher.update(&before.bytes);
    hasher.update(&extent.bytes);
    Digest {
        bytes: hasher.finalize(),
    }
}

/// The chain of a stream without extents: the digest of no bytes. It takes no memory.
pub fn chain_start() -> Digest
    ensures { result ≡ chain_start }
{
    Digest {
        bytes: Sha256::digest(b""),
    }
}
