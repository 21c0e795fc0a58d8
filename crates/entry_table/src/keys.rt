//! The keys of kept results.
ghost use Rattle.std.specs.Prelude.{◌≡◌, ◌++◌, IfOk, OnOk, map};
ghost use Rattle.std.specs.List.{AllByRecursion};
ghost use Rattle.plan_core.specs.PlainPlan.{plan_of};
ghost use Rattle.plan_spelling.specs.Spelling.{HasPlanSpelling};
ghost use Rattle.entry_table.specs.Keyed.{Digests, chain_at, chains_at, keys_at, keys_of};

use catalog_types::NewEntry;
use fingerprints::{data_key, program_key};
use plan_core::Plan;
use rows_core::{Cut, Digest, Memory};
use std::alloc::Global;

/// What a kept result is looked up by.
#[derive(Clone, Copy, PartialEq, Eq)]
pub struct Keys {
    /// The digest of the plan's spelling.
    pub program: Digest,
    /// The digest of the plan over its data.
    pub key: Digest,
}

/// What tells the chains of streams.
pub trait Chains {
    // Of each stream the digests of its extents, in the order of appending.
    ghost digests: { Self → Digests };

    /// The chain of a stream's first extents, as many as `count`; of all of them where it has fewer. It takes
    /// no memory.
    fn chain(&self, stream: u32, count: u32) -> Digest
        ensures { result ≡ chain_at (digests self.now) stream count };
}

impl Keys {
    /// The keys of a plan and its cut.
    pub fn of<C: Chains>(
        alloc: Global,
        chains: &C,
        plan: &Plan,
        cuts: &[Cut],
    ) -> Result<Keys, Memory>
        requires { HasPlanSpelling (plan_of plan.now) }
        ensures { IfOk result
            (λ keys. keys ≡ keys_at (C.digests chains.now) (plan_of plan.now) cuts.now) }
    {
        let program = program_key(alloc, plan)?;
        let leaves = plan.leaves(alloc)?;
        let mut found = Vec::new(alloc);
        put_chains(chains, &leaves, cuts, &mut found)?;
        Ok(Keys {
            program,
            key: data_key(&program, &found),
        })
    }

    /// The keys of new results, in their order.
    pub fn of_each<C: Chains>(
        alloc: Global,
        chains: &C,
        kept: &[NewEntry],
    ) -> Result<Vec<Keys>, Memory>
        requires { AllByRecursion (λ new. HasPlanSpelling new.plan) kept.now }
        ensures { IfOk result (λ keys. keys.items ≡ map (keys_of (C.digests chains.now)) kept.now) }
    {
        let mut keys = Vec::with_capacity(alloc, kept.len())?;
        for new in kept {
            keys.push(Keys::of(alloc, chains, &new.plan, new.cuts.items())?)?;
        }
        Ok(keys)
    }
}

// Puts the chains at the ends of each leaf's cut behind the others.
fn put_chains<C: Chains>(
    chains: &C,
    leaves: &[u32],
    cuts: &[Cut],
    found: &mut Vec<Digest>,
) -> Result<(), Memory>
    ensures { OnOk result (found.new.items
        ≡ found.old.items ++ chains_at (C.digests chains.now) leaves.now cuts.now) }
{
    let [leaf, leaves @ ..] = leaves else {
        return Ok(());
    };
    let [cut, cuts @ ..] = cuts else {
        return Ok(());
    };
    found.push(chains.chain(*leaf, cut.from))?;
    found.push(chains.chain(*leaf, cut.to))?;
    put_chains(chains, leaves, cuts, found)
}
