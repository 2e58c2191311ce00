// The order of bursts in a plan.
ghost use Rattle.std.specs.Prelude.{◌≡◌, ℕ, ◌<◌, length, All, AllPairs, IfOk};
ghost use Rattle.std.specs.List.Sorted.{IsPermutation};
ghost use Rattle.bt_demand.specs.Burst.{IsNotAfter};
ghost use Rattle.bt_cut.specs.Bucket.{bucket_of, all_of, IsBucket};

use bt_demand::Burst;
use bt_frame::OutOfMemory;
use std::alloc::Global;

/// The bursts are put in order in so many parts, by the slots in which they begin.
const BUCKETS: u32 = 256;

/// The same bursts in order of their start, and where that is the same, of the terminals that send and receive.
///
/// Bursts that begin in different 16 slots are never compared.
pub(crate) fn in_order(alloc: Global, bursts: Vec<Burst>) -> Result<Vec<Burst>, OutOfMemory>
    ensures moved { IfOk result (λ ordered. IsPermutation bursts.items ordered.items) }
    ensures ordered { IfOk result (λ ordered. AllPairs IsNotAfter ordered.items) }
{
    let all = bursts.as_slice();
    let buckets = in_buckets(alloc, all)?;
    let mut ordered = Vec::with_capacity(alloc, all.len())?;
    for bucket in buckets.as_slice() {
        let part = sorted(alloc, bucket.as_slice())?;
        ordered.extend_from_slice(part.as_slice())?;
    }
    Ok(ordered)
}

/// The bucket of bursts that begin in a slot: one for each 16 slots, the last for all that are left.
fn bucket_of(start: u32) -> usize
    ensures is { result ≡ bucket_of start }
    ensures few { result < BUCKETS }
{
    (start / 16).min(BUCKETS - 1) as usize
}

/// The same bursts, each in its bucket.
fn in_buckets(alloc: Global, bursts: &[Burst]) -> Result<Vec<Vec<Burst>>, OutOfMemory>
    ensures moved { IfOk result (λ buckets. IsPermutation bursts.now (all_of buckets.items)) }
    ensures each { IfOk result (λ buckets. (k : ℕ) → k < length buckets.items → IsBucket buckets.items k) }
{
    let mut buckets = no_buckets(alloc)?;
    for burst in bursts {
        buckets[bucket_of(burst.start)].push(*burst)?;
    }
    Ok(buckets)
}

/// Buckets without bursts.
fn no_buckets(alloc: Global) -> Result<Vec<Vec<Burst>>, OutOfMemory>
    ensures count { IfOk result (λ buckets. length buckets.items ≡ BUCKETS) }
    ensures none { IfOk result (λ buckets. All (λ bucket. length bucket.items ≡ 0) buckets.items) }
{
    let mut buckets = Vec::with_capacity(alloc, BUCKETS as usize)?;
    for _ in 0..BUCKETS {
        buckets.push(Vec::new(alloc))?;
    }
    Ok(buckets)
}

/// The same bursts, sorted.
fn sorted(alloc: Global, bursts: &[Burst]) -> Result<Vec<Burst>, OutOfMemory>
    ensures moved { IfOk result (λ sorted. IsPermutation bursts.now sorted.items) }
    ensures ordered { IfOk result (λ sorted. AllPairs IsNotAfter sorted.items) }
{
    let mut sorted = Vec::from_slice(alloc, bursts)?;
    sorted.sort_unstable_by_key(|burst| burst.key());
    Ok(sorted)
}
