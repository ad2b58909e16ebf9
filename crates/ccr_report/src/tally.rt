//! How often each number stands in a list.

ghost use Rattle.std.specs.Prelude.{◌≡◌, ◌<◌, ◌==◌, ◌+◌, ◌-◌, ◌^◌, ℕ, IfOk, length, slice_index, if◌then◌else◌};
ghost use Rattle.ccr_wiring.specs.Spots.{times};

use ccr_base::OutOfMemory;
use std::alloc::Global;

/// How often each number below the size stands in the list.
pub fn tally(alloc: Global, size: usize, numbers: &[u32]) -> Result<Vec<u64>, OutOfMemory>
    ensures len { IfOk result (λ counts. length counts.items ≡ size) }
    ensures counts { IfOk result (λ counts. (k : ℕ) → k < size → slice_index counts.items k ≡ times k numbers.now) }
{
    let mut counts = Vec::from_elem(alloc, 0u64, size)?;
    for number in numbers {
        count_one(&mut counts, *number as usize);
    }
    Ok(counts)
}

fn count_one(counts: &mut [u64], index: usize)
    requires { (k : ℕ) → k < length counts.old → slice_index counts.old k < 2 ^ 64 - 1 }
    ensures { (k : ℕ) → k < length counts.old → slice_index counts.new k ≡ slice_index counts.old k + (if index == k then 1 else 0) }
{
    if index < counts.len() {
        counts[index] += 1;
    }
}
