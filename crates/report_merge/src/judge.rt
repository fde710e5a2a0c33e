//! Which ids of pieces are refused.

ghost use Rattle.std.specs.Prelude.{◌≡◌, ℕ, ◌<◌, ◌≤◌, length, IfOk, IfErr, OnOk, None, MatchOption, slice_index_or, true, false, vec_len};
ghost use Rattle.report_merge.specs.Seen.{double, is_among, IsRefused};
ghost use Rattle.report_merge.specs.Refusal.{unknown_id, IsRefusal, IsWhole};

use line_model::fault::Fault;
use std::alloc::Allocator;

/// Returns the first id that is not of the plan.
pub fn first_unknown_id(ids: &[u32], pieces: u32) -> Option<u32>
    ensures { result ≡ unknown_id pieces ids.now }
{
    for id in ids {
        if *id >= pieces {
            return Some(*id);
        }
    }
    None
}

/// Returns a flag for each id, set where it occurs. Fails when an id occurs twice, or when memory is refused.
fn seen_ids<A: Allocator>(alloc: A, ids: &[u32], pieces: u32) -> Result<Vec<bool, A>, Fault>
    requires known { unknown_id pieces ids.now ≡ None }
    ensures seen { IfOk result (λ v. (k : ℕ) → slice_index_or v.items k false
        ≡ is_among k ids.now) }
    ensures len { IfOk result (λ v. vec_len v ≡ pieces) }
    ensures once { OnOk result (double ids.now ≡ None) }
    ensures refused { IfErr result (λ f. IsRefused f (double ids.now)) }
{
    let mut seen = vec![in alloc; false; pieces as usize]?;
    for id in ids {
        let place = *id as usize;
        if seen[place] {
            return Err(Fault::Double(*id));
        }
        seen[place] = true;
    }
    Ok(seen)
}

/// Returns the least id whose flag is not set.
fn first_unmarked(seen: &[bool]) -> Option<usize>
    ensures { MatchOption result
        ((k : ℕ) → k < length seen.now → slice_index_or seen.now k false ≡ true)
        (λ i. (i < length seen.now) × (slice_index_or seen.now i false ≡ false)
        × ((k : ℕ) → k < i → slice_index_or seen.now k false ≡ true)) }
{
    for (place, seen) in seen.iter().enumerate() {
        if !*seen {
            return Some(place);
        }
    }
    None
}

/// Checks that each id below `pieces` occurs once. Fails with the first that occurs twice, otherwise with the least
/// absent one, or when memory is refused.
pub fn judge<A: Allocator>(alloc: A, ids: &[u32], pieces: u32) -> Result<(), Fault>
    requires known { unknown_id pieces ids.now ≡ None }
    ensures whole { OnOk result (IsWhole pieces ids.now) }
    ensures refused { IfErr result (λ f. IsRefusal f pieces ids.now) }
{
    let seen = seen_ids(alloc, ids, pieces)?;
    match first_unmarked(seen.as_slice()) {
        Some(id) => Err(Fault::Missing(id as u32)),
        None => Ok(()),
    }
}
