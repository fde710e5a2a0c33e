//! Room for one more post, and its ids.
ghost use Rattle.std.specs.Prelude.{◌≡◌, ℕ, ◌<◌, ◌≤◌, true, false, take, OnOk, OnErr, IfErr, IfSome, IfNone, length, vec_len, vec_capacity};
ghost use Rattle.line_model.specs.work.Book.{times};
ghost use Rattle.shared_work.specs.findings.Sums.{once_known, AreFew, HasNoted, IsNoteRefusal};

use crate::findings::known_ids::KnownIds;
use line_model::fault::Fault;
use std::alloc::Allocator;

/// The first of some ids that is known.
fn first_known<A: Allocator>(known: &KnownIds<A>, ids: &[u32]) -> Option<u32>
    ensures some { IfSome result (λ id. IsNoteRefusal (Fault.Double id) known.now ids.now) }
    ensures none { IfNone result (IsNoteRefusal Fault.Memory known.now ids.now) }
    ensures few { AreFew ids.now }
{
    for id in ids {
        if known.contains(*id) {
            return Some(*id);
        }
    }
    None
}

/// Inserts ids up to the first that can't be inserted. Where there is one, returns how many were inserted, and the
/// fault.
fn note_each<A: Allocator + Clone>(
    known: &mut KnownIds<A>,
    ids: &[u32],
) -> Result<(), (usize, Fault)>
    requires unknown { IsNoteRefusal Fault.Memory known.old ids.now }
    ensures noted { OnOk result (HasNoted known.old ids.now known.new) }
    ensures some { IfErr result (λ e. (e.0 ≤ length ids.now) × HasNoted known.old (take e.0 ids.now) known.new) }
    ensures refused { IfErr result (λ e. IsNoteRefusal e.1 known.old ids.now) }
{
    for (index, id) in ids.iter().enumerate() {
        match known.insert(*id) {
            Ok(true) => {}
            Ok(false) => return Err((index, Fault::Double(*id))),
            Err(_) => return Err((index, Fault::Memory)),
        }
    }
    Ok(())
}

/// Removes ids, each of which is known.
fn forget<A: Allocator>(known: &mut KnownIds<A>, ids: &[u32])
    requires known { (x : ℕ) → times x ids.now ≤ once_known known.old x }
    ensures { HasNoted known.new ids.now known.old }
{
    for id in ids {
        known.remove(*id);
    }
}

/// Makes room for a post with these ids, and inserts them. Fails where one of them is known or occurs twice, or when
/// memory is refused; the known ids are the same then.
pub fn make_room<T, A: Allocator + Clone>(
    posts: &mut Vec<T, A>,
    known: &mut KnownIds<A>,
    ids: &[u32],
) -> Result<(), Fault>
    ensures same { posts.new.items ≡ posts.old.items }
    ensures few { AreFew ids.now }
    ensures room { OnOk result (vec_len posts.new < vec_capacity posts.new) }
    ensures noted { OnOk result (HasNoted known.old ids.now known.new) }
    ensures kept { OnErr result ((x : ℕ) → once_known known.new x ≡ once_known known.old x) }
    ensures refused { IfErr result (λ f. IsNoteRefusal f known.old ids.now) }
{
    if let Some(id) = first_known(known, ids) {
        return Err(Fault::Double(id));
    }
    let Ok(()) = posts.reserve(1) else {
        return Err(Fault::Memory);
    };
    match note_each(known, ids) {
        Ok(()) => Ok(()),
        Err((count, fault)) => {
            let (noted, _) = ids.split_at(count);
            forget(known, noted);
            Err(fault)
        }
    }
}
