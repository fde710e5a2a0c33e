//! Theorems about the shared work after every schedule of its steps, about the definitions alone.

ghost use Rattle.std.specs.Prelude.{◌≡◌, ℕ, List, length, map};
ghost use Rattle.line_model.specs.declared.interface.Interface.{Interface};
ghost use Rattle.line_model.specs.basics.Bounds.{AreSaid};
ghost use Rattle.line_model.specs.basics.Records.{Item};
ghost use Rattle.line_model.specs.pieces.Plans.{plan, result_of, channel_totals};
ghost use Rattle.line_model.specs.work.Book.{totals_of};
ghost use Rattle.line_model.specs.work.Work.{Move, WorkState, at_start, Leads, Always, IsPrefixOf, OccursOnce, IsSettled, AllPosted};

/// In every order of the steps of all threads, the pieces fed are the first ones of the plan, and each of them is once
/// in the queue, or held by one worker, or posted. Where all workers have their end and hold nothing, all of them were
/// posted; where these are the whole plan of a trace, the totals of the posts are the observer's.
pub fn schedule()
    ensures prefix { Always (λ pieces s. IsPrefixOf pieces s.fed) }
    ensures once { Always (λ pieces s. OccursOnce s) }
    ensures posted { Always (λ pieces s. IsSettled s → AllPosted s) }
    ensures totals { Always (λ pieces s. IsSettled s → length s.fed ≡ length pieces
        → totals_of s.posts ≡ totals_of (map result_of pieces)) }
    ensures observer { (i : Interface) (rs : List Item) (capacity : ℕ) (moves : List Move) (s : WorkState) → AreSaid i rs
        → Leads (plan i rs) capacity moves at_start s → IsSettled s → length s.fed ≡ length (plan i rs) → totals_of s.posts ≡ channel_totals i rs }
{}
