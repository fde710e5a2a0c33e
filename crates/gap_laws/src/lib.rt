//! Laws of recordings with gaps, over the definitions alone.
#![tactic(auto)]

ghost use Rattle.gap_laws.specs.Thinned.{BoundLaw, CountingLaw, JoinedLaw, RestartedLaw, SameEventsLaw, ThinningLaw, ThinsAgain};

/// Nobody is accused by what was not recorded, also where the recording begins in the middle.
pub fn accuses_nobody()
    ensures law { ThinningLaw }
    ensures joined { JoinedLaw }
    ensures whole { RestartedLaw }
{}

/// What is thinned twice is thinned, so a recording that had gaps before is one of the law's too.
pub fn thins_again()
    ensures { ThinsAgain }
{}

/// What was recorded counts: no call and no data packet that was not sent, and each at most once. In data transfer on
/// permanent virtual circuits a recording with gaps says nothing that the whole one doesn't say. A channel of which nothing
/// is missing has the events of the whole walk, so its calls have the same records.
pub fn counts_what_was_recorded()
    ensures sent { BoundLaw }
    ensures in_data_transfer { CountingLaw }
    ensures without_a_gap { SameEventsLaw }
{}
