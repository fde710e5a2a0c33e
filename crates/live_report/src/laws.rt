//! Theorems about the definitions alone.

ghost use Rattle.live_report.specs.Laws.{GrowthLaw, ReportLaw};

/// The findings of a text come first in those of each text that goes on from it, and in the report of each such text
/// without a fault.
pub fn found_first()
    ensures growth { GrowthLaw }
    ensures report { ReportLaw }
{}
