//! Theorems about the definitions alone.

ghost use Rattle.annotated_trace.specs.Laws.{MarksLaw, ReportLaw};

/// The annotation of a trace is a trace with the same rows, and so with the same report. Its marks are those of the
/// findings of this report.
pub fn same_report()
    ensures report { ReportLaw }
    ensures marks { MarksLaw }
{}
