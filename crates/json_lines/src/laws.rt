//! Theorems about the definitions alone.

ghost use Rattle.std.specs.Prelude.{◌≡◌, ◌<◌, [], ◌∷◌, ◌++◌, ℕ, List, flat_map, length};
ghost use Rattle.std.specs.List.{AllByRecursion};
ghost use Rattle.line_model.specs.basics.Records.{Report};
ghost use Rattle.line_model.specs.observer.Report.{line, text_of};
ghost use Rattle.line_model.specs.text.Text.{ended_lines};
ghost use Rattle.json_lines.specs.Cuts.{IsLine};
ghost use Rattle.json_lines.specs.Json.{json_text, line_room, object_of};
ghost use Rattle.json_lines.specs.Reports.{IsHeld, IsKnown, report_words};

/// The objects of a text come first among those of each text that goes on from it. So a sink that took a first part of
/// the objects of a part of a report took a first part of those of the report.
pub fn first_part()
    ensures { (text more : List ℕ) → (rest : List ℕ)
        × (json_text (text ++ more) ≡ json_text text ++ rest) }
{}

/// The line of some words becomes the object of these words.
pub fn object_of_line()
    ensures { (words : List (List ℕ)) → IsLine words → json_text (line words) ≡ object_of words }
{}

/// Lines of words, one after the other, become the objects of these words in the same order. The text of a report is
/// such lines.
pub fn objects_of_lines()
    ensures { (lines : List (List (List ℕ))) → AllByRecursion IsLine lines
        → json_text (flat_map line lines) ≡ flat_map object_of lines }
{}

/// The objects of lines are in the order of the lines.
pub fn line_by_line()
    ensures { (text more : List ℕ) → json_text (text ++ 10 ∷ more) ≡ json_text (text ++ 10 ∷ [])
        ++ json_text more }
{}

/// No line of a report has 256 octets, and each begins with a letter of the table. So each becomes the object of its
/// words, and none becomes that of an unknown line.
pub fn objects_of_report()
    ensures short { (r : Report) → IsHeld r
        → AllByRecursion (λ l. length l < line_room) (ended_lines (text_of r)) }
    ensures objects { (r : Report) → IsHeld r
        → json_text (text_of r) ≡ flat_map object_of (report_words r) }
    ensures known { (r : Report) → AllByRecursion IsKnown (report_words r) }
{}
