//! Values that vouch for the reports of a book.
ghost use Rattle.std.specs.Prelude.{◌≡◌};
ghost use Rattle.line_model.specs.basics.Records as records;

/// Vouches for the reports that it knows of.
pub trait Voucher {
    ghost use Rattle.line_model.specs.basics.Records as records;

    /// It vouches for this report.
    ghost vouches: { Self → records.PieceReport → Type 0 };

    /// Adds what another one knows.
    fn learn(&mut self, other: Self)
        ensures kept { (r : records.PieceReport) → vouches self.old r → vouches self.new r }
        ensures learned { (r : records.PieceReport) → vouches other r → vouches self.new r };
}

/// Vouches for any report, so nothing follows from it.
#[derive(Drop)]
pub struct AnyReport;

impl Voucher for AnyReport {
    ghost vouches = { λ w r. Unit {0} };

    fn learn(&mut self, _other: AnyReport) {}
}
