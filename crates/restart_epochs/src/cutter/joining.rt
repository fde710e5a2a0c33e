//! A cutter reads rows that were cut apart from those before them.

ghost use Rattle.std.specs.Prelude.{◌≡◌, List, IfErr, IfOk};
ghost use Rattle.line_model.specs.basics.Records as records;
ghost use Rattle.line_model.specs.declared.fault.Fault.TheVariants.{Memory};
ghost use Rattle.line_model.specs.declared.interface.Interface.{Interface as AnyInterface};
ghost use Rattle.restart_epochs.specs.Cutting.{Represents};
ghost use Rattle.restart_epochs.specs.BlockCuts.{HasTakenAll, MayCome};
ghost use Rattle.restart_epochs.specs.BlockStates.{IsBlockCut};

use crate::block_cut::BlockCut;
use crate::cutter::Cutter;
use crate::kept_rows::keep_parts;
use crate::parts::gap_joined;
use crate::restart::Restart;
use line_model::fault::Fault;
use line_model::piece::Piece;
use std::alloc::Allocator;

impl<A: Allocator + Copy> Cutter<A> {
    /// Returns the restart machine after the rows that were read.
    pub fn machine(&self) -> Restart
        ensures { result ≡ self.now.level }
    {
        self.walk.machine
    }

    /// Reads the next rows, which were cut as the cutter's restart machine routes them, and appends the pieces that are
    /// complete with them. No row is copied. Fails only when memory is refused, and no cutter is left then.
    pub fn join(self, block: BlockCut<A>, out: &mut Vec<Piece<A>, A>) -> Result<Self, Fault>
        requires next { (i : AnyInterface) × (rows : List records.Item) × (items : List records.Item)
            × Represents i rows self × IsBlockCut self.level items block × MayCome self items }
        ensures taken { (items : List records.Item) → IsBlockCut self.level items block
            → MayCome self items → IfOk result (λ cutter. HasTakenAll items self cutter out.old.items out.new.items) }
        ensures memory { IfErr result (λ fault. fault ≡ Memory) }
    {
        let Cutter {
            mut walk,
            mut pieces,
            last,
            octets,
        } = self;
        let last = block.last_after(last);
        let BlockCut {
            walk: later,
            ended,
            tail,
            gap,
            octets: more,
            ..
        } = block;
        pieces.end_epochs(&walk, ended, out)?;
        keep_parts(
            *walk.findings.allocator(),
            pieces.gap,
            tail,
            &mut pieces.rows,
        )?;
        pieces.gap = gap_joined(pieces.gap, gap);
        walk.join(later)?;
        Ok(Cutter {
            walk,
            pieces,
            last,
            octets: octets + more,
        })
    }
}
