//! Blocks, as a cache gives them.

ghost use Rattle.std.specs.Prelude.{◌≡◌, List, Result, Ok, IfErr};
ghost use Rattle.std.specs.Arc.{arc_value};
ghost use Rattle.lsm_codec.specs.Entries.{Entry};
ghost use Rattle.lsm_block.specs.Held.{HeldBlock};
ghost use Rattle.lsm_shelf.specs.Told.{Told};
ghost use Rattle.lsm_table.specs.ReadFault.{ReadCounted, out_of_memory};
ghost use Rattle.lsm_table.specs.declared.table_fault.TableFault.{TableFault};
ghost use Rattle.lsm_reader.specs.Blocks.{Reads};

use lsm_block::Block;
use lsm_table::ReadFault;
use std::sync::Arc;

/// One owner more of a block. `OutOfMemory` where it has as many as can be counted.
pub(crate) fn share(block: &Arc<Block>) -> Result<Arc<Block>, ReadFault>
    ensures exact { (read : Result (List Entry) TableFault)
        → read ≡ Ok (arc_value {X = HeldBlock} block.now).entries
        → Reads (λ b. (arc_value {X = HeldBlock} b).entries) result read }
    ensures cause { (old : Told) (new : Told) → IfErr result (λ e. ReadCounted e old new) }
    ensures memory { IfErr result (λ e. e ≡ out_of_memory) }
{
    Ok(Arc::try_clone(block)?)
}
