//! Putting an output on the shelf, and its record into the registry.

ghost use Rattle.std.specs.Prelude.{◌≡◌, [], ◌∷◌, ◌++◌, ℕ, List, IfOk, IfErr, OnErr, OnOk};
ghost use Rattle.lsm_shelf.specs.Told.{Becomes, putting};
ghost use Rattle.lsm_codec.specs.Entries.{Entry};
ghost use Rattle.lsm_table.specs.TableBuilding.{table_bytes};
ghost use Rattle.lsm_table.specs.declared.table_options.TableOptions.{TableOptions};
ghost use Rattle.lsm_merge.specs.Causes.{AnswersOf, HasCause, Leaves, NamesRefused};
ghost use Rattle.lsm_merge.specs.Limits.{IsOverLimit, IsSizeFault};
ghost use Rattle.lsm_merge.specs.Outputs.{IsPut, PutsMore, PutsTables, going};
ghost use Rattle.lsm_merge.specs.PutBefore.{PutsOne, PutsPerhaps};

use crate::merge_fault::MergeFault;
use crate::output::Output;
use lsm_table::{NamedShelf, Naming, Registry, Shelf, TableImage, TableRef, entries_are};
use lsm_version::tables_are_whole;
use std::alloc::Global;
use std::sync::Wait;

/// Puts a table that was built under a number, and then its record into the registry. The memory
/// for the number is there before the table is put, and the number stands among those put before
/// the record may be refused.
#[tactic(auto, using(crate::proofs::Refused::refused_put))]
pub(crate) fn put_image<N: Naming, S: Shelf, R: Wait>(
    rt: &R,
    alloc: Global,
    shelf: &mut NamedShelf<N, S>,
    registry: &Registry<N, S>,
    image: TableImage,
    number: u64,
    put: &mut Vec<u64>,
) -> Result<TableRef<N, S>, MergeFault>
    ensures number { IfOk result (λ t. t.number ≡ number) }
    ensures smallest { IfOk result (λ t. t.smallest ≡ image.smallest) }
    ensures largest { IfOk result (λ t. t.largest ≡ image.largest) }
    ensures image { IfOk result (λ t. t.image ≡ image.bytes) }
    ensures put { OnOk result (put.new.items ≡ put.old.items ++ number ∷ []) }
    ensures told { PutsMore put.old.items put.new.items shelf.old shelf.new }
    ensures puts { OnOk result (Becomes (putting number image.bytes shelf.old) shelf.new) }
    ensures leaves { IfErr result (λ e. (there : List ℕ)
        → Leaves e put.new.items (number ∷ going put.old.items there) there) }
    ensures cause { IfErr result (λ e. HasCause [] e shelf.old shelf.new) }
    ensures why { IfErr result (λ e. (answers : List ℕ) → AnswersOf e answers answers) }
    ensures built { IfErr result (λ e. IsSizeFault e → ⊥) }
    ensures refused { (options : TableOptions) (es : List Entry)
        → image.bytes ≡ table_bytes options es
        → IfErr result (NamesRefused (S.refuses N.place) options) }
    ensures stands { OnErr result (PutsPerhaps number image.bytes put.old.items put.new.items
        shelf.old shelf.new) }
{
    put.reserve(1)?;
    let record = match image.put_alone(rt, alloc, shelf, number) {
        Ok(record) => record,
        Err(fault) => return Err(MergeFault::of_put(number, fault)),
    };
    match put.push(number) {
        Ok(()) => {}
        Err(_full) => unreachable!(),
    }
    match registry.push(rt, record) {
        Ok(table) => Ok(table),
        Err(_record) => Err(MergeFault::OutOfMemory),
    }
}

/// Puts the table of an output: its number then stands among those put, and it among the tables.
#[tactic(auto, using(crate::proofs::PutLaws::puts_none, crate::proofs::Refused::refused_build))]
pub(crate) fn put_output<N: Naming, S: Shelf, R: Wait>(
    rt: &R,
    alloc: Global,
    shelf: &mut NamedShelf<N, S>,
    registry: &Registry<N, S>,
    output: Output,
    tables: &mut Vec<TableRef<N, S>>,
    put: &mut Vec<u64>,
) -> Result<(), MergeFault>
    ensures ok { OnOk result
        (IsPut output tables.old.items tables.new.items put.old.items put.new.items) }
    ensures told { PutsMore put.old.items put.new.items shelf.old shelf.new }
    ensures tables { OnOk result
        (PutsTables tables.old.items tables.new.items shelf.old shelf.new) }
    ensures leaves { IfErr result (λ e. (there : List ℕ)
        → Leaves e put.new.items (output.number ∷ going put.old.items there) there) }
    ensures cause { IfErr result (λ e. HasCause [] e shelf.old shelf.new) }
    ensures why { IfErr result (λ e. (answers : List ℕ) → AnswersOf e answers answers) }
    ensures large { IfErr result (λ e. IsSizeFault e → IsOverLimit output.options output.entries) }
    ensures refused { IfErr result (NamesRefused (S.refuses N.place) output.options) }
    ensures stands { OnErr result (PutsOne output.options output.entries (Unit {0})
        put.old.items put.new.items shelf.old shelf.new) }
{
    tables_are_whole();
    entries_are();
    let number = output.number();
    tables.reserve(1)?;
    let image = match output.finish(alloc) {
        Ok(image) => image,
        Err(fault) => return Err(MergeFault::of_build(number, fault)),
    };
    let table = put_image(rt, alloc, shelf, registry, image, number, put)?;
    match tables.push(table) {
        Ok(()) => Ok(()),
        Err(_full) => unreachable!(),
    }
}
