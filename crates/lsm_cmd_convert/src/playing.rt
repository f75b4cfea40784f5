//! Commands on a new database.

pub(crate) mod program;
pub(crate) mod script_input;
pub(crate) mod watched;

ghost use Rattle.std.specs.Prelude.{◌≡◌, ◌⊎◌, IfErr, IfOk};
ghost use Rattle.lsm_journal.specs.Sending.{IsCreateRefusal};
ghost use Rattle.lsm_shelf.specs.Told.{Told};
ghost use Rattle.lsm_shelf.specs.declared.shelf_fault.ShelfFault.{ShelfFault};
ghost use Rattle.lsm_cmd_convert.specs.Played.{ArePlayed, ArePlayedInMemory, IsUncreatedInMemory};
ghost use Rattle.lsm_opening.specs.Parts.{AreOf, plain};
ghost use Rattle.lsm_opening.specs.WriterFault.{of_shelf};
ghost use Rattle.lsm_opening.specs.declared.faults.writer_fault.WriterFault.TheVariants.{OutOfMemory};

use lsm_codec::List;
use lsm_opening::{NewParts, WriterFault, begin_with};
use lsm_script::{Command, Reply, run};
use lsm_slots::Boarded;
use lsm_state::{Options, State};
use lsm_storage::MemoryShelf;
use lsm_table::{NamedShelf, Shelf};
use std::alloc::Global;
use std::marker::Brand;
use std::sync::Wait;

/// The replies to commands on a new database on the shelf.
fn play_named<N: Boarded, S: Shelf, R: Wait>(
    rt: &R,
    alloc: Global,
    shelf: &mut NamedShelf<N, S>,
    parts: NewParts<S>,
    commands: &[Command],
) -> Result<List<Reply>, WriterFault>
    requires parts { AreOf parts.options N.registry N.board N.history parts }
    requires options { parts.options ≡ plain }
    ensures played { IfOk result (λ replies. ArePlayed S.honest commands.now replies shelf.old) }
    ensures fault { IfErr result (λ e. (e ≡ OutOfMemory) ⊎ ((fault : ShelfFault)
        × (e ≡ of_shelf fault) × IsCreateRefusal fault shelf.old shelf.new)) }
{
    let state: State<N, S> = match begin_with(rt, alloc, shelf, 1, parts) {
        Ok(state) => state,
        Err(fault) => return Err(fault),
    };
    match run(rt, alloc, state, shelf, commands) {
        Ok((_state, replies)) => Ok(replies),
        Err((_memory, _state)) => Err(WriterFault::OutOfMemory),
    }
}

/// The same under the name that was picked for the parts and the shelf.
fn play_as<N: Boarded, S: Shelf, R: Wait>(
    rt: &R,
    alloc: Global,
    shelf: S,
    parts: NewParts<S>,
    commands: &[Command],
) -> Result<List<Reply>, WriterFault>
    requires parts { AreOf parts.options N.registry N.board N.history parts }
    requires options { parts.options ≡ plain }
    requires shelf { (S.told shelf).place ≡ N.place }
    ensures played { IfOk result (λ replies.
        ArePlayed S.honest commands.now replies (S.told shelf)) }
    ensures fault { IfErr result (λ e. (e ≡ OutOfMemory) ⊎ ((fault : ShelfFault) × (is : Told)
        × (e ≡ of_shelf fault) × IsCreateRefusal fault (S.told shelf) is)) }
{
    let mut shelf: NamedShelf<N, S> = NamedShelf::of(shelf);
    play_named(rt, alloc, &mut shelf, parts, commands)
}

/// The replies to commands on a new database in memory, with plain options: what a script is
/// answered does not hang on those of programs.
pub(crate) fn play<R: Wait>(
    rt: &R,
    alloc: Global,
    commands: &[Command],
) -> Result<List<Reply>, WriterFault>
    ensures played { IfOk result (λ replies. ArePlayedInMemory commands.now replies) }
    ensures fault { IfErr result (λ e. (e ≡ OutOfMemory) ⊎ IsUncreatedInMemory e) }
{
    let shelf = MemoryShelf::new(alloc)?;
    let parts = NewParts::with(alloc, Options::usual())?;
    play_as::<Brand, MemoryShelf, R>(rt, alloc, shelf, parts, commands)
}
