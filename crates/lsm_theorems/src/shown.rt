//! Premises that are refuted of the program's shelf.

ghost use Rattle.std.specs.Prelude.{◌≡◌, ◌≤◌, ◌^◌, ℕ, List, length};
ghost use Rattle.boxcar.specs.Table.{Shelves};
ghost use Rattle.lsm_codec.specs.Lists.{Has};
ghost use Rattle.lsm_crash.specs.Disk.{Disk};
ghost use Rattle.lsm_crash.specs.Refusing.{ReadsShown};
ghost use Rattle.lsm_shelf.specs.Stored.{Stored};
ghost use Rattle.lsm_shelf.specs.Told.{Told, at_path};
ghost use Rattle.lsm_table.specs.Registry.{Table};
ghost use Rattle.lsm_theorems.specs.Stored.{StoredByProgram};
ghost use Rattle.lsm_version.specs.Versions.{Levels, level_in};

use lsm_folder::{Mute, SystemFolder, the_mute_system_is_not_honest};
use lsm_storage::SystemShelf;
use lsm_table::{Naming, Shelf};

/// A shelf on the system's folder, with the witness of the program.
pub type ProgramShelf = SystemShelf<HostRuntime, Mute>;

/// No shelf of the program is honest, so the theorems say nothing of what its reads give. They are to
/// be read with the witness that compares (`compared`).
pub fn no_shelf_of_the_program_is_honest(folder: &SystemFolder<HostRuntime, Mute>) {
    the_mute_system_is_not_honest(folder);
    is_not_honest::<ProgramShelf>();
}

fn is_not_honest<S: Shelf>()
    requires { S.honest → ⊥ }
{}

/// The premise `ReadsShown` of `openings_are_not_refused_for_what_is_shown` (`lsm_crash`) can't be
/// met by the shelf of the program, where the version has a table (`refuted`). For it speaks of each
/// receipt that the shelf could have given, and contracts do not know what a folder's vector of
/// marks holds: any image may be stored under any number (`stored`). It is met by a shelf that holds
/// just what the folder shows: `given` of `premises_of_runs_are_met`.
pub fn no_shelf_of_the_program_gives_what_the_folder_shows<N: Naming>()
    ensures stored { (path : List ℕ) (marks : Shelves) (number : ℕ) (image : List ℕ)
        → length image ≤ 2 ^ 30 → StoredByProgram (at_path path marks) number image }
    ensures refuted { (path : List ℕ) (marks : Shelves) (v : Levels) (d : Disk) (was is : Told)
        (level : ℕ) (t : Table) → Has (level_in v.tables level) t
        → ReadsShown (StoredByProgram (at_path path marks)) v d was is → ⊥ }
{
    stores_as_the_program::<N, ProgramShelf>();
}

/// That these are the words of that premise, at the program's shelf.
fn stores_as_the_program<N: Naming, S: Shelf>()
    requires { (path : List ℕ) (marks : Shelves) (number : ℕ) (image : List ℕ)
        → N.place ≡ at_path path marks → length image ≤ 2 ^ 30
        → Stored S.Receipt (S.is_of N.place) S.Receipt.number S.Receipt.image number image }
{}
