//! Laws of commands, as the contracts of functions that do nothing.

ghost use Rattle.std.specs.Prelude.{◌≡◌, List, ℕ};
ghost use Rattle.lsm_shelf.specs.Told.{Told};
ghost use Rattle.lsm_script.specs.History.{History, IsAnswered, IsOf, history_of};
ghost use Rattle.lsm_script.specs.Scripts.{AreSteps};
ghost use Rattle.lsm_script.specs.Steps.{IsLaterStep, Stage, stage_of};
ghost use Rattle.lsm_script.specs.declared.command.Command.{Command};
ghost use Rattle.lsm_script.specs.declared.reply.Reply.{Reply};
ghost use Rattle.lsm_script.specs.CommandLine.{IsScript};

use lsm_model::machine::runs_read_all_that_came;
use lsm_slots::Boarded;
use lsm_state::State;
use lsm_table::Shelf;

/// A law: a text spells one list of commands at most.
pub fn one_script()
    ensures { (text : List ℕ) (a b : List Command) → IsScript text a → IsScript text b → a ≡ b }
{}

/// A law: where commands are answered by steps from a stage that began with this state, however
/// many there are, whatever was refused, and whatever else was read between, the replies are those
/// of the history from the state's own entries, and at the end the state is as the history says.
pub fn steps_are_of_the_history<N: Boarded, S: Shelf>(state: &State<N, S>)
    ensures { (told : Told) (commands : List Command) (replies : List Reply) (t : Stage)
        → AreSteps (IsLaterStep S.honest) commands replies (stage_of state.now told) t
        → (h : History) × AreSteps (IsAnswered S.honest) commands replies (history_of state.now) h
        × IsOf S.honest h t.state }
{
    runs_read_all_that_came::<State<N, S>>();
    // The law of the state is told by this call.
    let _options = state.options();
}
