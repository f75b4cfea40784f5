//! Laws of conversations, as contracts of functions that do nothing.

ghost use Rattle.std.specs.Prelude.{◌≡◌, List, None, true, ℕ};
ghost use Rattle.lsm_shelf.specs.Told.{Told};
ghost use Rattle.lsm_text.specs.declared.form.Form.{Form};
ghost use Rattle.lsm_batch.specs.declared.write.Write.{Write};
ghost use Rattle.lsm_state.specs.declared.state_fault.StateFault.TheVariants.{Halted};
ghost use Rattle.lsm_script.specs.History.{History, IsAnswered, IsOf, history_of};
ghost use Rattle.lsm_script.specs.Scripts.{AreSteps};
ghost use Rattle.lsm_script.specs.Steps.{IsStep, Stage, stage_of};
ghost use Rattle.lsm_script.specs.declared.command.Command.{Command};
ghost use Rattle.lsm_script.specs.declared.command.Command.TheVariants.{Ingest};
ghost use Rattle.lsm_script.specs.declared.command_fault.CommandFault.TheVariants.{State as StateRefusal};
ghost use Rattle.lsm_script.specs.declared.reply.Reply.{Reply};
ghost use Rattle.lsm_script.specs.declared.reply.Reply.TheVariants.{Refused};
ghost use Rattle.lsm_cmd_shell.specs.Asked.{AreDone};
ghost use Rattle.lsm_cmd_shell.specs.Batching.{Standing, standing};
ghost use Rattle.lsm_cmd_shell.specs.Said.{Said};
ghost use Rattle.lsm_cmd_shell.specs.Talk.{AreReplied, IsBadLine};

use lsm_script::steps_are_of_the_history;
use lsm_slots::Boarded;
use lsm_state::State;
use lsm_table::Shelf;

/// A law: the commands that a conversation did from this state are those that its lines ask for, in
/// their order, with the batches that they begin and commit; and what they were answered is of the
/// history from the state's own entries. At the end the state is as the history says.
pub fn talks_are_of_the_history<N: Boarded, S: Shelf>(state: &State<N, S>)
    ensures { (form : Form) (told : Told) (lines : List (List ℕ)) (said : List Said) (t : Standing)
        → AreReplied S.honest form lines said (standing (stage_of state.now told) None) t
        → (commands : List Command) × (replies : List Reply) × AreDone form None lines commands
        × ((h : History) × AreSteps (IsAnswered S.honest) commands replies (history_of state.now) h
        × IsOf S.honest h t.stage.state) }
{
    steps_are_of_the_history(state);
}

/// A law: what is said to a bad line is told by its bytes alone, and by the form of words.
pub fn a_bad_line_has_one_reply()
    ensures { (form : Form) (line : List ℕ) (a b : Said) → IsBadLine form line a
        → IsBadLine form line b → a ≡ b }
{}

/// A law: a batch that is to come into a halted state, as one is that is only read, is refused as
/// `Halted`: that of a `put`, a `delete` and a `commit` too.
pub fn halted_states_refuse_batches<S: Shelf>()
    ensures { (writes : List Write) (reply : Reply) (s t : Stage) → s.state.halted ≡ true
        → IsStep S.honest (Ingest writes) reply s t → reply ≡ Refused (StateRefusal Halted) }
{}
