//! A law of words, as the contract of a function that does nothing.

ghost use Rattle.std.specs.Prelude.{◌∷◌, [], codes};
ghost use Rattle.lsm_grammar.specs.Requests.{AskHelp, HaveUsageFault, word_of};
ghost use Rattle.lsm_grammar.specs.declared.command_name.CommandName.{CommandName};

/// `help`, alone or before the name of a command, asks for help, and so does `--help`, alone or
/// behind it. No fault is in these words.
pub fn help_is_no_fault()
    ensures named { (name : CommandName) → AskHelp (codes "help" ∷ word_of name ∷ [])
        × (HaveUsageFault (codes "help" ∷ word_of name ∷ []) → ⊥) }
    ensures behind { (name : CommandName) → AskHelp (word_of name ∷ codes "--help" ∷ [])
        × (HaveUsageFault (word_of name ∷ codes "--help" ∷ []) → ⊥) }
    ensures alone { AskHelp (codes "help" ∷ []) × (HaveUsageFault (codes "help" ∷ []) → ⊥) }
    ensures option { AskHelp (codes "--help" ∷ []) × (HaveUsageFault (codes "--help" ∷ []) → ⊥) }
{}
