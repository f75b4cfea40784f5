//! Laws of texts and of words, as contracts of functions that do nothing.

ghost use Rattle.std.specs.Prelude.{◌≡◌, ◌≢◌, ℕ, [], List, All, ◌⊎◌};
ghost use Rattle.hex.specs.Hex.{IsBytes};
ghost use Rattle.lsm_codec.specs.Entries.{Entry};
ghost use Rattle.lsm_block.specs.Block.{Ascends};
ghost use Rattle.lsm_batch.specs.declared.write.Write.{Write};
ghost use Rattle.lsm_text.specs.BatchText.{IsBatchText};
ghost use Rattle.lsm_text.specs.EntryList.{IsEntryList, IsFirstBadLine};
ghost use Rattle.lsm_text.specs.EntryPrinting.{IsListable, entry_list};
ghost use Rattle.lsm_text.specs.Spelling.{IsClear, IsWord, spelled};
ghost use Rattle.lsm_text.specs.declared.form.Form.{Form};

/// A text is a list of entries, or has a first bad line; it is at most one list, and not both; its
/// first bad line is one line.
pub fn one_list()
    ensures either { (text : List ℕ)
        → ((es : List Entry) × IsEntryList text es) ⊎ ((i : ℕ) × IsFirstBadLine text i) }
    ensures list { (text : List ℕ) (es fs : List Entry) → IsEntryList text es → IsEntryList text fs
        → es ≡ fs }
    ensures both { (text : List ℕ) (es : List Entry) (i : ℕ) → IsEntryList text es
        → IsFirstBadLine text i → ⊥ }
    ensures line { (text : List ℕ) (i j : ℕ) → IsFirstBadLine text i → IsFirstBadLine text j
        → i ≡ j }
{}

/// What is printed for entries that stand in order is a list of just those, where lines can spell
/// them.
pub fn printed_list()
    ensures { (es : List Entry) → All IsListable es → Ascends es → IsEntryList (entry_list es) es }
{}

/// What is printed for bytes is a word of just those bytes, in either form. A word spells one list
/// of bytes at most; it has no `=`, `!`, `@`, blank or newline, and is not empty.
pub fn one_word()
    ensures printed { (form : Form) (bytes : List ℕ) → IsBytes bytes
        → IsWord form (spelled form bytes) bytes }
    ensures bytes { (form : Form) (word a b : List ℕ) → IsWord form word a → IsWord form word b
        → a ≡ b }
    ensures clear { (form : Form) (word bytes : List ℕ) → IsWord form word bytes
        → All IsClear word }
    ensures some { (form : Form) (word bytes : List ℕ) → IsWord form word bytes → word ≢ [] }
{}

/// A law: in one form a text spells one batch at most.
pub fn one_batch()
    ensures { (form : Form) (text : List ℕ) (a b : List Write) → IsBatchText form text a
        → IsBatchText form text b → a ≡ b }
{}
