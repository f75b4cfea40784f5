//! What a merge has made.

ghost use Rattle.std.specs.Prelude.{◌≡◌, [], ◌∷◌, ◌++◌, ℕ, List, None, cond, IfOk, IfErr, OnOk};
ghost use Rattle.std.specs.Prelude.{OnErr};
ghost use Rattle.lsm_codec.specs.KeyRef.{key_of};
ghost use Rattle.lsm_block.specs.Block.{Ascends, entry_of};
ghost use Rattle.lsm_shelf.specs.Told.{Told};
ghost use Rattle.lsm_table.specs.Options.{AreInRange};
ghost use Rattle.lsm_merge.specs.Cuts.{closes};
ghost use Rattle.lsm_merge.specs.Causes.{AnswersOf, AsksFor, HasCause, IsUnasked, Leaves};
ghost use Rattle.lsm_merge.specs.Causes.{NamesRefused, NamesTicket};
ghost use Rattle.lsm_merge.specs.Dropping.{closed, placed, shut_before, with_entry};
ghost use Rattle.lsm_merge.specs.Limits.{IsOverLimit, IsSizeFault};
ghost use Rattle.lsm_merge.specs.Outputs.{AreGood, Goes, PutsMore, PutsTables, drawn_of};
ghost use Rattle.lsm_merge.specs.Outputs.{entries_of_last, going, making_of};
ghost use Rattle.lsm_merge.specs.PutBefore.{IsClosing, IsTime, PutsLast};
ghost use Rattle.lsm_merge.specs.Work.{finished};

use crate::job::Job;
use crate::merge_fault::MergeFault;
use crate::number_source::NumberSource;
use crate::output::Output;
use crate::putting::put_output;
use lsm_codec::KeyRef;
use lsm_table::{NamedShelf, Naming, Registry, Shelf, TableOptions, TableRef};
use std::alloc::Global;
use std::marker::Model;
use std::sync::Wait;

/// What a merge has made so far: the tables that were put, their numbers, and the output in the
/// making.
#[derive(Drop)]
pub(crate) struct Outputs<N: Naming, S: Shelf> {
    alloc: Global,
    ticket: u64,
    options: TableOptions,
    target: u64,
    tables: Vec<TableRef<N, S>>,
    put: Vec<u64>,
    last: Option<Output>,
}

impl<N: Naming, S: Shelf> Model for Outputs<N, S> {
    ghost use Rattle.lsm_merge.specs.Outputs.{Made};

    ghost Value = { Made };

    ghost view = { λ o. record {
      ticket = o.ticket;
      options = o.options;
      target = o.target;
      tables = o.tables.items;
      put = o.put.items;
      last = o.last;
    } };
}

/// An output that begins with an entry, under a number that is drawn for it.
#[tactic(auto, using(crate::proofs::Refused::unasked_build, crate::proofs::Refused::unasked_numbers))]
fn begin<R: Wait, D: NumberSource>(
    rt: &R,
    alloc: Global,
    ticket: u64,
    options: TableOptions,
    numbers: &mut D,
    key: &KeyRef<'_>,
    value: &[u8],
) -> Result<Output, MergeFault>
    requires ready { D.ready numbers.old }
    requires sizes { AreInRange options }
    ensures options { IfOk result (λ o. o.options ≡ options) }
    ensures entries { IfOk result (λ o. o.entries ≡ entry_of (key_of key.now) value.now ∷ []) }
    ensures drew { IfOk result (λ o. D.drew numbers.new ≡ o.number ∷ D.drew numbers.old) }
    ensures answered { OnOk result (D.refused numbers.new ≡ D.refused numbers.old) }
    ensures leaves { IfErr result (λ e. (put there : List ℕ) → D.drew numbers.old ≡ going put there
        → Leaves e put (D.drew numbers.new) there) }
    ensures why { IfErr result (λ e. AnswersOf e (D.refused numbers.old) (D.refused numbers.new)) }
    ensures cause { IfErr result (λ e. (t u : Told) → HasCause [] e t u) }
    ensures unasked { IfErr result IsUnasked }
    ensures asked { D.asked numbers.new ≡ ticket ∷ D.asked numbers.old }
    ensures ticket { IfErr result (λ e. NamesTicket e ticket) }
    ensures large { IfErr result (λ e. IsSizeFault e
        → IsOverLimit options (entry_of (key_of key.now) value.now ∷ [])) }
    ensures ready { D.ready numbers.new }
{
    let number = match numbers.draw(rt, alloc, ticket) {
        Ok(number) => number,
        Err(fault) => return Err(MergeFault::from(fault)),
    };
    match Output::begin(alloc, number, options, key, value) {
        Ok(output) => Ok(output),
        Err(fault) => Err(MergeFault::of_build(number, fault)),
    }
}

/// Adds an entry to the output in the making.
#[tactic(auto, using(crate::proofs::Refused::unasked_build))]
pub(crate) fn grow(output: &mut Output, key: &KeyRef<'_>, value: &[u8]) -> Result<(), MergeFault>
    requires { Ascends (output.old.entries ++ entry_of (key_of key.now) value.now ∷ []) }
    ensures ok { OnOk result (output.new ≡ record output.old
        { entries = output.old.entries ++ entry_of (key_of key.now) value.now ∷ [] }) }
    ensures err { OnErr result (output.new ≡ output.old) }
    ensures leaves { IfErr result (λ e. (put there : List ℕ)
        → Leaves e put (output.old.number ∷ going put there) there) }
    ensures why { IfErr result (λ e. (answers : List ℕ) → AnswersOf e answers answers) }
    ensures cause { IfErr result (λ e. (t u : Told) → HasCause [] e t u) }
    ensures unasked { IfErr result IsUnasked }
    ensures ticket { IfErr result (λ e. (ticket : ℕ) → NamesTicket e ticket) }
    ensures large { IfErr result (λ e. IsSizeFault e → IsOverLimit output.old.options
        (output.old.entries ++ entry_of (key_of key.now) value.now ∷ [])) }
{
    match output.add(key, value) {
        Ok(()) => Ok(()),
        Err(fault) => Err(MergeFault::of_build(output.number(), fault)),
    }
}

impl<N: Naming, S: Shelf> Outputs<N, S> {
    /// Nothing yet of a job.
    pub(crate) fn none(alloc: Global, job: &Job<N, S>) -> Outputs<N, S>
        ensures { result ≡ record {
          ticket = job.now.ticket;
          options = job.now.table;
          target = job.now.target_size;
          tables = [];
          put = [];
          last = None;
        } }
    {
        Outputs {
            alloc,
            ticket: job.ticket(),
            options: job.table(),
            target: job.target_size(),
            tables: Vec::new(alloc),
            put: Vec::new(alloc),
            last: None,
        }
    }

    /// Tells that the entries of the output in the making ascend.
    pub(crate) fn tell_order(&self)
        ensures { Ascends (entries_of_last self.now.last) }
    {
        if let Some(output) = &self.last {
            output.tell_order();
        }
    }

    /// Puts the output in the making, where there is one.
    #[tactic(auto, using(crate::proofs::PutLaws::puts_none, crate::proofs::PutLaws::tables_none))]
    pub(crate) fn put_last<R: Wait>(
        &mut self,
        rt: &R,
        shelf: &mut NamedShelf<N, S>,
        registry: &Registry<N, S>,
    ) -> Result<(), MergeFault>
        requires good { AreGood self.old }
        ensures ok { OnOk result
            (Goes self.old self.new record { outputs = closed (making_of self.old); output = [] }) }
        ensures drawn { OnOk result ((there : List ℕ)
            → drawn_of self.new there ≡ drawn_of self.old there) }
        ensures told { PutsMore self.old.put self.new.put shelf.old shelf.new }
        ensures tables { OnOk result
            (PutsTables self.old.tables self.new.tables shelf.old shelf.new) }
        ensures leaves { IfErr result (λ e. (there : List ℕ)
            → Leaves e self.new.put (drawn_of self.old there) there) }
        ensures cause { IfErr result (λ e. HasCause [] e shelf.old shelf.new) }
        ensures refused { IfErr result (NamesRefused (S.refuses N.place) self.old.options) }
        ensures why { IfErr result (λ e. (answers : List ℕ) → AnswersOf e answers answers) }
        ensures stands { OnErr result
            (PutsLast self.old (Unit {0}) self.new.put shelf.old shelf.new) }
        ensures large { IfErr result (λ e. IsSizeFault e
            → IsOverLimit self.old.options (entries_of_last self.old.last)) }
    {
        match self.last.take() {
            None => Ok(()),
            Some(output) => put_output(
                rt,
                self.alloc,
                shelf,
                registry,
                output,
                &mut self.tables,
                &mut self.put,
            ),
        }
    }

    /// Whether the output in the making is closed before an entry of this user key.
    fn closes(&self, user: &[u8]) -> bool
        requires { AreGood self.now }
        ensures { result ≡ closes (finished self.now.options) self.now.target
            (entries_of_last self.now.last) user.now }
    {
        match &self.last {
            None => false,
            Some(output) => output.closes(self.target, user),
        }
    }

    /// Puts the output in the making where it is closed before an entry of this user key.
    #[tactic(auto, using(crate::proofs::PutLaws::puts_none, crate::proofs::PutLaws::tables_none))]
    pub(crate) fn close_before<R: Wait>(
        &mut self,
        rt: &R,
        shelf: &mut NamedShelf<N, S>,
        registry: &Registry<N, S>,
        user: &[u8],
    ) -> Result<(), MergeFault>
        requires good { AreGood self.old }
        ensures ok { OnOk result (Goes self.old self.new (shut_before (finished self.old.options)
            self.old.target (making_of self.old) user.now)) }
        ensures drawn { OnOk result ((there : List ℕ)
            → drawn_of self.new there ≡ drawn_of self.old there) }
        ensures told { PutsMore self.old.put self.new.put shelf.old shelf.new }
        ensures tables { OnOk result
            (PutsTables self.old.tables self.new.tables shelf.old shelf.new) }
        ensures leaves { IfErr result (λ e. (there : List ℕ)
            → Leaves e self.new.put (drawn_of self.old there) there) }
        ensures cause { IfErr result (λ e. HasCause [] e shelf.old shelf.new) }
        ensures refused { IfErr result (NamesRefused (S.refuses N.place) self.old.options) }
        ensures why { IfErr result (λ e. (answers : List ℕ) → AnswersOf e answers answers) }
        ensures stands { OnErr result
            (PutsLast self.old (IsClosing self.old user.now) self.new.put shelf.old shelf.new) }
        ensures large { IfErr result (λ e. IsSizeFault e
            → IsOverLimit self.old.options (entries_of_last self.old.last)) }
    {
        if !self.closes(user) {
            return Ok(());
        }
        self.put_last(rt, shelf, registry)
    }

    /// Adds an entry to the output in the making, or begins one with it.
    pub(crate) fn add<R: Wait, D: NumberSource>(
        &mut self,
        rt: &R,
        numbers: &mut D,
        key: &KeyRef<'_>,
        value: &[u8],
    ) -> Result<(), MergeFault>
        requires ready { D.ready numbers.old }
        requires good { AreGood self.old }
        requires ascends { Ascends
            (entries_of_last self.old.last ++ entry_of (key_of key.now) value.now ∷ []) }
        ensures ok { OnOk result (Goes self.old self.new
            (with_entry (entry_of (key_of key.now) value.now) (making_of self.old))) }
        ensures drawn { OnOk result ((there : List ℕ) → D.drew numbers.old ≡ drawn_of self.old there
            → D.drew numbers.new ≡ drawn_of self.new there) }
        ensures put { self.new.put ≡ self.old.put }
        ensures tables { self.new.tables ≡ self.old.tables }
        ensures answered { OnOk result (D.refused numbers.new ≡ D.refused numbers.old) }
        ensures leaves { IfErr result (λ e. (there : List ℕ) → D.drew numbers.old
            ≡ drawn_of self.old there → Leaves e self.new.put (D.drew numbers.new) there) }
        ensures why { IfErr result (λ e.
            AnswersOf e (D.refused numbers.old) (D.refused numbers.new)) }
        ensures cause { IfErr result (λ e. (t u : Told) → HasCause [] e t u) }
        ensures unasked { IfErr result IsUnasked }
        ensures asked { AsksFor self.old.ticket (D.asked numbers.old) (D.asked numbers.new) }
        ensures ticket { IfErr result (λ e. NamesTicket e self.old.ticket) }
        ensures large { IfErr result (λ e. IsSizeFault e → IsOverLimit self.old.options
            (entries_of_last self.old.last ++ entry_of (key_of key.now) value.now ∷ [])) }
        ensures ready { D.ready numbers.new }
    {
        if let Some(output) = &mut self.last {
            return grow(output, key, value);
        }
        self.last = Some(begin(
            rt,
            self.alloc,
            self.ticket,
            self.options,
            numbers,
            key,
            value,
        )?);
        Ok(())
    }

    /// Adds an entry to the output in the making, after that is put where it is time.
    fn place<R: Wait, D: NumberSource>(
        &mut self,
        rt: &R,
        shelf: &mut NamedShelf<N, S>,
        registry: &Registry<N, S>,
        numbers: &mut D,
        key: &KeyRef<'_>,
        value: &[u8],
    ) -> Result<(), MergeFault>
        requires ready { D.ready numbers.old }
        requires good { AreGood self.old }
        requires ascends { Ascends
            (entries_of_last self.old.last ++ entry_of (key_of key.now) value.now ∷ []) }
        ensures ok { OnOk result (Goes self.old self.new (placed (finished self.old.options)
            self.old.target (making_of self.old) (entry_of (key_of key.now) value.now))) }
        ensures drawn { OnOk result ((there : List ℕ) → D.drew numbers.old ≡ drawn_of self.old there
            → D.drew numbers.new ≡ drawn_of self.new there) }
        ensures told { PutsMore self.old.put self.new.put shelf.old shelf.new }
        ensures tables { OnOk result
            (PutsTables self.old.tables self.new.tables shelf.old shelf.new) }
        ensures answered { OnOk result (D.refused numbers.new ≡ D.refused numbers.old) }
        ensures leaves { IfErr result (λ e. (there : List ℕ) → D.drew numbers.old
            ≡ drawn_of self.old there → Leaves e self.new.put (D.drew numbers.new) there) }
        ensures why { IfErr result (λ e.
            AnswersOf e (D.refused numbers.old) (D.refused numbers.new)) }
        ensures cause { IfErr result (λ e. HasCause [] e shelf.old shelf.new) }
        ensures refused { IfErr result (NamesRefused (S.refuses N.place) self.old.options) }
        ensures asked { AsksFor self.old.ticket (D.asked numbers.old) (D.asked numbers.new) }
        ensures ticket { IfErr result (λ e. NamesTicket e self.old.ticket) }
        ensures stands { OnErr result (PutsLast self.old
            (IsClosing self.old (key_of key.now).user) self.new.put shelf.old shelf.new) }
        ensures large { IfErr result (λ e. IsSizeFault e → IsOverLimit self.old.options
            (entries_of_last self.old.last ++ entry_of (key_of key.now) value.now ∷ [])) }
        ensures ready { D.ready numbers.new }
    {
        self.close_before(rt, shelf, registry, key.user)?;
        self.add(rt, numbers, key, value)
    }

    /// Takes the next entry of the inputs: it is placed where it is kept.
    #[tactic(auto, using(crate::proofs::PutLaws::puts_none, crate::proofs::PutLaws::tables_none))]
    pub(crate) fn take<R: Wait, D: NumberSource>(
        &mut self,
        rt: &R,
        shelf: &mut NamedShelf<N, S>,
        registry: &Registry<N, S>,
        numbers: &mut D,
        kept: bool,
        key: &KeyRef<'_>,
        value: &[u8],
    ) -> Result<(), MergeFault>
        requires ready { D.ready numbers.old }
        requires good { AreGood self.old }
        requires ascends { Ascends
            (entries_of_last self.old.last ++ entry_of (key_of key.now) value.now ∷ []) }
        ensures ok { OnOk result
            (Goes self.old self.new (cond kept (placed (finished self.old.options) self.old.target
            (making_of self.old) (entry_of (key_of key.now) value.now)) (making_of self.old))) }
        ensures drawn { OnOk result ((there : List ℕ) → D.drew numbers.old ≡ drawn_of self.old there
            → D.drew numbers.new ≡ drawn_of self.new there) }
        ensures told { PutsMore self.old.put self.new.put shelf.old shelf.new }
        ensures tables { OnOk result
            (PutsTables self.old.tables self.new.tables shelf.old shelf.new) }
        ensures answered { OnOk result (D.refused numbers.new ≡ D.refused numbers.old) }
        ensures leaves { IfErr result (λ e. (there : List ℕ) → D.drew numbers.old
            ≡ drawn_of self.old there → Leaves e self.new.put (D.drew numbers.new) there) }
        ensures why { IfErr result (λ e.
            AnswersOf e (D.refused numbers.old) (D.refused numbers.new)) }
        ensures cause { IfErr result (λ e. HasCause [] e shelf.old shelf.new) }
        ensures refused { IfErr result (NamesRefused (S.refuses N.place) self.old.options) }
        ensures asked { AsksFor self.old.ticket (D.asked numbers.old) (D.asked numbers.new) }
        ensures ticket { IfErr result (λ e. NamesTicket e self.old.ticket) }
        ensures stands { OnErr result (PutsLast self.old
            (IsTime self.old kept (entry_of (key_of key.now) value.now)) self.new.put
            shelf.old shelf.new) }
        ensures large { IfErr result (λ e. IsSizeFault e → IsOverLimit self.old.options
            (entries_of_last self.old.last ++ entry_of (key_of key.now) value.now ∷ [])) }
        ensures ready { D.ready numbers.new }
    {
        if !kept {
            return Ok(());
        }
        self.place(rt, shelf, registry, numbers, key, value)
    }

    /// The tables and their numbers. An output in the making is let go.
    pub(crate) fn into_parts(self) -> (Vec<TableRef<N, S>>, Vec<u64>)
        ensures tables { result.0.items ≡ self.tables }
        ensures put { result.1.items ≡ self.put }
    {
        let Outputs { tables, put, .. } = self;
        (tables, put)
    }
}
