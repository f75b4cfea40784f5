//! What a key answers in a database whose tables nobody judged.

ghost use Rattle.std.specs.Prelude.{◌≡◌, IfErr, IfOk};
ghost use Rattle.std.specs.Option.{option_map};
ghost use Rattle.lsm_shelf.specs.Told.{Becomes, Told, finding};
ghost use Rattle.lsm_journal.specs.Recovering.{IsRecovered};
ghost use Rattle.lsm_admission.specs.Answered.{Answers, IsAnswerRefusal, IsAnswered, IsRefusedOf};
ghost use Rattle.lsm_admission.specs.Keeping.{KeepsTables};

use crate::admitted::{Admitted, recover_manifest};
use crate::answer_fault::AnswerFault;
use lsm_finding::{Finding, Vouched, Vouching};
use lsm_journal::{ManifestLimit, Recovered};
use lsm_query::get;
use lsm_table::{NamedShelf, Naming, Records, Registry};
use std::alloc::Global;
use std::marker::Brand;
use std::sync::Wait;

/// What a user key answers in the database of which this manifest was read.
fn get_admitted<N: Naming, S: Finding, R: Wait>(
    rt: &R,
    alloc: Global,
    shelf: &mut NamedShelf<N, S>,
    records: Records<S::Receipt>,
    recovered: Recovered,
    user: &[u8],
) -> Result<Option<Vec<u8>>, AnswerFault>
    requires named { records ≡ N.registry }
    requires recovered { IsRecovered recovered.journal recovered.shape recovered.rest }
    requires kept { S.honest → KeepsTables (S.keeps N.place) recovered.shape }
    ensures answered { (was : Told)
        → Becomes (finding recovered.journal.number recovered.journal.bytes was) shelf.old
        → IfOk result (λ a. IsAnswered (S.keeps N.place) S.honest recovered.shape user.now
        (option_map (λ b. b.items) a) was shelf.new) }
    ensures refused { (was : Told)
        → Becomes (finding recovered.journal.number recovered.journal.bytes was) shelf.old
        → IfErr result (λ e. IsRefusedOf (S.keeps N.place) (S.refuses N.place) S.honest
        recovered.shape e was shelf.new) }
{
    let registry = Registry::shared(alloc, records)?;
    let admitted = Admitted::of_manifest(rt, alloc, shelf, &registry, recovered)?;
    let version = &admitted.version;
    let answer = get(version, shelf, alloc, user, version.last())?;
    Ok(answer)
}

/// The same over a shelf, under the name that was picked for its contents and under the premise
/// that was picked for its tables. The shelf is given back.
fn get_vouched<N: Naming, V: Vouching, S: Finding, R: Wait>(
    rt: &R,
    alloc: Global,
    shelf: S,
    records: Records<S::Receipt>,
    recovered: Recovered,
    user: &[u8],
) -> (Result<Option<Vec<u8>>, AnswerFault>, S)
    requires named { records ≡ N.registry }
    requires shelf { (S.told shelf).place ≡ N.place }
    requires recovered { IsRecovered recovered.journal recovered.shape recovered.rest }
    requires kept { S.honest → V.holds → KeepsTables (S.keeps N.place) recovered.shape }
    ensures answered { (was : Told)
        → Becomes (finding recovered.journal.number recovered.journal.bytes was) (S.told shelf)
        → IfOk result.0 (λ a. IsAnswered (S.keeps N.place) (S.honest × V.holds) recovered.shape
        user.now (option_map (λ b. b.items) a) was (S.told result.1)) }
    ensures refused { (was : Told)
        → Becomes (finding recovered.journal.number recovered.journal.bytes was) (S.told shelf)
        → IfErr result.0 (λ e. IsRefusedOf (S.keeps N.place) (S.refuses N.place)
        (S.honest × V.holds) recovered.shape e was (S.told result.1)) }
{
    let vouched: Vouched<V, S> = Vouched::of(shelf);
    let mut named: NamedShelf<N, Vouched<V, S>> = NamedShelf::of(vouched);
    let answer = get_admitted(rt, alloc, &mut named, records, recovered, user);
    (answer, named.into_shelf().into_shelf())
}

/// The same, with records of its own. The premise is that the shelf keeps the tables of the shape
/// that was read.
fn get_recovered<S: Finding, R: Wait>(
    rt: &R,
    alloc: Global,
    shelf: S,
    recovered: Recovered,
    user: &[u8],
) -> (Result<Option<Vec<u8>>, AnswerFault>, S)
    requires recovered { IsRecovered recovered.journal recovered.shape recovered.rest }
    ensures answered { (was : Told)
        → Becomes (finding recovered.journal.number recovered.journal.bytes was) (S.told shelf)
        → IfOk result.0 (λ a. Answers (S.keeps (S.told shelf).place) S.honest user.now
        (option_map (λ b. b.items) a) was (S.told result.1)) }
    ensures refused { (was : Told)
        → Becomes (finding recovered.journal.number recovered.journal.bytes was) (S.told shelf)
        → IfErr result.0 (λ e. IsAnswerRefusal (S.keeps (S.told shelf).place)
        (S.refuses (S.told shelf).place) S.honest e was (S.told result.1)) }
{
    match Records::new(alloc) {
        Ok(records) => {
            get_vouched::<Brand, Brand, S, R>(rt, alloc, shelf, records, recovered, user)
        }
        Err(fault) => (Err(AnswerFault::from(fault)), shelf),
    }
}

/// What a user key answers in the database on a shelf. The manifest is read whole; each table that
/// it names is found and measured; and of tables only those blocks are read where the key may be,
/// three of each table that the read comes to. It requires nothing: whatever the shelf is, and
/// whatever the manifest says, it ends in an answer or in a refusal. The shelf is given back.
///
/// Over an honest shelf that keeps the tables of its manifest (`KeepsTables`) the answer is that of
/// all entries of its tables at the last sequence, as after a judgment of each table. Else what is
/// answered is not said.
pub fn get_unjudged<S: Finding, R: Wait>(
    rt: &R,
    alloc: Global,
    shelf: S,
    user: &[u8],
) -> (Result<Option<Vec<u8>>, AnswerFault>, S)
    ensures answered { IfOk result.0 (λ a. Answers (S.keeps (S.told shelf).place) S.honest user.now
        (option_map (λ b. b.items) a) (S.told shelf) (S.told result.1)) }
    ensures refused { IfErr result.0 (λ e. IsAnswerRefusal (S.keeps (S.told shelf).place)
        (S.refuses (S.told shelf).place) S.honest e (S.told shelf) (S.told result.1)) }
{
    // A journal that nothing is sent through has no use for its limit.
    let (recovered, shelf) = recover_manifest(rt, alloc, shelf, ManifestLimit::none());
    match recovered {
        Ok(recovered) => get_recovered(rt, alloc, shelf, recovered, user),
        Err(fault) => (Err(AnswerFault::from(fault)), shelf),
    }
}
