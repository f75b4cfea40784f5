//! What a shelf's value was told, kept without memory.

ghost use Rattle.std.specs.Prelude.{◌≡◌, ◌+◌, ◌≤◌, ◌∷◌, ◌++◌, [], IfErr, length};
ghost use Rattle.lsm_storage.specs.Account.{counted_by, told_in};
ghost use Rattle.lsm_shelf.specs.Told.{Place, Counted, CountedBy};

use boxcar::tag::{Names, Tag};
use lsm_shelf::ShelfFault;

/// What a shelf's value was told: two counts that exist when the program runs, and lists that only
/// contracts read.
#[derive(Drop)]
pub struct Account {
    pub faults: u64,
    pub misses: u64,
    pub puts: Tag,
    pub gone: Tag,
    pub listed: Tag,
    pub manifest: Tag,
    pub sent: Tag,
    pub found: Tag,
    pub starts: Tag,
    pub written: Tag,
    pub forks: Tag,
    pub made: Tag,
}

/// One number.
struct Lone;

impl Names<u64> for Lone {
    ghost numbers = { λ n. n ∷ [] };
}

/// The bytes of a slice.
struct Whole;

impl<'a> Names<&'a [u8]> for Whole {
    ghost numbers = { λ b. b.now };
}

struct Numbers;

impl<'a> Names<&'a [u64]> for Numbers {
    ghost numbers = { λ n. n.now };
}

/// A list and what follows it.
#[derive(Drop)]
struct Pair<'a> {
    front: &'a Tag,
    back: &'a Tag,
}

struct Joined;

impl<'a> Names<Pair<'a>> for Joined {
    ghost numbers = { λ p. p.front.now.numbers ++ p.back.now.numbers };
}

/// The list of one number.
pub fn tag_of_number(number: u64) -> Tag
    ensures { result.numbers ≡ number ∷ [] }
{
    Tag::of::<u64, Lone>(&number)
}

/// The list of these bytes.
pub fn tag_of_bytes(bytes: &[u8]) -> Tag
    ensures { result.numbers ≡ bytes.now }
{
    Tag::of::<&[u8], Whole>(&bytes)
}

/// The list of these numbers.
pub fn tag_of_numbers(numbers: &[u64]) -> Tag
    ensures { result.numbers ≡ numbers.now }
{
    Tag::of::<&[u64], Numbers>(&numbers)
}

/// One list after another.
pub fn tag_of_both(front: &Tag, back: &Tag) -> Tag
    ensures { result.numbers ≡ front.now.numbers ++ back.now.numbers }
{
    Tag::of::<Pair, Joined>(&Pair { front, back })
}

/// A list that is longer by one.
pub fn tag_of_more(tag: &Tag) -> Tag
    ensures { length result.numbers ≡ length tag.now.numbers + 1 }
{
    tag_of_both(&tag_of_number(0), tag)
}

impl Account {
    /// A value to which nothing was told yet.
    pub fn new() -> Account
        ensures faults { result.faults ≡ 0 }
        ensures misses { result.misses ≡ 0 }
        ensures puts { result.puts.numbers ≡ [] }
        ensures gone { result.gone.numbers ≡ [] }
        ensures listed { result.listed.numbers ≡ [] }
        ensures manifest { result.manifest.numbers ≡ [] }
        ensures sent { result.sent.numbers ≡ [] }
        ensures found { result.found.numbers ≡ [] }
        ensures starts { result.starts.numbers ≡ [] }
        ensures written { result.written.numbers ≡ [] }
        ensures forks { result.forks.numbers ≡ [] }
        ensures made { result.made.numbers ≡ [] }
    {
        Account {
            faults: 0,
            misses: 0,
            puts: Tag::empty(),
            gone: Tag::empty(),
            listed: Tag::empty(),
            manifest: Tag::empty(),
            sent: Tag::empty(),
            found: Tag::empty(),
            starts: Tag::empty(),
            written: Tag::empty(),
            forks: Tag::empty(),
            made: Tag::empty(),
        }
    }

    /// A fork to which nothing was told yet but its number, the length of this list.
    pub fn of_fork(number: &Tag) -> Account
        ensures faults { result.faults ≡ 0 }
        ensures misses { result.misses ≡ 0 }
        ensures puts { result.puts.numbers ≡ [] }
        ensures gone { result.gone.numbers ≡ [] }
        ensures listed { result.listed.numbers ≡ [] }
        ensures manifest { result.manifest.numbers ≡ [] }
        ensures sent { result.sent.numbers ≡ [] }
        ensures found { result.found.numbers ≡ [] }
        ensures starts { result.starts.numbers ≡ [] }
        ensures written { result.written.numbers ≡ [] }
        ensures forks { length result.forks.numbers ≡ length number.now.numbers }
        ensures made { result.made.numbers ≡ [] }
    {
        let mut account = Account::new();
        account.forks = tag_of_both(&account.forks, number);
        account
    }

    /// Counts a refusal, once. A count stays at its last value.
    pub fn count<T: Drop>(&mut self, outcome: Result<T, ShelfFault>) -> Result<T, ShelfFault>
        ensures same { result ≡ outcome }
        ensures counted { self.new ≡ counted_by outcome self.old }
        ensures faults { self.old.faults ≤ self.new.faults }
        ensures misses { self.old.misses ≤ self.new.misses }
        ensures puts { self.new.puts ≡ self.old.puts }
        ensures gone { self.new.gone ≡ self.old.gone }
        ensures listed { self.new.listed ≡ self.old.listed }
        ensures manifest { self.new.manifest ≡ self.old.manifest }
        ensures sent { self.new.sent ≡ self.old.sent }
        ensures found { self.new.found ≡ self.old.found }
        ensures starts { self.new.starts ≡ self.old.starts }
        ensures written { self.new.written ≡ self.old.written }
        ensures forks { self.new.forks ≡ self.old.forks }
        ensures made { self.new.made ≡ self.old.made }
        ensures counts { (p : Place) → CountedBy result (told_in p self.old) (told_in p self.new) }
        ensures cause { IfErr result (λ e. (p : Place)
            → Counted e (told_in p self.old) (told_in p self.new)) }
    {
        match &outcome {
            Err(ShelfFault::Device) => self.faults = self.faults.saturating_add(1),
            Err(ShelfFault::Missing | ShelfFault::Taken(_)) => {
                self.misses = self.misses.saturating_add(1);
            }
            _ => {}
        }
        outcome
    }
}
