//! The directory of a `MemoryShelf`.

ghost use Rattle.std.specs.Prelude.{◌≡◌, ◌≢◌, ◌↔◌, ℕ, ◌<◌, ◌≤◌, ◌^◌, ◌∷◌, ◌++◌, [], length, Some};
ghost use Rattle.std.specs.Prelude.{None, IfOk, IfErr, IfSome, OnOk, OnErr, IsErrOf, IsSome};
ghost use Rattle.std.specs.Prelude.{IsSomeAnd};
ghost use Rattle.std.specs.Ordering.{nat_cmp};
ghost use Rattle.std.specs.BTreeMap.{get, keys};
ghost use Rattle.std.specs.List.Sorted.{IsStrictlyIncreasing};
ghost use Rattle.boxcar.specs.Table.{Shows};
ghost use Rattle.lsm_storage.specs.Directory.{manifest_of};
ghost use Rattle.lsm_shelf.specs.Told.{NotDevice, NotTaken, TakenIs};

use crate::account::{tag_of_bytes, tag_of_number};
use crate::memory::image::Image;
use crate::memory::memory_receipt::MemoryReceipt;
use boxcar::Pushed;
use boxcar::tag::Tag;
use lsm_shelf::{MAX_IMAGE, ShelfFault};
use std::alloc::{AllocError, Global};
use std::collections::BTreeMap;
use std::sync::Wait;

/// A manifest with its number.
#[derive(Drop)]
pub(crate) struct Manifest {
    pub(crate) number: u64,
    pub(crate) bytes: Vec<u8>,
}

/// The tables that are listed, each with the index of its image, and the manifest that was started
/// last.
#[derive(Drop)]
pub(crate) struct Directory {
    pub(crate) tables: BTreeMap<u64, usize>,
    pub(crate) manifest: Option<Manifest>,
}

impl Directory {
    pub(crate) fn new(alloc: Global) -> Directory
        ensures tables { keys result.tables ≡ [] }
        ensures manifest { manifest_of result ≡ None }
    {
        Directory {
            tables: BTreeMap::new(alloc),
            manifest: None,
        }
    }

    /// Lists the image of the token under the number.
    fn add(&mut self, number: u64, token: &Pushed<Image>) -> Result<(), AllocError>
        ensures there { OnOk result (get nat_cmp self.new.tables number ≡ Some token.now.index) }
        ensures others { (n : ℕ) → n ≢ number
            → get nat_cmp self.new.tables n ≡ get nat_cmp self.old.tables n }
        ensures unchanged { OnErr result (self.new.tables.entries ≡ self.old.tables.entries) }
        ensures manifest { self.new ≡ record self.old { tables = self.new.tables } }
    {
        self.tables.insert(number, token.index())?;
        Ok(())
    }

    /// Adds an image, and lists it under a number that is not listed.
    pub(crate) fn put<R: Wait>(
        &mut self,
        rt: &R,
        alloc: Global,
        images: &boxcar::Vec<Image>,
        number: u64,
        image: &[u8],
    ) -> Result<MemoryReceipt, ShelfFault>
        ensures number { IfOk result (λ r. r.number ≡ number) }
        ensures image { IfOk result (λ r. r.token.value.bytes.items ≡ image.now) }
        ensures shown { IfOk result (λ r. Shows images.now r.token) }
        ensures there { IfOk result (λ r. get nat_cmp self.new.tables number ≡ Some r.token.index) }
        ensures others { (n : ℕ) → n ≢ number
            → get nat_cmp self.new.tables n ≡ get nat_cmp self.old.tables n }
        ensures unchanged { OnErr result (self.new.tables.entries ≡ self.old.tables.entries) }
        ensures manifest { self.new ≡ record self.old { tables = self.new.tables } }
        ensures cause { IfErr result (TakenIs number) }
        ensures device { IsErrOf result ShelfFault.Device ↔ (2 ^ 30 < length image.now) }
        ensures taken { length image.now ≤ 2 ^ 30 → (IsErrOf result (ShelfFault.Taken number)
            ↔ IsSome (get nat_cmp self.old.tables number)) }
    {
        if image.len() > MAX_IMAGE {
            return Err(ShelfFault::Device);
        }
        if self.tables.contains_key(&number) {
            return Err(ShelfFault::Taken(number));
        }
        let bytes = Vec::from_slice(alloc, image)?;
        let size = bytes.len() as u64;
        let Ok(token) = images.push_shown(rt, Image::of(number, bytes)) else {
            return Err(ShelfFault::OutOfMemory);
        };
        self.add(number, &token)?;
        Ok(MemoryReceipt {
            number,
            size,
            token,
        })
    }

    /// What is listed under the number. An image that was put under another one is none, nor is an
    /// index without an image.
    fn find(&self, images: &boxcar::Vec<Image>, number: u64) -> Option<Pushed<Image>>
        ensures index { IfSome result (λ t. get nat_cmp self.now.tables number ≡ Some t.index) }
        ensures shown { IfSome result (λ t. Shows images.now t) }
        ensures number { IfSome result (λ t. t.value.number ≡ number) }
    {
        let index = self.tables.get(&number).copied()?;
        let token = images.witness(index)?;
        if images.value(&token).number != number {
            return None;
        }
        Some(token)
    }

    /// A receipt of the image that is listed under the number.
    pub(crate) fn receipt(
        &self,
        images: &boxcar::Vec<Image>,
        number: u64,
    ) -> Result<MemoryReceipt, ShelfFault>
        ensures number { IfOk result (λ r. r.number ≡ number) }
        ensures shown { IfOk result (λ r. Shows images.now r.token) }
        ensures index { IfOk result (λ r.
            get nat_cmp self.now.tables number ≡ Some r.token.index) }
        ensures missing { get nat_cmp self.now.tables number ≡ None
            → IsErrOf result ShelfFault.Missing }
        ensures cause { IfErr result (λ e. e ≡ ShelfFault.Missing) }
    {
        let token = self.find(images, number).ok_or(ShelfFault::Missing)?;
        Ok(MemoryReceipt {
            number,
            size: images.value(&token).bytes.len() as u64,
            token,
        })
    }

    /// The image that is listed under the number, with a receipt.
    pub(crate) fn load(
        &self,
        alloc: Global,
        images: &boxcar::Vec<Image>,
        number: u64,
    ) -> Result<(MemoryReceipt, Vec<u8>), ShelfFault>
        ensures number { IfOk result (λ r. r.0.number ≡ number) }
        ensures image { IfOk result (λ r. r.0.token.value.bytes.items ≡ r.1.items) }
        ensures shown { IfOk result (λ r. Shows images.now r.0.token) }
        ensures index { IfOk result (λ r.
            get nat_cmp self.now.tables number ≡ Some r.0.token.index) }
        ensures missing { get nat_cmp self.now.tables number ≡ None
            → IsErrOf result ShelfFault.Missing }
        ensures cause { IfErr result (λ e. NotTaken e × NotDevice e) }
    {
        let token = self.find(images, number).ok_or(ShelfFault::Missing)?;
        let image = images.value(&token);
        let size = image.bytes.len() as u64;
        let bytes = Vec::from_slice(alloc, image.bytes.as_slice())?;
        let receipt = MemoryReceipt {
            number,
            size,
            token,
        };
        Ok((receipt, bytes))
    }

    /// Takes a number off the list. Answers the number that it was asked to take off too.
    pub(crate) fn remove(&mut self, number: u64) -> (Tag, Result<(), ShelfFault>)
        ensures asked { result.0.numbers ≡ number ∷ [] }
        ensures gone { get nat_cmp self.new.tables number ≡ None }
        ensures others { (n : ℕ) → n ≢ number
            → get nat_cmp self.new.tables n ≡ get nat_cmp self.old.tables n }
        ensures manifest { self.new ≡ record self.old { tables = self.new.tables } }
        ensures missing { IsErrOf result.1 ShelfFault.Missing
            ↔ (get nat_cmp self.old.tables number ≡ None) }
        ensures cause { IfErr result.1 (λ e. e ≡ ShelfFault.Missing) }
    {
        let was = self.tables.remove(&number);
        (
            tag_of_number(number),
            was.map(|_| ()).ok_or(ShelfFault::Missing),
        )
    }

    /// The numbers that are listed, ascending.
    pub(crate) fn list(&self, alloc: Global) -> Result<Vec<u64>, AllocError>
        ensures all { IfOk result (λ v. v.items ≡ keys self.now.tables) }
        ensures ascending { IfOk result (λ v. IsStrictlyIncreasing v.items) }
    {
        self.tables.keys().copied().collect(alloc)
    }

    /// Number and bytes of the manifest.
    pub(crate) fn read(&self, alloc: Global) -> Result<(u64, Vec<u8>), ShelfFault>
        ensures ok { IfOk result (λ r. manifest_of self.now ≡ Some (r.0, r.1.items)) }
        ensures missing { IsErrOf result ShelfFault.Missing ↔ (manifest_of self.now ≡ None) }
        ensures device { IfErr result NotDevice }
        ensures memory { IfSome (manifest_of self.now) (λ m.
            IfErr result (λ e. e ≡ ShelfFault.OutOfMemory)) }
    {
        match &self.manifest {
            None => Err(ShelfFault::Missing),
            Some(m) => Ok((m.number, Vec::from_slice(alloc, m.bytes.as_slice())?)),
        }
    }

    /// Makes these bytes the manifest. Answers the bytes that it has then.
    pub(crate) fn start(
        &mut self,
        alloc: Global,
        number: u64,
        bytes: &[u8],
    ) -> Result<Tag, ShelfFault>
        ensures ok { IfOk result (λ t. (t.numbers ≡ bytes.now)
            × (manifest_of self.new ≡ Some (number, bytes.now))) }
        ensures taken { IsErrOf result (ShelfFault.Taken number)
            ↔ IsSomeAnd (manifest_of self.old) (λ m. m.0 ≡ number) }
        ensures cause { IfErr result (TakenIs number) }
        ensures device { IfErr result NotDevice }
        ensures err { OnErr result (self.new ≡ self.old) }
        ensures tables { self.new.tables ≡ self.old.tables }
    {
        if let Some(named) = &self.manifest
            && named.number == number
        {
            return Err(ShelfFault::Taken(number));
        }
        let sent = tag_of_bytes(bytes);
        let bytes = Vec::from_slice(alloc, bytes)?;
        self.manifest = Some(Manifest { number, bytes });
        Ok(sent)
    }

    /// Puts bytes behind those of the manifest. Answers the bytes that it put there.
    pub(crate) fn append(&mut self, bytes: &[u8]) -> Result<Tag, ShelfFault>
        ensures ok { IfOk result (λ t. (t.numbers ≡ bytes.now) × IfSome (manifest_of self.old) (λ m.
            manifest_of self.new ≡ Some (m.0, m.1 ++ bytes.now))) }
        ensures missing { IsErrOf result ShelfFault.Missing ↔ (manifest_of self.old ≡ None) }
        ensures cause { IfErr result NotTaken }
        ensures device { IfErr result NotDevice }
        ensures err { OnErr result (manifest_of self.new ≡ manifest_of self.old) }
        ensures tables { self.new.tables ≡ self.old.tables }
    {
        match &mut self.manifest {
            None => Err(ShelfFault::Missing),
            Some(m) => {
                m.bytes.extend_from_slice(bytes)?;
                Ok(tag_of_bytes(bytes))
            }
        }
    }
}
