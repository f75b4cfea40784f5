//! The files of a folder in memory, and their names.

ghost use Rattle.std.specs.Prelude.{◌≡◌, ℕ, ◌<◌, ◌∷◌, ◌++◌, [], Some, None, List, length};
ghost use Rattle.std.specs.Prelude.{slice_index_or, slice_set, IfOk, OnOk, string_bytes};
ghost use Rattle.std.specs.Prelude.{if◌then◌else◌};
ghost use Rattle.std.specs.BTreeMap.{get_by_text};
ghost use Rattle.std.specs.Vec.{vec_len};
ghost use Rattle.lsm_folder.specs.Directory.{IsCopy, Moves, Names};

use crate::file::File;
use crate::image::Image;
use boxcar::Pushed;
use std::alloc::{AllocError, Global};
use std::collections::BTreeMap;

/// Files by number, also those that no name has; the files of the names; and those of the names
/// that are durable.
#[derive(Drop)]
pub(crate) struct Directory {
    pub(crate) files: Vec<File>,
    pub(crate) names: BTreeMap<String, usize>,
    pub(crate) durable: BTreeMap<String, usize>,
}

impl Directory {
    /// No files.
    pub(crate) fn new(alloc: Global) -> Directory
        ensures files { result.files.items ≡ [] }
        ensures names { (q : List ℕ) → get_by_text result.names q ≡ None }
        ensures durable { (q : List ℕ) → get_by_text result.durable q ≡ None }
    {
        Directory {
            files: Vec::new(alloc),
            names: BTreeMap::new(alloc),
            durable: BTreeMap::new(alloc),
        }
    }

    /// The number of the file of this name.
    pub(crate) fn find(&self, name: &str) -> Option<usize>
        ensures { result ≡ get_by_text self.now.names name.now }
    {
        self.names.get(name).copied()
    }

    /// How many bytes of a file are durable, and 0 where there is no such file.
    pub(crate) fn durable_of(&self, number: usize) -> usize
        ensures { (file : _) → (number < length self.now.files.items)
            → result ≡ (slice_index_or self.now.files.items number file).durable }
    {
        match self.files.get(number) {
            Some(file) => file.durable,
            None => 0,
        }
    }

    /// Adds a file with these bytes, of which so many are durable, and gives it the name.
    pub(crate) fn add(
        &mut self,
        name: String,
        token: Pushed<Image>,
        durable: usize,
    ) -> Result<(), AllocError>
        ensures files { OnOk result (self.new.files.items
            ≡ self.old.files.items ++ (record { token = token; durable = durable } ∷ [])) }
        ensures names { OnOk result (Names self.old.names self.new.names (string_bytes name)
            (Some (vec_len self.old.files))) }
        ensures durable { self.new.durable ≡ self.old.durable }
    {
        let number = self.files.len();
        self.files.push(File { token, durable })?;
        self.names.insert(name, number)?;
        Ok(())
    }

    /// Gives a file these bytes, of which so many are durable.
    pub(crate) fn replace(&mut self, number: usize, token: Pushed<Image>, durable: usize)
        ensures file { number < length self.old.files.items → self.new.files.items
            ≡ slice_set self.old.files.items number (record { token = token; durable = durable }) }
        ensures names { self.new.names ≡ self.old.names }
        ensures durable { self.new.durable ≡ self.old.durable }
    {
        if number < self.files.len() {
            self.files[number] = File { token, durable };
        }
    }

    /// Gives the first name's file the second name.
    pub(crate) fn rename(&mut self, from: &str, to: String, number: usize) -> Result<(), AllocError>
        requires { get_by_text self.old.names from.now ≡ Some number }
        ensures names { OnOk result
            (Moves self.old.names self.new.names from.now (string_bytes to)) }
        ensures files { self.new.files ≡ self.old.files }
        ensures durable { self.new.durable ≡ self.old.durable }
    {
        self.names.insert(to, number)?;
        self.names.remove(from);
        Ok(())
    }

    /// Takes a name away.
    pub(crate) fn remove(&mut self, name: &str)
        ensures names { Names self.old.names self.new.names name.now None }
        ensures files { self.new.files ≡ self.old.files }
        ensures durable { self.new.durable ≡ self.old.durable }
    {
        self.names.remove(name);
    }

    /// Makes the names durable.
    pub(crate) fn keep_names(&mut self) -> Result<(), AllocError>
        ensures durable { OnOk result (IsCopy self.old.names self.new.durable) }
        ensures names { self.new.names ≡ self.old.names }
        ensures files { self.new.files ≡ self.old.files }
    {
        self.durable = self.names.clone()?;
        Ok(())
    }

    /// The names that a crash leaves: all, or those that are durable.
    pub(crate) fn names_after(&self, names_stay: bool) -> &BTreeMap<String, usize>
        ensures { result.now ≡ (if names_stay then self.now.names else self.now.durable) }
    {
        if names_stay {
            &self.names
        } else {
            &self.durable
        }
    }

    /// The names.
    pub(crate) fn listed(&self, alloc: Global) -> Result<Vec<String>, AllocError> {
        let mut listed = Vec::new(alloc);
        for name in self.names.keys() {
            listed.push(name.clone()?)?;
        }
        Ok(listed)
    }
}
