//! Files in memory by their names.
ghost use Rattle.std.specs.Prelude.{◌≡◌, ℕ, List, None, OnOk, OnErr, option_copied};

use std::alloc::{AllocError, Global};
use std::collections::BTreeMap;

/// Files in memory by their names.
#[derive(Drop)]
pub(crate) struct Named {
    alloc: Global,
    files: BTreeMap<String, Vec<u8>>,
}

impl Named {
    ghost use Rattle.pi_outside.specs.Named.{added_files, with_file};

    /// No files.
    pub(crate) fn new(alloc: Global) -> Named
        ensures { (name : List ℕ) → added_files result name ≡ None }
    {
        Named {
            alloc,
            files: BTreeMap::new(alloc),
        }
    }

    /// Adds a file, in the place of any that has its name.
    pub(crate) fn add(&mut self, name: &str, bytes: &[u8]) -> Result<(), AllocError>
        ensures ok { OnOk result ((other : List ℕ) → added_files self.new other ≡
            with_file (added_files self.old) name.now bytes.now other) }
        ensures err { OnErr result ((other : List ℕ) → added_files self.new other ≡ added_files self.old other) }
    {
        let key = String::from_str(self.alloc, name)?;
        let file = bytes.to_vec(self.alloc)?;
        self.files.insert(key, file)?;
        Ok(())
    }

    /// The bytes of the file of this name.
    pub(crate) fn get(&self, name: &str) -> Option<&[u8]>
        ensures { option_copied result ≡ added_files self.now name.now }
    {
        match self.files.get(name) {
            Some(file) => Some(file.as_slice()),
            None => None,
        }
    }
}
