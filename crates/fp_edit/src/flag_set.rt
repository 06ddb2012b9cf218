//! Sets of flags.

ghost use Rattle.std.specs.Prelude.{◌≡◌, ◌+◌, ◌<◌, ◌≤◌, ◌↔◌, length, true, None};
ghost use Rattle.std.specs.Prelude.{IsTrue, All, IfSome, IfOk, OnOk, OnErr, IfErr};
ghost use Rattle.std.specs.List.{AllByRecursion};
ghost use Rattle.std.specs.List.Sorted.{IsStrictlySortedBy};
ghost use Rattle.std.specs.Map.{keys_of};
ghost use Rattle.std.specs.Option.{option_copied};
ghost use Rattle.std.specs.FinMap as map;
ghost use Rattle.fp_base.specs.Bytes.{bytes_cmp};
ghost use Rattle.fp_definition.specs.Key.{key_bytes};
ghost use Rattle.fp_edit.specs.Admits.{Admits, accepted, IsRefused, has_revision, has_room};
ghost use Rattle.fp_edit.specs.Admits.{is_within, next, refusal};
ghost use Rattle.fp_documents.specs.Entries.{entries_of, flags_of};
ghost use Rattle.fp_edit.specs.Edits.{joint, one, parts, proposal_of, set};
ghost use Rattle.fp_edit.specs.Parts.{any_put, delete, parts_of, put};
ghost use Rattle.fp_edit.specs.Following.{change_of};
ghost use Rattle.fp_edit.specs.Flags.{State, IsChangedBy, cost_found, size as size_of, total_cost};
ghost use Rattle.fp_documents.specs.declared.flags.Flag.{Flag};
ghost use Rattle.fp_documents.specs.declared.flags.TheConstants.{IMAGE_HEAD};

use crate::changes::Changes;
use crate::edit::{Edit, EditFault, REVISIONS_END};
use crate::sums::size_of_flags;
use crate::walks::{make_deletes, make_puts};
use fp_definition::{Definition, FlagKey};
use fp_documents::{Flag, IMAGE_HEAD, copy_of, cost_at, cost_of, count, find, store, take};
use std::alloc::{AllocError, AllocFailed, Global};
use std::collections::BTreeMap;
use std::collections::btree_map::Iter;
use std::marker::Model;

/// The most flags that a set has.
pub const MOST_FLAGS: usize = 4_096;

/// Flags by their keys, the revision that they are at, and the limit of the image that they take.
#[derive(Drop)]
pub struct FlagSet {
    pub(crate) flags: BTreeMap<FlagKey, Flag>,
    pub(crate) revision: u64,
    pub(crate) limit: u64,
    pub(crate) size: u64,
    // Whether it is known that the last edit marked one flag at most: then a document of the set
    // before it is changed in one place.
    pub(crate) marks_one: bool,
    pub(crate) alloc: Global,
}

impl Model for FlagSet {
    ghost use Rattle.fp_edit.specs.Flags.{State, coded_state, IsTallied, size as size_of};
    ghost use Rattle.fp_documents.specs.Entries.{flags_of};
    ghost use Rattle.fp_edit.specs.Outline.{MarksOne};

    ghost Value = { State };

    ghost coded = { coded_state };

    ghost view = { λ a.
        record { flags = flags_of a.flags.entries; revision = a.revision; limit = a.limit } };

    ghost use Rattle.std.specs.BTreeMap.{IsOrdered};
    ghost use Rattle.fp_definition.specs.Key.{flag_cmp};

    ghost invariant = { λ a. IsOrdered flag_cmp a.flags
        × IsTallied (flags_of a.flags.entries) a.revision a.limit a.size
        × MarksOne a.marks_one a.revision (flags_of a.flags.entries) };
}

impl FlagSet {
    /// No flags, at revision 0, under a limit of the image in bytes; below 22 it leaves room for no
    /// flag. It takes no memory.
    pub fn new(alloc: Global, limit: u64) -> FlagSet
        ensures { result ≡ record { flags = map.empty; revision = 0; limit = limit } }
    {
        FlagSet::at_revision(alloc, 0, limit)
    }

    /// No flags, at a revision that was made before, under a limit of the image in bytes. `restore`
    /// brings back the flags of that revision.
    pub fn at_revision(alloc: Global, revision: u64, limit: u64) -> FlagSet
        // It is a revision, or 0: below 2^63.
        requires { revision < REVISIONS_END }
        ensures { result ≡ record { flags = map.empty; revision = revision; limit = limit } }
    {
        FlagSet {
            flags: BTreeMap::new(alloc),
            revision,
            limit,
            size: IMAGE_HEAD,
            marks_one: true,
            alloc,
        }
    }

    /// The set's revision: the number of edits that were accepted so far.
    pub fn revision(&self) -> u64
        ensures revision { result ≡ self.now.revision }
        // It is below 2^63.
        ensures bounded { result < REVISIONS_END }
    {
        self.revision
    }

    /// The limit of the image, in bytes.
    pub fn limit(&self) -> u64
        ensures { result ≡ self.now.limit }
    {
        self.limit
    }

    /// The bytes of the set's image. They are kept as edits come, and cost nothing to ask for.
    pub fn size(&self) -> u64
        ensures size { result ≡ size_of self.now.flags }
        // A limit of 4 bytes or more is kept.
        ensures within { IMAGE_HEAD ≤ self.now.limit → result ≤ self.now.limit }
    {
        self.size
    }

    /// The number of flags.
    pub fn len(&self) -> usize
        ensures len { result ≡ map.len self.now.flags }
        // At most 4,096.
        ensures bounded { result ≤ MOST_FLAGS }
    {
        count(&self.flags)
    }

    /// Whether there is no flag.
    pub fn is_empty(&self) -> bool
        ensures { IsTrue result ↔ (map.len self.now.flags ≡ 0) }
    {
        self.len() == 0
    }

    /// The key's flag, `None` exactly where there is none.
    pub fn get(&self, key: &FlagKey) -> Option<&Flag>
        ensures flag { option_copied result ≡ map.get self.now.flags (key_bytes key.now) }
        // Its mark, the revision that changed it last, lies from 1 to the set's revision.
        ensures changed { IfSome result (λ f. IsChangedBy self.now.revision f.now) }
    {
        find(&self.flags, key)
    }

    /// The flags with their keys, in ascending order of the keys' bytes.
    pub fn iter(&self) -> Iter<'_, FlagKey, Flag>
        ensures entries { entries_of result ≡ map.entries self.now.flags }
        // The mark of each, the revision that changed it last, lies from 1 to the set's revision.
        ensures changed { All (λ e. IsChangedBy self.now.revision e.1) result }
    {
        self.flags.iter()
    }

    /// An equal set, which shares the definitions.
    pub fn try_copy(&self) -> Result<FlagSet, AllocError>
        ensures { IfOk result (λ copy. copy ≡ self.now) }
    {
        Ok(FlagSet {
            flags: copy_of(self.alloc, &self.flags)?,
            revision: self.revision,
            limit: self.limit,
            size: self.size,
            marks_one: self.marks_one,
            alloc: self.alloc,
        })
    }

    /// Makes an edit, and answers the revision that it made. All changes of a change set are made,
    /// under one revision, or none.
    pub fn admit(&mut self, edit: Edit) -> Result<u64, (EditFault, Edit)>
        // `Ok`: the edit meets every test, and the set is the state after it.
        ensures admitted { OnOk result (Admits self.old (proposal_of edit) (accepted self.new)) }
        // `Ok`: that state's revision.
        ensures revision { IfOk result (λ r. r ≡ self.new.revision) }

        // `Err`: the first test not met: each key as expected, of a change set with the place of
        // the first that isn't; room; a revision left. `Memory` comes only to an edit that puts a
        // flag and meets all.
        ensures refused { IfErr result (λ p. IsRefused self.old (proposal_of edit) p.0) }
        // An `Err` gives the edit back.
        ensures given_back { IfErr result (λ p. p.1 ≡ edit) }
        // An `Err` leaves the set as it was.
        ensures unchanged { OnErr result (self.new ≡ self.old) }
    {
        if let Some(fault) = self.judge(&edit) {
            return Err((fault, edit));
        }
        match self.make(edit) {
            Ok(revision) => Ok(revision),
            Err(edit) => Err((EditFault::Memory, edit)),
        }
    }

    /// Makes an edit that nothing stands against, as `judge` tells, and answers the revision that
    /// it made. An `Err` is want of memory.
    pub fn make(&mut self, edit: Edit) -> Result<u64, Edit>
        // It meets every test in this set.
        requires { refusal self.old (proposal_of edit) ≡ None }
        // `Ok`: the set is the state after the edit: all changes of a set are made, under one
        // revision.
        ensures admitted { OnOk result (Admits self.old (proposal_of edit) (accepted self.new)) }
        // `Ok`: that state's revision.
        ensures revision { IfOk result (λ r. r ≡ self.new.revision) }
        // `Err`: the edit puts a flag.
        ensures put { OnErr result (any_put (parts (change_of edit)) ≡ true) }
        // An `Err` gives the edit back.
        ensures given_back { IfErr result (λ e. e ≡ edit) }
        // An `Err` leaves the set as it was.
        ensures unchanged { OnErr result (self.new ≡ self.old) }
    {
        match edit {
            Edit::Put { key, flag, expect } => match self.put(key, flag) {
                Ok(()) => Ok(self.revision),
                Err((key, flag)) => Err(Edit::Put { key, flag, expect }),
            },
            Edit::Delete { key, .. } => {
                self.remove(&key);
                Ok(self.revision)
            }
            Edit::Set(changes) => match self.make_all(changes) {
                Ok(()) => Ok(self.revision),
                Err(changes) => Err(Edit::Set(changes)),
            },
        }
    }

    // Makes all changes of a set, or none. Its keys are all others, so that what may lack memory can
    // come first.
    fn make_all(&mut self, changes: Changes) -> Result<(), Changes>
        requires { refusal self.old (joint changes) ≡ None }
        ensures made { OnOk result (self.new ≡ next self.old (set (parts_of changes))) }
        ensures put { OnErr result (any_put (parts_of changes) ≡ true) }
        ensures given_back { IfErr result (λ c. c ≡ changes) }
        ensures unchanged { OnErr result (self.new ≡ self.old) }
    {
        let revision = self.revision + 1;
        let mut changes = changes.into_changes();
        let marks_one = changes.len() == 1;
        let Ok(shift) = make_puts(&mut self.flags, changes.as_mut_slice(), revision) else {
            return Err(Changes::of_lawful(changes));
        };
        let gone = shift.gone + make_deletes(&mut self.flags, changes.as_slice());
        self.size = (self.size as u128 + shift.come - gone) as u64;
        self.revision = revision;
        self.marks_one = marks_one;
        Ok(())
    }

    /// Brings back a flag that an image holds, with the revision that changed it last. This is no
    /// edit: the revision stays.
    pub fn restore(&mut self, key: FlagKey, flag: Flag) -> Result<(), AllocError>
        // That mark lies from 1 to the set's revision.
        requires changed { IsChangedBy self.old.revision flag }
        // With the flag the set is within its limits.
        requires room { is_within (map.insert self.old.flags (key_bytes key) flag) self.old.limit
            ≡ true }
        // `Ok`: the flag stands under the key with its mark, at the same revision.
        ensures restored { OnOk result
            (self.new ≡ record {
              flags = map.insert self.old.flags (key_bytes key) flag;
              revision = self.old.revision;
              limit = self.old.limit;
            }) }
        // An `Err` leaves the set as it was.
        ensures unchanged { OnErr result (self.new ≡ self.old) }
    {
        let revision = self.revision;
        self.store_at(key, flag, revision)?;
        Ok(())
    }

    /// The set of flags that an image holds, at a revision that was made before, under a limit of
    /// the image in bytes.
    pub fn of_flags(
        alloc: Global,
        revision: u64,
        limit: u64,
        flags: Vec<(FlagKey, Flag)>,
    ) -> Result<FlagSet, AllocError>
        // It is a revision, or 0: below 2^63.
        requires numbered { revision < REVISIONS_END }
        // The keys ascend, each key once.
        requires ascending { IsStrictlySortedBy bytes_cmp (keys_of (entries_of flags.items)) }
        // The mark of each, the revision that changed it last, lies from 1 to this one.
        requires changed { AllByRecursion (λ e. IsChangedBy revision e.1)
            (entries_of flags.items) }
        // They are at most 4,096.
        requires few { length flags.items ≤ MOST_FLAGS }
        // Their image is within the limit.
        requires room { IMAGE_HEAD + total_cost (entries_of flags.items) ≤ limit }
        // `Ok`: it has these flags, at that revision and under that limit.
        ensures made { IfOk result (λ set. set ≡ record {
          flags = flags_of flags.items;
          revision = revision;
          limit = limit;
        }) }
        // `Ok`: they stand in it in this order.
        ensures entries { IfOk result (λ set. map.entries set.flags ≡ entries_of flags.items) }
    {
        let size = size_of_flags(&flags);
        let flags = flags.into_iter().collect(alloc)?;
        Ok(FlagSet {
            flags,
            revision,
            limit,
            size,
            marks_one: false,
            alloc,
        })
    }

    /// What the key's flag takes in the image, 0 without one.
    pub fn cost_at(&self, key: &FlagKey) -> u128
        ensures { result ≡ cost_found (key_bytes key.now)
            (map.get self.now.flags (key_bytes key.now)) }
    {
        cost_at(&self.flags, key)
    }

    fn put(&mut self, key: FlagKey, flag: Definition) -> Result<(), (FlagKey, Definition)>
        requires revision { has_revision self.old ≡ true }
        requires room { has_room self.old (one (put (key_bytes key) flag)) ≡ true }
        ensures put { OnOk result (self.new ≡ next self.old (one (put (key_bytes key) flag))) }
        ensures unchanged { OnErr result (self.new ≡ self.old) }
        ensures given_back { IfErr result (λ p. p ≡ (key, flag)) }
    {
        let revision = self.revision + 1;
        let flag = Flag {
            definition: flag,
            changed: revision,
        };
        match self.store_at(key, flag, revision) {
            Ok(()) => Ok(()),
            Err(e) => {
                let (key, flag) = e.value;
                Err((key, flag.definition))
            }
        }
    }

    // Stores a flag, and is at this revision then.
    fn store_at(
        &mut self,
        key: FlagKey,
        flag: Flag,
        revision: u64,
    ) -> Result<(), AllocFailed<(FlagKey, Flag)>>
        requires revision { (self.old.revision ≤ revision) × (revision < REVISIONS_END) }
        requires changed { IsChangedBy revision flag }
        requires room { is_within (map.insert self.old.flags (key_bytes key) flag) self.old.limit
            ≡ true }
        ensures stored { OnOk result
            (self.new ≡ record {
              flags = map.insert self.old.flags (key_bytes key) flag;
              revision = revision;
              limit = self.old.limit;
            }) }
        ensures unchanged { OnErr result (self.new ≡ self.old) }
        ensures given_back { IfErr result (λ e. e.value ≡ (key, flag)) }
    {
        let cost = cost_of(&key, &flag.definition);
        let before = store(&mut self.flags, key, flag)?;
        self.size = (self.size as u128 + cost - before) as u64;
        self.marks_one = self.revision < revision;
        self.revision = revision;
        Ok(())
    }

    fn remove(&mut self, key: &FlagKey)
        requires { has_revision self.old ≡ true }
        ensures { self.new ≡ next self.old (one (delete (key_bytes key.now))) }
    {
        let gone = take(&mut self.flags, key) as u64;
        self.size -= gone;
        self.revision += 1;
        self.marks_one = true;
    }
}
