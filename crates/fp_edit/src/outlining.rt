//! The document of a set, and what a later set's is made of.

ghost use Rattle.std.specs.Prelude.{◌≡◌, ◌≤◌, ℕ, List, true, IfOk, OnOk, OnErr};
ghost use Rattle.std.specs.FinMap as map;
ghost use Rattle.fp_documents.specs.Document.{document};
ghost use Rattle.fp_documents.specs.Outline.{IsDocumentOf, Outlines, HasAsMany, changed_after};
ghost use Rattle.fp_documents.specs.declared.flags.Flag.{Flag};
ghost use Rattle.fp_edit.specs.Flags.{State};
ghost use Rattle.fp_edit.specs.Outline.{LeadsTo};

use crate::flag_set::FlagSet;
use fp_documents::{Document, document_after, document_of};
use std::alloc::AllocError;

impl FlagSet {
    /// The set's document, as canonical JSON: an object whose one member, `flags`, has each
    /// definition under its key.
    pub fn document(&self) -> Result<Vec<u8>, AllocError>
        ensures { IfOk result (λ text. text.items ≡ document self.now.flags) }
    {
        Ok(self.outlined()?.into_text())
    }

    /// The set's document with the places of the flags in it, so that a later document is made of
    /// it.
    pub fn outlined(&self) -> Result<Document, AllocError>
        ensures { IfOk result (λ d. IsDocumentOf d self.now) }
    {
        document_of(self.alloc, &self.flags, self.revision, self.size as usize)
    }

    /// The same, made of the document of an earlier set. Where the edits since put flags in place
    /// of flags, what stands between these is copied.
    pub fn outlined_after(&self, before: &Document) -> Result<Document, AllocError>
        // `before` is a document of a set from which edits lead to this one.
        requires { (s : State) × IsDocumentOf before.now s × LeadsTo s self.now }
        ensures { IfOk result (λ d. IsDocumentOf d self.now) }
    {
        if self.has_as_many_as(before) {
            let room = self.size as usize;
            let made = document_after(self.alloc, &self.flags, self.revision, room, before)?;
            if let Some(document) = made {
                return Ok(document);
            }
        }
        self.outlined()
    }

    /// Makes the document of an earlier set the document of this one. Where one edit put a flag in
    /// place of another, its part alone is written.
    pub fn outline_into(&self, document: &mut Document) -> Result<(), AllocError>
        // It is a document of a set from which edits lead to this one.
        requires { (s : State) × IsDocumentOf document.old s × LeadsTo s self.now }
        // `Ok`: it has become a document of this set.
        ensures made { OnOk result (IsDocumentOf document.new self.now) }
        // `Err`: it is still a document of each set that it was one of.
        ensures unchanged { OnErr result
            ((s : State) → IsDocumentOf document.old s → IsDocumentOf document.new s) }
    {
        // A text in twice the room that it needs isn't kept.
        if self.replaces_one_of(document) && document.room() / 2 <= self.size as usize {
            if document.put_changed(self.alloc, &self.flags, self.revision)? {
                return Ok(());
            }
        }
        *document = self.outlined_after(document)?;
        Ok(())
    }

    // Whether it is seen that one edit was made since that document, that it marked one flag at
    // most, and that there are as many flags.
    fn replaces_one_of(&self, before: &Document) -> bool
        requires { (s : State) × IsDocumentOf before.now s × LeadsTo s self.now }
        ensures { result ≡ true → (es : List (List ℕ × Flag)) × Outlines before.now es
            × HasAsMany before.now.revision es (map.entries self.now.flags)
            × changed_after before.now.revision (map.entries self.now.flags) ≤ 1 }
    {
        self.marks_one
            && self.revision.saturating_sub(before.revision()) == 1
            && self.has_as_many_as(before)
    }

    // Whether there are as many flags as that document shows. Those that weren't changed since are
    // in both, so that the keys are the same where those of the changed ones are.
    fn has_as_many_as(&self, before: &Document) -> bool
        requires { (s : State) × IsDocumentOf before.now s × LeadsTo s self.now }
        ensures { result ≡ true → (es : List (List ℕ × Flag)) × Outlines before.now es
            × HasAsMany before.now.revision es (map.entries self.now.flags) }
    {
        before.count() == self.len()
    }
}
