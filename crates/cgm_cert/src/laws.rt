//! Laws of certificates, as functions that do nothing.
ghost use Rattle.std.specs.Prelude.{◌≡◌, ℕ, List};
ghost use Rattle.cgm_atom.specs.declared.entries.Entry.{Entry};
ghost use Rattle.cgm_cert.specs.declared.stop.CertKind.{CertKind};
ghost use Rattle.cgm_cert.specs.Fault.{IsTextOf, HasFault};

/// The law that a text is that of one list of entries at most.
pub fn text_has_one_list()
    ensures { (text : List ℕ) (one other : List Entry) → IsTextOf text one → IsTextOf text other
        → one ≡ other }
{}

/// The law that a text which is that of entries has no fault.
pub fn text_has_entries_or_fault()
    ensures { (text : List ℕ) (entries : List Entry) (line : ℕ) (kind : CertKind)
        → IsTextOf text entries → ¬ HasFault text line kind }
{}

/// The law that no text lacks both: where it is that of no entries, it can't be that it has no fault.
pub fn text_lacks_not_both()
    ensures { (text : List ℕ) → ((entries : List Entry) → ¬ IsTextOf text entries)
        → ((line : ℕ) (kind : CertKind) → ¬ HasFault text line kind) → ⊥ }
{}

/// The law that a text has one first fault at most: its line and its kind are determined.
pub fn text_has_one_fault()
    ensures { (text : List ℕ) (line other : ℕ) (kind other_kind : CertKind) → HasFault text line
        kind
        → HasFault text other other_kind → (line ≡ other) × (kind ≡ other_kind) }
{}
