//! Laws of the grammar: each is the contract of an empty function.

ghost use Rattle.std.specs.Prelude.{◌≡◌, ◌≤◌, ◌⊎◌, ℕ, List, length};
ghost use Rattle.pst_sexpr.specs.declared.reader.SexprFault.{SexprFault};
ghost use Rattle.pst_sexpr.specs.declared.form.Form.{Form};
ghost use Rattle.pst_sexpr.specs.Reading.{max_bytes, Spells, IsFault};

/// Bytes spell one list of trees at most.
pub fn bytes_have_one_reading()
    ensures { (bytes : List ℕ) (trees others : List Form) →
        Spells bytes trees → Spells bytes others → trees ≡ others }
{}

/// Bytes have one fault at most.
pub fn bytes_have_one_fault()
    ensures { (bytes : List ℕ) (fault other : SexprFault) →
        IsFault bytes fault → IsFault bytes other → fault ≡ other }
{}

/// Bytes within the size spell trees or have a fault.
pub fn bytes_have_trees_or_fault()
    ensures { (bytes : List ℕ) → length bytes ≤ max_bytes →
        ((trees : List Form) × Spells bytes trees) ⊎ ((fault : SexprFault) × IsFault bytes fault) }
{}

/// Bytes within the size never do both.
pub fn bytes_with_trees_have_no_fault()
    ensures { (bytes : List ℕ) (trees : List Form) (fault : SexprFault) → length bytes ≤ max_bytes →
        Spells bytes trees → IsFault bytes fault → ⊥ }
{}
