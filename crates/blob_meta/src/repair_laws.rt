//! What repairs make of metadata: contracts of functions that do nothing.

ghost use Rattle.std.specs.Prelude.{◌≡◌, ◌%◌, ℕ, List, [], Option, Some, None, take, codes};
ghost use Rattle.std.specs.List.{All};
ghost use Rattle.volume_model.specs.Xattrs.{value_of};
ghost use Rattle.blob_meta.specs.declared.meta.Meta.{Meta};
ghost use Rattle.blob_meta.specs.Repairs.{after, repairs, HasHeadsBelow, HasNoMarks};
ghost use Rattle.blob_meta.specs.Resolving.{mark_of, resolved};

/// After any number of the repairs, made in their order, resolving gives the same; all of them give what is resolved.
pub fn repairs_may_be_cut_off()
    ensures same { (md_len : ℕ) (metas : ℕ → Option Meta) → HasHeadsBelow md_len metas → (count h : ℕ)
        → resolved (after metas (take count (repairs md_len metas))) h ≡ resolved metas h }
    ensures all { (md_len : ℕ) (metas : ℕ → Option Meta) → HasHeadsBelow md_len metas → (h : ℕ)
        → after metas (repairs md_len metas) h ≡ resolved metas h }
{}

/// Metadata without marks has no repairs and is resolved as it is, and only such metadata has none.
pub fn marks_alone_are_repaired()
    ensures none { (md_len : ℕ) (metas : ℕ → Option Meta) → HasNoMarks metas → repairs md_len metas ≡ [] }
    ensures same { (metas : ℕ → Option Meta) → HasNoMarks metas → (h : ℕ) → resolved metas h ≡ metas h }
    ensures only { (md_len : ℕ) (metas : ℕ → Option Meta) → HasHeadsBelow md_len metas → repairs md_len metas ≡ []
        → HasNoMarks metas }
{}

/// A blob that is erased isn't in the result, and one whose marks are lifted is there without them.
pub fn repairs_give_what_is_resolved()
    ensures { (md_len : ℕ) (metas : ℕ → Option Meta)
        → All (λ x. x.new ≡ resolved metas x.head) (repairs md_len metas) }
{}

/// A blob of the result has neither mark, and is read-only where it had one.
pub fn resolved_blobs_have_no_marks()
    ensures removed { (metas : ℕ → Option Meta) (h : ℕ) (m : Meta) → resolved metas h ≡ Some m
        → value_of m.internal (codes "SNAPRM") ≡ None }
    ensures made { (metas : ℕ → Option Meta) (h : ℕ) (m : Meta) → resolved metas h ≡ Some m
        → value_of m.internal (codes "SNAPTMP") ≡ None }
    ensures read_only { (metas : ℕ → Option Meta) (h : ℕ) (m n : Meta) (mark : List ℕ) → metas h ≡ Some m
        → mark_of m ≡ Some mark → resolved metas h ≡ Some n → n.flags.data_ro % 2 ≡ 1 }
{}
