//! Laws of the super block's definitions.

ghost use Rattle.std.specs.Prelude.{◌≡◌, ◌↔◌, ℕ, IsTrue};
ghost use Rattle.super_block.specs.Faults.{IsFaultless};
ghost use Rattle.super_block.specs.Layout.{IsPlanned};
ghost use Rattle.super_block.specs.Placed.{Covers, IsLaidOut, IsPlaced};
ghost use Rattle.super_block.specs.Span.{shares};
ghost use Rattle.super_block.specs.declared.layout.Layout.{Layout};
ghost use Rattle.super_block.specs.declared.page.Super.{Super};
ghost use Rattle.super_block.specs.declared.span.Span.{Span};

/// The regions of a super block without fault lie apart, in the fixed clusters, and the clusters lie on the device.
pub fn regions_are_placed()
    ensures { (s : Super) → IsFaultless s → IsPlaced s }
{}

/// The regions of a planned store stand one behind the other, and end on the device.
pub fn layouts_are_placed()
    ensures { (plan : Layout) → IsPlanned plan → IsLaidOut plan }
{}

/// The test of two regions says whether some page is in both.
pub fn shared_pages()
    ensures { (a b : Span) → IsTrue (shares a b) ↔ ((page : ℕ) × (Covers a page × Covers b page)) }
{}
