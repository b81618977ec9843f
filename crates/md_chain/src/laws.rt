//! The laws of chains.

ghost use Rattle.std.specs.Prelude.{◌≡◌, ◌+◌, ◌<◌, ◌^◌, ℕ, List, length};
ghost use Rattle.std.specs.List.{All};
ghost use Rattle.descriptors.specs.declared.item.Item.{Item};
ghost use Rattle.md_chain.specs.declared.fault.ChainFault.{ChainFault};
ghost use Rattle.blob_meta.specs.declared.meta.Meta.{Meta};
ghost use Rattle.blob_meta.specs.Items.{IsItemsOf};
ghost use Rattle.blob_meta.specs.Says.{meta_of};
ghost use Rattle.md_chain.specs.Chain.{Look, Chain, IsBroken, Agree};
ghost use Rattle.md_chain.specs.Packing.{ArePlannable, AreFew, FitsPage};
ghost use Rattle.md_chain.specs.Planned.{written_items};

/// A head has one chain, or one first fault, and not both. A chain is that of every image that has its pages.
pub fn chains()
    ensures one { (look : Look) (md_len head : ℕ) (xs ys : List Item) (ps qs : List ℕ) →
        Chain look md_len head xs ps → Chain look md_len head ys qs → (xs ≡ ys) × (ps ≡ qs) }
    ensures fault { (look : Look) (md_len head : ℕ) (f g : ChainFault) →
        IsBroken look md_len head f → IsBroken look md_len head g → f ≡ g }
    ensures either { (look : Look) (md_len head : ℕ) (xs : List Item) (ps : List ℕ) (f : ChainFault) →
        Chain look md_len head xs ps → IsBroken look md_len head f → ⊥ }
    ensures kept { (look other : Look) (md_len head : ℕ) (items : List Item) (pages : List ℕ) →
        Agree look other pages → Chain look md_len head items pages → Chain other md_len head items pages }
{}

/// The items that stand in the planned pages say the metadata that was planned, though its runs may have several
/// descriptors.
pub fn written_items_say()
    ensures { (head : ℕ) (items : List Item) → ArePlannable items
        → meta_of head (written_items items) ≡ meta_of head items }
{}

/// The items of metadata can be planned, where one page takes each attribute.
pub fn metadata_is_plannable()
    ensures plannable { (m : Meta) (items : List Item) → IsItemsOf m items → All FitsPage m.xattrs
        → All FitsPage m.internal → ArePlannable items }
    ensures few { (m : Meta) (items : List Item) → IsItemsOf m items
        → length m.xattrs + length m.internal + length m.map + 2 < 2 ^ 31 → AreFew items }
{}
