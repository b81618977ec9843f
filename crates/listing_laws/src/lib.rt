//! What the texts of a listing tell: laws as contracts of functions that do nothing.
#![tactic(auto)]

ghost use Rattle.std.specs.Prelude.{◌≡◌, map as each};
ghost use Rattle.std.specs.FinMap as map;
ghost use Rattle.super_block.specs.declared.masks.Masks.{Masks};
ghost use Rattle.super_block.specs.declared.page.Super.{Super};
ghost use Rattle.blob_meta.specs.Resolving.{IsLawful};
ghost use Rattle.blob_report.specs.StoreText.{MetasByHead};
ghost use Rattle.listing_text.specs.Forest.{forest_of};
ghost use Rattle.listing_text.specs.Json.{json_of};
ghost use Rattle.listing_text.specs.Listing.{Listing, listing_in};
ghost use Rattle.listing_text.specs.Tree.{node_by};
ghost use Rattle.listing_laws.specs.Fitting.{FitsListing};
ghost use Rattle.listing_laws.specs.Trees.{IsForestOf};

/// Each text of JSON is that of one listing: who reads it has every value that is listed.
pub fn json_is_of_one_listing()
    ensures { (a b : Listing) → FitsListing a → FitsListing b → json_of a ≡ json_of b → a ≡ b }
{}

/// The tree of a store, as each load finds it, has each volume once, below its parent.
pub fn each_volume_stands_once_in_a_tree()
    ensures { (sup : Super) (metas : MetasByHead) (masks : Masks) → IsLawful sup.md_len (map.get metas)
        → let nodes = each node_by (listing_in sup metas masks).volumes in IsForestOf nodes (forest_of nodes) }
{}
