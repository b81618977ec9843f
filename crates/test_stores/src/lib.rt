//! Devices with a store, for tests, and what is found on a device.
#![tactic(auto)]

mod images;
mod looks;

pub use images::{
    LAST, NAMED, PageRow, READ_ONLY, THICK, THIN, fill, image, image_with_super, store, two_blobs,
    volume,
};
pub use looks::{
    ChainRow, are_same, expect_chains, expect_rows, expect_written, first_value, is_zeros,
};
