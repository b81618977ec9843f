//! Requests for pages, and the parts that they are split into.

use data_path::{Part, split};
use std::test::Fail;

/// A request, its first page and how many, the pages of a cluster, and the slot, first page and count of each part.
type Case = (u64, u32, u32, &'static [(u64, u32, u32)]);

const CASES: [Case; 7] = [
    (0, 0, 4, &[]),
    (0, 1, 4, &[(0, 0, 1)]),
    (3, 2, 4, &[(0, 3, 1), (1, 0, 1)]),
    (4, 4, 4, &[(1, 0, 4)]),
    (5, 8, 4, &[(1, 1, 3), (2, 0, 4), (3, 0, 1)]),
    (7, 3, 1, &[(7, 0, 1), (8, 0, 1), (9, 0, 1)]),
    (u64::MAX - 2, 2, 256, &[(72_057_594_037_927_935, 253, 2)]),
];

#[test]
fn a_request_is_split_by_clusters() -> Result<(), Fail> {
    for (page, count, cluster_pages, wanted) in &CASES {
        if *cluster_pages == 0 || *page > u64::MAX - u64::from(*count) {
            return Err(Fail::new("no request"));
        }
        let mut parts = split(*page, *count, *cluster_pages);
        for (slot, first, count) in *wanted {
            let part = Part {
                slot: *slot,
                first: *first,
                count: *count,
            };
            if parts.next() != Some(part) {
                return Err(Fail::new(format_args!("page {page}: another part than {slot}")));
            }
        }
        if parts.next().is_some() {
            return Err(Fail::new(format_args!("page {page}: a part too many")));
        }
    }
    Ok(())
}
