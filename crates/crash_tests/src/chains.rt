//! A volume whose metadata takes more than one page: which pages a put takes, and which it gives back.

use page_disk::PageDisk;
use std::alloc::Global;
use std::test::Fail;
use test_lines::{Letters, push_long, push_told};
use test_runs::play;
use test_stores::{ChainRow, expect_chains, expect_written, two_blobs, volume};

/// Puts on a store of so many metadata pages, whose volume has a value of 4062 bytes and a chain of the places 0 to 2.
/// Flags, name and uuid take 94 bytes, `k` 10 and its value, the two runs of the map 21, of which the second may stand
/// alone on a page.
struct Case {
    md_pages: u32,
    puts: &'static [Letters],
    printed: &'static [u8],
    value: Letters,
    chain: &'static [u32],
}

const CASES: [Case; 9] = [
    Case {
        md_pages: 16,
        puts: &[(b'y', 4062)],
        printed: b"0 0 ok\n",
        value: (b'y', 4062),
        chain: &[0, 3, 4],
    },
    Case {
        md_pages: 5,
        puts: &[(b'y', 4062)],
        printed: b"0 0 ok\n",
        value: (b'y', 4062),
        chain: &[0, 3, 4],
    },
    // The places 1 and 2 are clear again.
    Case {
        md_pages: 5,
        puts: &[(b'y', 4062), (b'z', 4062)],
        printed: b"0 0 ok\n0 1 ok\n",
        value: (b'z', 4062),
        chain: &[0, 1, 2],
    },
    // Three pages where none is clear, one, and three again.
    Case {
        md_pages: 3,
        puts: &[(b'y', 4062), (b'y', 1), (b'z', 4062), (b'z', 4061)],
        printed: b"0 0 no page\n0 1 ok\n0 2 ok\n0 3 no page\n",
        value: (b'z', 4062),
        chain: &[0, 1, 2],
    },
    // All on the head: 94 + 3957 + 21 = 4072.
    Case {
        md_pages: 3,
        puts: &[(b'y', 3947)],
        printed: b"0 0 ok\n",
        value: (b'y', 3947),
        chain: &[0],
    },
    // The second run doesn't fit.
    Case {
        md_pages: 4,
        puts: &[(b'y', 3948)],
        printed: b"0 0 ok\n",
        value: (b'y', 3948),
        chain: &[0, 3],
    },
    Case {
        md_pages: 3,
        puts: &[(b'y', 3948)],
        printed: b"0 0 no page\n",
        value: (b'x', 4062),
        chain: &[0, 1, 2],
    },
    // The attribute on a page with both runs: 4051 + 21 = 4072.
    Case {
        md_pages: 4,
        puts: &[(b'y', 4041)],
        printed: b"0 0 ok\n",
        value: (b'y', 4041),
        chain: &[0, 3],
    },
    Case {
        md_pages: 4,
        puts: &[(b'y', 4042)],
        printed: b"0 0 no page\n",
        value: (b'x', 4062),
        chain: &[0, 1, 2],
    },
];

/// The script of these puts.
fn script_of(alloc: Global, puts: &[Letters]) -> Result<Vec<u8>, Fail> {
    let mut script = Vec::new(alloc);
    for put in puts {
        push_long(&mut script, b"0 put @0 k t:", *put)?;
    }
    Ok(script)
}

/// What a look prints that finds this value.
fn told(alloc: Global, value: Letters) -> Result<Vec<u8>, Fail> {
    let mut told = Vec::new(alloc);
    push_told(alloc, &mut told, 0, Some(value))?;
    Ok(told)
}

/// Runs the puts of a case, and expects what they print, the value that a later run finds, and the chain.
fn expect_case(alloc: Global, case: &Case) -> Result<(), Fail> {
    let disk = volume(alloc, case.md_pages)?;
    let disk = play(alloc, &script_of(alloc, case.puts)?, case.printed, disk)?;
    let mut disk = play(alloc, b"0 getx @0 k\n", &told(alloc, case.value)?, disk)?;
    expect_written(&mut disk, case.md_pages, case.chain)?;
    expect_chains(alloc, disk, &[(0, case.chain)])
}

#[test]
fn a_put_takes_the_pages_that_it_needs_and_gives_the_old_ones_back(
    rt: HostRuntime,
) -> Result<(), Fail> {
    for case in &CASES {
        expect_case(rt.alloc(), case)?;
    }
    Ok(())
}

#[test]
fn a_put_without_page_leaves_the_device_alone(rt: HostRuntime) -> Result<(), Fail> {
    let alloc = rt.alloc();
    let script = script_of(alloc, &[(b'y', 4062)])?;
    for md_pages in 3..5 {
        let disk = play(alloc, b"", b"", volume(alloc, md_pages)?)?;
        let written = disk.clock();
        let disk = play(alloc, &script, b"0 0 no page\n", disk)?;
        // No job was made: the flush at the end of the run is the one call.
        assert_eq!(rt; Some(disk.clock()), written.checked_add(1));
    }
    Ok(())
}

/// A put of two blobs' store, what is printed for it, and the chains that stand after it.
struct Step {
    begin: &'static [u8],
    value: Letters,
    printed: &'static [u8],
    chains: &'static [ChainRow<'static>],
}

const STEPS: [Step; 4] = [
    Step {
        begin: b"0 put @1 k t:",
        value: (b'x', 4062),
        printed: b"0 0 ok\n",
        chains: &[(0, &[0]), (1, &[1, 2])],
    },
    Step {
        begin: b"0 put @0 k t:",
        value: (b'y', 4062),
        printed: b"0 1 ok\n",
        chains: &[(0, &[0, 3]), (1, &[1, 2])],
    },
    Step {
        begin: b"0 put @1 k t:",
        value: (b'1', 1),
        printed: b"0 2 ok\n",
        chains: &[(0, &[0, 3]), (1, &[1])],
    },
    Step {
        begin: b"0 put @0 k t:",
        value: (b'z', 4062),
        printed: b"0 3 ok\n",
        chains: &[(0, &[0, 2]), (1, &[1])],
    },
];

/// Each put takes the least places that are clear, which the other blob's chain leaves.
#[test]
fn two_blobs_share_the_clear_pages(rt: HostRuntime) -> Result<(), Fail> {
    let alloc = rt.alloc();
    let mut script = Vec::new(alloc);
    let mut printed = Vec::new(alloc);
    for step in &STEPS {
        push_long(&mut script, step.begin, step.value)?;
        printed.extend_from_slice(step.printed)?;
        let disk = play(alloc, &script, &printed, two_blobs(alloc)?)?;
        expect_chains(alloc, disk, step.chains)?;
    }
    Ok(())
}
