//! Schedules, each with its steps or with the place at which no schedule goes on.

use crate::told::expect;
use script_lang::{Actor, Schedule, ScheduleFault, parse_schedule};
use std::alloc::Global;
use std::test::Fail;

/// Appends what takes a step, and a space.
fn push_actor(text: &mut Vec<u8>, alloc: Global, actor: &Actor) -> Result<(), Fail> {
    let step = match actor {
        Actor::Channel(channel) => format!(in alloc; "{channel} ")?,
        Actor::Metadata => format!(in alloc; "m ")?,
    };
    text.extend_from_slice(step.as_bytes())?;
    Ok(())
}

/// Appends the steps of a schedule, a space after each.
fn push_steps(text: &mut Vec<u8>, alloc: Global, schedule: &Schedule) -> Result<(), Fail> {
    for part in schedule.parts() {
        for _ in 0..part.count {
            for actor in part.actors.as_slice() {
                push_actor(text, alloc, actor)?;
            }
        }
    }
    Ok(())
}

/// The steps of the schedule that a text is.
fn steps(alloc: Global, text: &[u8]) -> Result<Vec<u8>, Fail> {
    let schedule = parse_schedule(alloc, text)?;
    let mut steps = Vec::new(alloc);
    push_steps(&mut steps, alloc, &schedule)?;
    Ok(steps)
}

/// How many steps the schedule has that a text is.
fn length(alloc: Global, text: &[u8]) -> Result<u32, Fail> {
    Ok(parse_schedule(alloc, text)?.len())
}

#[test]
fn good_schedules(rt: HostRuntime) -> Result<(), Fail> {
    let alloc = rt.alloc();
    let cases: &[(&[u8], &[u8])] = &[
        (b"0", b"0 "),
        (b"m", b"m "),
        (b"15", b"15 "),
        (b"0*2,1*2", b"0 0 1 1 "),
        (b"0+1*3", b"0 1 0 1 0 1 "),
        (b"0*6,1+m*2", b"0 0 0 0 0 0 1 m 1 m "),
        (b"10+1+15,9", b"10 1 15 9 "),
        (b"m,m*1,m", b"m m m "),
        (b"2+2*2,m+3", b"2 2 2 2 m 3 "),
        (b"1*10,11", b"1 1 1 1 1 1 1 1 1 1 11 "),
    ];
    for (text, wanted) in cases {
        expect(&rt, &steps(alloc, text)?, wanted);
    }
    Ok(())
}

#[test]
fn the_most_steps(rt: HostRuntime) -> Result<(), Fail> {
    let alloc = rt.alloc();
    assert_eq!(rt; Schedule::new(alloc).len(), 0);
    let cases: &[(&[u8], u32)] = &[
        (b"0*65536", 65536),
        (b"0*32768,1+m*16384", 65536),
        (b"0*65535,m", 65536),
        (b"0*6,1+m*200", 406),
    ];
    for (text, wanted) in cases {
        assert_eq!(rt; length(alloc, text)?, *wanted);
    }
    Ok(())
}

/// The place of the fault; `None` where the text is a schedule.
fn place(alloc: Global, text: &[u8]) -> Result<Option<u32>, Fail> {
    match parse_schedule(alloc, text) {
        Ok(_) => Ok(None),
        Err(ScheduleFault::BadSchedule { at }) => Ok(Some(at)),
        Err(fault) => Err(Fail::from(fault)),
    }
}

#[test]
fn bad_schedules(rt: HostRuntime) -> Result<(), Fail> {
    let alloc = rt.alloc();
    let cases: &[(&[u8], u32)] = &[
        (b"", 0),
        (b"0*0", 2),
        (b"0*65537", 6),
        (b"16", 1),
        (b"00", 1),
        (b"0,", 2),
        (b"0,,1", 2),
        (b"+", 0),
        (b"0+", 2),
        (b"m**2", 2),
        (b"0*", 2),
        (b"0*01", 2),
        (b"0*2+1", 3),
        (b"m1", 1),
        (b"0 ", 1),
        (b"0*32768,1+m*16385", 16),
        (b"0*65536,m", 7),
        (b"0*65535,m+0", 9),
    ];
    for (text, wanted) in cases {
        assert_eq!(rt; place(alloc, text)?, Some(*wanted));
    }
    Ok(())
}
