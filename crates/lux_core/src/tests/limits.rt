//! Reports of rooms that ask for limits. The values are worked out by hand: candela times cosine by the squared distance.
use super::{CALM, World, run};
use crate::Status;
use std::alloc::Global;
use std::process::Abort;
use std::test::Fail;
use std::thread::Threads;

/// 5000 / 9 = 555.5.. lux at the one point.
const BRIGHT: &str =
    "version = 1\n[room]\nsize = [6000, 6000, 3000]\n[[lamp]]\nat = [3000, 3000, 3000]\ncandela = 5000\n[task]\nfrom = [0, 0]\nto = [6000, 6000]\nheight = 0\npoints = [1, 1]\n";

const BRIGHT_TEXT: &str =
    "point 0 0 555.55 555.56\naverage 555.55 555.56\nuniformity 0.999 1.000\n";

/// 5100 / 9 and 5100 * 3 / 18^1.5 = 200.3469.. lux; 383.5068.. on average, and the least by it 0.5224..
const UNEVEN: &str =
    "version = 1\n[room]\nsize = [6000, 6000, 3000]\n[[lamp]]\nat = [1500, 3000, 3000]\ncandela = 5100\n[task]\nfrom = [0, 0]\nto = [6000, 6000]\nheight = 0\npoints = [2, 1]\n";

const UNEVEN_TEXT: &str =
    "point 0 0 566.66 566.67\npoint 1 0 200.34 200.35\naverage 383.50 383.51\nuniformity 0.522 0.523\n";

const DARK: &str =
    "version = 1\n[room]\nsize = [6000, 6000, 3000]\n[task]\nfrom = [0, 0]\nto = [6000, 6000]\nheight = 0\npoints = [1, 1]\n";

const DARK_TEXT: &str = "point 0 0 0.00 0.00\naverage 0.00 0.00\nuniformity none\n";

/// The report of a room that asks for these limits: what is written after the text of the room without them, and the status.
fn judged(
    rt: &(impl Abort + Threads + Sync),
    alloc: Global,
    room: &str,
    text: &str,
    limits: &str,
    status: Status,
    verdicts: &str,
) -> Result<(), Fail> {
    let room = format!(in alloc; "{room}[limits]\n{limits}")?;
    let text = format!(in alloc; "{text}{verdicts}")?;
    run(
        rt,
        alloc,
        &["report", "room.toml"],
        room.as_str(),
        &CALM,
        status,
        text.as_str(),
    )
}

#[test]
fn a_limit_is_judged_at_its_borders(rt: HostRuntime) -> Result<(), Fail> {
    let alloc = rt.alloc();
    for (limit, status, verdict) in [
        ("555549", Status::Done, "555.549 met"),
        ("555550", Status::Done, "555.550 met"),
        ("555551", Status::Undecided, "555.551 undecided"),
        ("555555", Status::Undecided, "555.555 undecided"),
        ("555560", Status::Undecided, "555.560 undecided"),
        ("555561", Status::Missed, "555.561 missed"),
    ] {
        let limits = format!(in alloc; "average_millilux = {limit}\n")?;
        let verdicts = format!(in alloc; "limit average {verdict}\n")?;
        judged(
            &rt,
            alloc,
            BRIGHT,
            BRIGHT_TEXT,
            limits.as_str(),
            status,
            verdicts.as_str(),
        )?;
    }
    for (limit, status, verdict) in [
        ("500", Status::Done, "0.500 met"),
        ("521", Status::Done, "0.521 met"),
        ("522", Status::Done, "0.522 met"),
        ("523", Status::Undecided, "0.523 undecided"),
        ("524", Status::Missed, "0.524 missed"),
        ("600", Status::Missed, "0.600 missed"),
    ] {
        let limits = format!(in alloc; "uniformity_permille = {limit}\n")?;
        let verdicts = format!(in alloc; "limit uniformity {verdict}\n")?;
        judged(
            &rt,
            alloc,
            UNEVEN,
            UNEVEN_TEXT,
            limits.as_str(),
            status,
            verdicts.as_str(),
        )?;
    }
    Ok(())
}

#[test]
fn two_limits_have_one_status(rt: HostRuntime) -> Result<(), Fail> {
    let alloc = rt.alloc();
    for (average, first, statuses) in [
        (
            "383500",
            "383.500 met",
            [Status::Done, Status::Undecided, Status::Missed],
        ),
        (
            "383505",
            "383.505 undecided",
            [Status::Undecided, Status::Undecided, Status::Missed],
        ),
        (
            "383511",
            "383.511 missed",
            [Status::Missed, Status::Missed, Status::Missed],
        ),
    ] {
        let others = [
            ("522", "0.522 met"),
            ("523", "0.523 undecided"),
            ("524", "0.524 missed"),
        ];
        for ((uniformity, second), status) in others.into_iter().zip(statuses) {
            let limits = format!(in alloc;
                "average_millilux = {average}\nuniformity_permille = {uniformity}\n"
            )?;
            let verdicts = format!(in alloc; "limit average {first}\nlimit uniformity {second}\n")?;
            judged(
                &rt,
                alloc,
                UNEVEN,
                UNEVEN_TEXT,
                limits.as_str(),
                status,
                verdicts.as_str(),
            )?;
        }
    }
    Ok(())
}

#[test]
fn a_uniformity_that_is_not_printed_is_undecided(rt: HostRuntime) -> Result<(), Fail> {
    let alloc = rt.alloc();
    judged(
        &rt,
        alloc,
        DARK,
        DARK_TEXT,
        "average_millilux = 1000\nuniformity_permille = 500\n",
        Status::Missed,
        "limit average 1.000 missed\nlimit uniformity 0.500 undecided\n",
    )?;
    judged(
        &rt,
        alloc,
        DARK,
        DARK_TEXT,
        "average_millilux = 0\nuniformity_permille = 0\n",
        Status::Undecided,
        "limit average 0.000 met\nlimit uniformity 0.000 undecided\n",
    )?;
    judged(&rt, alloc, DARK, DARK_TEXT, "", Status::Done, "")
}

#[test]
fn a_text_that_is_cut_tells_no_verdict(rt: HostRuntime) -> Result<(), Fail> {
    let room = format!(in rt.alloc(); "{DARK}[limits]\naverage_millilux = 1000\n")?;
    let world = World {
        failing: &[],
        capacity: 20,
    };
    run(
        &rt,
        rt.alloc(),
        &["report", "room.toml"],
        room.as_str(),
        &world,
        Status::WriteFault,
        "point 0 0 0.00 0.00\n",
    )
}
