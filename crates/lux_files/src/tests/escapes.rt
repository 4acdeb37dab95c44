//! The light along escape routes. Where no other calculation is named, the values are those of expected/route.py in the crate
//! `escape_route`. Where bars stand between numbers, each of them is an admissible printed end.
use super::luminaires::QUARTER;
use super::rooms::{is_among, shelf_with};
use super::{CALM, run};
use fork_rows::OpenGate;
use lux_core::{Status, lux};
use lux_io::{MemShelf, MemSink};
use std::alloc::Global;
use std::process::Abort;
use std::test::Fail;
use std::thread::Threads;

const USAGE: &str =
    "usage: lux report ROOM | grid ROOM | read FILE [SET] | sight ROOM X Y Z X Y Z | certify ROOM | check ROOM CLAIM | trial N | flux FILE SET LUMENS | dim ROOM PLAN MILLILUX | escape ROOM X Y X Y MILLILUX RATIO LAMP ..\n";

/// A lamp of 905 cd in the middle of the ceiling.
const OVERHEAD: &str =
    "version = 1\n[room]\nsize = [6000, 6000, 3000]\n[[lamp]]\nat = [3000, 3000, 3000]\ncandela = 905\n";

const TASK: &str = "[task]\nfrom = [0, 0]\nto = [6000, 6000]\nheight = 0\npoints = [1, 1]\n";

const STRAIGHT: &str =
    "points 5\nleast 85.85 85.86\ngreatest 100.55 100.56\nratio 1.171 1.172\nlimit least 1.000 met\nlimit ratio 40.000 met\n";

/// The words after the room's file, parted at spaces.
fn words_of<'a>(alloc: Global, more: &'a str) -> Result<Vec<&'a str>, Fail> {
    let mut words = Vec::new(alloc);
    words.push("escape")?;
    words.push("room.toml")?;
    for word in more.split(' ') {
        words.push(word)?;
    }
    Ok(words)
}

/// A run of `escape room.toml` and these words over a shelf with this room: it ends with this status and has written this text.
fn escape(
    rt: &(impl Abort + Threads + Sync),
    alloc: Global,
    room: &str,
    more: &str,
    status: Status,
    text: &str,
) -> Result<(), Fail> {
    let words = words_of(alloc, more)?;
    run(rt, alloc, words.as_slice(), room, &CALM, status, text)
}

/// The same over a shelf with these files besides; the text has one of the words between bars at each place.
fn escape_with(
    rt: &(impl Abort + Threads + Sync),
    alloc: Global,
    shelf: &mut MemShelf,
    more: &str,
    status: Status,
    text: &str,
) -> Result<(), Fail> {
    let mut given = Vec::new(alloc);
    for word in words_of(alloc, more)? {
        given.push(String::from_str(alloc, word)?)?;
    }
    let mut out = MemSink::new(alloc, 400, &[]).ok().ok_or("memory")?;
    let answer = lux(rt, alloc, given.as_slice(), shelf, &mut out, &OpenGate);
    let written = str::from_utf8(out.bytes()).ok().ok_or("text")?;
    assert!(rt; answer == status, "{answer:?}: {written}");
    assert!(rt; is_among(written, text), "{written}");
    Ok(())
}

#[test]
fn a_route_has_its_lines(rt: HostRuntime) -> Result<(), Fail> {
    let alloc = rt.alloc();
    let room = format!(in alloc; "{OVERHEAD}{TASK}")?;
    let room = room.as_str();
    let to = "2000 3000 4000 3000";
    let lines = "points 5\nleast 85.85 85.86\ngreatest 100.55 100.56\nratio 1.171 1.172\n";
    for (limits, status, end) in [
        (
            "1000 40",
            Status::Done,
            "limit least 1.000 met\nlimit ratio 40.000 met\n",
        ),
        (
            "85855 40",
            Status::Undecided,
            "limit least 85.855 undecided\nlimit ratio 40.000 met\n",
        ),
        (
            "85850 40",
            Status::Done,
            "limit least 85.850 met\nlimit ratio 40.000 met\n",
        ),
        (
            "85851 40",
            Status::Undecided,
            "limit least 85.851 undecided\nlimit ratio 40.000 met\n",
        ),
        (
            "85860 40",
            Status::Undecided,
            "limit least 85.860 undecided\nlimit ratio 40.000 met\n",
        ),
        (
            "85861 40",
            Status::Missed,
            "limit least 85.861 missed\nlimit ratio 40.000 met\n",
        ),
        (
            "1000 1",
            Status::Missed,
            "limit least 1.000 met\nlimit ratio 1.000 missed\n",
        ),
        (
            "0 2",
            Status::Done,
            "limit least 0.000 met\nlimit ratio 2.000 met\n",
        ),
        (
            "1000000000 1000",
            Status::Missed,
            "limit least 1000000.000 missed\nlimit ratio 1000.000 met\n",
        ),
    ] {
        let text = format!(in alloc; "{lines}{end}")?;
        let more = format!(in alloc; "{to} {limits} 0")?;
        escape(&rt, alloc, room, more.as_str(), status, text.as_str())?;
    }
    // the other way round
    escape(
        &rt,
        alloc,
        room,
        "4000 3000 2000 3000 1000 40 0",
        Status::Done,
        STRAIGHT,
    )
}

#[test]
fn a_route_that_is_not_served(rt: HostRuntime) -> Result<(), Fail> {
    let alloc = rt.alloc();
    let room = format!(in alloc; "{OVERHEAD}{TASK}")?;
    let lost = format!(in alloc;
        "{OVERHEAD}[[lamp]]\nat = [0, 0, 3000]\nfile = \"lost.ldt\"\n{TASK}"
    )?;
    for room in [room.as_str(), lost.as_str()] {
        for (more, line) in [
            ("2000 3000 4000 3500 1000 40 0", "refused escape 1 Line\n"),
            ("2000 3000 4000 3500 1000 40 9", "refused escape 1 Line\n"),
            ("2000 3000 6001 3000 1000 40 0", "refused escape 1 Line\n"),
            ("3000 6001 3000 0 1000 40 0", "refused escape 1 Line\n"),
            (
                "2000 3000 4000 3000 1000 40 0 2 3",
                "refused escape 2 Lamp 2\n",
            ),
            (
                "2000 3000 4000 3000 1000 40 255",
                "refused escape 2 Lamp 255\n",
            ),
        ] {
            escape(&rt, alloc, room, more, Status::Refused, line)?;
        }
    }
    // a lamp past the last one, and a file that is wanted by a lamp that isn't marked
    let to = "2000 3000 4000 3000 1000 40";
    let more = format!(in alloc; "{to} 1")?;
    escape(
        &rt,
        alloc,
        room.as_str(),
        more.as_str(),
        Status::Refused,
        "refused escape 2 Lamp 1\n",
    )?;
    let more = format!(in alloc; "{to} 0")?;
    escape(
        &rt,
        alloc,
        lost.as_str(),
        more.as_str(),
        Status::Refused,
        "refused lost.ldt Absent\n",
    )?;
    // the layout comes first
    escape(
        &rt,
        alloc,
        "",
        "0 0 1 1 0 1 9",
        Status::Refused,
        "refused room 2 Version\n",
    )
}

#[test]
fn words_that_ask_for_no_route(rt: HostRuntime) -> Result<(), Fail> {
    let alloc = rt.alloc();
    let room = format!(in alloc; "{OVERHEAD}{TASK}")?;
    for more in [
        "2000 3000 4000 3000 1000 40",
        "2000 3000 4000 3000 1000 40 0 0",
        "2000 3000 4000 3000 1000 40 1 0",
        "2000 3000 4000 3000 1000 40 256",
        "2000 3000 4000 3000 1000 40 00",
        "2000 3000 4000 3000 1000 40 0 1 2 3 4 5 6 7 8 9 10 11 12 13 14 15 16",
        "2000 3000 4000 3000 1000 0 0",
        "2000 3000 4000 3000 1000 1001 0",
        "2000 3000 4000 3000 1000000001 40 0",
        "2000 3000 4000 3000 99999999999999999999 40 0",
        "100001 3000 4000 3000 1000 40 0",
        "2000 3000 4000 -3000 1000 40 0",
    ] {
        escape(&rt, alloc, room.as_str(), more, Status::Usage, USAGE)?;
    }
    Ok(())
}

#[test]
fn routes_of_several_lengths(rt: HostRuntime) -> Result<(), Fail> {
    let alloc = rt.alloc();
    let room = format!(in alloc; "{OVERHEAD}{TASK}")?;
    let met = "limit least 1.000 met\nlimit ratio 40.000 met\n";
    for (to, lines) in [
        (
            "3000 3000 3000 3000",
            "points 1\nleast 100.55 100.56\ngreatest 100.55 100.56\nratio 0.999|1.000 1.000|1.001\n",
        ),
        (
            "3000 3000 3000 3499",
            "points 2\nleast 96.52 96.53\ngreatest 100.55 100.56\nratio 1.041 1.042\n",
        ),
        (
            "3000 3000 3000 3500",
            "points 2\nleast 96.50 96.51\ngreatest 100.55 100.56\nratio 1.041 1.042\n",
        ),
        (
            "3000 3000 3000 3501",
            "points 3\nleast 96.49 96.50\ngreatest 100.55 100.56\nratio 1.042 1.043\n",
        ),
        (
            "3000 1000 3000 5000",
            "points 9\nleast 57.92 57.93\ngreatest 100.55 100.56\nratio 1.736 1.737\n",
        ),
        (
            "0 3000 6000 3000",
            "points 13\nleast 35.55 35.56\ngreatest 100.55 100.56\nratio 2.828 2.829\n",
        ),
        (
            "6000 3000 0 3000",
            "points 13\nleast 35.55 35.56\ngreatest 100.55 100.56\nratio 2.828 2.829\n",
        ),
    ] {
        let more = format!(in alloc; "{to} 1000 40 0")?;
        let text = format!(in alloc; "{lines}{met}")?;
        let mut shelf = shelf_with(alloc, room.as_str(), &[], &[])?;
        escape_with(
            &rt,
            alloc,
            &mut shelf,
            more.as_str(),
            Status::Done,
            text.as_str(),
        )?;
    }
    Ok(())
}

#[test]
fn a_point_below_a_box_is_dark(rt: HostRuntime) -> Result<(), Fail> {
    let alloc = rt.alloc();
    let room = format!(in alloc;
        "{OVERHEAD}[[box]]\nlo = [2900, 2900, 0]\nhi = [3100, 3100, 100]\n{TASK}"
    )?;
    let mut shelf = shelf_with(alloc, room.as_str(), &[], &[])?;
    let text =
        "points 5\nleast 0.00 0.00|0.01\ngreatest 96.50 96.51\nratio none\nlimit least 1.000 missed\nlimit ratio 40.000 undecided\n";
    escape_with(
        &rt,
        alloc,
        &mut shelf,
        "2000 3000 4000 3000 1000 40 0",
        Status::Missed,
        text,
    )?;
    let text =
        "points 5\nleast 0.00 0.00|0.01\ngreatest 96.50 96.51\nratio none\nlimit least 0.000 met\nlimit ratio 40.000 undecided\n";
    escape_with(
        &rt,
        alloc,
        &mut shelf,
        "2000 3000 4000 3000 0 40 0",
        Status::Undecided,
        text,
    )
}

/// Two lamps 300 mm above the two points of a route of 400 mm, the second of 71,000 cd.
const ABOVE_BOTH: &str = "[[lamp]]\nat = [2400, 3000, 300]\ncandela = 71000\n";

#[test]
fn a_ratio_within_a_thousandth_of_its_limit(rt: HostRuntime) -> Result<(), Fail> {
    let alloc = rt.alloc();
    for (candela, lines, status, verdict) in [
        (
            "222895",
            "least 1323836.88 1323836.89\ngreatest 2647011.11 2647011.12\nratio 1.999 2.000\n",
            Status::Done,
            "met",
        ),
        (
            "223105",
            "least 1324340.88 1324340.89\ngreatest 2649344.44 2649344.45\nratio 2.000 2.001\n",
            Status::Undecided,
            "undecided",
        ),
        (
            "223315",
            "least 1324844.88 1324844.89\ngreatest 2651677.77 2651677.78\nratio 2.001 2.002\n",
            Status::Missed,
            "missed",
        ),
    ] {
        let room = format!(in alloc;
            "version = 1\n[room]\nsize = [6000, 6000, 3000]\n[[lamp]]\nat = [2000, 3000, 300]\ncandela = {candela}\n{ABOVE_BOTH}{TASK}"
        )?;
        let text = format!(in alloc;
            "points 2\n{lines}limit least 1000.000 met\nlimit ratio 2.000 {verdict}\n"
        )?;
        let more = "2000 3000 2400 3000 1000000 2 0 1";
        escape(&rt, alloc, room.as_str(), more, status, text.as_str())?;
    }
    Ok(())
}

#[test]
fn sixteen_lamps_of_ten_million_candela(rt: HostRuntime) -> Result<(), Fail> {
    let alloc = rt.alloc();
    // 1 mm above the point: 10^7 cd / (0.001 m)^2 = 10^13 lux each, and all of it exact
    let mut room = String::from_str(alloc, "version = 1\n[room]\nsize = [6000, 6000, 3000]\n")?;
    for _ in 0..16 {
        room.push_str("[[lamp]]\nat = [3000, 3000, 1]\ncandela = 10000000\n")?;
    }
    room.push_str(TASK)?;
    let all = "3000 3000 3000 3000 1000000000 1 0 1 2 3 4 5 6 7 8 9 10 11 12 13 14 15";
    let text =
        "points 1\nleast 160000000000000.00 160000000000000.00\ngreatest 160000000000000.00 160000000000000.00\nratio 1.000 1.000\nlimit least 1000000.000 met\nlimit ratio 1.000 met\n";
    escape(&rt, alloc, room.as_str(), all, Status::Done, text)?;
    let one = "3000 3000 3000 3000 1000000000 1 15";
    let text =
        "points 1\nleast 10000000000000.00 10000000000000.00\ngreatest 10000000000000.00 10000000000000.00\nratio 1.000 1.000\nlimit least 1000000.000 met\nlimit ratio 1.000 met\n";
    escape(&rt, alloc, room.as_str(), one, Status::Done, text)
}

#[test]
fn a_lamp_of_a_file_aimed_and_turned(rt: HostRuntime) -> Result<(), Fail> {
    let alloc = rt.alloc();
    let room =
        "version = 2\n[room]\nsize = [6000, 6000, 3000]\n[[lamp]]\nat = [0, 3000, 2000]\nfile = \"q.ldt\"\nmaintenance = 800\nturn = 30\naim = \"+x\"\n[task]\nfrom = [0, 0]\nto = [6000, 6000]\nheight = 0\npoints = [1, 1]\n";
    let mut shelf = shelf_with(alloc, room, &[("q.ldt", QUARTER)], &[])?;
    let text =
        "points 8\nleast 4.36 4.37\ngreatest 12.72 12.73\nratio 2.913 2.914|2.915\nlimit least 1.000 met\nlimit ratio 40.000 met\n";
    escape_with(
        &rt,
        alloc,
        &mut shelf,
        "2000 1000 2000 4200 1000 40 0",
        Status::Done,
        text,
    )
}
