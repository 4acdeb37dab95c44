//! Reports of rooms. Where nothing reflects, the values are worked out by hand: candela times cosine by the squared distance. The
//! others are those of `bench/expected.py`, a planner in double precision with none of this code; each lies more than 0.001 from a
//! printed edge.
use super::{CALM, run, run_over, shelf_of};
use crate::Status;
use std::alloc::Global;
use std::test::Fail;

const REPORT: [&str; 2] = ["report", "room.toml"];

/// A room of 6 by 6 by 3 m, its task from wall to wall on the floor.
const HALL: &str = "version = 1\n[room]\nsize = [6000, 6000, 3000]\n";

const FLOOR: &str = "[task]\nfrom = [0, 0]\nto = [6000, 6000]\nheight = 0\n";

#[test]
fn black_rooms_are_reported(rt: HostRuntime) -> Result<(), Fail> {
    let alloc = rt.alloc();
    for (lamps, points, text) in [
        // 5000 / 9 = 555.5..
        (
            "[[lamp]]\nat = [3000, 3000, 3000]\ncandela = 5000\n",
            "points = [1, 1]\n",
            "point 0 0 555.55 555.56\naverage 555.55 555.56\nuniformity 0.999 1.000\n",
        ),
        (
            "[[lamp]]\nat = [3000, 3000, 3000]\ncandela = 2500\n[[lamp]]\nat = [3000, 3000, 3000]\ncandela = 2500\n",
            "points = [1, 1]\n",
            "point 0 0 555.55 555.56\naverage 555.55 555.56\nuniformity 0.999 1.000\n",
        ),
        // 5100 / 9 and 5100 * 3 / 18^1.5 = 200.3469..
        (
            "[[lamp]]\nat = [1500, 3000, 3000]\ncandela = 5100\n",
            "points = [2, 1]\n",
            "point 0 0 566.66 566.67\npoint 1 0 200.34 200.35\naverage 383.50 383.51\nuniformity 0.522 0.523\n",
        ),
        (
            "",
            "points = [1, 1]\n",
            "point 0 0 0.00 0.00\naverage 0.00 0.00\nuniformity none\n",
        ),
    ] {
        let room = format!(in alloc; "{HALL}{lamps}{FLOOR}{points}")?;
        run(
            &rt,
            alloc,
            &REPORT,
            room.as_str(),
            &CALM,
            Status::Done,
            text,
        )?;
    }
    Ok(())
}

/// A lamp 3 m above the middle of a floor of 60 by 60 m, in a version of the layout.
fn broad_hall(alloc: Global, version: u32) -> Result<String, Fail> {
    let room = format!(in alloc;
        "version = {version}\n[room]\nsize = [60000, 60000, 3000]\npatch = 5000\n[[lamp]]\nat = [30000, 30000, 3000]\ncandela = 5000\n[task]\nfrom = [0, 0]\nto = [60000, 60000]\nheight = 0\npoints = [1, 1]\n"
    )?;
    Ok(room)
}

#[test]
fn a_hall_of_60_m_is_reported_in_version_2(rt: HostRuntime) -> Result<(), Fail> {
    let alloc = rt.alloc();
    for (version, status, text) in [
        (1, Status::Refused, "refused room 6 Range room.size\n"),
        // 5000 / 9 = 555.5..
        (
            2,
            Status::Done,
            "point 0 0 555.55 555.56\naverage 555.55 555.56\nuniformity 0.999 1.000\n",
        ),
    ] {
        let room = broad_hall(alloc, version)?;
        run(&rt, alloc, &REPORT, room.as_str(), &CALM, status, text)?;
    }
    Ok(())
}

// 12 * 12 on the floor and on the ceiling, and 12 on each wall
#[test]
fn a_hall_of_60_m_has_336_patches(rt: HostRuntime) -> Result<(), Fail> {
    let alloc = rt.alloc();
    let mut claim = String::from_str(alloc, "patch,lower,upper\n")?;
    for patch in 0..336u32 {
        let record = format!(in alloc; "{patch},0,1000000000000000000\n")?;
        claim.push_str(record.as_str())?;
    }
    let room = broad_hall(alloc, 2)?;
    let mut shelf = shelf_of(alloc, room.as_str(), &[])?;
    shelf
        .add("claim.csv", claim.as_bytes())
        .ok()
        .ok_or("memory")?;
    let words = ["check", "room.toml", "claim.csv"];
    run_over(
        &rt,
        alloc,
        &words,
        &mut shelf,
        100,
        Status::Done,
        b"shown 336\n",
    )
}

/// A room of 100 m along each edge, of 24 patches of 50 m, or one of 50,001 mm along z, where the walls' patches are 25 m high.
const LARGEST: &str =
    "reflect = [200, 300, 400, 500, 600, 700]\npatch = 50000\n[[lamp]]\ncandela = 9276500\n";

const LARGEST_TASK: &str =
    "[task]\nfrom = [0, 0]\nto = [100000, 100000]\nheight = 40000\npoints = [2, 2]\n";

#[test]
fn rooms_of_100_m_are_reported(rt: HostRuntime) -> Result<(), Fail> {
    let alloc = rt.alloc();
    for (height, text) in [
        // 3707.984296, 1748.816505, 2090.944767, 1345.315148; 2223.265179; 0.605108
        (
            100000,
            "point 0 0 3707.98 3707.99\npoint 1 0 1748.81 1748.82\npoint 0 1 2090.94 2090.95\npoint 1 1 1345.31 1345.32\naverage 2223.26 2223.27\nuniformity 0.605 0.606\n",
        ),
        // 51106.755769, 779.673076, 1215.322704, 471.502674; 13393.313556; 0.035204
        (
            50001,
            "point 0 0 51106.75 51106.76\npoint 1 0 779.67 779.68\npoint 0 1 1215.32 1215.33\npoint 1 1 471.50 471.51\naverage 13393.31 13393.32\nuniformity 0.035 0.036\n",
        ),
    ] {
        let room = format!(in alloc;
            "version = 2\n[room]\nsize = [100000, 100000, {height}]\n{LARGEST}at = [20000, 30000, {height}]\n{LARGEST_TASK}"
        )?;
        run(
            &rt,
            alloc,
            &REPORT,
            room.as_str(),
            &CALM,
            Status::Done,
            text,
        )?;
    }
    Ok(())
}

/// A cube of 2 m, of six patches, with a lamp of 200 cd in its middle: 200 lux of direct light at each.
const CUBE: &str = "version = 1\n[room]\nsize = [2000, 2000, 2000]\npatch = 2000\n";

const CUBE_LAMP: &str =
    "[[lamp]]\nat = [1000, 1000, 1000]\ncandela = 200\n[task]\nfrom = [0, 0]\nto = [2000, 2000]\nheight = 0\npoints = [1, 1]\n";

#[test]
fn a_cube_is_reported(rt: HostRuntime) -> Result<(), Fail> {
    let alloc = rt.alloc();
    for (reflect, text) in [
        // 200 / (1 - (1 / (pi + 1) + 4 / (pi + 2)) / 2) = 407.9227..
        (
            "reflect = [500, 500, 500, 500, 500, 500]\n",
            "point 0 0 407.92 407.93\naverage 407.92 407.93\nuniformity 0.999 1.000\n",
        ),
        // 200 exactly, and no end has a rounding of a hundredth
        (
            "",
            "point 0 0 200.00 200.00\naverage 200.00 200.00\nuniformity 1.000 1.000\n",
        ),
    ] {
        let room = format!(in alloc; "{CUBE}{reflect}{CUBE_LAMP}")?;
        run(
            &rt,
            alloc,
            &REPORT,
            room.as_str(),
            &CALM,
            Status::Done,
            text,
        )?;
    }
    Ok(())
}

/// Two lamps in a room whose six surfaces differ.
const SIX: &str =
    "version = 1\n[room]\nsize = [4000, 3000, 2500]\nreflect = [200, 700, 500, 300, 600, 400]\n";

#[test]
fn a_room_of_six_reflectances_is_reported(rt: HostRuntime) -> Result<(), Fail> {
    let alloc = rt.alloc();
    let rest =
        "patch = 1500\n[[lamp]]\nat = [1000, 1500, 2400]\ncandela = 901\n[[lamp]]\nat = [3200, 1000, 2400]\ncandela = 420\n[task]\nfrom = [500, 500]\nto = [3500, 2500]\nheight = 800\npoints = [3, 2]\n";
    let room = format!(in alloc; "{SIX}{rest}")?;
    // 560.323807, 537.034799, 587.628044, 535.754430, 463.577793, 401.267032; 514.264317; 0.780274
    let text =
        "point 0 0 560.32 560.33\npoint 1 0 537.03 537.04\npoint 2 0 587.62 587.63\npoint 0 1 535.75 535.76\npoint 1 1 463.57 463.58\npoint 2 1 401.26 401.27\naverage 514.26 514.27\nuniformity 0.780 0.781\n";
    run(
        &rt,
        alloc,
        &REPORT,
        room.as_str(),
        &CALM,
        Status::Done,
        text,
    )?;
    Ok(())
}

#[test]
fn a_furnished_room_is_reported(rt: HostRuntime) -> Result<(), Fail> {
    let alloc = rt.alloc();
    let rest =
        "patch = 1000\n[[box]]\nlo = [2500, 500, 0]\nhi = [3500, 1700, 750]\nreflect = 350\n[[box]]\nlo = [0, 2200, 0]\nhi = [800, 3000, 2000]\nreflect = 600\n[[lamp]]\nat = [1000, 1500, 2400]\ncandela = 899\n[[lamp]]\nat = [3200, 1000, 2400]\ncandela = 430\n[task]\nfrom = [0, 0]\nto = [4000, 3000]\nheight = 700\npoints = [4, 3]\n";
    let room = format!(in alloc; "{SIX}{rest}")?;
    // 432.274725, 460.977300, 282.958591, 138.494449, 556.606045, 568.153810, 279.984160, 93.364085, covered, 399.188071, 317.758152,
    // 233.151896; 342.082844; 0.272928. The desk's points lie 50 mm above its top, beside the light that it takes from the floor.
    let text =
        "point 0 0 432.27 432.28\npoint 1 0 460.97 460.98\npoint 2 0 282.95 282.96\npoint 3 0 138.49 138.50\npoint 0 1 556.60 556.61\npoint 1 1 568.15 568.16\npoint 2 1 279.98 279.99\npoint 3 1 93.36 93.37\npoint 0 2 covered\npoint 1 2 399.18 399.19\npoint 2 2 317.75 317.76\npoint 3 2 233.15 233.16\naverage 342.08 342.09\nuniformity 0.272 0.273\n";
    run(
        &rt,
        alloc,
        &REPORT,
        room.as_str(),
        &CALM,
        Status::Done,
        text,
    )?;
    Ok(())
}

#[test]
fn the_study_of_the_examples_is_reported(rt: HostRuntime) -> Result<(), Fail> {
    let alloc = rt.alloc();
    let rest =
        "patch = 500\n[[box]]\nlo = [2500, 500, 0]\nhi = [3500, 1700, 750]\nreflect = 350\n[[box]]\nlo = [0, 2200, 0]\nhi = [800, 3000, 2000]\nreflect = 600\n[[lamp]]\nat = [1000, 1500, 2400]\ncandela = 892\n[[lamp]]\nat = [3200, 1000, 2400]\ncandela = 412\n[task]\nfrom = [0, 0]\nto = [4000, 3000]\nheight = 750\npoints = [3, 2]\n";
    let room = format!(in alloc; "{SIX}{rest}")?;
    // 576.867131, 540.696007, 463.562816, covered, 461.682151, 318.176088; 472.196838; 0.673821
    let text =
        "point 0 0 576.86 576.87\npoint 1 0 540.69 540.70\npoint 2 0 463.56 463.57\npoint 0 1 covered\npoint 1 1 461.68 461.69\npoint 2 1 318.17 318.18\naverage 472.19 472.20\nuniformity 0.673 0.674\n";
    run(
        &rt,
        alloc,
        &REPORT,
        room.as_str(),
        &CALM,
        Status::Done,
        text,
    )?;
    Ok(())
}

#[test]
fn a_point_inside_a_box_is_covered(rt: HostRuntime) -> Result<(), Fail> {
    let alloc = rt.alloc();
    let room =
        "version = 1\n[room]\nsize = [3000, 3000, 3000]\n[[box]]\nlo = [1000, 1000, 1000]\nhi = [2000, 2000, 2000]\n[[lamp]]\nat = [1500, 1500, 3000]\ncandela = 900\n[task]\nfrom = [0, 0]\nto = [3000, 3000]\nheight = 1500\npoints = [3, 1]\n";
    // 900 * 1.5 / 3.25^1.5 = 230.4139..
    let text =
        "point 0 0 230.41 230.42\npoint 1 0 covered\npoint 2 0 230.41 230.42\naverage 230.41 230.42\nuniformity 0.999 1.000\n";
    run(&rt, alloc, &REPORT, room, &CALM, Status::Done, text)?;
    Ok(())
}

#[test]
fn a_channel_of_672_patches_is_reported(rt: HostRuntime) -> Result<(), Fail> {
    let alloc = rt.alloc();
    let room =
        "version = 1\n[room]\nsize = [10000, 1000, 1000]\nreflect = [700, 700, 700, 700, 700, 700]\npatch = 250\n[[lamp]]\nat = [5000, 500, 1000]\ncandela = 100\n[task]\nfrom = [0, 0]\nto = [10000, 1000]\nheight = 0\npoints = [1, 1]\n";
    // 204.728621
    let text = "point 0 0 204.72 204.73\naverage 204.72 204.73\nuniformity 0.999 1.000\n";
    run(&rt, alloc, &REPORT, room, &CALM, Status::Done, text)?;
    Ok(())
}
