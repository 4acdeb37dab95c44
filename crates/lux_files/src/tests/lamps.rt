//! Reports of rooms with lamps of photometric files. Values are worked out by hand or those of `bench/expected.py`, a planner in double
//! precision with none of this code. Where bars stand between numbers, each of them is an admissible printed end.
use super::luminaires::{
    ACROSS, BRIGHT, BRIGHTER, EVEN, FALLING, FROM_45, NARROW, QUARTER, ROUND, SIXTEEN_SETS, THIRD,
    TO_45, TWO_THIRDS, UNDER_TWO_THIRDS,
};
use super::rooms::{
    CUBE, CUBE_TEXT, DARK_TEXT, EVEN_LAMP, FLOOR, GREY, MIDDLE, report, report_over, shelf_with,
};
use super::untold::Untold;
use lux_core::Status;
use std::test::Fail;

#[test]
fn a_lamp_of_an_even_file_shines_as_its_candela_would(rt: HostRuntime) -> Result<(), Fail> {
    let alloc = rt.alloc();
    let room = format!(in alloc; "{CUBE}{GREY}{MIDDLE}{EVEN_LAMP}{FLOOR}")?;
    let files = [("even.ldt", EVEN)];
    report(
        &rt,
        alloc,
        room.as_str(),
        &files,
        &[],
        Status::Done,
        CUBE_TEXT,
    )
}

/// A room with one lamp, which a point of the task sees at 45 degrees from straight down.
const SLANTING: &str = "\
version = 1\n[room]\nsize = [4000, 2000, 2000]\n[[lamp]]\nat = [1000, 1000, 2000]\nfile = \"e.ldt\"\n[task]\n\
from = [2000, 0]\nto = [4000, 2000]\nheight = 0\npoints = [1, 1]\n";

#[test]
fn an_intensity_is_that_of_the_angle_from_straight_down(rt: HostRuntime) -> Result<(), Fail> {
    let alloc = rt.alloc();
    // the point is seen at 45 degrees: 150 cd * cos 45 / 8 = 13.2582..
    let text =
        "point 0 0 13.25 13.26|13.27\naverage 13.25 13.26|13.27\nuniformity 0.998|0.999 1.000\n";
    let files = [("e.ldt", FALLING)];
    report(&rt, alloc, SLANTING, &files, &[], Status::Done, text)?;
    let files = [("e.ldt", NARROW)];
    report(&rt, alloc, SLANTING, &files, &[], Status::Done, DARK_TEXT)
}

#[test]
fn an_angle_at_an_end_of_the_measured_gammas(rt: HostRuntime) -> Result<(), Fail> {
    let alloc = rt.alloc();
    // 300 cd * cos 45 / 8 = 26.5165.. The angle is exactly 45 degrees; what is known of it is that it isn't above 45 and at most
    // 0.00025 below. All of this is within the gammas of the first file; those of the second begin at 45.
    for (file, text) in [
        (
            TO_45,
            "point 0 0 26.51 26.52\naverage 26.51 26.52\nuniformity 0.999 1.000\n",
        ),
        (
            FROM_45,
            "point 0 0 0.00 26.52\naverage 0.00 26.52\nuniformity none\n",
        ),
    ] {
        let files = [("e.ldt", file)];
        report(&rt, alloc, SLANTING, &files, &[], Status::Done, text)?;
    }
    Ok(())
}

#[test]
fn a_lamp_is_split_along_its_length(rt: HostRuntime) -> Result<(), Fail> {
    let alloc = rt.alloc();
    let room =
        "version = 1\n[room]\nsize = [6000, 6000, 3000]\n[[lamp]]\nat = [3000, 3000, 3000]\ncandela = 5050\nsize = [600, 0]\nsplit = [2, 1]\n[task]\nfrom = [0, 0]\nto = [6000, 6000]\nheight = 0\npoints = [1, 1]\n";
    // points at x of 2850 and 3150 mm: 5050 * 3 / 9.0225^1.5 = 559.0135..
    let text = "point 0 0 559.01 559.02\naverage 559.01 559.02\nuniformity 0.999 1.000\n";
    report(&rt, alloc, room, &[], &[], Status::Done, text)
}

#[test]
fn a_lamp_of_64_points_is_reported(rt: HostRuntime) -> Result<(), Fail> {
    let alloc = rt.alloc();
    let room =
        "version = 1\n[room]\nsize = [3000, 3000, 2500]\n[[lamp]]\nat = [1400, 1600, 2500]\nfile = \"quarter.ldt\"\nturn = 45\nmaintenance = 786\nsize = [1201, 903]\nsplit = [8, 8]\n[task]\nfrom = [0, 0]\nto = [3000, 3000]\nheight = 700\npoints = [2, 1]\n";
    // 58.414865, 49.054964; 53.734914; 0.912907, by `bench/expected.py`
    let text =
        "point 0 0 58.41 58.42\npoint 1 0 49.05 49.06\naverage 53.73 53.74\nuniformity 0.912 0.913\n";
    let files = [("quarter.ldt", QUARTER)];
    report(&rt, alloc, room, &files, &[], Status::Done, text)
}

/// Six lamps of three files, each kept and turned otherwise.
const SIX: &str = "\
version = 1\n[room]\nsize = [4000, 3000, 2600]\nreflect = [200, 700, 500, 300, 600, 400]\npatch = 1000\n[[box]]\n\
lo = [2400, 600, 0]\nhi = [3200, 1400, 720]\nreflect = 350\n[[lamp]]\nat = [700, 600, 2500]\nfile = \"quarter.ldt\"\n\
turn = 37\nmaintenance = 125\n[[lamp]]\nat = [2000, 700, 2500]\nfile = \"across.ldt\"\nturn = 90\nmaintenance = 115\n\
[[lamp]]\nat = [3300, 900, 2400]\nfile = \"round.IES\"\nturn = 271\nmaintenance = 125\n[[lamp]]\nat = [800, 2300, 2500]\n\
file = \"across.ldt\"\nturn = 271\nmaintenance = 175\nsize = [601, 300]\nsplit = [3, 2]\n[[lamp]]\n\
at = [2100, 2200, 2400]\nfile = \"round.IES\"\nturn = 37\nmaintenance = 160\nsize = [0, 1201]\nsplit = [1, 4]\n[[lamp]]\n\
at = [3200, 2100, 2500]\nfile = \"quarter.ldt\"\nturn = 90\nmaintenance = 55\nsize = [600, 600]\nsplit = [2, 2]\n[task]\n\
from = [400, 300]\nto = [3601, 2700]\nheight = 750\npoints = [2, 2]\n";

#[test]
fn six_turned_lamps_of_three_files_are_reported(rt: HostRuntime) -> Result<(), Fail> {
    let alloc = rt.alloc();
    // 38.584979, 28.984939, 35.485209, 30.124942; 33.295017; 0.870549, by `bench/expected.py`. The lamps' maintenance is chosen so that
    // each lies more than 0.0045 from a printed edge, or 0.0004 for the uniformity.
    let text =
        "point 0 0 38.58 38.59\npoint 1 0 28.98 28.99\npoint 0 1 35.48 35.49\npoint 1 1 30.12 30.13\naverage 33.29 33.30\nuniformity 0.870 0.871\n";
    let files = [
        ("quarter.ldt", QUARTER),
        ("across.ldt", ACROSS),
        ("round.IES", ROUND),
    ];
    report(&rt, alloc, SIX, &files, &[], Status::Done, text)
}

#[test]
fn a_lamp_without_maintenance_gives_nothing(rt: HostRuntime) -> Result<(), Fail> {
    let alloc = rt.alloc();
    let files = [("even.ldt", EVEN)];
    for lamp in [
        "",
        "[[lamp]]\nat = [1000, 1000, 1000]\nfile = \"even.ldt\"\nmaintenance = 0\n",
    ] {
        let room = format!(in alloc; "{CUBE}{GREY}{lamp}{FLOOR}")?;
        report(
            &rt,
            alloc,
            room.as_str(),
            &files,
            &[],
            Status::Done,
            DARK_TEXT,
        )?;
    }
    Ok(())
}

#[test]
fn a_lamp_in_a_box_gives_nothing_outside_of_it(rt: HostRuntime) -> Result<(), Fail> {
    let alloc = rt.alloc();
    let case = "[[box]]\nlo = [500, 500, 500]\nhi = [1500, 1500, 1500]\nreflect = 500\n";
    let room = format!(in alloc; "{CUBE}{GREY}{case}{MIDDLE}{EVEN_LAMP}{FLOOR}")?;
    let files = [("even.ldt", EVEN)];
    report(
        &rt,
        alloc,
        room.as_str(),
        &files,
        &[],
        Status::Done,
        DARK_TEXT,
    )
}

#[test]
fn sixteen_sets_of_a_file_are_sixteen_luminaires(rt: HostRuntime) -> Result<(), Fail> {
    let alloc = rt.alloc();
    let mut room = String::from_str(alloc, CUBE)?;
    for set in 1..17_u32 {
        let lamp = format!(in alloc; "{MIDDLE}file = \"sets.ldt\"\nset = {set}\n")?;
        room.push_str(lamp.as_str())?;
    }
    room.push_str(FLOOR)?;
    // 1 + 2 + .. + 16 cd at 1 m
    let text =
        "point 0 0 135.99|136.00 136.00|136.01\naverage 135.99|136.00 136.00|136.01\nuniformity 0.999|1.000 1.000\n";
    let files = [("sets.ldt", SIXTEEN_SETS)];
    report(&rt, alloc, room.as_str(), &files, &[], Status::Done, text)
}

#[test]
fn the_greatest_intensities_of_files_count(rt: HostRuntime) -> Result<(), Fail> {
    let alloc = rt.alloc();
    let room = format!(in alloc;
        "{CUBE}{MIDDLE}file = \"bright.ldt\"\n{MIDDLE}candela = 1\n{FLOOR}"
    )?;
    // 10^7 cd at 1 m
    let text =
        "point 0 0 9999999.99|10000000.00 10000000.00|10000000.01\naverage 9999999.99|10000000.00 10000000.00|10000000.01\nuniformity 0.999|1.000 1.000\n";
    let files = [("bright.ldt", BRIGHT)];
    report(&rt, alloc, room.as_str(), &files, &[], Status::Done, text)?;
    let files = [("bright.ldt", BRIGHTER)];
    report(
        &rt,
        alloc,
        room.as_str(),
        &files,
        &[],
        Status::Refused,
        "refused scene 1 TotalIntensity\n",
    )
}

#[test]
fn the_greatest_intensities_are_added_as_they_were_rounded(rt: HostRuntime) -> Result<(), Fail> {
    let alloc = rt.alloc();
    let room = format!(in alloc;
        "{CUBE}{MIDDLE}file = \"a.ldt\"\n{MIDDLE}file = \"b.ldt\"\n{FLOOR}"
    )?;
    // 10^7 cd in decimals; in 2^-36 cd, each rounded up, one above 10^7 * 2^36, by Python's fractions
    let files = [("a.ldt", THIRD), ("b.ldt", TWO_THIRDS)];
    report(
        &rt,
        alloc,
        room.as_str(),
        &files,
        &[],
        Status::Refused,
        "refused scene 1 TotalIntensity\n",
    )?;
    // 68,719 of them below it
    let text =
        "point 0 0 9999999.99 10000000.00|10000000.01\naverage 9999999.99 10000000.00|10000000.01\nuniformity 0.999|1.000 1.000\n";
    let files = [("a.ldt", THIRD), ("b.ldt", UNDER_TWO_THIRDS)];
    report(&rt, alloc, room.as_str(), &files, &[], Status::Done, text)
}

#[test]
fn files_need_not_be_told(rt: HostRuntime) -> Result<(), Fail> {
    let alloc = rt.alloc();
    let room = format!(in alloc; "{CUBE}{GREY}{MIDDLE}{EVEN_LAMP}{FLOOR}")?;
    let files = [("even.ldt", EVEN)];
    let shelf = shelf_with(alloc, room.as_str(), &files, &[])?;
    let mut untold = Untold { shelf };
    report_over(&rt, alloc, &mut untold, Status::Done, CUBE_TEXT)
}
