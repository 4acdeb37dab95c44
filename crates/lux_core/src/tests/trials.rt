//! Made rooms. The averages and uniformities are those of `bench/expected.py` over the texts of `bench/make_room.py`.
use super::{CALM, run};
use crate::Status;
use std::test::Fail;

const USAGE: &str =
    "usage: lux report ROOM | grid ROOM | read FILE [SET] | sight ROOM X Y Z X Y Z | certify ROOM | check ROOM CLAIM | trial N | flux FILE SET LUMENS | dim ROOM PLAN MILLILUX | escape ROOM X Y X Y MILLILUX RATIO LAMP ..\n";

#[test]
fn a_made_room_is_summed_up(rt: HostRuntime) -> Result<(), Fail> {
    let alloc = rt.alloc();
    for (number, text) in [
        // 135.084618, 0.927008
        (
            "4",
            "trial 4 patches 208 points 6\naverage 135.08 135.09\nuniformity 0.927 0.928\n",
        ),
        // 321.348822, 0.734456
        (
            "40",
            "trial 40 patches 1160 points 120\naverage 321.34 321.35\nuniformity 0.734 0.735\n",
        ),
    ] {
        run(
            &rt,
            alloc,
            &["trial", number],
            "",
            &CALM,
            Status::Done,
            text,
        )?;
    }
    for number in ["0", "41", "04", "-4", "", "room.toml"] {
        run(
            &rt,
            alloc,
            &["trial", number],
            "",
            &CALM,
            Status::Usage,
            USAGE,
        )?;
    }
    run(
        &rt,
        alloc,
        &["trial", "4", "4"],
        "",
        &CALM,
        Status::Usage,
        USAGE,
    )
}
