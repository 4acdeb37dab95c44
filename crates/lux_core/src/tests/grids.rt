//! The task points as comma-separated values. What is expected is worked out by hand: candela times cosine by the squared distance.
use super::{CALM, run};
use crate::Status;
use std::test::Fail;

#[test]
fn points_are_written_by_row_then_column(rt: HostRuntime) -> Result<(), Fail> {
    let alloc = rt.alloc();
    for (room, text) in [
        // 900 * 1500 / (1000^2 + 1500^2)^1.5 * 10^6 = 230.4111.. on both sides of a box that covers the point between them
        (
            "version = 1\n[room]\nsize = [3000, 3000, 3000]\n[[box]]\nlo = [1000, 1000, 1000]\nhi = [2000, 2000, 2000]\n[[lamp]]\nat = [1500, 1500, 3000]\ncandela = 900\n[task]\nfrom = [0, 0]\nto = [3000, 3000]\nheight = 1500\npoints = [3, 1]\n",
            "column,row,lower,upper\n0,0,230.41,230.42\n1,0,,\n2,0,230.41,230.42\n",
        ),
        // 5100 / 9 and 5100 * 3 / 18^1.5 = 200.3469.., one after the other along y; a limit that is missed isn't told
        (
            "version = 1\n[room]\nsize = [6000, 6000, 3000]\n[[lamp]]\nat = [3000, 1500, 3000]\ncandela = 5100\n[task]\nfrom = [0, 0]\nto = [6000, 6000]\nheight = 0\npoints = [1, 2]\n[limits]\naverage_millilux = 1000000\n",
            "column,row,lower,upper\n0,0,566.66,566.67\n0,1,200.34,200.35\n",
        ),
        // 5100 / 9, 5100 * 3 / 18^1.5 twice, and 5100 * 3 / 27^1.5 = 109.0550..
        (
            "version = 1\n[room]\nsize = [6000, 6000, 3000]\n[[lamp]]\nat = [1500, 1500, 3000]\ncandela = 5100\n[task]\nfrom = [0, 0]\nto = [6000, 6000]\nheight = 0\npoints = [2, 2]\n",
            "column,row,lower,upper\n0,0,566.66,566.67\n1,0,200.34,200.35\n0,1,200.34,200.35\n1,1,109.05,109.06\n",
        ),
    ] {
        run(
            &rt,
            alloc,
            &["grid", "room.toml"],
            room,
            &CALM,
            Status::Done,
            text,
        )?;
    }
    Ok(())
}

#[test]
fn a_room_that_is_not_served_has_no_grid(rt: HostRuntime) -> Result<(), Fail> {
    run(
        &rt,
        rt.alloc(),
        &["grid", "room.toml"],
        "version = 1\n[room]\nsize = [10000, 1000, 1000]\nreflect = [700, 700, 700, 700, 700, 700]\npatch = 10000\n[task]\nfrom = [0, 0]\nto = [10000, 1000]\nheight = 0\npoints = [1, 1]\n",
        &CALM,
        Status::Refused,
        "refused rows 1 RowSum 0 1.140\n",
    )
}
