//! A grey cube of 2 m, of six patches, with a lamp of a file in its middle: its room, the files beside it, and what commands answer.

pub const CUBE_ROOM: &str =
    "version = 1\n[room]\nsize = [2000, 2000, 2000]\nreflect = [500, 500, 500, 500, 500, 500]\npatch = 2000\n[[lamp]]\nat = [1000, 1000, 1000]\nfile = \"even.ldt\"\n[task]\nfrom = [0, 0]\nto = [2000, 2000]\nheight = 0\npoints = [1, 1]\n";

/// 200 cd in all directions. Lines that are passed over hold `-`.
pub const EVEN: &str = "\
-\n-\n1\n1\n-\n2\n-\n-\n-\n-\n-\n-\n-\n-\n-\n-\n-\n-\n-\n-\n-\n-\n-\n1\n-\n1\n-\nLED\n2000\n-\n-\n-\n-\n-\n-\n-\n-\n-\n\
-\n-\n-\n-\n0\n0\n180\n100\n100\n";

/// From 0 to 2^90 ticks for each patch: shown of any light.
pub const WIDE_CLAIM: &str =
    "patch,lower,upper\n0,0,1237940039285380274899124224\n1,0,1237940039285380274899124224\n2,0,1237940039285380274899124224\n3,0,1237940039285380274899124224\n4,0,1237940039285380274899124224\n5,0,1237940039285380274899124224\n";

/// No light at all.
pub const DARK_CLAIM: &str = "patch,lower,upper\n0,0,0\n1,0,0\n2,0,0\n3,0,0\n4,0,0\n5,0,0\n";

/// 30 watts in the third group.
pub const PLAN: &str = "lamp,group,watts\n0,2,30\n";

pub const CUBE_FILES: [(&str, &str); 4] = [
    ("even.ldt", EVEN),
    ("claim.csv", WIDE_CLAIM),
    ("dark.csv", DARK_CLAIM),
    ("plan.csv", PLAN),
];

/// 200 lux of direct light at each patch: 200 / (1 - (1 / (pi + 1) + 4 / (pi + 2)) / 2) = 407.9227..
pub const CUBE_TEXT: &str =
    "point 0 0 407.92 407.93\naverage 407.92 407.93\nuniformity 0.999 1.000\n";

pub const GRID_TEXT: &str = "column,row,lower,upper\n0,0,407.92,407.93\n";

/// Of an average of 200 lux: five tenths of 407.9227.. are more, four tenths are less; and of 30 watts they are 15.
pub const PLAN_TEXT: &str = "met 15.0 0 0 5 0 0 0\npossible 15.0 0 0 5 0 0 0\n";

/// 4 pi 200 = 2513.27.., half of it downward.
pub const FLUX_LINES: &str = "down 1256.63 1256.64\nup 1256.63 1256.64\nflux 2513.27 2513.28\n";

/// From 300 to 800 mm beside the lamp: 200 / 1.09^1.5 = 175.7479.. and 200 / 1.64^1.5 = 95.2279.., the one 1.8455.. times the other.
pub const ROUTE: &str = "escape room.toml 1300 1000 1800 1000";

pub const ROUTE_LINES: &str =
    "points 2\nleast 95.22 95.23\ngreatest 175.74 175.75\nratio 1.845 1.846\n";

/// 135.084618 and 0.927008 by `bench/expected.py` over the text of `bench/make_room.py`.
pub const TRIAL_TEXT: &str =
    "trial 4 patches 208 points 6\naverage 135.08 135.09\nuniformity 0.927 0.928\n";
