//! The report of an office. Where bars stand between numbers, each of them is an admissible printed end.
use super::luminaires::OFFICE;
use super::rooms::report;
use lux_core::Status;
use std::test::Fail;

/// An office of 7.2 by 5.4 m with eight desks, two cupboards and nine luminaires of four points each: 726 patches.
pub const OFFICE_ROOM: &str = "\
version = 1\n[room]\nsize = [7200, 5400, 2800]\nreflect = [200, 700, 500, 500, 500, 500]\npatch = 600\n[[box]]\n\
lo = [500, 1200, 0]\nhi = [2100, 2000, 720]\nreflect = 300\n[[box]]\nlo = [500, 3400, 0]\nhi = [2100, 4200, 720]\n\
reflect = 300\n[[box]]\nlo = [2100, 1200, 0]\nhi = [3700, 2000, 720]\nreflect = 300\n[[box]]\nlo = [2100, 3400, 0]\n\
hi = [3700, 4200, 720]\nreflect = 300\n[[box]]\nlo = [3900, 1200, 0]\nhi = [5500, 2000, 720]\nreflect = 300\n[[box]]\n\
lo = [3900, 3400, 0]\nhi = [5500, 4200, 720]\nreflect = 300\n[[box]]\nlo = [5500, 1200, 0]\nhi = [7100, 2000, 720]\n\
reflect = 300\n[[box]]\nlo = [5500, 3400, 0]\nhi = [7100, 4200, 720]\nreflect = 300\n[[box]]\nlo = [0, 0, 0]\n\
hi = [1200, 450, 1800]\nreflect = 400\n[[box]]\nlo = [6000, 4950, 0]\nhi = [7200, 5400, 1800]\nreflect = 400\n[[lamp]]\n\
at = [1200, 900, 2800]\nfile = \"f.ldt\"\nsize = [600, 600]\nsplit = [2, 2]\nmaintenance = 800\n[[lamp]]\n\
at = [3600, 900, 2800]\nfile = \"f.ldt\"\nsize = [600, 600]\nsplit = [2, 2]\nmaintenance = 800\n[[lamp]]\n\
at = [6000, 900, 2800]\nfile = \"f.ldt\"\nsize = [600, 600]\nsplit = [2, 2]\nmaintenance = 800\n[[lamp]]\n\
at = [1200, 2700, 2800]\nfile = \"f.ldt\"\nsize = [600, 600]\nsplit = [2, 2]\nmaintenance = 800\n[[lamp]]\n\
at = [3600, 2700, 2800]\nfile = \"f.ldt\"\nsize = [600, 600]\nsplit = [2, 2]\nmaintenance = 800\n[[lamp]]\n\
at = [6000, 2700, 2800]\nfile = \"f.ldt\"\nsize = [600, 600]\nsplit = [2, 2]\nmaintenance = 800\n[[lamp]]\n\
at = [1200, 4500, 2800]\nfile = \"f.ldt\"\nsize = [600, 600]\nsplit = [2, 2]\nmaintenance = 800\n[[lamp]]\n\
at = [3600, 4500, 2800]\nfile = \"f.ldt\"\nsize = [600, 600]\nsplit = [2, 2]\nmaintenance = 800\n[[lamp]]\n\
at = [6000, 4500, 2800]\nfile = \"f.ldt\"\nsize = [600, 600]\nsplit = [2, 2]\nmaintenance = 800\n[task]\n\
from = [300, 300]\nto = [6900, 5100]\nheight = 750\npoints = [9, 7]\n";

/// Its values by `bench/expected.py`, rounded down and up to the printed edges, and a step further out. The outermost of these ends are
/// less than 2 per cent of the upper one apart.
const OFFICE_TEXT: &str = "\
point 0 0 313.64|313.63 313.65|313.66\npoint 1 0 387.34|387.33 387.35|387.36\npoint 2 0 366.76|366.75 366.77|366.78\n\
point 3 0 386.29|386.28 386.30|386.31\npoint 4 0 429.62|429.61 429.63|429.64\npoint 5 0 387.28|387.27 387.29|387.30\n\
point 6 0 369.18|369.17 369.19|369.20\npoint 7 0 396.35|396.34 396.36|396.37\npoint 8 0 334.51|334.50 334.52|334.53\n\
point 0 1 372.36|372.35 372.37|372.38\npoint 1 1 438.34|438.33 438.35|438.36\npoint 2 1 416.80|416.79 416.81|416.82\n\
point 3 1 436.59|436.58 436.60|436.61\npoint 4 1 477.83|477.82 477.84|477.85\npoint 5 1 437.44|437.43 437.45|437.46\n\
point 6 1 418.57|418.56 418.58|418.59\npoint 7 1 441.31|441.30 441.32|441.33\npoint 8 1 375.39|375.38 375.40|375.41\n\
point 0 2 391.18|391.17 391.19|391.20\npoint 1 2 458.27|458.26 458.28|458.29\npoint 2 2 441.10|441.09 441.11|441.12\n\
point 3 2 460.50|460.49 460.51|460.52\npoint 4 2 497.95|497.94 497.96|497.97\npoint 5 2 460.74|460.73 460.75|460.76\n\
point 6 2 441.59|441.58 441.60|441.61\npoint 7 2 459.15|459.14 459.16|459.17\npoint 8 2 392.39|392.38 392.40|392.41\n\
point 0 3 405.57|405.56 405.58|405.59\npoint 1 3 480.34|480.33 480.35|480.36\npoint 2 3 449.34|449.33 449.35|449.36\n\
point 3 3 470.64|470.63 470.65|470.66\npoint 4 3 521.46|521.45 521.47|521.48\npoint 5 3 470.67|470.66 470.68|470.69\n\
point 6 3 449.38|449.37 449.39|449.40\npoint 7 3 480.51|480.50 480.52|480.53\npoint 8 3 405.97|405.96 405.98|405.99\n\
point 0 4 392.00|391.99 392.01|392.02\npoint 1 4 459.02|459.01 459.03|459.04\npoint 2 4 441.58|441.57 441.59|441.60\n\
point 3 4 460.74|460.73 460.75|460.76\npoint 4 4 497.97|497.96 497.98|497.99\npoint 5 4 460.54|460.53 460.55|460.56\n\
point 6 4 441.14|441.13 441.15|441.16\npoint 7 4 458.44|458.43 458.45|458.46\npoint 8 4 391.60|391.59 391.61|391.62\n\
point 0 5 375.08|375.07 375.09|375.10\npoint 1 5 441.21|441.20 441.22|441.23\npoint 2 5 418.60|418.59 418.61|418.62\n\
point 3 5 437.45|437.44 437.46|437.47\npoint 4 5 477.84|477.83 477.85|477.86\npoint 5 5 436.63|436.62 436.64|436.65\n\
point 6 5 416.82|416.81 416.83|416.84\npoint 7 5 438.45|438.44 438.46|438.47\npoint 8 5 372.69|372.68 372.70|372.71\n\
point 0 6 334.39|334.38 334.40|334.41\npoint 1 6 396.39|396.38 396.40|396.41\npoint 2 6 369.30|369.29 369.31|369.32\n\
point 3 6 387.31|387.30 387.32|387.33\npoint 4 6 429.69|429.68 429.70|429.71\npoint 5 6 386.36|386.35 386.37|386.38\n\
point 6 6 366.73|366.72 366.74|366.75\npoint 7 6 387.42|387.41 387.43|387.44\npoint 8 6 313.83|313.82 313.84|313.85\n\
average 420.82|420.81 420.83|420.84\nuniformity 0.745|0.744 0.746|0.747\n";

#[test]
fn an_office_is_reported(rt: HostRuntime) -> Result<(), Fail> {
    let alloc = rt.alloc();
    let files = [("f.ldt", OFFICE)];
    report(
        &rt,
        alloc,
        OFFICE_ROOM,
        &files,
        &[],
        Status::Done,
        OFFICE_TEXT,
    )
}
