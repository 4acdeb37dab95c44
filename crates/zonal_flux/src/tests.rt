//! Constants and fluxes of small tables. What is expected was calculated by Python's mpmath with 60 digits, the intensities by
//! `bench/photometry.py` with its fractions, from what a file of each symmetry stores; each number of ticks is rounded down.
ghost use Rattle.std.specs.Prelude.{◌≡◌};

use crate::{Flux, flux_text, zonal, zone_constant};
use fx_base::{Micro, Span, Tick};
use photo_table::PhotoTable;
use series_enclose::TangentTable;
use std::alloc::{AllocError, Global};
use std::test::Fail;

/// 2 pi (cos 5k - cos (5k + 5)), angles in degrees, for the zones below the level plane.
const CONSTANTS: [i128; 18] = [
    1643042628,
    4916623337,
    8152785574,
    11326900190,
    14414810257,
    17393014913,
    20238848224,
    22930651679,
    25447939029,
    27771552197,
    29883807084,
    31768628155,
    33411670783,
    34800430422,
    35924337772,
    36774839220,
    37345461936,
    37631863137,
];

/// The width of a constant whose cosines and twice pi are 16, 16 and 2 ticks wide.
const CONSTANT_WIDTH: i128 = 210;

/// 6 * 10^-5 lm, in ticks.
const NARROW: i128 = 4_000_000;

/// Whether the span holds all numbers between so many ticks and one more, and is at most so wide.
fn holds(span: Span, ticks: i128, width: i128) -> bool {
    let lo = span.lo().0;
    let hi = span.hi().0;
    lo <= ticks && ticks < hi && hi <= lo.saturating_add(width)
}

/// 100, 200 and 400 cd in the half-planes 0, 90 and 270, the same at gammas 0 and 180.
fn three_planes(alloc: Global) -> Result<PhotoTable, AllocError> {
    let planes = vec![in alloc; Micro(0), Micro(90_000_000), Micro(270_000_000)]?;
    let gammas = vec![in alloc; Micro(0), Micro(180_000_000)]?;
    let values = vec![in alloc;
        Span::whole(100),
        Span::whole(100),
        Span::whole(200),
        Span::whole(200),
        Span::whole(400),
        Span::whole(400),
    ]?;
    Ok(PhotoTable::new(planes, gammas, values))
}

/// 300 cd straight down and 0 at gamma 90, where the table ends, all round.
fn falling(alloc: Global) -> Result<PhotoTable, AllocError> {
    let planes = vec![in alloc; Micro(0)]?;
    let gammas = vec![in alloc; Micro(0), Micro(90_000_000)]?;
    let values = vec![in alloc; Span::whole(300), Span::whole(0)]?;
    Ok(PhotoTable::new(planes, gammas, values))
}

/// Half-planes 10, 75 and 200.
fn without_symmetry(alloc: Global) -> Result<PhotoTable, AllocError> {
    let planes = vec![in alloc; Micro(10_000_000), Micro(75_000_000), Micro(200_000_000)]?;
    let gammas = vec![in alloc; Micro(0), Micro(90_000_000), Micro(180_000_000)]?;
    let values = vec![in alloc;
        Span::whole(500),
        Span::whole(30),
        Span::whole(5),
        Span::whole(400),
        Span::whole(60),
        Span::whole(10),
        Span::whole(300),
        Span::whole(90),
        Span::whole(7),
    ]?;
    Ok(PhotoTable::new(planes, gammas, values))
}

/// Half-planes 0, 60 and 180, mirrored at the plane C 0 to C 180.
fn mirrored_at_0(alloc: Global) -> Result<PhotoTable, AllocError> {
    let planes = vec![in alloc;
        Micro(0),
        Micro(60_000_000),
        Micro(180_000_000),
        Micro(300_000_000),
    ]?;
    let gammas = vec![in alloc; Micro(0), Micro(90_000_000), Micro(180_000_000)]?;
    let values = vec![in alloc;
        Span::whole(500),
        Span::whole(30),
        Span::whole(5),
        Span::whole(400),
        Span::whole(60),
        Span::whole(10),
        Span::whole(300),
        Span::whole(90),
        Span::whole(7),
        Span::whole(400),
        Span::whole(60),
        Span::whole(10),
    ]?;
    Ok(PhotoTable::new(planes, gammas, values))
}

/// Half-planes -90, -20 and 90, mirrored at the plane C 90 to C 270.
fn mirrored_at_90(alloc: Global) -> Result<PhotoTable, AllocError> {
    let planes = vec![in alloc;
        Micro(90_000_000),
        Micro(200_000_000),
        Micro(270_000_000),
        Micro(340_000_000),
    ]?;
    let gammas = vec![in alloc; Micro(0), Micro(90_000_000), Micro(180_000_000)]?;
    let values = vec![in alloc;
        Span::whole(300),
        Span::whole(90),
        Span::whole(7),
        Span::whole(400),
        Span::whole(60),
        Span::whole(10),
        Span::whole(500),
        Span::whole(30),
        Span::whole(5),
        Span::whole(400),
        Span::whole(60),
        Span::whole(10),
    ]?;
    Ok(PhotoTable::new(planes, gammas, values))
}

/// Half-planes 0, 40 and 90, mirrored at both planes.
fn mirrored_twice(alloc: Global) -> Result<PhotoTable, AllocError> {
    let planes = vec![in alloc;
        Micro(0),
        Micro(40_000_000),
        Micro(90_000_000),
        Micro(140_000_000),
        Micro(180_000_000),
        Micro(220_000_000),
        Micro(270_000_000),
        Micro(320_000_000),
    ]?;
    let gammas = vec![in alloc; Micro(0), Micro(90_000_000), Micro(180_000_000)]?;
    let values = vec![in alloc;
        Span::whole(500),
        Span::whole(30),
        Span::whole(5),
        Span::whole(400),
        Span::whole(60),
        Span::whole(10),
        Span::whole(300),
        Span::whole(90),
        Span::whole(7),
        Span::whole(400),
        Span::whole(60),
        Span::whole(10),
        Span::whole(500),
        Span::whole(30),
        Span::whole(5),
        Span::whole(400),
        Span::whole(60),
        Span::whole(10),
        Span::whole(300),
        Span::whole(90),
        Span::whole(7),
        Span::whole(400),
        Span::whole(60),
        Span::whole(10),
    ]?;
    Ok(PhotoTable::new(planes, gammas, values))
}

#[test]
fn each_zone_has_its_constant(rt: HostRuntime) -> Result<(), Fail> {
    let table = TangentTable::build(rt.alloc()).ok().ok_or("memory")?;
    for (k, constant) in CONSTANTS.iter().enumerate() {
        let below = zone_constant(&table, k as u32);
        assert!(rt; holds(below, *constant, CONSTANT_WIDTH), "zone {k}");
        let above = zone_constant(&table, 35 - k as u32);
        assert!(rt;
            holds(above, *constant, CONSTANT_WIDTH),
            "zone {k} from above"
        );
    }
    Ok(())
}

/// 400 pi lm is 86355441308940.9 ticks.
#[test]
fn an_even_lamp_of_100_candela_sends_400_pi_lumens(rt: HostRuntime) -> Result<(), Fail> {
    let table = TangentTable::build(rt.alloc()).ok().ok_or("memory")?;
    let photo = PhotoTable::even(rt.alloc(), 100).ok().ok_or("memory")?;
    let flux = zonal(&table, &photo);
    assert!(rt; holds(flux.total, 86_355_441_308_940, NARROW));
    assert!(rt; holds(flux.down, 43_177_720_654_470, NARROW));
    assert!(rt; holds(flux.up, 43_177_720_654_470, NARROW));
    Ok(())
}

/// The mean is 250 cd: a quarter of the turn with the mean 150, half of it with 300, a quarter with 250. A plain mean of the three
/// planes would be 233.3.
#[test]
fn each_sector_counts_for_its_part_of_the_turn(rt: HostRuntime) -> Result<(), Fail> {
    let table = TangentTable::build(rt.alloc()).ok().ok_or("memory")?;
    let flux = zonal(&table, &three_planes(rt.alloc())?);
    assert!(rt; holds(flux.total, 215_888_603_272_352, NARROW));
    Ok(())
}

#[test]
fn above_the_last_gamma_nothing_is_sent(rt: HostRuntime) -> Result<(), Fail> {
    let table = TangentTable::build(rt.alloc()).ok().ok_or("memory")?;
    let flux = zonal(&table, &falling(rt.alloc())?);
    assert!(rt; holds(flux.down, 47_122_129_397_940, NARROW));
    assert!(rt; holds(flux.total, 47_122_129_397_940, NARROW));
    assert_eq!(rt; flux.up.hi().0, 0);
    Ok(())
}

#[test]
fn a_table_of_each_symmetry_has_its_flux(rt: HostRuntime) -> Result<(), Fail> {
    let table = TangentTable::build(rt.alloc()).ok().ok_or("memory")?;
    let flux = zonal(&table, &without_symmetry(rt.alloc())?);
    assert!(rt; holds(flux.down, 78_689_522_942_895, NARROW));
    assert!(rt; holds(flux.up, 18_290_297_271_072, NARROW));
    let flux = zonal(&table, &mirrored_at_0(rt.alloc())?);
    assert!(rt; holds(flux.down, 78_067_333_508_776, NARROW));
    assert!(rt; holds(flux.up, 19_138_492_800_573, NARROW));
    let flux = zonal(&table, &mirrored_at_90(rt.alloc())?);
    assert!(rt; holds(flux.down, 78_482_126_464_855, NARROW));
    assert!(rt; holds(flux.up, 18_671_927_410_506, NARROW));
    let flux = zonal(&table, &mirrored_twice(rt.alloc())?);
    assert!(rt; holds(flux.down, 78_896_919_420_935, NARROW));
    assert!(rt; holds(flux.up, 18_205_362_020_439, NARROW));
    Ok(())
}

#[test]
fn an_even_lamp_has_its_lines(rt: HostRuntime) -> Result<(), Fail> {
    let table = TangentTable::build(rt.alloc()).ok().ok_or("memory")?;
    let photo = PhotoTable::even(rt.alloc(), 200).ok().ok_or("memory")?;
    let flux = zonal(&table, &photo);
    let text = flux_text(rt.alloc(), &flux, 2500)?;
    assert_eq!(rt;
        text.as_str(),
        "down 1256.63 1256.64\nup 1256.63 1256.64\nflux 2513.27 2513.28\nagainst 2500 met\n"
    );
    let text = flux_text(rt.alloc(), &flux, 2514)?;
    assert_eq!(rt;
        text.as_str(),
        "down 1256.63 1256.64\nup 1256.63 1256.64\nflux 2513.27 2513.28\nagainst 2514 missed\n"
    );
    Ok(())
}

#[test]
fn a_falling_lamp_has_its_lines(rt: HostRuntime) -> Result<(), Fail> {
    let table = TangentTable::build(rt.alloc()).ok().ok_or("memory")?;
    let flux = zonal(&table, &falling(rt.alloc())?);
    let text = flux_text(rt.alloc(), &flux, 1000)?;
    assert_eq!(rt;
        text.as_str(),
        "down 685.71 685.72\nup 0.00 0.00\nflux 685.71 685.72\nagainst 1000 missed\n"
    );
    Ok(())
}

/// A total between 999.995 and 999.996 lm is printed as 999.99 1000.00, so that 1000 lm may be reached and may not.
#[test]
fn a_verdict_turns_at_the_printed_total(rt: HostRuntime) -> Result<(), Fail> {
    let total = Span::new(Tick(68_719_133_138_617), Tick(68_719_201_858_093));
    let flux = Flux {
        down: total,
        up: Span::whole(0),
        total,
    };
    let rows = [(999, "met"), (1000, "undecided"), (1001, "missed")];
    for (lumens, verdict) in rows {
        let text = flux_text(rt.alloc(), &flux, lumens)?;
        let wanted = format!(in rt.alloc();
            "down 999.99 1000.00\nup 0.00 0.00\nflux 999.99 1000.00\nagainst {lumens} {verdict}\n"
        )?;
        assert_eq!(rt; text.as_str(), wanted.as_str());
    }
    Ok(())
}
