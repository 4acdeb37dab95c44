//! Lamp sets, numbers in their lines, and which half-planes are stored: worked out by hand.
use super::answer;
use std::alloc::Global;
use std::test::Fail;

/// Two lamp sets, of 1000 and of 3000 lm.
const TWO_SETS: &str =
    "-\n-\n1\n1\n-\n2\n-\n-\n-\n-\n-\n-\n-\n-\n-\n-\n-\n-\n-\n-\n-\n-\n-\n1\n-\n2\n-\nLED\n1000\n-\n-\n-\n-\nLED\n3000\n-\n-\n-\n-\n-\n-\n-\n-\n-\n-\n-\n-\n-\n0\n0\n180\n100\n100\n";

#[test]
fn each_lamp_set_has_its_flux(rt: HostRuntime) -> Result<(), Fail> {
    let cases = [
        (1, "planes 1 gammas 2 greatest 100.00 100.00\n"),
        (2, "planes 1 gammas 2 greatest 300.00 300.00\n"),
        (3, "4 NoLampSet"),
        (20, "4 NoLampSet"),
    ];
    for (lamp_set, wanted) in cases {
        let line = answer(rt.alloc(), TWO_SETS.as_bytes(), lamp_set)?;
        assert_eq!(rt; line.as_str(), wanted);
    }
    Ok(())
}

/// A file of one half-plane, two gammas and one lamp set: its symmetry indicator, conversion factor, flux and first intensity.
fn file(alloc: Global, isym: &str, factor: &str, flux: &str, value: &str) -> Result<String, Fail> {
    Ok(format!(in alloc;
        "-\n-\n{isym}\n1\n-\n2\n-\n-\n-\n-\n-\n-\n-\n-\n-\n-\n-\n-\n-\n-\n-\n-\n-\n{factor}\n-\n1\n-\nLED\n{flux}\n-\n-\n-\n-\n-\n-\n-\n-\n-\n-\n-\n-\n-\n0\n0\n180\n{value}\n100\n"
    )?)
}

/// The symmetry indicator, the conversion factor, the flux, the first intensity, and the greatest one in candela.
const NUMBERS: &str = "1 | 1 | 2000 | 100 | 200.00 200.00
 1\t | 1.0 | +2000.000000 | \t 100  | 200.00 200.00
1 | 0.5 | 2000 | 200 | 200.00 200.00
1 | ,5 | 4000 | 00000000100 | 200.00 200.00
1 | 1 | 2000 | 99.9999999 | 200.00 200.00
1 | 1 | 2000 | 100,5 | 201.00 201.00
1 | 1 | 2000 | 5000000 | 10000000.00 10000000.00
1 | 0.333333 | 1500 | 1 | 49.99 50.00";

#[test]
fn numbers_in_their_lines(rt: HostRuntime) -> Result<(), Fail> {
    for case in NUMBERS.lines() {
        let (isym, rest) = case.split_once(" | ").ok_or("an indicator")?;
        let (factor, rest) = rest.split_once(" | ").ok_or("a factor")?;
        let (flux, rest) = rest.split_once(" | ").ok_or("a flux")?;
        let (value, greatest) = rest.split_once(" | ").ok_or("a value")?;
        let text = file(rt.alloc(), isym, factor, flux, value)?;
        let line = answer(rt.alloc(), text.as_str().as_bytes(), 1)?;
        let wanted = format!(in rt.alloc(); "planes 1 gammas 2 greatest {greatest}\n")?;
        assert_eq!(rt; line.as_str(), wanted.as_str(), "{case}");
    }
    Ok(())
}

/// The mirror at 90 with 24 angles C, of which 13 planes are stored: plane k has 100 + k.
const MIRRORED: &str =
    "-\n-\n3\n24\n-\n2\n-\n-\n-\n-\n-\n-\n-\n-\n-\n-\n-\n-\n-\n-\n-\n-\n-\n1\n-\n1\n-\nLED\n1000\n-\n-\n-\n-\n-\n-\n-\n-\n-\n-\n-\n-\n-\n0\n15\n30\n45\n60\n75\n90\n105\n120\n135\n150\n165\n180\n195\n210\n225\n240\n255\n270\n285\n300\n315\n330\n345\n0\n90\n100\n100\n101\n101\n102\n102\n103\n103\n104\n104\n105\n105\n106\n106\n107\n107\n108\n108\n109\n109\n110\n110\n111\n111\n112\n112\n";

#[test]
fn stored_planes_run_past_the_last_to_the_first(rt: HostRuntime) -> Result<(), Fail> {
    let line = answer(rt.alloc(), MIRRORED.as_bytes(), 1)?;
    assert_eq!(rt;
        line.as_str(),
        "planes 24 gammas 2 greatest 112.00 112.00\n"
    );
    Ok(())
}
