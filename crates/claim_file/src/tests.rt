//! Claims read from texts and written, with each fault at its border.
use crate::{ClaimFault, claim_text, read_claim};
use fx_base::Tick;
use std::test::Fail;

/// 2^90 ticks, the greatest bound.
const GREATEST: i128 = 1_237_940_039_285_380_274_899_124_224;

#[test]
fn each_patch_has_its_bounds(rt: HostRuntime) -> Result<(), Fail> {
    let text = b"patch,lower,upper\n0,10,20\n1,0,1237940039285380274899124224";
    let claim = read_claim(rt.alloc(), text, 2)?;
    assert_eq!(rt; claim.lower[0], Tick(10));
    assert_eq!(rt; claim.upper[0], Tick(20));
    assert_eq!(rt; claim.lower[1], Tick(0));
    assert_eq!(rt; claim.upper[1], Tick(GREATEST));
    Ok(())
}

#[test]
fn line_ends_quotes_and_a_byte_order_mark_are_those_of_csv(rt: HostRuntime) -> Result<(), Fail> {
    let text = b"\xEF\xBB\xBF\r\n\r\n\xFF,,\r\n\r\n\"0\",\"10\",20\r\n\n1,30,40\r\n\r\n";
    let claim = read_claim(rt.alloc(), text, 2)?;
    assert_eq!(rt; claim.lower[0], Tick(10));
    assert_eq!(rt; claim.upper[1], Tick(40));
    Ok(())
}

#[test]
fn a_record_is_three_numbers_in_digits(rt: HostRuntime) -> Result<(), Fail> {
    let alloc = rt.alloc();
    let first = Some(ClaimFault::Record(1));
    let second = Some(ClaimFault::Record(2));
    assert_eq!(rt; read_claim(alloc, b"a,b\n0,10,20\n", 1).err(), first);
    assert_eq!(rt; read_claim(alloc, b"a,b\n0,10\n", 1).err(), first);
    assert_eq!(rt; read_claim(alloc, b"a,b,c\n0,10,x\n", 1).err(), first);
    assert_eq!(rt; read_claim(alloc, b"a,b,c\n0,,20\n", 1).err(), first);
    assert_eq!(rt; read_claim(alloc, b"a,b,c\n0,10, 20\n", 1).err(), first);
    assert_eq!(rt; read_claim(alloc, b"a,b,c\n0,010,20\n", 1).err(), first);
    assert_eq!(rt;
        read_claim(alloc, b"a,b,c\n0,10,20\n1,10,20,30\n", 2).err(),
        second
    );
    assert_eq!(rt;
        read_claim(alloc, b"a,b,c\n0,10,20\n1,\xFF,20\n", 2).err(),
        second
    );
    assert_eq!(rt;
        read_claim(alloc, b"a,b,c\n0,10,20\n01,10,20\n", 2).err(),
        second
    );
    Ok(())
}

#[test]
fn a_bound_is_at_most_2_to_the_90th(rt: HostRuntime) -> Result<(), Fail> {
    let alloc = rt.alloc();
    let first = Some(ClaimFault::Record(1));
    let more = b"a,b,c\n0,0,1237940039285380274899124225\n";
    assert_eq!(rt; read_claim(alloc, more, 1).err(), first);
    let forty_digits = b"a,b,c\n0,1000000000000000000000000000000000000000,0\n";
    assert_eq!(rt; read_claim(alloc, forty_digits, 1).err(), first);
    Ok(())
}

#[test]
fn patches_come_in_order(rt: HostRuntime) -> Result<(), Fail> {
    let alloc = rt.alloc();
    let third = b"a,b,c\n0,1,2\n1,1,2\n3,1,2\n";
    assert_eq!(rt;
        read_claim(alloc, third, 3).err(),
        Some(ClaimFault::Order(3))
    );
    let forty_digits = b"a,b,c\n1000000000000000000000000000000000000000,1,2\n";
    assert_eq!(rt;
        read_claim(alloc, forty_digits, 1).err(),
        Some(ClaimFault::Order(1))
    );
    Ok(())
}

#[test]
fn there_is_one_record_for_each_patch(rt: HostRuntime) -> Result<(), Fail> {
    let alloc = rt.alloc();
    let count = Some(ClaimFault::Count);
    assert_eq!(rt; read_claim(alloc, b"", 1).err(), count);
    assert_eq!(rt; read_claim(alloc, b"a,b,c\n", 1).err(), count);
    assert_eq!(rt; read_claim(alloc, b"a,b,c\n0,1,2\n", 2).err(), count);
    assert_eq!(rt; read_claim(alloc, b"a,b,c\n0,1,2\n1,1,2\n", 1).err(), count);
    assert_eq!(rt; read_claim(alloc, b"a,b,c\n0,1,2\nx\n", 1).err(), count);
    Ok(())
}

#[test]
fn a_claim_is_written_with_a_header(rt: HostRuntime) -> Result<(), Fail> {
    let claim = read_claim(
        rt.alloc(),
        b"a,b,c\n0,10,20\n1,0,1237940039285380274899124224\n",
        2,
    )?;
    let text = claim_text(rt.alloc(), &claim)?;
    let expected = b"patch,lower,upper\n0,10,20\n1,0,1237940039285380274899124224\n";
    assert!(rt; text.as_slice() == expected.as_slice());
    Ok(())
}

#[test]
fn a_fault_is_told_by_its_number_its_name_and_its_record(rt: HostRuntime) -> Result<(), Fail> {
    let record = ClaimFault::Record(5).text(rt.alloc())?;
    let count = ClaimFault::Count.text(rt.alloc())?;
    let order = ClaimFault::Order(7).text(rt.alloc())?;
    assert!(rt; record.as_str() == "1 Record 5");
    assert!(rt; count.as_str() == "2 Count");
    assert!(rt; order.as_str() == "3 Order 7");
    Ok(())
}
