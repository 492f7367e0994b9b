//! Which stamps are pinned, on a small list.

use super::*;
use jr_base::Stamp;
use std::test::Fail;

#[test]
fn finds_the_latest_pin(rt: HostRuntime) -> Result<(), Fail> {
    let mut pins = Pins::new(rt.alloc());
    pins.reserve(3)?;
    pins.pin(Stamp(7));
    pins.pin(Stamp(7));
    let nine = pins.pin(Stamp(9));
    for (upto, found, pinned) in [
        (0, None, false),
        (6, None, false),
        (7, Some(Stamp(7)), true),
        (8, Some(Stamp(7)), false),
        (9, Some(Stamp(9)), true),
        (u32::MAX, Some(Stamp(9)), false),
    ] {
        let latest = pins.latest(Stamp(upto));
        assert_eq!(rt; latest.map(|(_, stamp)| stamp), found, "{upto}");
        assert_eq!(rt; pins.pinned(Stamp(upto)), pinned, "{upto}");
    }
    assert_eq!(rt; pins.head(nine), None);
    pins.unpin(nine);
    assert!(rt; !pins.pinned(Stamp(9)));
    assert!(rt; pins.pinned(Stamp(7)));
    Ok(())
}
