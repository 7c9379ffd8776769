ghost use Rattle.std.specs.Prelude.{◌≤◌, length};

use arrayvec::ArrayVec;
use contexts::{
    Context, Item, ItemFault, Origin, Slots, accept_up, activate, channels_of, first_item,
    next_down, offer, push_item, take_item,
};
use std::process::Abort;
use std::test::Fail;
use wire_ids::{DevAddr, Eui, Nonce24, Radio, Seed};

fn context(addr: u32) -> Context {
    let seed = Seed {
        nonce: Nonce24::from_be_bytes([0, 0, 1]),
        join_eui: Eui(0x70b3d57ed0000001),
        counter: 7,
    };
    let radio = Radio {
        dl: 0x80,
        rx_delay: 1,
        cf: None,
    };
    Context::new(DevAddr(addr), Origin::Seeded(seed), radio)
}

fn item(number: u32, confirmed: bool) -> Item {
    Item {
        number,
        port: 1,
        confirmed,
        payload: ArrayVec::new(),
    }
}

#[test]
fn items_wait_in_order_and_at_most_eight(rt: HostRuntime) -> Result<(), Fail> {
    let mut ctx = context(0x26000001);
    for (number, want) in [
        (0, Ok(())),
        (0, Err(ItemFault::Counter)),
        (65536, Ok(())),
        (65536, Err(ItemFault::Counter)),
        (65537, Ok(())),
        (70000, Ok(())),
        (70001, Ok(())),
        (70002, Ok(())),
        (70003, Ok(())),
        (u32::MAX - 1, Ok(())),
        (u32::MAX - 1, Err(ItemFault::Counter)),
        (u32::MAX, Err(ItemFault::QueueFull)),
    ] {
        assert_eq!(rt; push_item(&mut ctx, item(number, number % 2 == 1)), want);
    }
    for (number, conf) in [
        (0, None),
        (65536, None),
        (65537, Some(1)),
        (70000, Some(1)),
        (70001, Some(4465)),
        (70002, Some(4465)),
        (70003, Some(4467)),
        (u32::MAX - 1, Some(4467)),
    ] {
        assert_eq!(rt; first_item(&ctx).map(|item| item.number), Some(number));
        assert_eq!(rt; take_item(&mut ctx).map(|item| item.number), Some(number));
        assert_eq!(rt; ctx.conf, conf);
    }
    assert!(rt; take_item(&mut ctx).is_none());
    ctx.next_n = u64::from(u32::MAX);
    assert_eq!(rt; next_down(&mut ctx), Some(u32::MAX));
    assert_eq!(rt; next_down(&mut ctx), None);
    Ok(())
}

#[test]
fn an_uplink_makes_the_pending_context_active(rt: HostRuntime) -> Result<(), Fail> {
    let mut slots = Slots::new();
    offer(&mut slots, context(1));
    activate(&mut slots);
    offer(&mut slots, context(2));
    for (pending, count, addr) in [(false, 3, 1), (true, 0, 2), (false, 1, 2)] {
        accept_up(&mut slots, pending, count, &[0x40, 2]);
        let active = slots.active.as_ref().ok_or("no context")?;
        assert_eq!(rt; active.addr, DevAddr(addr));
        assert_eq!(rt; active.last, Some(count));
        assert_eq!(rt; active.frame.as_slice(), [0x40, 2].as_slice());
    }
    assert!(rt; slots.pending.is_none());
    Ok(())
}

// The first list has the frequencies 867.1 to 867.9 MHz, which many networks give.
#[test]
fn a_list_of_frequencies_enables_channels(rt: HostRuntime) -> Result<(), Fail> {
    for (list, want) in [
        (0x184f84e85684b85e84886684586e8400, 0xff),
        (0x184f8400000000000000000000000000, 0x0f),
        (0x00000000000000000000000000010000, 0x87),
        (0x184f84e85684b85e84886684586e8401, 0x07),
        (0, 0x07),
    ] {
        let radio = Radio {
            dl: 0x80,
            rx_delay: 1,
            cf: Some(u128::to_be_bytes(list)),
        };
        assert_eq!(rt; channels_of(&radio), want);
    }
    Ok(())
}
