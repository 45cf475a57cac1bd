use super::*;

fn gather(
    rt: &impl Abort,
    alloc: Global,
    builder: &mut ShelfBuilder,
    key: Option<Key>,
    update: u8,
    bytes: &[u8],
) {
    let held = octets(rt, alloc, bytes);
    builder.put(key, update, held).expect(rt, "room");
}

/// A hundred thousand stations, each twice and in no order. The greater update number comes first
/// for odd stations, and last for even ones.
fn hundred_thousand(rt: &impl Abort, alloc: Global) -> ShelfBuilder {
    let mut builder = ShelfBuilder::new(alloc);
    for place in 0..200_000u32 {
        let number = (u64::from(place) * 389 % 100_000) as u32;
        let is_late = place >= 100_000;
        let update = if is_late == (number % 2 == 0) { 1 } else { 0 };
        let key = noon(Some(number as i128));
        gather(rt, alloc, &mut builder, key, update, &digits(number));
    }
    builder
}

/// Seventy thousand entries without a key, each twice and in no order.
fn without_key(rt: &impl Abort, alloc: Global) -> ShelfBuilder {
    let mut builder = ShelfBuilder::new(alloc);
    for place in 0..140_000u32 {
        let number = (u64::from(place) * 389 % 70_000) as u32;
        gather(rt, alloc, &mut builder, None, 0, &digits(number));
    }
    builder
}

fn assert_numbers(rt: &impl Abort, shelf: &SortedShelf) {
    same(rt, shelf.len(), 100_000);
    let mut next = shelf.first();
    for number in 0..100_000u32 {
        let held = next.expect(rt, "an entry");
        assert_held(rt, held, (true, 1, &digits(number)));
        next = shelf.after(held);
    }
    assert!(rt; next.is_none());
}

/// The builder sorts the stations in several batches, and keeps the greater update number of each.
#[test]
fn hundred_thousand_gathered(rt: HostRuntime) {
    let builder = hundred_thousand(&rt, rt.alloc());
    let shelf = SortedShelf::of_gathered(rt.alloc(), builder).expect(&rt, "room");
    assert_numbers(&rt, &shelf);
    let octets = shelf.into_octets().expect(&rt, "room");
    same(&rt, octets.len(), 500_000);
}

/// The octets of entries without a key come in order, each once.
#[test]
fn octets_handed_out(rt: HostRuntime) {
    let builder = without_key(&rt, rt.alloc());
    let kept = builder.into_octets().expect(&rt, "room");
    same(&rt, kept.len(), 70_000);
    let mut lent = kept.lent();
    for number in 0..70_000u32 {
        let octets = lent.next().expect(&rt, "octets");
        same(&rt, octets, digits(number).as_slice());
    }
    assert!(rt; lent.next().is_none(), "no more");
}
