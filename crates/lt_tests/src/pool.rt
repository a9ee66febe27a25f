ghost use Rattle.std.specs.Prelude.{◌≡◌, refl};

use crate::telling::same;
use lt_pool::{Pool, Same};

// An item that goes on as long as it keeps its name.
#[derive(Debug, Drop)]
struct Named {
    name: u8,
}

impl Same for Named {
    ghost continues = { λ a b. b.name ≡ a.name };

    ghost continues_itself = { λ x. refl };
}

#[test]
fn a_slot_is_one_badges_at_a_time(rt: HostRuntime) {
    let items = vec![in rt.alloc(); Named { name: 0 }, Named { name: 1 }, Named { name: 2 }].expect(
        &rt, "memory",
    );
    let (pool, mut first) = Pool::new(rt.alloc(), items).expect(&rt, "memory");
    let mut second = pool.split(&mut first);

    let item = pool.claim(&mut first, 1).expect(&rt, "slot 1 is free");
    let refused = pool
        .claim(&mut second, 1)
        .expect_err(&rt, "slot 1 is taken");
    same(&rt, refused, 1);
    pool.give(&mut first, 1, item);

    let item = pool
        .claim(&mut second, 1)
        .expect(&rt, "slot 1 was given back");
    same(&rt, item.name, 1);
    pool.give(&mut second, 1, item);

    pool.join(&mut first, second);
    let items = pool.close(first).ok().expect(&rt, "memory");
    same(&rt, items.len(), 3);
    for (slot, item) in items.into_iter().enumerate() {
        same(&rt, usize::from(item.name), slot);
    }
}
