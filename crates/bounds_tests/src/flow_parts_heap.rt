//! A heap of few keys. The answers were worked out by hand.
ghost use Rattle.std.specs.Prelude.{◌≡◌};

use compared::same;
use flow_solver::Heap;

#[test]
fn gives_the_least_rank_first_and_of_ties_the_least_key(rt: HostRuntime) {
    let mut heap = Heap::new(rt.alloc(), 3).expect(&rt, "memory");
    heap.offer(2, 5);
    heap.offer(0, 5);
    heap.offer(2, 3);
    same("first", heap.take_least(), Some((2, 3))).expect(&rt, "a row");
    same("second", heap.take_least(), Some((0, 5))).expect(&rt, "a row");
    same("then", heap.take_least(), None).expect(&rt, "a row");
}

#[test]
fn keeps_the_lesser_rank(rt: HostRuntime) {
    let mut heap = Heap::new(rt.alloc(), 2).expect(&rt, "memory");
    heap.offer(1, 4);
    heap.offer(1, 9);
    same("the lesser", heap.take_least(), Some((1, 4))).expect(&rt, "a row");
    heap.offer(1, 9);
    same("anew", heap.take_least(), Some((1, 9))).expect(&rt, "a row");
}
