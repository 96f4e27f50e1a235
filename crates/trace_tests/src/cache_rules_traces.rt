//! `cache_rules`: a trace of a few requests, counted by hand.
use cache_rules::{Builder, Object, Trace};
use compared::{holds, same};
use std::alloc::Global;
use std::process::Abort;

// Three objects of one id, which differ in volume and in size, and one of another id.
const A: Object = Object {
    volume: 0,
    id: 7,
    size: 10,
};

const B: Object = Object {
    volume: 0,
    id: 8,
    size: 10,
};

const C: Object = Object {
    volume: 1,
    id: 7,
    size: 10,
};

const D: Object = Object {
    volume: 0,
    id: 7,
    size: 11,
};

// Adds a request where memory is wanted at the second try.
fn add(rt: &impl Abort, builder: &mut Builder, object: Object) {
    let before = builder.len();
    holds(before, before < 10).expect(rt, "a row");
    holds(before, object.size == 10 || object.size == 11).expect(rt, "a row");
    if builder.push(object).is_err() {
        same("after a failed push", builder.len(), before).expect(rt, "a row");
        builder.push(object).expect(rt, "memory");
    }
}

// The trace of the requests.
fn trace_of(rt: &impl Abort, alloc: Global, objects: &[Object]) -> Trace {
    let mut builder = Builder::new(alloc).expect(rt, "memory");
    same("at first", builder.len(), 0).expect(rt, "a row");
    for object in objects {
        add(rt, &mut builder, *object);
    }
    same("at last", builder.len() as usize, objects.len()).expect(rt, "a row");
    builder.finish()
}

const OBJECTS: [Object; 4] = [A, B, C, D];

const TRACE: [Object; 7] = [A, B, A, C, B, A, D];

// The number of the object of each request, and the nearest requests for it.
const REQUESTS: [(u32, Option<u32>, Option<u32>); 7] = [
    (0, None, Some(2)),
    (1, None, Some(4)),
    (0, Some(0), Some(5)),
    (2, None, None),
    (1, Some(1), None),
    (0, Some(2), None),
    (3, None, None),
];

// The answers are counted by hand.
#[test]
fn names_each_object_and_its_nearest_requests(rt: HostRuntime) {
    let trace = trace_of(&rt, rt.alloc(), &TRACE);
    same("counts", (trace.len(), trace.objects()), (7, 4)).expect(&rt, "a row");
    for (t, want) in REQUESTS.iter().enumerate() {
        let t = t as u32;
        holds(t, t < trace.len()).expect(&rt, "a row");
        let found = (trace.request(t), trace.prev(t), trace.next(t));
        same(t, found, *want).expect(&rt, "a row");
    }
    drop(trace);
}

#[test]
fn gives_each_object_and_its_size(rt: HostRuntime) {
    let trace = trace_of(&rt, rt.alloc(), &TRACE);
    for (number, object) in OBJECTS.iter().enumerate() {
        let number = number as u32;
        holds(number, number < trace.objects()).expect(&rt, "a row");
        let found = (trace.object(number), trace.size_of(number));
        same(number, found, (*object, object.size)).expect(&rt, "a row");
    }
    drop(trace);
}
