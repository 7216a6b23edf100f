//! What a store answers after a row of calls, by hand from C99 6.2.4, 6.3.1.3, 6.5.2.2 and 6.7.8.

use crate::expected::{expect, expect_shown};
use crate::sources::rows::{Row, read, typed};
use c_eval_state::{ArrayName, Place, Store, Value};
use c_tree::{ArrayRef, Function, IntegerType, ValueType};
use std::alloc::Global;
use std::process::Abort;

/// Its static objects are `n` and the text. The arrays of `f` are `s`, which begins as the text, and `a`.
const PROGRAM: &str = "\
int n=5; void f(char c){int x; int *p; char s[3]=\"Hi\"; int a[2];} int main(void){return 0;}";

/// A call of the function, for which there is room and memory.
fn enter(rt: &impl Abort, store: &mut Store, function: &Function, arguments: &[Value]) {
    assert!(rt; !store.is_full());
    let entered = store.enter(function, arguments).is_ok();
    expect(rt, &entered, &true, "a call");
}

/// Locals: an argument in its type, and 0 or null; a value that stays, and that its declaration ends.
fn expect_locals(rt: &impl Abort, alloc: Global, store: &mut Store) {
    let begun = [
        store.local(0),
        store.local(1),
        store.local(2),
        store.local(3),
    ];
    let wanted = "[Number(-56), Number(0), Pointer { array: Null, index: 0 }, Number(0)]";
    expect_shown(rt, alloc, &begun, wanted, "c, x, p and no local");
    store.set_local(1, Value::Number(7));
    let set = store.local(1);
    store.declare_local(1, ValueType::Integer(IntegerType::Int));
    let x = [set, store.local(1)];
    expect_shown(
        rt,
        alloc,
        &x,
        "[Number(7), Number(0)]",
        "x is set, and declared",
    );
}

/// Elements: those of a static object, and of an array up to its end.
fn expect_elements(rt: &impl Abort, alloc: Global, store: &mut Store, array: ArrayName) {
    let object = store.load(Place::Object(0));
    expect_shown(rt, alloc, &object, "Some(Number(5))", "an object");
    let last = store.store(Place::Element { array, index: 1 }, Value::Number(9));
    let first = store.store_at(array, 0, Value::Number(3));
    let behind = store.store(Place::Element { array, index: 2 }, Value::Number(9));
    expect(rt, &(last, first, behind), &(true, true, false), "stores");
    let elements = [
        store.element(array, 0),
        store.element(array, 1),
        store.element(array, 2),
        store.element(array, -1),
        store.element(ArrayName::Null, 0),
    ];
    let wanted = "[Some(3), Some(9), None, None, None]";
    let which = "the first, the last, one behind it, one before the first, and of no array";
    expect_shown(rt, alloc, &elements, wanted, which);
}

/// A first call, whose array `a` is the one that it answers.
fn expect_first(
    rt: &impl Abort,
    alloc: Global,
    store: &mut Store,
    function: &Function,
) -> ArrayName {
    enter(rt, store, function, &[Value::Number(200)]);
    expect_locals(rt, alloc, store);
    let outer = store.array_of(ArrayRef::Frame(1));
    expect_shown(
        rt,
        alloc,
        &outer,
        "InFrame { array: 1, depth: 1 }",
        "the array",
    );
    expect_elements(rt, alloc, store, outer);
    outer
}

fn expect_array(rt: &impl Abort, store: &Store, array: ArrayName, elements: &[i32], when: &str) {
    expect(rt, &store.elements(array), &elements, when);
}

/// A call in it has arrays of its own, until it is left.
fn expect_inner(
    rt: &impl Abort,
    alloc: Global,
    store: &mut Store,
    function: &Function,
    outer: ArrayName,
) {
    enter(rt, store, function, &[]);
    let inner = store.array_of(ArrayRef::Frame(1));
    let found = [store.element(inner, 1), store.element(outer, 1)];
    expect_shown(
        rt,
        alloc,
        &found,
        "[Some(0), Some(9)]",
        "of the inner and the outer call",
    );
    let set = store.set_element(outer, 0, 4);
    store.set_text(0, 1);
    let text = store.array_of(ArrayRef::Frame(0));
    expect_array(rt, store, text, &[72, 105, 0], "the text");
    store.leave();
    let left = store.element(inner, 1);
    expect(
        rt,
        &(set, left),
        &(true, None),
        "an element is set, and one of a call that is left",
    );
}

/// The next call's arrays begin as zeros again.
fn expect_zeros(rt: &impl Abort, store: &mut Store, function: &Function) {
    enter(rt, store, function, &[]);
    let text = store.array_of(ArrayRef::Frame(0));
    expect_array(rt, store, text, &[0, 0, 0], "no text again");
    expect(rt, &store.depth(), &2, "the depth");
    store.leave();
}

/// Calls of one function: each has arrays of its own, which begin as zeros again.
fn expect_calls(rt: &impl Abort, alloc: Global, store: &mut Store, function: &Function) {
    let outer = expect_first(rt, alloc, store, function);
    expect_inner(rt, alloc, store, function, outer);
    expect_zeros(rt, store, function);
    expect_array(rt, store, outer, &[4, 9], "the outer array");
    store.declare_array(1);
    expect_array(rt, store, outer, &[0, 0], "the outer array is declared");
    store.leave();
    expect_shown(rt, alloc, &store.local(0), "Number(0)", "no call is left");
}

/// The row of calls on a store of the program.
#[test]
fn store(rt: HostRuntime) {
    let alloc = rt.alloc();
    let Row { files, .. } = read(alloc, PROGRAM).expect(&rt, PROGRAM);
    let program = typed(alloc, files.as_slice()).expect(&rt, PROGRAM);
    let mut store = Store::new(alloc, &program).expect(&rt, PROGRAM);
    let function = program.functions.as_slice().first().expect(&rt, PROGRAM);
    expect_calls(&rt, alloc, &mut store, function);
}
