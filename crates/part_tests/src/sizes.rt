//! How large the types are of which a desk holds many.
use sms_construct::{Alloc, Answer, Entry, Request};
use std::mem::size_of;

fn are_small() -> bool {
    size_of::<Alloc>() <= 200
        && size_of::<Request>() <= 300
        && size_of::<Answer>() <= 300
        && size_of::<Entry>() <= 300
}

#[test]
fn requests_and_answers_are_small(rt: HostRuntime) {
    assert!(rt; are_small());
}
