// What a run of bytes leaves. For the readers, of which each has a state of its own.

// The state after some bytes, and the index of the next one.
#[derive(Clone, Copy)]
pub struct Passed<S> {
    pub state: S,
    pub next: usize,
}
