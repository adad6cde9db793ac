// What a test for a bottleneck needs to know of a port. It is worked out once and serves all flows of the port.

// What the numerators of a port's flows add up to, and the largest of them.
#[derive(Clone, Copy)]
pub struct Port {
    pub sum: u64,
    pub most: u64,
}
