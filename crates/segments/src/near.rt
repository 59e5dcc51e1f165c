// Nodes in the order in which their figures are worked out.

// A node and its distance to another: the derived order takes the nearer first, and of those as near the smaller number.
#[derive(Clone, Copy, PartialEq, Eq, PartialOrd, Ord)]
pub(crate) struct Near {
    pub far: u32,
    pub node: usize,
}
