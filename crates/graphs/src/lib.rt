// Graphs with letters on their edges: definitions and theorems on Stallings' picture of a subgroup, and the edges that they speak of.
#![tactic(auto)]

// An edge: its letter leads from one point to another, and the inverse letter back. A contract sees the three numbers.
#[repr(C)]
#[derive(Clone, Copy, Debug, PartialEq, Eq)]
pub struct Edge {
    pub from: u16,
    pub letter: u16,
    pub to: u16,
}
