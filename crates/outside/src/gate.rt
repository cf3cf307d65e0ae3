//! What hears of the turns of partitions.

/// Where a server of a partition stands.
#[derive(Clone, Copy, Debug, PartialEq, Eq)]
pub enum Point {
    /// It has taken a turn of this partition and serves no message yet.
    Holding(u32),
    /// It has given the turn of this partition back.
    Given(u32),
}

/// What is told where a server stands, and may keep it there for a while.
pub trait Gate {
    fn at(&self, point: Point);
}

/// A gate that keeps nobody.
#[derive(Clone, Copy, Debug, PartialEq, Eq)]
pub struct QuietGate;

impl Gate for QuietGate {
    fn at(&self, _point: Point) {}
}
