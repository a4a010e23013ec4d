// Points at which a test may hold a session up.

/// A point that a session passes: each change the first, and each reply the second.
#[derive(Clone, Copy)]
pub enum Point {
    /// The desk's lock is held, and nothing of the change is published yet.
    AtDesk,
    /// The reply was written.
    AfterReply,
}

/// What is called at each point. It answers nothing and changes nothing that a contract speaks of.
pub trait Gate {
    /// Called at the point.
    fn at(&self, point: Point);
}

/// A gate that is always open.
#[derive(Clone, Copy, Drop)]
pub struct NoGate;

impl Gate for NoGate {
    fn at(&self, _point: Point) {}
}
