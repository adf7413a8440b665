// A response window: the least and the greatest response time of a task.
#[derive(Clone, Copy, PartialEq, Eq, Debug)]
pub struct Window {
    pub least: u16,
    pub greatest: u16,
}
