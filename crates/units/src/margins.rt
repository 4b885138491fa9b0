// Six margins of a page, each in whatever a T says: inches, their bits, or units. What goes over all six names them: a closure for that would be handed
// to a public call, which asks nothing of its caller, and a closure that is called has a `requires`.
#[derive(Clone, Copy, Debug, PartialEq)]
pub struct Margins<T> {
    pub left: T,
    pub right: T,
    pub top: T,
    pub bottom: T,
    pub header: T,
    pub footer: T,
}
