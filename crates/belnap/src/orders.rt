// The truth order and the knowledge order on decisions, by name. What they say is defined in specs/Orders.antt.
#[derive(Clone, Copy, Debug, PartialEq, Eq)]
pub enum Order {
    Truth,
    Knowledge,
}
