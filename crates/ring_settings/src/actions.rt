/// One call of a plan.
///
/// A ring is its place among the rings of the settings; a machine is below that ring's n, a value
/// below its K.
#[derive(Clone, Copy, Debug, PartialEq, Eq)]
pub enum Action {
    /// A pass by the machine, with the order that the ring's resource is to work on.
    Pass { ring: u32, machine: u32, order: u64 },
    /// A corruption: the value is written into the machine.
    Corrupt { ring: u32, machine: u32, value: u32 },
    /// A survey of the ring.
    Survey { ring: u32 },
}

/// The actions of one seat, in order.
#[derive(Drop)]
pub struct Plan {
    pub actions: Vec<Action>,
}

/// The actions of a seat with a drawn plan.
#[derive(Clone, Copy, Debug, PartialEq, Eq)]
pub enum Role {
    /// Passes and surveys.
    Worker,
    /// Only corruptions.
    Injector,
}
