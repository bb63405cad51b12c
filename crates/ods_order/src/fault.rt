//! Why a volume cannot be read from a container.
use thiserror::Error;

/// The reason why a volume cannot be read from a container.
#[derive(Clone, Copy, Debug, PartialEq, Eq, Error)]
pub enum OrderFault {
    /// The container does not have the size of this order.
    #[error("OtherSize")]
    OtherSize,
    /// The allocator refused memory.
    #[error("NoMemory")]
    NoMemory,
}
