//! Gates: calls around each command, in which a test can delay a session.

/// The calls that a session makes around each of its commands. The arguments are its own number, from 1, and the number of the command. A call
/// returns nothing, and the session continues when it returns. Contracts require only that the calls end. Tests show that a session makes them.
pub trait Gate {
    /// Runs before each command, without the lock.
    fn before(&self, session: u16, nth: u32);

    /// Runs under the lock, just before a request is submitted to the desk.
    fn held(&self, session: u16, nth: u32);

    /// Runs after each command, without the lock.
    fn after(&self, session: u16, nth: u32);
}
