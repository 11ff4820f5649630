//! What the calls of all seats say of a session.
ghost use Rattle.session.specs.Following.{StoresAreItsCodes};

/// Where a session is at its code's run, and what its seat did is its part of a list of calls, the stores on that list in each object of its own are those of the
/// instructions that the session completed, in their order.
pub fn stores_are_its_codes()
    ensures { StoresAreItsCodes }
{}
