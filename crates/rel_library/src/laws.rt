//! The laws that the library may stand before every text, and that loads are accepted behind it.
//! Each function has its law for its contract, and does nothing.

ghost use Rattle.rel_library.specs.Accepted.{LibraryServes, LoadsAreAccepted};

/// The library has no fault and no run, whatever names come behind its own.
pub fn library_serves()
    ensures { LibraryServes }
{}

/// Each generated load has no fault behind the library.
pub fn loads_are_accepted()
    ensures { LoadsAreAccepted }
{}
