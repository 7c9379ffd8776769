//! What the definition of key wrap gives.
ghost use Rattle.key_wrap.specs.Example.{IsExample};

/// The definition gives the RFC's own example.
pub fn example()
    ensures { IsExample }
{}
