//! The exchange of two names.
ghost use Rattle.std.specs.Prelude.{◌≡◌};
ghost use Rattle.model.specs.Exchange.{exchange};

/// What the name is called once the two have changed places.
pub fn exchanged(one: u8, other: u8, name: u8) -> u8
    ensures { result ≡ exchange one other name }
{
    if name == one {
        other
    } else if name == other {
        one
    } else {
        name
    }
}
