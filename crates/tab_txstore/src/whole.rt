//! Values that are let go as a whole.

ghost use Rattle.std.specs.Prelude.{◌≡◌};

/// A value on its way to its place. An enum that stays alive across a `?` is looked at variant by variant at each exit,
/// and is moved so from call to call. In a struct it is moved as one.
pub struct Whole<T: Drop> {
    pub value: T,
}

impl<T: Drop> Drop for Whole<T> {
    fn drop(self) {
        let Whole { value } = self;
        drop(value);
    }
}

impl<T: Drop> Whole<T> {
    /// The value, to be looked at or put in its place.
    pub fn into_value(self) -> T
        ensures { result ≡ self.value }
    {
        let Whole { value } = self;
        value
    }
}
