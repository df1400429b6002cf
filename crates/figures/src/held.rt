// What a place of the book holds: a key under its ID, or a right under its name. 01, Rights.
ghost use Rattle.std.specs.Prelude.{◌≡◌, Bool};

pub trait Held: Copy {
    type Name: Copy;

    // The content held under a name.
    ghost named: { Self.Name → Self → Bool };

    // The place is not free.
    ghost taken: { Self → Bool };

    // What a free place holds.
    ghost blank: { Self };

    fn is_named(self, name: Self::Name) -> bool
        ensures { result ≡ named name self };

    fn is_held(self) -> bool
        ensures { result ≡ taken self };

    fn free() -> Self
        ensures { result ≡ blank };
}
