// What a list of events asks of the elements that it holds.
ghost use Rattle.std.specs.Prelude.{Decides};

// Two elements can be compared.
pub trait Element: Copy {
    ghost Alike: { Self → Self → Type 0 };

    fn alike(self, other: Self) -> bool
        ensures decides_alike { Decides result (Alike self other) };
}
