ghost use Rattle.std.specs.Prelude.{ℕ, ◌≤◌, List, [], ◌∷◌, ◌++◌, length, OnOk, IfErr};

/// Why a datagram didn't go out whole.
#[derive(Clone, Copy, Debug, PartialEq, Eq)]
pub enum OutletFault {
    NoMemory,
    /// A write to the output failed.
    Output,
    /// A call of the wire failed.
    Wire,
}

/// Where datagrams go one after another. It may keep datagrams that it took, to let them go out together.
pub trait Outlet {
    ghost use Rattle.link_outside.specs.declared.outlet.OutletFault.{OutletFault};

    /// It can take datagrams, and keeps none.
    ghost is_ready: { Self → Type 0 };

    /// It can take a datagram, and may keep others.
    ghost is_open: { Self → Type 0 };

    /// These datagrams were taken since it was ready: they went out, one after another, but for those that
    /// are kept.
    ghost took: { Self → Self → List (List ℕ) → Type 0 };

    /// These datagrams went out, one after another.
    ghost carried: { Self → Self → List (List ℕ) → Type 0 };

    /// It failed so, and a part of these datagrams went out.
    ghost broke: { Self → Self → List (List ℕ) → OutletFault → Type 0 };

    /// Takes a datagram.
    fn put(&mut self, datagram: &[u8]) -> Result<(), OutletFault>
        requires opened { is_open self.old }
        requires size { length datagram.now ≤ 65507 }
        ensures opened { OnOk result (is_open self.new) }
        ensures took { OnOk result ((first : Self) (before : List (List ℕ))
            → took first self.old before → took first self.new (before ++ datagram.now ∷ [])) }
        ensures broke { IfErr result (λ fault. (first : Self) (before : List (List ℕ))
            → took first self.old before
            → broke first self.new (before ++ datagram.now ∷ []) fault) };

    /// Lets all go out that was taken.
    fn flush(&mut self) -> Result<(), OutletFault>
        requires opened { is_open self.old }
        ensures ready { OnOk result (is_ready self.new) }
        ensures carried { OnOk result ((first : Self) (datagrams : List (List ℕ))
            → took first self.old datagrams → carried first self.new datagrams) }
        ensures broke { IfErr result (λ fault. (first : Self) (datagrams : List (List ℕ))
            → took first self.old datagrams → broke first self.new datagrams fault) };

    // Where it is ready, it is open, and nothing was taken.
    ghost opens: { (x : Self) → is_ready x → is_open x × took x x [] };

    // Nothing went out where it is as it was.
    ghost none: { (x : Self) → carried x x [] };

    // Datagrams, and then more of them.
    ghost more: { (x y z : Self) (first second : List (List ℕ))
        → carried x y first → carried y z second → carried x z (first ++ second) };

    // Datagrams, and then a part of more.
    ghost breaks_then: { (x y z : Self) (first second : List (List ℕ)) (fault : OutletFault)
        → carried x y first → broke y z second fault → broke x z (first ++ second) fault };

    // A part of datagrams is one of them and of more.
    ghost breaks_before: { (x y : Self) (first second : List (List ℕ)) (fault : OutletFault)
        → broke x y first fault → broke x y (first ++ second) fault };
}
