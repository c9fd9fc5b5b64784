//! Iterators of a map's provinces and of its powers.
ghost use Rattle.std.specs.Prelude.{◌≡◌, ◌≤◌};
ghost use Rattle.std.specs.List.{range_with_len};
ghost use Rattle.std.specs.Iterator.{YieldsFirst, item_count};

use dip_names::{Power, Prov};
use std::marker::Model;

/// The provinces of a map, in the order of their codes.
#[derive(Drop)]
pub struct Provs {
    next: u16,
    left: u16,
}

impl Model for Provs {
    ghost use Rattle.std.specs.Prelude.{ℕ, List, ◌+◌, ◌≤◌};
    ghost use Rattle.std.specs.List.{range_with_len};

    ghost Value = { List ℕ };

    ghost view = { λ s. range_with_len s.next s.left };

    ghost invariant = { λ s. s.next + s.left ≤ 256 };
}

impl Provs {
    /// So many provinces from the first on.
    pub(crate) fn first(count: usize) -> Provs
        requires { count ≤ 256 }
        ensures { result ≡ range_with_len 0 count }
    {
        Provs {
            next: 0,
            left: count as u16,
        }
    }
}

impl Iterator for Provs {
    type Item = Prov;

    ghost next_gives = { YieldsFirst (λ s. s) };

    ghost remaining = { item_count (λ s. s) };

    fn next(&mut self) -> Option<Prov> {
        if self.left == 0 {
            return None;
        }
        let prov = Prov::new(self.next as u8);
        self.next += 1;
        self.left -= 1;
        Some(prov)
    }
}

/// The powers of a map, in the order of their names.
#[derive(Drop)]
pub struct Powers {
    next: u16,
    left: u16,
}

impl Model for Powers {
    ghost use Rattle.std.specs.Prelude.{ℕ, List, ◌+◌, ◌≤◌};
    ghost use Rattle.std.specs.List.{range_with_len};

    ghost Value = { List ℕ };

    ghost view = { λ s. range_with_len s.next s.left };

    ghost invariant = { λ s. s.next + s.left ≤ 256 };
}

impl Powers {
    /// So many powers from the first on.
    pub(crate) fn first(count: usize) -> Powers
        requires { count ≤ 256 }
        ensures { result ≡ range_with_len 0 count }
    {
        Powers {
            next: 0,
            left: count as u16,
        }
    }
}

impl Iterator for Powers {
    type Item = Power;

    ghost next_gives = { YieldsFirst (λ s. s) };

    ghost remaining = { item_count (λ s. s) };

    fn next(&mut self) -> Option<Power> {
        if self.left == 0 {
            return None;
        }
        let power = Power::new(self.next as u8);
        self.next += 1;
        self.left -= 1;
        Some(power)
    }
}
