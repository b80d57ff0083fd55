// Lists of fixed room.
ghost use Rattle.std.specs.Prelude.{◌≡◌, ◌≤◌, ◌<◌, ◌++◌, [], ◌∷◌, length, drop, take};

use std::marker::Model;

/// How many elements a list of fixed room has at most.
pub const ROOM: usize = 4;

/// At most four elements, seen as their list.
#[derive(Drop)]
pub struct Few<T> {
    all: [T; 4],
    count: usize,
}

impl<T> Model for Few<T> {
    ghost use Rattle.std.specs.Prelude.{◌≤◌, List, take};

    ghost Value = { List T };

    ghost view = { λ s. take s.count s.all };

    ghost invariant = { λ s. s.count ≤ 4 };
}

impl<T: Copy> Few<T> {
    /// The first `count` of four elements.
    pub fn of(all: [T; 4], count: usize) -> Few<T>
        requires { count ≤ 4 }
        ensures { result ≡ take count all }
    {
        Few { all, count }
    }

    /// Appends one more element.
    pub fn push(&mut self, element: T)
        requires { length self.old < 4 }
        ensures { self.new ≡ self.old ++ element ∷ [] }
    {
        self.all[self.count] = element;
        self.count += 1;
    }

    /// The elements.
    pub fn as_slice(&self) -> &[T]
        ensures items { result.now ≡ self.now }
        ensures few { length self.now ≤ 4 }
    {
        &self.all[..self.count]
    }

    /// The first elements, `count` of them where there are as many.
    pub fn first(self, count: usize) -> Few<T>
        ensures { result ≡ take count self }
    {
        Few {
            all: self.all,
            count: self.count.min(count),
        }
    }

    /// The elements behind the first `count`.
    pub fn behind(&self, count: usize) -> &[T]
        ensures { result.now ≡ drop count self.now }
    {
        let all = self.as_slice();
        if count < all.len() {
            &all[count..]
        } else {
            &[]
        }
    }
}
