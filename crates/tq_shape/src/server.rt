//! Servers by their numbers, and their places in the tree.

ghost use Rattle.std.specs.Prelude.{◌≡◌, ◌+◌, ◌-◌, ◌*◌, ◌/◌, ◌^◌, ◌<◌, ◌≤◌, ◌↔◌, suc, IfSome, IfNone, IsTrue};
ghost use Rattle.std.specs.Option.{SomeIff};
ghost use Rattle.tq_shape.specs.Tree.{AnswersServer, HasNoSideTowards, IsServer, IsSideTowards, server_numbered, left_of, right_of, depth_of, height_at};
ghost use Rattle.tq_shape.specs.Sides.{sides_of};

use crate::level::Levels;
use std::marker::Model;

/// A server of a tree.
#[derive(Clone, Copy, Debug, PartialEq, Eq)]
pub struct ServerId {
    levels: Levels,
    number: u16,
}

/// The two sides of a server that is no leaf.
#[derive(Clone, Copy, Debug, PartialEq, Eq)]
pub struct Sides {
    pub left: ServerId,
    pub right: ServerId,
}

impl Model for ServerId {
    ghost use Rattle.tq_shape.specs.Tree.{Server, IsServer};

    ghost Value = { Server };

    ghost view = { λ id. record { number = id.number; levels = id.levels } };

    ghost invariant = { λ id. IsServer id.levels id.number };

    ghost inverse = { λ server. record { levels = server.levels; number = server.number } };
}

impl Levels {
    /// The server of that number, if the tree has it.
    pub fn server(self, number: u64) -> Option<ServerId>
        ensures { AnswersServer result self number }
    {
        if 1 <= number && number <= self.servers() {
            Some(ServerId {
                levels: self,
                number: number as u16,
            })
        } else {
            None
        }
    }

    /// Server 1, over which no other stands.
    pub fn root(self) -> ServerId
        ensures value { result ≡ server_numbered self 1 }
        ensures levels { 1 ≤ self }
    {
        let _ = &self.count;
        ServerId::new(self, 1)
    }
}

impl ServerId {
    /// The server of a number that the tree has.
    pub fn new(levels: Levels, number: u64) -> ServerId
        requires { IsServer levels number }
        ensures { result ≡ server_numbered levels number }
    {
        let _ = &levels.count;
        ServerId {
            levels,
            number: number as u16,
        }
    }

    /// The number of the server: server 1 is the root, and those of a level are numbered from left to right.
    pub fn number(self) -> u64
        ensures value { result ≡ self.number }
        ensures within { IsServer self.levels result }
    {
        u64::from(self.number)
    }

    /// The levels of the server's tree.
    pub fn levels(self) -> Levels
        ensures { result ≡ self.levels }
    {
        self.levels
    }

    /// The left side; a leaf has none.
    pub fn left(self) -> Option<ServerId>
        ensures { AnswersServer result self.levels (left_of self.number) }
    {
        self.levels.server(2 * self.number())
    }

    /// The right side; a leaf has none.
    pub fn right(self) -> Option<ServerId>
        ensures { AnswersServer result self.levels (right_of self.number) }
    {
        self.levels.server(2 * self.number() + 1)
    }

    /// Both sides; a leaf has none.
    pub fn sides(self) -> Option<Sides>
        ensures leaf { IfNone result (height_at self ≡ 0) }
        ensures left_height { IfSome result (λ sides. height_at self ≡ suc (height_at sides.left)) }
        ensures right_height { IfSome result
            (λ sides. height_at self ≡ suc (height_at sides.right)) }
        ensures value { SomeIff result
            (IsServer self.levels (left_of self.number)) (sides_of self) }
    {
        let number = self.number();
        if self.is_leaf() {
            return None;
        }
        let levels = self.levels();
        let left = ServerId::new(levels, 2 * number);
        let right = ServerId::new(levels, 2 * number + 1);
        Some(Sides { left, right })
    }

    /// Whether the server has no sides.
    pub fn is_leaf(self) -> bool
        ensures { IsTrue result ↔ (2 ^ self.levels ≤ left_of self.number) }
    {
        self.levels.servers() < 2 * self.number()
    }

    /// The server of which this one is a side; server 1 has none.
    pub fn parent(self) -> Option<ServerId>
        ensures { SomeIff result (1 < self.number) (server_numbered self.levels (self.number / 2)) }
    {
        self.levels.server(self.number() / 2)
    }

    /// The side of this server that is the given server or stands above it: `None` where neither does. Both are of one tree.
    pub fn side_towards(self, below: ServerId) -> Option<ServerId>
        requires { below.levels ≡ self.levels }
        ensures side { IfSome result (λ side. IsSideTowards self side below.number) }
        ensures none { IfNone result (HasNoSideTowards self below.number) }
    {
        match below.parent() {
            None => None,
            Some(above) if above.number() == self.number() => Some(below),
            Some(above) => self.side_towards(above),
        }
    }

    /// How many steps to the parent lead to server 1.
    pub fn depth(self) -> u32
        ensures { result ≡ depth_of self.number }
    {
        self.number.ilog2()
    }
}

/// The one server of a tree of one level, as fills the unused places of a list.
impl Default for ServerId {
    ghost is_default = { λ server. (server.number ≡ 1) × (server.levels ≡ 1) };

    fn default() -> ServerId {
        ServerId {
            levels: Levels::default(),
            number: 1,
        }
    }
}
