// A module's table of registers: a row for each, looked up at each access.
ghost use Rattle.std.specs.Prelude.{◌≡◌, ◌≤◌};
ghost use Rattle.bus.specs.Table.{covers, takes_width, takes_direction, look_up, reach};

use crate::{Access, Refusal};

// The widths that a row takes; a row of no width answers 2 at each of its offsets.
#[derive(Clone, Copy, PartialEq, Eq, Debug)]
pub enum Widths {
    D16,
    D32,
    D16D32,
    NoWidth,
}

// The directions that a row takes; a row of no direction answers 3 to each width that it takes.
#[derive(Clone, Copy, PartialEq, Eq, Debug)]
pub enum Directions {
    Read,
    Write,
    ReadWrite,
    NoDirection,
}

// A row: the first and the last offset, of which every fourth is meant, the widths, the directions, and its register.
#[derive(Clone, Copy, PartialEq, Eq, Debug)]
pub struct Row<R>(pub u32, pub u32, pub Widths, pub Directions, pub R);

// What an access reaches: a register, and a place in it.
#[derive(Clone, Copy, PartialEq, Eq, Debug)]
pub struct Reached<R> {
    pub register: R,
    pub place: u32,
}

impl Widths {
    // Whether a row of these widths takes a width.
    fn take(self, width: u32) -> bool
        ensures { result ≡ takes_width self width }
    {
        match self {
            Widths::D16 => width == 16,
            Widths::D32 => width == 32,
            Widths::D16D32 => width == 16 || width == 32,
            Widths::NoWidth => false,
        }
    }
}

impl Directions {
    // Whether a row of these directions takes a direction.
    fn take(self, write: bool) -> bool
        ensures { result ≡ takes_direction self write }
    {
        match self {
            Directions::Read => !write,
            Directions::Write => write,
            Directions::ReadWrite => true,
            Directions::NoDirection => false,
        }
    }
}

impl<R: Copy> Row<R> {
    // Whether a row has an offset.
    fn has(self, offset: u32) -> bool
        ensures { result ≡ covers self offset }
    {
        self.0 <= offset && offset <= self.1 && (offset - self.0) % 4 == 0
    }

    // What an access gets of the row that has its offset.
    fn reached(self, a: Access) -> Result<Reached<R>, Refusal>
        requires { self.0 ≤ a.offset }
        ensures { result ≡ reach self a }
    {
        if !self.2.take(a.width) {
            return Err(Refusal::WrongWidth);
        }
        if !self.3.take(a.write) {
            return Err(Refusal::WrongDirection);
        }
        Ok(Reached {
            register: self.4,
            place: (a.offset - self.0) / 4,
        })
    }
}

// The look-up of an access in a module's table: the first row that has its offset.
pub fn look_up<R: Copy>(rows: &[Row<R>], a: Access) -> Result<Reached<R>, Refusal>
    ensures { result ≡ look_up rows.now a }
{
    for row in rows {
        if row.has(a.offset) {
            return row.reached(a);
        }
    }
    Err(Refusal::NotInTable)
}
