// The nodes that are being written, on a stack.
ghost use Rattle.std.specs.Prelude.{◌≡◌, ◌+◌, ◌++◌, ◌∷◌, [], ◌<◌, ◌≤◌, length, take, option_to_list};

// How many nodes the stack has room for.
pub const FRAMES: usize = 4097;

// A node that is being written: whether as an expression, how far in its template, how many children of it, and how deep.
#[derive(Clone, Copy)]
pub struct Pending {
    pub node: usize,
    pub expression: bool,
    pub place: usize,
    pub child: usize,
    pub depth: usize,
}

// The nodes that are being written, the innermost last.
#[derive(Drop)]
pub struct Stack {
    pub frames: [Pending; FRAMES],
    pub used: usize,
    pub ghost inside: { used ≤ length frames },
}

impl Stack {
    // A stack of no nodes.
    pub fn new() -> Stack
        ensures { result.used ≡ 0 }
    {
        let none = Pending {
            node: 0,
            expression: false,
            place: 0,
            child: 0,
            depth: 0,
        };
        Stack {
            frames: [none; FRAMES],
            used: 0,
        }
    }

    // Puts a frame on the stack, where there is room.
    pub fn push(&mut self, frame: Pending)
        ensures { self.old.used < length self.old.frames → take self.new.used self.new.frames ≡ take self.old.used self.old.frames ++ frame ∷ [] }
    {
        if self.used < FRAMES {
            self.frames[self.used] = frame;
            self.used += 1;
        }
    }

    // Takes the last frame off the stack, if there is one.
    pub fn pop(&mut self) -> Option<Pending>
        ensures { take self.old.used self.old.frames ≡ take self.new.used self.new.frames ++ option_to_list result }
    {
        if self.used == 0 {
            return None;
        }
        self.used -= 1;
        Some(self.frames[self.used])
    }

    // Puts a frame back with the next place of its template, and so many children written.
    pub fn advance(&mut self, frame: Pending, child: usize)
        ensures { self.old.used < length self.old.frames → self.new.used ≡ self.old.used + 1 }
    {
        let next = Pending {
            place: frame.place.wrapping_add(1),
            child,
            ..frame
        };
        self.push(next);
    }
}
