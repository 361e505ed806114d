// A frame as a memory stores it.
ghost use Rattle.std.specs.Prelude.{◌≡◌, ◌+◌, ◌≤◌, ◌<◌, length, get_or};
ghost use Rattle.spec_image.specs.Sizes.{frame_size, frame_room, size};
ghost use Rattle.state_words.specs.Meaning.{frame_at};

use state_words::frames::frame_word;

// The frame of a memory with as many frames under it as its place says.
#[derive(Clone, Copy)]
pub struct StoredFrame<'a> {
    pub memory: &'a [u32],
    pub place: usize,
    pub ghost whole: { size ≤ length memory.now },
    pub ghost in_room: { place < frame_room },
}

impl StoredFrame<'_> {
    // Its word j.
    pub fn word(&self, j: usize) -> u32
        requires { j < frame_size }
        ensures { result ≡ get_or self.now.memory.now (frame_at self.now.place + j) 0 }
    {
        frame_word(self.memory, self.place, j)
    }
}
