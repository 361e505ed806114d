// An activation as a memory stores it.
ghost use Rattle.std.specs.Prelude.{◌+◌, ◌≤◌, ◌<◌, length};
ghost use Rattle.spec_image.specs.Sizes.{caller_room, frame_room, size, variable_room};

// The activation of a memory over as many others as its place says, with its variables, and its frames over the first `low`.
#[derive(Clone, Copy)]
pub struct StoredActivation<'a> {
    pub memory: &'a [u32],
    pub place: usize,
    pub variables: u32,
    pub low: usize,
    pub frames: usize,
    pub ghost whole: { size ≤ length memory.now },
    pub ghost in_room: { place < caller_room },
    pub ghost few_variables: { variables ≤ variable_room },
    pub ghost few_frames: { low + frames ≤ frame_room },
}
