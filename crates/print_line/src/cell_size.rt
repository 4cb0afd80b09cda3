// A cell size that is not refused.
ghost use Rattle.std.specs.Prelude.{◌≡◌, false};
ghost use Rattle.lengths.specs.Answers.{size_outside};

// A cell size of 1 to 1,000 centimetres.
#[derive(Clone, Copy)]
pub struct CellSize {
    pub centimetres: u32,
    pub ghost inside: { size_outside centimetres ≡ false },
}
