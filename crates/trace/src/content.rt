// What the text of a trace says.
ghost use Rattle.std.specs.Prelude.{◌≡◌, ◌*◌, ◌≤◌, take};

// A trace: its num, how many blocks it has, and their samples in a row, 24 a block, with zeros behind them.
#[derive(Clone, Copy)]
pub struct Trace {
    pub num: u32,
    pub count: usize,
    pub samples: [i32; 1536],
    pub ghost few: { count ≤ 64 },
}

impl Trace {
    // The samples alone.
    pub fn samples(&self) -> &[i32]
        ensures { result.now ≡ take (24 * self.now.count) self.now.samples }
    {
        &self.samples[..24 * self.count]
    }
}
