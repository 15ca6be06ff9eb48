// What a page says.
ghost use Rattle.std.specs.Prelude.{◌≡◌, ◌≤◌, take};

// A page: its num, how many words it has, and the array that they stand first in.
#[derive(Clone, Copy)]
pub struct Page {
    pub num: u32,
    pub count: usize,
    pub words: [u64; 64],
    pub ghost good_num: { (1 ≤ num) × (num ≤ 65535) },
    pub ghost few: { count ≤ 64 },
}

impl Page {
    // The words alone.
    pub fn words(&self) -> &[u64]
        ensures { result.now ≡ take self.now.count self.now.words }
    {
        &self.words[..self.count]
    }
}
