// Which codes stand in a text that is read byte by byte, all of them at once: for each code a word, whose bit j says whether the code's first j + 1 bytes
// stand at the end of what was read. So a byte costs the same whatever the codes and the text are.
ghost use Rattle.std.specs.Prelude.{◌≡◌, ◌≢◌, ◌<◌, ◌≤◌, ◌+◌, ◌-◌, ◌*◌, ◌%◌, ℕ, List, [], ◌∷◌, reverse, length, max, true, eqb, slice_index};
ghost use Rattle.std.specs.Int.{bit_at};
ghost use Rattle.records.specs.Format.{bit};
ghost use Rattle.codes.specs.Calls.{are_codes, divided};
ghost use Rattle.codes.specs.Readers.{has, word, HasMasks, IsScan, Further};

// For each byte a row of 16 words, one for each code: bit j is set where the code has this byte at j.
pub(crate) type Masks = [u32; 4096];

fn no_masks() -> Masks
    ensures { (k : ℕ) → k < 4096 → slice_index result k ≡ 0 }
{
    [0; 4096]
}

// Sets the bits of code i.
fn add_code(masks: &mut Masks, i: usize, code: &[u8])
    requires { (i < 16) × (length code.now ≤ 32) }
    ensures others { (k : ℕ) → k % 16 ≢ i → slice_index masks.new k ≡ slice_index masks.old k }
    ensures added { (b j : ℕ) → b < 256 → j < 32 → bit_at (word masks.new b i) j ≡ max (bit_at (word masks.old b i) j) (bit (has code.now j b) 1) }
{
    for (j, byte) in code.iter().enumerate() {
        masks[usize::from(*byte) * 16 + i] |= 1 << j;
    }
}

pub(crate) fn masks_of(codes: &[u8], lengths: &[usize]) -> Masks
    requires { are_codes codes.now lengths.now ≡ true }
    ensures { HasMasks (divided codes.now lengths.now) result }
{
    let mut masks = no_masks();
    let mut from = 0;
    for (i, size) in lengths.iter().enumerate() {
        let to = from + size;
        add_code(&mut masks, i, &codes[from..to]);
        from = to;
    }
    masks
}

// For each code the front parts that stand at the end of what was read, and those that stood at the end at some time.
#[derive(Clone, Copy)]
pub(crate) struct Scan {
    pub live: [u32; 16],
    pub hit: [u32; 16],
}

impl Scan {
    pub(crate) fn new() -> Scan
        ensures { (codes : List (List ℕ)) → IsScan codes [] result }
    {
        Scan {
            live: [0; 16],
            hit: [0; 16],
        }
    }

    #[inline(always)]
    fn step(&mut self, masks: &Masks, byte: u8)
        ensures { Further (byte ∷ []) masks.now self.old self.new }
    {
        let row = usize::from(byte) * 16;
        for i in 0..16 {
            let live = ((self.live[i] << 1) | 1) & masks[row + i];
            self.live[i] = live;
            self.hit[i] |= live;
        }
    }

    pub(crate) fn read(&mut self, masks: &Masks, text: &[u8])
        ensures { Further (reverse text.now) masks.now self.old self.new }
    {
        for byte in text {
            self.step(masks, *byte);
        }
    }

    // Whether code i, which has so many bytes, stands in the text.
    pub(crate) fn has(&self, i: usize, size: usize) -> bool
        requires { (i < 16) × (1 ≤ size) × (size ≤ 32) }
        ensures { result ≡ eqb (bit_at (slice_index self.now.hit i) (size - 1)) 1 }
    {
        (self.hit[i] >> (size - 1)) % 2 == 1
    }
}
