// Bytes, halves and words written.
ghost use Rattle.std.specs.Prelude.{◌≡◌, ◌+◌, ◌≤◌, ◌<◌, length};
ghost use Rattle.tables.specs.Numbers.{byte_values, half_values};
ghost use Rattle.tables.specs.Stores.{put_byte, put_half, put_word};

// Writes a byte.
pub fn put_byte(w: &mut [u8], i: usize, v: usize)
    requires { (i < length w.old) × (v < byte_values) }
    ensures { w.new ≡ put_byte w.old i v }
{
    w[i] = v as u8;
}

// Writes two bytes.
#[tactic(auto, unfolding(crate::specs::Stores::put_half))]
pub fn put_half(w: &mut [u8], i: usize, v: usize)
    requires { (i + 2 ≤ length w.old) × (v < half_values) }
    ensures { w.new ≡ put_half w.old i v }
{
    let [low, high] = (v as u16).to_le_bytes();
    w[i] = low;
    w[i + 1] = high;
}

// Writes four bytes.
#[tactic(auto, unfolding(crate::specs::Stores::put_word))]
pub fn put_word(w: &mut [u8], i: usize, v: u32)
    requires { i + 4 ≤ length w.old }
    ensures { w.new ≡ put_word w.old i v }
{
    let [a, b, c, d] = v.to_le_bytes();
    w[i] = a;
    w[i + 1] = b;
    w[i + 2] = c;
    w[i + 3] = d;
}
