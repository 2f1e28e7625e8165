// Words in bytes, the lowest byte first, from any place on. What lies past the end reads as 0, and nothing is stored there.
#![tactic(auto)]

ghost use Rattle.std.specs.Prelude.{◌≡◌, ◌+◌, ◌*◌, ◌<◌, length, get_or, set};
ghost use Rattle.std.proofs.lemmas.List.Edits.{sets};
ghost use Rattle.byte_words.specs.Bytes.{bytes_of, word_from};

// The byte at place i, 0 past the end.
fn byte_at(bytes: &[u8], i: usize) -> u8
    ensures { result ≡ get_or bytes.now i 0 }
{
    if i < bytes.len() {
        return bytes[i];
    }
    0
}

// The word of four bytes.
fn word_of(a: u8, b: u8, c: u8, d: u8) -> u32
    ensures { result ≡ a + 256 * b + 65536 * c + 16777216 * d }
{
    u32::from_le_bytes([a, b, c, d])
}

// The word from place i on where all four bytes are there: one load, since no byte is tested.
fn word_inside(bytes: &[u8], i: usize) -> u32
    requires { i + 3 < length bytes.now }
    ensures { result ≡ word_from bytes.now i }
{
    word_of(bytes[i], bytes[i + 1], bytes[i + 2], bytes[i + 3])
}

// The word from place i on where bytes may be missing.
fn word_cut(bytes: &[u8], i: usize) -> u32
    requires { i < length bytes.now }
    ensures { result ≡ word_from bytes.now i }
{
    let a = byte_at(bytes, i);
    let b = byte_at(bytes, i + 1);
    let c = byte_at(bytes, i + 2);
    let d = byte_at(bytes, i + 3);
    word_of(a, b, c, d)
}

// The word of the four bytes from place i on; a byte past the end is 0.
pub fn word_from(bytes: &[u8], i: usize) -> u32
    ensures { result ≡ word_from bytes.now i }
{
    if bytes.len() <= i {
        return 0;
    }
    if bytes.len() - i < 4 {
        return word_cut(bytes, i);
    }
    word_inside(bytes, i)
}

// Stores a byte at place i; past the end nothing.
pub fn put_byte(out: &mut [u8], i: usize, b: u8)
    ensures { out.new ≡ set out.old i b }
{
    if i < out.len() {
        out[i] = b;
    }
}

// Stores a word from place i on where there is room for all four bytes: no byte is tested.
fn put_inside(out: &mut [u8], i: usize, w: u32)
    requires { i + 3 < length out.old }
    ensures { out.new ≡ sets out.old i (bytes_of w) }
{
    let b = w.to_le_bytes();
    out[i] = b[0];
    out[i + 1] = b[1];
    out[i + 2] = b[2];
    out[i + 3] = b[3];
}

// Stores a word from place i on where bytes may lie past the end.
fn put_cut(out: &mut [u8], i: usize, w: u32)
    requires { i < length out.old }
    ensures { out.new ≡ sets out.old i (bytes_of w) }
{
    let b = w.to_le_bytes();
    put_byte(out, i, b[0]);
    put_byte(out, i + 1, b[1]);
    put_byte(out, i + 2, b[2]);
    put_byte(out, i + 3, b[3]);
}

// Stores the four bytes of a word from place i on; past the end nothing.
pub fn put_word_from(out: &mut [u8], i: usize, w: u32)
    ensures { out.new ≡ sets out.old i (bytes_of w) }
{
    if out.len() <= i {
        return;
    }
    if out.len() - i < 4 {
        put_cut(out, i, w);
        return;
    }
    put_inside(out, i, w);
}
